use crate::{forced_null, is_null, nonnull_items, rejects_column, rejects_null};
use jp_base::{Memory, RelSet, Ty};
use jp_query::{Expr, IsTest};
use sqlite_items::Boxed;
use std::alloc::Global;
use std::test::Fail;

fn column(rel: u8) -> Expr {
    Expr::Col {
        rel,
        col: 0,
        ty: Ty::Boolean,
        nulled: RelSet::empty(),
    }
}

/// A column of relation 1 under a test of IS.
fn tested(alloc: Global, test: IsTest) -> Result<Expr, Memory> {
    let operand = Boxed::new(alloc, column(1))?;
    Ok(Expr::Test(test, operand))
}

fn forced_by(alloc: Global, test: IsTest) -> Result<Vec<(u8, u32)>, Memory> {
    let condition = tested(alloc, test)?;
    forced_null(alloc, &condition)
}

#[test]
fn a_column_rejects_its_own_nulls(rt: HostRuntime) {
    let flag = column(1);
    assert!(rt; is_null(&flag, RelSet::one(1)));
    assert!(rt; !is_null(&flag, RelSet::one(2)));
    assert!(rt; rejects_null(&flag, RelSet::one(1)));
    assert!(rt; rejects_column(&flag, 1, 0));
    assert!(rt; !rejects_column(&flag, 1, 1));
    assert_eq!(rt; nonnull_items(&flag), RelSet::one(1));
}

#[test]
fn columns_are_forced_with_ample_memory(rt: HostRuntime) -> Result<(), Fail> {
    let columns = forced_by(rt.alloc(), IsTest::Null)?;
    assert_eq!(rt; columns.len(), 1);
    assert_eq!(rt; columns[0], (1, 0));
    assert!(rt; forced_by(rt.alloc(), IsTest::NotNull)?.is_empty());
    Ok(())
}
