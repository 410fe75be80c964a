use crate::folding::fold_query;
use jp_base::{Memory, Txt, Ty, Value};
use jp_query::{CmpOp, Expr, JoinKind, JoinTree, Query};
use sqlite_items::{Boxed, Items};
use std::alloc::Global;
use std::test::Fail;

fn number(n: i128) -> Expr {
    Expr::Lit(Value::Num(n), Ty::Number)
}

fn boxed<T: Drop>(alloc: Global, value: T) -> Result<Boxed<T>, Memory> {
    match Boxed::new(alloc, value) {
        Ok(b) => Ok(b),
        Err(_) => Err(Memory),
    }
}

fn leaf(alloc: Global, rel: u8) -> Result<JoinTree, Memory> {
    let name = Txt::new(alloc, "t")?;
    Ok(JoinTree::Base {
        rel,
        name,
        table: 0,
    })
}

fn select(alloc: Global, tree: JoinTree, conds: Items<Expr>) -> Query {
    Query {
        columns: Items::new(alloc),
        distinct: false,
        tree,
        conds,
        order: Items::new(alloc),
    }
}

/// `1 + 2 * 3 = 8`
fn false_condition(alloc: Global) -> Result<Expr, Fail> {
    let mut factors = Items::new(alloc);
    factors.push(number(2))?;
    factors.push(number(3))?;
    let mut terms = Items::new(alloc);
    terms.push((false, number(1)))?;
    terms.push((false, Expr::Product(factors)))?;
    let sum = Boxed::new(alloc, Expr::Sum(terms))?;
    let eight = Boxed::new(alloc, number(8))?;
    Ok(Expr::Compare(CmpOp::Eq, sum, eight))
}

#[test]
fn a_list_that_becomes_false(rt: HostRuntime) -> Result<(), Fail> {
    let alloc = rt.alloc();
    let mut conds = Items::new(alloc);
    conds.push(Expr::Lit(Value::Null, Ty::Boolean))?;
    conds.push(false_condition(alloc)?)?;
    let query = select(alloc, leaf(alloc, 0)?, conds);
    let folded = fold_query(alloc, &query)?;
    assert_eq!(rt; folded.get().conds.len(), 1);
    assert!(rt;
        matches!(
            folded.get().conds.get(0),
            Some(Expr::Lit(Value::Bool(false), Ty::Boolean))
        )
    );
    Ok(())
}

#[test]
fn a_right_join_in_a_sublink(rt: HostRuntime) -> Result<(), Fail> {
    let alloc = rt.alloc();
    let left = boxed(alloc, leaf(alloc, 1)?)?;
    let right = boxed(alloc, leaf(alloc, 2)?)?;
    let join = JoinTree::Join {
        kind: JoinKind::Right,
        left,
        right,
        on: Items::new(alloc),
    };
    let inner = boxed(alloc, select(alloc, join, Items::new(alloc)))?;
    let mut conds = Items::new(alloc);
    conds.push(Expr::Exists(0, inner))?;
    let query = select(alloc, leaf(alloc, 0)?, conds);
    let folded = fold_query(alloc, &query)?;
    match folded.get().conds.get(0) {
        Some(Expr::Exists(0, query)) => match &query.get().tree {
            JoinTree::Join { kind, left, .. } => {
                assert!(rt; *kind == JoinKind::Left);
                assert!(rt; matches!(left.get(), JoinTree::Base { rel: 2, .. }));
            }
            _ => assert!(rt; false),
        },
        _ => assert!(rt; false),
    }
    Ok(())
}
