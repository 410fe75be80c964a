use crate::{Expr, JoinTree, Order, Output, Query, refs};
use jp_base::{RelSet, Txt, Ty, Value};
use sqlite_items::Items;
use std::test::Fail;

#[test]
fn expressions_are_copied_with_ample_memory(rt: HostRuntime) -> Result<(), Fail> {
    let mut members = Items::new(rt.alloc());
    members.push(Expr::Lit(Value::Bool(true), Ty::Boolean))?;
    let copy = Expr::And(members).copy(rt.alloc())?;
    assert!(rt; matches!(copy, Expr::And(_)));
    Ok(())
}

#[test]
fn outputs_are_copied_with_ample_memory(rt: HostRuntime) -> Result<(), Fail> {
    let output = Output {
        name: Txt::new(rt.alloc(), "id")?,
        ty: Ty::Text,
        expr: Expr::Lit(Value::Null, Ty::Text),
    };
    let copy = output.copy(rt.alloc())?;
    let order = Order {
        expr: copy.expr,
        desc: true,
        nulls_first: false,
    };
    assert!(rt; order.copy(rt.alloc())?.desc);
    Ok(())
}

#[test]
fn queries_are_copied_with_ample_memory(rt: HostRuntime) -> Result<(), Fail> {
    let tree = JoinTree::From {
        members: Items::new(rt.alloc()),
        conds: Items::new(rt.alloc()),
    };
    let query = Query {
        columns: Items::new(rt.alloc()),
        distinct: true,
        tree: tree.copy(rt.alloc())?,
        conds: Items::new(rt.alloc()),
        order: Items::new(rt.alloc()),
    };
    assert!(rt; query.copy(rt.alloc())?.distinct);
    Ok(())
}

#[test]
fn refs_of_a_column(rt: HostRuntime) {
    let column = Expr::Col {
        rel: 3,
        col: 0,
        ty: Ty::Number,
        nulled: RelSet::empty(),
    };
    assert_eq!(rt; refs(&column), RelSet::one(3));
}
