use crate::{value_is_null, wrap};
use jp_base::{RelSet, Ty, Value};
use jp_query::Expr;
use std::test::Fail;

#[test]
fn one_present_relation_is_enough(rt: HostRuntime) {
    let rels = RelSet::one(1).union(RelSet::one(2));
    assert!(rt; !value_is_null(rels, RelSet::one(2).union(RelSet::one(3))));
    assert!(rt; value_is_null(rels, RelSet::one(3)));
}

#[test]
fn wrapped_with_ample_memory(rt: HostRuntime) -> Result<(), Fail> {
    let one = Expr::Lit(Value::Num(1), Ty::Number);
    let Expr::Place(_, rels) = wrap(rt.alloc(), one, RelSet::one(2))? else {
        return Err(Fail::from("no placeholder"));
    };
    assert_eq!(rt; rels, RelSet::one(2));
    Ok(())
}
