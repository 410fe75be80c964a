use crate::{PlanNode, Pool};
use jp_problem::{Method, Step};
use std::test::Fail;

#[test]
fn a_pool_gives_back_its_nodes(rt: HostRuntime) -> Result<(), Fail> {
    let mut pool = Pool::new(rt.alloc());
    let Ok(()) = pool.reserve(3) else {
        return Err(Fail::from("memory"));
    };
    let Ok(left) = pool.push(PlanNode::Scan(4)) else {
        return Err(Fail::from("memory"));
    };
    assert_eq!(rt; left, 0);
    assert_eq!(rt; pool.node(left), PlanNode::Scan(4));
    Ok(())
}
