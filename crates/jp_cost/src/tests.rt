use crate::{estimate, step_cost};
use jp_base::RelSet;
use jp_problem::{Item, ItemKind, Method, Problem};
use sqlite_items::Items;
use std::test::Fail;

#[test]
fn steps_cost_what_the_worked_plans_say(rt: HostRuntime) -> Result<(), Fail> {
    assert_eq!(rt; step_cost(Method::Hash, 1000, 10), 1040);
    assert_eq!(rt; step_cost(Method::HashRight, 100, 1000), 1400);
    assert_eq!(rt; step_cost(Method::Nest, 3, 4), 12);
    assert_eq!(rt; step_cost(Method::Merge, 3, 4), 25);
    Ok(())
}

#[test]
fn items_without_conditions_multiply(rt: HostRuntime) -> Result<(), Fail> {
    let alloc = rt.alloc();
    let mut items = Items::new(alloc);
    items.push(Item {
        kind: ItemKind::Sub { rel: 0, block: 1 },
        rels: RelSet::one(0),
        rows: 100,
        cost: 0,
        distinct: Items::new(alloc),
    })?;
    let problem = Problem {
        items,
        joins: Items::new(alloc),
        clauses: Items::new(alloc),
        classes: Items::new(alloc),
    };
    assert_eq!(rt; estimate(&problem, RelSet::one(0)), 100);
    assert_eq!(rt; estimate(&problem, RelSet::empty()), 1);
    Ok(())
}
