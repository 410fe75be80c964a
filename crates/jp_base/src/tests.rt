use crate::{Cell, Txt, Value, total_order};
use std::cmp::Ordering;
use std::test::Fail;

#[test]
fn copies_with_ample_memory(rt: HostRuntime) -> Result<(), Fail> {
    let name = Txt::new(rt.alloc(), "name")?;
    assert_eq!(rt; name.copy(rt.alloc())?.as_str(), "name");
    let value = Cell::Text("a").to_value(rt.alloc())?;
    assert!(rt; matches!(value.copy(rt.alloc())?, Value::Text(_)));
    Ok(())
}

#[test]
fn values_of_two_types_in_order(rt: HostRuntime) {
    assert_eq!(rt; total_order(Cell::Null, Cell::Num(-1)), Ordering::Less);
    assert_eq!(rt;
        total_order(Cell::Text("a"), Cell::Bool(true)),
        Ordering::Greater
    );
}
