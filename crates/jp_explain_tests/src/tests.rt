use crate::one_scan;
use jp_explain::explain_text;
use std::test::Fail;

#[test]
fn a_scan_is_one_line(rt: HostRuntime) -> Result<(), Fail> {
    let prepared = one_scan(rt.alloc())?;
    let text = explain_text(rt.alloc(), &prepared, false)?;
    assert_eq!(rt; text.as_str(), "Scan  rows=10 cost=10\n");
    Ok(())
}
