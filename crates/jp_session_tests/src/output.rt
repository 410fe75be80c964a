use jp_base::{Row, Txt, Ty, Value};
use jp_query::{Expr, Output};
use jp_session::output_text;
use sqlite_items::Items;
use std::alloc::Global;
use std::test::Fail;

fn column(alloc: Global, name: &str) -> Result<Output, Fail> {
    Ok(Output {
        name: Txt::new(alloc, name)?,
        ty: Ty::Text,
        expr: Expr::Lit(Value::Null, Ty::Text),
    })
}

fn text(alloc: Global, text: &str) -> Result<Value, Fail> {
    Ok(Value::Text(Txt::new(alloc, text)?))
}

#[test]
fn values_of_each_type(rt: HostRuntime) -> Result<(), Fail> {
    let alloc = rt.alloc();
    let mut columns = Vec::new(alloc);
    columns.push(column(alloc, "a,b")?)?;
    let mut row = Items::new(alloc);
    row.push(Value::Null)?;
    row.push(Value::Num(-170141183460469231731687303715884105728))?;
    row.push(Value::Bool(true))?;
    row.push(text(alloc, "\\N")?)?;
    row.push(text(alloc, "")?)?;
    row.push(text(alloc, "a \"b\"")?)?;
    let mut rows: Vec<Row> = Vec::new(alloc);
    rows.push(row)?;
    let made = output_text(alloc, columns.as_slice(), rows.as_slice())?;
    let wanted = "\"a,b\"\n\\N,-170141183460469231731687303715884105728,t,\\N,,\"a \"\"b\"\"\"\n";
    assert_eq!(rt; made.as_slice(), wanted.as_bytes());
    Ok(())
}
