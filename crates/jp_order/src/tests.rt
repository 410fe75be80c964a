use crate::{distinct_lines, distinct_rows, sort_rows};
use jp_base::{Row, Ty, Value};
use jp_query::{Expr, Order};
use sqlite_items::Items;
use std::alloc::Global;
use std::test::Fail;

/// A row for each number, of one value; 0 stands for NULL.
fn rows_of(alloc: Global, numbers: &[u8]) -> Result<Vec<Row>, Fail> {
    let mut rows = Vec::new(alloc);
    for number in numbers {
        let mut row = Items::new(alloc);
        if *number == 0 {
            row.push(Value::Null)?;
        } else {
            row.push(Value::Num(i128::from(*number)))?;
        }
        rows.push(row)?;
    }
    Ok(rows)
}

/// The numbers of rows as `rows_of` makes them.
fn numbers_of(alloc: Global, rows: &[Row]) -> Result<Vec<i128>, Fail> {
    let mut numbers = Vec::new(alloc);
    for row in rows {
        match row.get(0) {
            Some(Value::Num(number)) => numbers.push(*number)?,
            _ => numbers.push(0)?,
        }
    }
    Ok(numbers)
}

/// ORDER BY with one item.
fn by(alloc: Global, desc: bool, nulls_first: bool) -> Result<Vec<Order>, Fail> {
    let mut order = Vec::new(alloc);
    order.push(Order {
        expr: Expr::Lit(Value::Null, Ty::Number),
        desc,
        nulls_first,
    })?;
    Ok(order)
}

#[test]
fn rows_with_one_key_keep_their_order(rt: HostRuntime) -> Result<(), Fail> {
    let alloc = rt.alloc();
    let rows = rows_of(alloc, &[1, 2, 3, 4, 5])?;
    let keys = rows_of(alloc, &[7, 0, 6, 7, 6])?;
    assert_eq!(rt; rows.len(), 5);
    assert_eq!(rt; keys.len(), 5);
    let order = by(alloc, false, false)?;
    let Ok(sorted) = sort_rows(alloc, rows, keys, order.as_slice()) else {
        return Err(Fail::from("memory"));
    };
    let numbers = numbers_of(alloc, sorted.as_slice())?;
    assert_eq!(rt; numbers.as_slice(), [3, 5, 1, 4, 2].as_slice());
    Ok(())
}

#[test]
fn descending_keys_with_nulls_first(rt: HostRuntime) -> Result<(), Fail> {
    let alloc = rt.alloc();
    let rows = rows_of(alloc, &[1, 2, 3, 4])?;
    let keys = rows_of(alloc, &[5, 0, 6, 5])?;
    assert_eq!(rt; rows.len(), 4);
    assert_eq!(rt; keys.len(), 4);
    let order = by(alloc, true, true)?;
    let Ok(sorted) = sort_rows(alloc, rows, keys, order.as_slice()) else {
        return Err(Fail::from("memory"));
    };
    let numbers = numbers_of(alloc, sorted.as_slice())?;
    assert_eq!(rt; numbers.as_slice(), [2, 3, 1, 4].as_slice());
    Ok(())
}

#[test]
fn the_first_of_each_row_stays(rt: HostRuntime) -> Result<(), Fail> {
    let alloc = rt.alloc();
    let rows = rows_of(alloc, &[3, 0, 1, 3, 0, 2, 1])?;
    let Ok(kept) = distinct_rows(alloc, rows) else {
        return Err(Fail::from("memory"));
    };
    let numbers = numbers_of(alloc, kept.as_slice())?;
    assert_eq!(rt; numbers.as_slice(), [3, 0, 1, 2].as_slice());
    Ok(())
}

#[test]
fn the_first_line_keeps_its_keys(rt: HostRuntime) -> Result<(), Fail> {
    let alloc = rt.alloc();
    let rows = rows_of(alloc, &[3, 1, 3, 1])?;
    let keys = rows_of(alloc, &[5, 6, 7, 8])?;
    assert_eq!(rt; rows.len(), 4);
    assert_eq!(rt; keys.len(), 4);
    let Ok((rows, keys)) = distinct_lines(alloc, rows, keys) else {
        return Err(Fail::from("memory"));
    };
    let numbers = numbers_of(alloc, rows.as_slice())?;
    assert_eq!(rt; numbers.as_slice(), [3, 1].as_slice());
    let numbers = numbers_of(alloc, keys.as_slice())?;
    assert_eq!(rt; numbers.as_slice(), [5, 6].as_slice());
    Ok(())
}
