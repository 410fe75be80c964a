ghost use Rattle.std.specs.Prelude.{◌≡◌, IfOk, map, vec_len, slice_index_or, if◌then◌else◌};
ghost use Rattle.std.specs.declared.cmp.Ordering.TheVariants.{Less, Greater};
ghost use Rattle.std.specs.List.{zip};
ghost use Rattle.jp_base.specs.declared.values.Value.TheVariants as value;
ghost use Rattle.jp_base.specs.Cells.{value_of_cell};
ghost use Rattle.jp_query.specs.InOrder.{direction_of};
ghost use Rattle.jp_query.specs.Ordering.{outputs_of, sorted, key_order, keys_order, turned};
ghost use Rattle.jp_order.specs.Lines.{line_of, lines_with};

use jp_base::{Cell, Memory, Row, Value, total_order};
use jp_query::Order;
use std::alloc::Global;
use std::cmp::Ordering;

/// The rows in the order of their keys, by SQL's ORDER BY: one list of keys for each row, in them a value for each item of
/// `order`. The sort is stable and takes n log n comparisons. A value that a list of keys lacks counts as NULL. What was
/// passed is dropped where memory is refused.
pub fn sort_rows(
    alloc: Global,
    rows: Vec<Row>,
    keys: Vec<Row>,
    order: &[Order],
) -> Result<Vec<Row>, Memory>
    requires { vec_len rows ≡ vec_len keys }
    ensures { IfOk result (λ v. v.items ≡ map outputs_of (sorted (map direction_of order.now) (lines_with rows.items keys.items))) }
{
    let lines = paired(alloc, rows, keys)?;
    let lines = in_order(lines, order)?;
    let rows = outputs(alloc, lines)?;
    Ok(rows)
}

/// Each row with its keys.
fn paired(alloc: Global, rows: Vec<Row>, keys: Vec<Row>) -> Result<Vec<(Row, Row)>, Memory>
    ensures { IfOk result (λ v. v.items ≡ zip rows.items keys.items) }
{
    match rows.into_iter().zip(keys).collect(alloc) {
        Ok(lines) => Ok(lines),
        Err(_) => Err(Memory),
    }
}

/// The lines, sorted.
fn in_order(lines: Vec<(Row, Row)>, order: &[Order]) -> Result<Vec<(Row, Row)>, Memory>
    ensures { IfOk result (λ v. map line_of v.items ≡ sorted (map direction_of order.now) (map line_of lines.items)) }
{
    let mut lines = lines;
    match lines.sort_by(|a, b| order_of_keys(a.1.as_slice(), b.1.as_slice(), order)) {
        Ok(()) => Ok(lines),
        Err(_) => Err(Memory),
    }
}

/// The rows of the lines.
fn outputs(alloc: Global, lines: Vec<(Row, Row)>) -> Result<Vec<Row>, Memory>
    ensures { IfOk result (λ v. v.items ≡ map (λ line. line.0) lines.items) }
{
    match lines.into_iter().map(|line| line.0).collect(alloc) {
        Ok(rows) => Ok(rows),
        Err(_) => Err(Memory),
    }
}

/// How the order puts two lists of keys.
fn order_of_keys(left: &[Value], right: &[Value], order: &[Order]) -> Ordering
    ensures { result ≡ keys_order (map direction_of order.now) left.now right.now }
{
    'items: for (at, item) in order.iter().enumerate() {
        match order_of_values(key_at(left, at), key_at(right, at), item) {
            Ordering::Equal => {}
            Ordering::Less => return Ordering::Less,
            Ordering::Greater => return Ordering::Greater,
        }
    }
    Ordering::Equal
}

/// The key with the number, from 0; NULL where it is missing.
fn key_at(keys: &[Value], at: usize) -> Cell<'_>
    ensures { value_of_cell result ≡ slice_index_or keys.now at value.Null }
{
    match keys.get(at) {
        Some(key) => key.cell(),
        None => Cell::Null,
    }
}

/// How an item of ORDER BY puts two values.
fn order_of_values(left: Cell<'_>, right: Cell<'_>, item: &Order) -> Ordering
    ensures { result ≡ key_order (direction_of item.now) (value_of_cell left.entry) (value_of_cell right.entry) }
{
    match (left, right) {
        (Cell::Null, Cell::Null) => Ordering::Equal,
        (Cell::Null, _) => null_before(item.nulls_first),
        (_, Cell::Null) => null_before(!item.nulls_first),
        _ => directed(total_order(left, right), item.desc),
    }
}

/// How NULL stands to a value.
fn null_before(first: bool) -> Ordering
    ensures { result ≡ (if first then Less else Greater) }
{
    if first {
        Ordering::Less
    } else {
        Ordering::Greater
    }
}

/// The order, turned where the item descends.
fn directed(order: Ordering, desc: bool) -> Ordering
    ensures { result ≡ turned desc order }
{
    if desc { order.reverse() } else { order }
}
