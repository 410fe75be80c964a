ghost use Rattle.std.specs.Prelude.{◌≡◌, IfOk, map, vec_len, []};
ghost use Rattle.jp_base.specs.Cells.{value_of_cell};
ghost use Rattle.jp_query.specs.Ordering.{first_lines};
ghost use Rattle.jp_order.specs.Keys.{value_of_part};
ghost use Rattle.jp_order.specs.Lines.{chosen, first_rows, lines_with, news_after};

use jp_base::{Cell, Memory, Row, Value};
use std::alloc::Global;
use std::collections::HashSet;

/// The first of each same row, in their order: rows are the same where their values are, and NULLs are the same. Each row
/// is hashed once. What was passed is dropped where memory is refused.
pub fn distinct_rows(alloc: Global, rows: Vec<Row>) -> Result<Vec<Row>, Memory>
    ensures { IfOk result (λ v. v.items ≡ first_rows rows.items) }
{
    let marks = new_rows(alloc, rows.as_slice())?;
    let kept = marked(alloc, rows, marks.as_slice())?;
    Ok(kept)
}

/// The first of each same row with its keys, in their order: of lines with the same row the first one's keys stay, whatever
/// the keys of the others are.
pub fn distinct_lines(
    alloc: Global,
    rows: Vec<Row>,
    keys: Vec<Row>,
) -> Result<(Vec<Row>, Vec<Row>), Memory>
    requires { vec_len rows ≡ vec_len keys }
    ensures lines { IfOk result (λ kept. lines_with kept.0.items kept.1.items ≡ first_lines (lines_with rows.items keys.items)) }
    ensures whole { IfOk result (λ kept. vec_len kept.0 ≡ vec_len kept.1) }
{
    let marks = new_rows(alloc, rows.as_slice())?;
    let rows = marked(alloc, rows, marks.as_slice())?;
    let keys = marked(alloc, keys, marks.as_slice())?;
    Ok((rows, keys))
}

/// The rows whose mark is true.
fn marked(alloc: Global, rows: Vec<Row>, marks: &[bool]) -> Result<Vec<Row>, Memory>
    ensures { IfOk result (λ v. v.items ≡ chosen marks.now rows.items) }
{
    let chosen = rows
        .into_iter()
        .zip(marks.iter().copied())
        .filter(|pair| pair.1)
        .map(|pair| pair.0)
        .collect(alloc);
    match chosen {
        Ok(rows) => Ok(rows),
        Err(_) => Err(Memory),
    }
}

/// For each row whether no earlier one is the same.
fn new_rows(alloc: Global, rows: &[Row]) -> Result<Vec<bool>, Memory>
    ensures { IfOk result (λ v. v.items ≡ news_after [] rows.now) }
{
    let mut seen: HashSet<Vec<Part<'_>>> = HashSet::new(alloc);
    let mut marks = Vec::new(alloc);
    'rows: for row in rows {
        let parts = parts_of(alloc, row.as_slice())?;
        let Ok(new) = seen.insert(parts) else {
            return Err(Memory);
        };
        match marks.push(new) {
            Ok(()) => {}
            Err(_) => return Err(Memory),
        }
    }
    Ok(marks)
}

/// A value of a row as DISTINCT tells it from others. A text is lent by the row.
#[derive(Clone, Copy, PartialEq, Eq, Hash)]
enum Part<'r> {
    Null,
    Number(i128),
    Boolean(bool),
    Text(&'r str),
}

fn parts_of<'r>(alloc: Global, row: &'r [Value]) -> Result<Vec<Part<'r>>, Memory>
    ensures { IfOk result (λ parts. map value_of_part parts.items ≡ row.now) }
{
    let mut parts = match Vec::with_capacity(alloc, row.len()) {
        Ok(parts) => parts,
        Err(_) => return Err(Memory),
    };
    'values: for value in row {
        match parts.push(part_of(value.cell())) {
            Ok(()) => {}
            Err(_) => return Err(Memory),
        }
    }
    Ok(parts)
}

fn part_of(cell: Cell<'_>) -> Part<'_>
    ensures { value_of_part result ≡ value_of_cell cell.entry }
{
    match cell {
        Cell::Null => Part::Null,
        Cell::Num(number) => Part::Number(number),
        Cell::Bool(truth) => Part::Boolean(truth),
        Cell::Text(text) => Part::Text(text),
    }
}
