ghost use Rattle.std.specs.Prelude.{◌≡◌, ◌++◌, ◌∷◌, [], IfOk, OnOk, None};
ghost use Rattle.jp_query.specs.Meaning.{Env};
ghost use Rattle.jp_query.specs.Tables.{TableRows};
ghost use Rattle.jp_naive.specs.Frames.{env_of, env_after, frame_env, kept_row, place_env, seen_or};

use crate::frames::{Frame, Kept, LentRow, OuterRow, Place, Seen, row_of_leaf};
use jp_base::{Memory, Row, Value};
use jp_table::Tables;
use sqlite_items::Items;
use std::alloc::Global;

/// The rows of the relations that are visible at a place, in memory of their own.
pub fn outer_rows(
    alloc: Global,
    place: Place<'_, '_, '_>,
    tables: &Tables,
) -> Result<Vec<OuterRow>, Memory>
    ensures { IfOk result (λ v. env_of tables.now.list v.items ≡ place_env tables.now.list place.entry) }
{
    let mut rows = Vec::new(alloc);
    add_frame(alloc, place.first, tables, &mut rows)?;
    add_frame(alloc, place.second, tables, &mut rows)?;
    add_outer(alloc, place.outer, &mut rows)?;
    Ok(rows)
}

/// Adds the rows of a tuple.
fn add_frame(
    alloc: Global,
    frame: Frame<'_>,
    tables: &Tables,
    rows: &mut Vec<OuterRow>,
) -> Result<(), Memory>
    ensures { (outer : Env) → OnOk result (env_after tables.now.list rows.new.items outer ≡ env_after tables.now.list rows.old.items (frame_env tables.now.list frame.entry outer)) }
{
    'leaves: for at in 0..frame.leaves.len().min(frame.numbers.len()) {
        let leaf = &frame.leaves[at];
        let row = kept_seen(alloc, row_of_leaf(leaf, frame.numbers[at]))?;
        push_row(rows, OuterRow { rel: leaf.rel, row })?;
    }
    Ok(())
}

/// Adds the rows of the outer levels.
fn add_outer(alloc: Global, outer: &[OuterRow], rows: &mut Vec<OuterRow>) -> Result<(), Memory>
    ensures { OnOk result (rows.new.items ≡ rows.old.items ++ outer.now) }
{
    'rows: for row in outer {
        let copy = copy_outer(alloc, row)?;
        push_row(rows, copy)?;
    }
    Ok(())
}

fn push_row(rows: &mut Vec<OuterRow>, row: OuterRow) -> Result<(), Memory>
    ensures { OnOk result (rows.new.items ≡ rows.old.items ++ row ∷ []) }
{
    match rows.push(row) {
        Ok(()) => Ok(()),
        Err(_) => Err(Memory),
    }
}

fn copy_outer(alloc: Global, row: &OuterRow) -> Result<OuterRow, Memory>
    ensures { IfOk result (λ copy. copy ≡ row.now) }
{
    let rel = row.rel;
    match &row.row {
        None => Ok(OuterRow { rel, row: None }),
        Some(Kept::Stored(table, number)) => {
            let row = Some(Kept::Stored(*table, *number));
            Ok(OuterRow { rel, row })
        }
        Some(Kept::Made(values)) => {
            let values = copy_row(alloc, values.as_slice())?;
            let row = Some(Kept::Made(values));
            Ok(OuterRow { rel, row })
        }
    }
}

/// The row that is seen, to be kept; None where none is seen.
fn kept_seen(alloc: Global, seen: Seen<'_>) -> Result<Option<Kept>, Memory>
    ensures { (tables : TableRows) → IfOk result (λ row. kept_row tables row ≡ seen_or tables seen.entry None) }
{
    match seen {
        Seen::Elsewhere => Ok(None),
        Seen::Absent => Ok(None),
        Seen::Here(LentRow::Stored(table, row)) => Ok(Some(Kept::Stored(table, row))),
        Seen::Here(LentRow::Made(row)) => {
            let values = copy_row(alloc, row)?;
            Ok(Some(Kept::Made(values)))
        }
    }
}

/// An equal row, in memory of its own.
fn copy_row(alloc: Global, row: &[Value]) -> Result<Row, Memory>
    ensures { IfOk result (λ copy. copy ≡ row.now) }
{
    let mut copy = Items::new(alloc);
    'values: for value in row {
        let value = value.copy(alloc)?;
        match copy.push(value) {
            Ok(()) => {}
            Err(_) => return Err(Memory),
        }
    }
    Ok(copy)
}
