ghost use Rattle.std.specs.Prelude.{◌≡◌, [], Some, is_some, length, slice_get, slice_index_or};
ghost use Rattle.std.specs.Option.{option_map};
ghost use Rattle.jp_base.specs.Cells.{value_of_cell};
ghost use Rattle.jp_query.specs.Meaning.{cell_in, has};
ghost use Rattle.jp_query.specs.Tables.{rows_of_tables};
ghost use Rattle.jp_framed.specs.Environments.{row_at};
ghost use Rattle.jp_items.specs.Rows.{joined_rows, lent_values, part_row, parts_env, rows_meant, single_rows, source_rows};

use crate::Numbers;
use jp_base::{Cell, RelNo, RelSet, Row, Value};
use jp_table::Tables;

/// Where the rows of a relation are: in a table, by its place in the catalogue from 0, or in memory.
#[derive(Drop)]
pub enum Source {
    Stored(u32),
    Made(Vec<Row>),
}

/// A relation, with where its rows are.
#[derive(Drop)]
pub struct RelRows {
    pub rel: RelNo,
    pub source: Source,
}

/// The rows of an item of a block: those of one relation, or tuples of several relations, of which each has a row by its
/// number or is absent. Of parts with one relation the first counts. `rels` are the relations that are looked at.
#[derive(Drop)]
pub enum ItemRows {
    Single {
        rels: RelSet,
        part: RelRows,
    },
    Joined {
        rels: RelSet,
        parts: Vec<RelRows>,
        numbers: Numbers,
    },
}

/// A row that stands elsewhere: in a table, by the table's place and the row's number in the file, or in memory.
#[derive(Clone, Copy)]
pub enum LentRow<'t> {
    Stored(u32, u64),
    Made(&'t [Value]),
}

impl ItemRows {
    /// How many rows there are.
    pub fn rows(&self, tables: &Tables) -> u64
        ensures { result ≡ length (rows_meant tables.now.list self.now) }
    {
        match self {
            ItemRows::Single { part, .. } => count_of(tables, &part.source),
            ItemRows::Joined { numbers, .. } => numbers.len() as u64,
        }
    }

    /// The cell of a relation in a row, counted from 0. It is NULL where there is no such row or column and where the
    /// relation is absent.
    pub fn cell<'a>(&'a self, tables: &'a Tables, row: u64, rel: RelNo, col: u32) -> Cell<'a>
        ensures { value_of_cell result ≡ cell_in (row_at (rows_meant tables.now.list self.now) (Some row) rel) col }
    {
        match self.seen(tables, row, rel) {
            Some(row) => cell_of(tables, row, col),
            None => Cell::Null,
        }
    }

    /// Whether a relation has a row in a row of the item.
    pub fn has(&self, tables: &Tables, row: u64, rel: RelNo) -> bool
        ensures { result ≡ is_some (row_at (rows_meant tables.now.list self.now) (Some row) rel) }
    {
        self.seen(tables, row, rel).is_some()
    }

    /// The row of a relation in a row of the item.
    fn seen<'a>(&'a self, tables: &'a Tables, row: u64, rel: RelNo) -> Option<LentRow<'a>>
        ensures { option_map (lent_values tables.now.list) result ≡ row_at (rows_meant tables.now.list self.now) (Some row) rel }
    {
        match self {
            ItemRows::Single { rels, part } => seen_alone(tables, *rels, part, row, rel),
            ItemRows::Joined {
                rels,
                parts,
                numbers,
            } => seen_joined(tables, *rels, parts.as_slice(), numbers, row, rel),
        }
    }
}

/// The row of a relation in a row of one relation.
fn seen_alone<'a>(
    tables: &'a Tables,
    rels: RelSet,
    part: &'a RelRows,
    row: u64,
    rel: RelNo,
) -> Option<LentRow<'a>>
    ensures { option_map (lent_values tables.now.list) result ≡ row_at (single_rows tables.now.list rels part.now) (Some row) rel }
{
    if !has_relation(rels, rel) {
        return None;
    }
    if rel != part.rel {
        return None;
    }
    row_of_source(tables, &part.source, row)
}

/// The row of a relation in a tuple of several relations.
fn seen_joined<'a>(
    tables: &'a Tables,
    rels: RelSet,
    parts: &'a [RelRows],
    numbers: &Numbers,
    row: u64,
    rel: RelNo,
) -> Option<LentRow<'a>>
    ensures { option_map (lent_values tables.now.list) result ≡ row_at (joined_rows tables.now.list rels parts.now numbers.now.list) (Some row) rel }
{
    if !has_relation(rels, rel) {
        return None;
    }
    if row >= numbers.len() as u64 {
        return None;
    }
    seen_in(tables, parts, numbers.tuple(row as usize), rel)
}

/// The row of a relation by the numbers of the parts.
fn seen_in<'a>(
    tables: &'a Tables,
    parts: &'a [RelRows],
    numbers: &[Option<u64>],
    rel: RelNo,
) -> Option<LentRow<'a>>
    ensures { option_map (lent_values tables.now.list) result ≡ parts_env tables.now.list parts.now numbers.now rel }
{
    'parts: for at in 0..parts.len().min(numbers.len()) {
        if parts[at].rel == rel {
            return row_of_part(tables, &parts[at], numbers[at]);
        }
    }
    None
}

fn row_of_part<'a>(
    tables: &'a Tables,
    part: &'a RelRows,
    number: Option<u64>,
) -> Option<LentRow<'a>>
    ensures { option_map (lent_values tables.now.list) result ≡ part_row tables.now.list part.now number }
{
    match number {
        Some(number) => row_of_source(tables, &part.source, number),
        None => None,
    }
}

/// The row with the number, if it is there.
fn row_of_source<'a>(tables: &'a Tables, source: &'a Source, number: u64) -> Option<LentRow<'a>>
    ensures { option_map (lent_values tables.now.list) result ≡ slice_get (source_rows tables.now.list source.now) number }
{
    match source {
        Source::Stored(table) => stored_row(tables, *table, number),
        Source::Made(rows) => match rows.as_slice().get(number as usize) {
            Some(row) => Some(LentRow::Made(row.as_slice())),
            None => None,
        },
    }
}

/// The row of a table with the number, if it is there.
fn stored_row<'a>(tables: &'a Tables, table: u32, number: u64) -> Option<LentRow<'a>>
    ensures { option_map (lent_values tables.now.list) result ≡ slice_get (rows_of_tables tables.now.list table) number }
{
    if number < rows_stored(tables, table) {
        Some(LentRow::Stored(table, number))
    } else {
        None
    }
}

/// How many rows the table has; none where it isn't loaded.
fn rows_stored(tables: &Tables, table: u32) -> u64
    ensures { result ≡ length (rows_of_tables tables.now.list table) }
{
    match tables.list.get(table as usize) {
        Some(Some(table)) => table.rows(),
        _ => 0,
    }
}

fn count_of(tables: &Tables, source: &Source) -> u64
    ensures { result ≡ length (source_rows tables.now.list source.now) }
{
    match source {
        Source::Stored(table) => rows_stored(tables, *table),
        Source::Made(rows) => rows.len() as u64,
    }
}

/// Whether the set has the relation, which may be greater than any member.
pub fn has_relation(set: RelSet, rel: RelNo) -> bool
    ensures { result ≡ has set rel }
{
    if rel >= 64 {
        return false;
    }
    set.has(rel)
}

/// The cell of a row and a column, NULL where there is no such column.
fn cell_of<'t>(tables: &'t Tables, row: LentRow<'t>, col: u32) -> Cell<'t>
    ensures { value_of_cell result ≡ cell_in (Some (lent_values tables.now.list row.entry)) col }
{
    match row {
        LentRow::Stored(table, row) => stored_cell(tables, table, row, col),
        LentRow::Made(row) => made_cell(row, col),
    }
}

/// The cell of a row in memory, NULL where there is no such column.
fn made_cell(row: &[Value], col: u32) -> Cell<'_>
    ensures { value_of_cell result ≡ cell_in (Some row.now) col }
{
    match row.get(col as usize) {
        Some(value) => value.cell(),
        None => Cell::Null,
    }
}

/// The cell of a table's row and a column. It is NULL where there is no such table, row or column.
fn stored_cell(tables: &Tables, table: u32, row: u64, col: u32) -> Cell<'_>
    ensures { value_of_cell result ≡ cell_in (Some (slice_index_or (rows_of_tables tables.now.list table) row [])) col }
{
    match tables.list.get(table as usize) {
        Some(Some(table)) => {
            if row < table.rows() && (col as usize) < table.width() {
                table.cell(row, col)
            } else {
                Cell::Null
            }
        }
        _ => Cell::Null,
    }
}
