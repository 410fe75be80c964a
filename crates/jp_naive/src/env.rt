ghost use Rattle.std.specs.Prelude.{◌≡◌, ◌<◌, ◌↔◌, ◌⊎◌, ℕ, IsSome, IsTrue, Some, [], slice_index_or};
ghost use Rattle.jp_base.specs.Cells.{value_of_cell};
ghost use Rattle.jp_base.specs.Sets.{Has};
ghost use Rattle.jp_query.specs.Meaning.{Env as Environment, cell_in};
ghost use Rattle.jp_query.specs.Tables.{rows_of_tables, TableRows};
ghost use Rattle.jp_naive.specs.Frames.{cell_or, env_of, env_over, lent_values, place_env};
ghost use Rattle.jp_naive.specs.Sublinks.{env_of_place_env, rows_by_number};

use crate::frames::{
    Frame, Leaf, LentRow, OuterRow, Place, Seen, is_present, row_outside, seen_in,
};
use crate::sublinks::Lent;
use jp_base::{Cell, RelNo, RelSet, Row, SubNo, Value};
use jp_eval::Env;
use jp_table::Tables;

/// The environment of a place, with the rows of sublinks that were computed for an expression there.
#[derive(Clone, Copy)]
pub struct PlaceEnv<'t> {
    tables: &'t Tables,
    first: Frame<'t>,
    second: Frame<'t>,
    outer: &'t [OuterRow],
    lent: &'t [Lent],
}

/// The environment of the place, with the rows.
pub fn env_at<'t, 'f, 's, 'o>(
    tables: &'t Tables,
    place: Place<'f, 's, 'o>,
    lent: &'t [Lent],
) -> PlaceEnv<'t>
where
    'f: 't,
    's: 't,
    'o: 't,
    ensures environment { env_of_place_env result ≡ place_env tables.now.list place.entry }
    ensures lent { result.lent.now ≡ lent.now }
{
    let first = Frame {
        leaves: place.first.leaves,
        numbers: place.first.numbers,
    };
    let second = Frame {
        leaves: place.second.leaves,
        numbers: place.second.numbers,
    };
    let outer = place.outer;
    PlaceEnv {
        tables,
        first,
        second,
        outer,
        lent,
    }
}

impl Env for PlaceEnv<'_> {
    ghost use Rattle.jp_naive.specs.Sublinks.{env_of_place_env, rows_by_number};

    ghost environment = { env_of_place_env };

    ghost sublink_rows = { λ s. rows_by_number s.lent.now };

    fn cell(&self, rel: RelNo, col: u32) -> Cell<'_> {
        let first = self.first;
        match tuple_cell(self.tables, first.leaves, first.numbers, rel, col) {
            Some(cell) => cell,
            None => {
                let second = self.second;
                match tuple_cell(self.tables, second.leaves, second.numbers, rel, col) {
                    Some(cell) => cell,
                    None => outer_cell(self.tables, self.outer, rel, col),
                }
            }
        }
    }

    fn present(&self) -> RelSet {
        relations(Place {
            first: self.first,
            second: self.second,
            outer: self.outer,
        })
    }

    fn rows_of(&self, sub: SubNo) -> &[Row] {
        rows_with_number(self.lent, sub)
    }
}

/// The rows of a sublink, by its number.
fn rows_with_number(lent: &[Lent], sub: SubNo) -> &[Row]
    ensures { result.now ≡ rows_by_number lent.now sub }
{
    'lent: for rows in lent {
        if rows.number == sub {
            return rows.rows.as_slice();
        }
    }
    &[]
}

/// The cell of a relation of a tuple and a column, None where the tuple has no such relation.
fn tuple_cell<'t>(
    tables: &'t Tables,
    leaves: &'t [Leaf],
    numbers: &[Option<u64>],
    rel: RelNo,
    col: u32,
) -> Option<Cell<'t>>
    ensures { (outer : Environment) → cell_or result (cell_in (outer rel) col) ≡ cell_in (env_over tables.now.list leaves.now numbers.now outer rel) col }
{
    match seen_in(leaves, numbers, rel) {
        Seen::Elsewhere => None,
        Seen::Absent => Some(Cell::Null),
        Seen::Here(row) => Some(cell_of(tables, row, col)),
    }
}

/// The cell of a relation of the outer levels and a column.
fn outer_cell<'t>(tables: &'t Tables, outer: &'t [OuterRow], rel: RelNo, col: u32) -> Cell<'t>
    ensures { value_of_cell result ≡ cell_in (env_of tables.now.list outer.now rel) col }
{
    match row_outside(outer, rel) {
        Seen::Elsewhere => Cell::Null,
        Seen::Absent => Cell::Null,
        Seen::Here(row) => cell_of(tables, row, col),
    }
}

/// The cell of a row and a column. It is NULL where there is no such table, row or column.
fn cell_of<'t>(tables: &'t Tables, row: LentRow<'t>, col: u32) -> Cell<'t>
    ensures { value_of_cell result ≡ cell_in (Some (lent_values tables.now.list row.entry)) col }
{
    match row {
        LentRow::Stored(table, row) => stored_cell(tables, table, row, col),
        LentRow::Made(row) => made_cell(row, col),
    }
}

/// The cell of a row in memory, NULL where there is no such column.
fn made_cell(row: &[Value], col: u32) -> Cell<'_>
    ensures { value_of_cell result ≡ cell_in (Some row.now) col }
{
    match row.get(col as usize) {
        Some(value) => value.cell(),
        None => Cell::Null,
    }
}

/// The cell of a table's row and a column. It is NULL where there is no such table, row or column.
fn stored_cell(tables: &Tables, table: u32, row: u64, col: u32) -> Cell<'_>
    ensures { value_of_cell result ≡ cell_in (Some (slice_index_or (rows_of_tables tables.now.list table) row [])) col }
{
    match tables.list.get(table as usize) {
        Some(Some(table)) => {
            if row < table.rows() && (col as usize) < table.width() {
                table.cell(row, col)
            } else {
                Cell::Null
            }
        }
        _ => Cell::Null,
    }
}

/// The relations that have a row.
fn relations(place: Place<'_, '_, '_>) -> RelSet
    ensures { (tables : TableRows) (i : ℕ) → i < 64 → Has result i ↔ IsSome (place_env tables place.entry i) }
{
    let mut present = RelSet::empty();
    'relations: for rel in 0..64 {
        present = with_relation(present, rel, is_present(place, rel));
    }
    present
}

/// The set, and the relation beside if it has a row.
fn with_relation(set: RelSet, rel: RelNo, present: bool) -> RelSet
    requires { rel < 64 }
    ensures { (i : ℕ) → Has result i ↔ (Has set i ⊎ ((i ≡ rel) × IsTrue present)) }
{
    if present {
        set.union(RelSet::one(rel))
    } else {
        set
    }
}
