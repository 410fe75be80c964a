ghost use Rattle.std.specs.Prelude.{◌≡◌, [], Option, None, is_some, slice_index_or};
ghost use Rattle.jp_query.specs.Meaning.{Env};
ghost use Rattle.jp_query.specs.Ordering.{Row as Cells};
ghost use Rattle.jp_query.specs.Tables.{TableRows};
ghost use Rattle.jp_naive.specs.Frames.{env_of, env_over, kept_row, place_env, row_at, seen_or};

use jp_base::{RelNo, Row, Value};

/// Where the rows of a leaf are: in a table, by its place in the catalogue from 0, or in memory.
#[derive(Drop)]
pub enum Source {
    Table(u32),
    Made(Vec<Row>),
}

/// A leaf of a join tree, with its rows.
#[derive(Drop)]
pub struct Leaf {
    pub rel: RelNo,
    pub source: Source,
}

/// A tuple of a join tree: for each leaf the number of its row, from 0, or None where the relation is absent. Of leaves
/// with one number the first counts.
#[derive(Clone, Copy)]
pub struct Frame<'t> {
    pub leaves: &'t [Leaf],
    pub numbers: &'t [Option<u64>],
}

/// A row that is kept for inner queries: one of a table, by the table's place and the row's number, or a copy.
#[derive(Drop)]
pub enum Kept {
    Stored(u32, u64),
    Made(Row),
}

/// The row of a relation of an outer level, None where it is absent.
#[derive(Drop)]
pub struct OuterRow {
    pub rel: RelNo,
    pub row: Option<Kept>,
}

/// Where an expression stands: in a tuple, or in a pair of tuples, inside the rows of the outer levels. A relation has
/// its row of the first of these that has it.
#[derive(Clone, Copy)]
pub struct Place<'f, 's, 'o> {
    pub first: Frame<'f>,
    pub second: Frame<'s>,
    pub outer: &'o [OuterRow],
}

/// A row that stands elsewhere: in a table, by the table's place and the row's number in the file, or in memory.
#[derive(Clone, Copy)]
pub enum LentRow<'t> {
    Stored(u32, u64),
    Made(&'t [Value]),
}

/// What a frame says of a relation: nothing, that it is absent, or its row.
#[derive(Clone, Copy)]
pub enum Seen<'t> {
    Elsewhere,
    Absent,
    Here(LentRow<'t>),
}

/// Whether a relation has a row at a place.
pub fn is_present(place: Place<'_, '_, '_>, rel: RelNo) -> bool
    ensures { (tables : TableRows) → result ≡ is_some (place_env tables place.entry rel) }
{
    match seen_in(place.first.leaves, place.first.numbers, rel) {
        Seen::Elsewhere => match seen_in(place.second.leaves, place.second.numbers, rel) {
            Seen::Elsewhere => is_outside(place.outer, rel),
            Seen::Absent => false,
            Seen::Here(_) => true,
        },
        Seen::Absent => false,
        Seen::Here(_) => true,
    }
}

/// Whether a relation has a row in the outer levels.
fn is_outside(outer: &[OuterRow], rel: RelNo) -> bool
    ensures { (tables : TableRows) → result ≡ is_some (env_of tables outer.now rel) }
{
    match row_outside(outer, rel) {
        Seen::Elsewhere => false,
        Seen::Absent => false,
        Seen::Here(_) => true,
    }
}

/// What the outer levels say of a relation.
pub fn row_outside(outer: &[OuterRow], rel: RelNo) -> Seen<'_>
    ensures { (tables : TableRows) → seen_or tables result None ≡ env_of tables outer.now rel }
{
    'rows: for row in outer {
        if row.rel == rel {
            return seen_kept(row);
        }
    }
    Seen::Elsewhere
}

fn seen_kept(row: &OuterRow) -> Seen<'_>
    ensures { (tables : TableRows) (further : Option Cells) → seen_or tables result further ≡ kept_row tables row.now.row }
{
    match &row.row {
        None => Seen::Absent,
        Some(Kept::Stored(table, row)) => Seen::Here(LentRow::Stored(*table, *row)),
        Some(Kept::Made(values)) => Seen::Here(LentRow::Made(values.as_slice())),
    }
}

/// What a tuple says of a relation.
pub fn seen_in<'t>(leaves: &'t [Leaf], numbers: &[Option<u64>], rel: RelNo) -> Seen<'t>
    ensures { (tables : TableRows) (outer : Env) → seen_or tables result (outer rel) ≡ env_over tables leaves.now numbers.now outer rel }
{
    'leaves: for at in 0..leaves.len().min(numbers.len()) {
        if leaves[at].rel == rel {
            return row_of_leaf(&leaves[at], numbers[at]);
        }
    }
    Seen::Elsewhere
}

/// The row of a leaf with the number.
pub fn row_of_leaf<'t>(leaf: &'t Leaf, number: Option<u64>) -> Seen<'t>
    ensures { (tables : TableRows) (outer : Option Cells) → seen_or tables result outer ≡ row_at tables leaf.now number }
{
    match number {
        None => Seen::Absent,
        Some(number) => match &leaf.source {
            Source::Table(table) => Seen::Here(LentRow::Stored(*table, number)),
            Source::Made(rows) => Seen::Here(LentRow::Made(made_row(rows.as_slice(), number))),
        },
    }
}

/// The row with the number; one without values where there is no such row.
fn made_row(rows: &[Row], number: u64) -> &[Value]
    ensures { result.now ≡ slice_index_or rows.now number [] }
{
    match rows.get(number as usize) {
        Some(row) => row.as_slice(),
        None => &[],
    }
}
