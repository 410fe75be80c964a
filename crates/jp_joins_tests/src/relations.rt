ghost use Rattle.std.specs.Prelude.{◌≡◌, All, IfOk};
ghost use Rattle.jp_base.specs.Cells.{value_of_cell};
ghost use Rattle.jp_query.specs.Meaning.{cell_in};
ghost use Rattle.jp_joins.specs.Tuples.{map_of};
ghost use Rattle.jp_joins_tests.specs.Relations.{IsSmall, row_of, value_of_number};
ghost use Rattle.std.specs.Prelude.{None as NoNumber, slice_index_or};

use jp_base::{Cell, Memory, RelNo, RelSet};
use jp_joins::{Tuple, TupleEnv};
use jp_query::{Expr, JoinKind};
use sqlite_items::Items;
use std::alloc::Global;

/// A step between relations 0 and 1. A tuple has two places; a row number is the place in a relation's list.
#[derive(Drop)]
pub struct Relations<'c> {
    pub left: &'c [Option<u64>],
    pub right: &'c [Option<u64>],
    pub kind: JoinKind,
    pub first: Expr,
    pub second: Expr,
    pub on: Items<Expr>,
    pub filters: Items<Expr>,
}

impl TupleEnv for Relations<'_> {
    ghost use Rattle.jp_joins_tests.specs.Relations.{meant_of};

    ghost meant = { meant_of };

    fn join_kind(&self) -> JoinKind {
        self.kind
    }

    fn cell(&self, tuple: Tuple<'_>, rel: RelNo, col: u32) -> Cell<'_> {
        match rel {
            0 => column_of(self.left, row_in(tuple, 0), col),
            1 => column_of(self.right, row_in(tuple, 1), col),
            _ => Cell::Null,
        }
    }

    fn present(&self, tuple: Tuple<'_>) -> RelSet {
        let left = match row_in(tuple, 0) {
            Some(_) => RelSet::one(0),
            None => RelSet::empty(),
        };
        let right = match row_in(tuple, 1) {
            Some(_) => RelSet::one(1),
            None => RelSet::empty(),
        };
        left.union(right)
    }

    fn key(&self) -> Option<(&Expr, &Expr)> {
        Some((&self.first, &self.second))
    }

    fn on(&self) -> &[Expr] {
        self.on.as_slice()
    }

    fn filters(&self) -> &[Expr] {
        self.filters.as_slice()
    }
}

/// The row number at a place of the tuple.
pub(crate) fn row_in(tuple: Tuple<'_>, place: usize) -> Option<u64>
    ensures { result ≡ slice_index_or (map_of tuple.entry) place NoNumber }
{
    let rows = tuple.rows;
    if place < rows.len() {
        rows[place]
    } else {
        None
    }
}

fn column_of(numbers: &[Option<u64>], row: Option<u64>, col: u32) -> Cell<'_>
    ensures { value_of_cell result ≡ cell_in (row_of numbers.now row) col }
{
    match row {
        Some(row) => match col {
            0 => number_at(numbers, row),
            _ => Cell::Null,
        },
        None => Cell::Null,
    }
}

fn number_at(numbers: &[Option<u64>], row: u64) -> Cell<'_>
    ensures { value_of_cell result ≡ value_of_number (slice_index_or numbers.now row NoNumber) }
{
    let row = row as usize;
    if row < numbers.len() {
        match numbers[row] {
            Some(number) => Cell::Num(number as i128),
            None => Cell::Null,
        }
    } else {
        Cell::Null
    }
}

/// The numbers, as a column.
pub fn numbers(alloc: Global, given: &[Option<u32>]) -> Result<Vec<Option<u64>>, Memory>
    ensures { IfOk result (λ v. All IsSmall v.items) }
{
    let mut list = Vec::new(alloc);
    'given: for number in given {
        list.push(widened(*number))?;
    }
    Ok(list)
}

fn widened(number: Option<u32>) -> Option<u64>
    ensures { IsSmall result }
{
    match number {
        Some(number) => Some(number as u64),
        None => None,
    }
}
