ghost use Rattle.std.specs.Prelude.{◌≡◌};
ghost use Rattle.jp_base.specs.Cells.{value_of_cell};
ghost use Rattle.jp_query.specs.Meaning.{cell_in};
ghost use Rattle.jp_items.specs.Params.{cell_given, env_given};

use crate::rows::has_relation;
use jp_base::{Cell, RelNo, RelSet, Value};
use std::collections::BTreeMap;

/// What a block is run in: the cells of relations around it, and which of them have a row. A relation of `present` has a row
/// with these cells, and NULL where no cell is given; no other relation has a row.
#[derive(Drop)]
pub struct Params {
    pub cells: BTreeMap<(RelNo, u32), Value>,
    pub present: RelSet,
}

/// What a block is run in, with its cells lent.
#[derive(Clone, Copy)]
pub struct Around<'p> {
    pub cells: &'p BTreeMap<(RelNo, u32), Value>,
    pub present: RelSet,
}

impl Around<'_> {
    /// The cell of a relation. It is NULL where the relation has no row, and where no cell is given.
    pub fn cell(&self, rel: RelNo, col: u32) -> Cell<'_>
        ensures { value_of_cell result ≡ cell_in (env_given self.now.cells.now self.now.present rel) col }
    {
        if !has_relation(self.present, rel) {
            return Cell::Null;
        }
        given(self.cells, rel, col)
    }
}

/// The cell of a relation and a column, NULL where none is given.
fn given(cells: &BTreeMap<(RelNo, u32), Value>, rel: RelNo, col: u32) -> Cell<'_>
    ensures { value_of_cell result ≡ cell_given cells.now rel col }
{
    let key = (rel, col);
    match cells.get(&key) {
        Some(value) => value.cell(),
        None => Cell::Null,
    }
}
