ghost use Rattle.std.specs.Prelude.{◌≡◌, ◌<◌, ◌↔◌, ◌⊎◌, ℕ, Some, IsTrue, is_some};
ghost use Rattle.jp_base.specs.Cells.{value_of_cell};
ghost use Rattle.jp_base.specs.Sets.{Has};
ghost use Rattle.jp_query.specs.Meaning.{cell_in};
ghost use Rattle.jp_placeholder.specs.Present.{IsPresentSet};
ghost use Rattle.jp_framed.specs.Environments.{row_at};
ghost use Rattle.jp_frame.specs.Maps.{at};
ghost use Rattle.jp_joins.specs.Tuples.{map_of};
ghost use Rattle.jp_items.specs.Sights.{sight_env, source_of};

use crate::Layout;
use crate::params::Around;
use crate::rows::{ItemRows, has_relation};
use jp_base::{Cell, RelNo, RelSet};
use jp_joins::Tuple;
use jp_table::Tables;

/// What tuples stand for: a row, or none, of each item, inside what stands around them.
#[derive(Clone, Copy)]
pub struct Sight<'e> {
    pub tables: &'e Tables,
    pub around: Around<'e>,
    pub sources: &'e [ItemRows],
    pub layout: &'e Layout,
}

impl Sight<'_> {
    /// The cell of a relation at a tuple. It is NULL where the relation is absent.
    pub fn cell(&self, tuple: Tuple<'_>, rel: RelNo, col: u32) -> Cell<'_>
        ensures { value_of_cell result ≡ cell_in (sight_env self.now (map_of tuple.entry) rel) col }
    {
        match self.layout.place(rel) {
            Some(item) => match row_in(tuple, item) {
                Some(row) => self.cell_of_item(item, row, rel, col),
                None => Cell::Null,
            },
            None => self.around.cell(rel, col),
        }
    }

    /// The relations that have a row at a tuple.
    pub fn present(&self, tuple: Tuple<'_>) -> RelSet
        ensures { IsPresentSet result (sight_env self.now (map_of tuple.entry)) }
    {
        let mut present = RelSet::empty();
        'rels: for rel in 0..64 {
            present = with_relation(present, rel, self.has(tuple, rel));
        }
        present
    }

    /// Whether a relation has a row at a tuple.
    fn has(&self, tuple: Tuple<'_>, rel: RelNo) -> bool
        ensures { result ≡ is_some (sight_env self.now (map_of tuple.entry) rel) }
    {
        match self.layout.place(rel) {
            Some(item) => match row_in(tuple, item) {
                Some(row) => self.item_has(item, row, rel),
                None => false,
            },
            None => has_relation(self.around.present, rel),
        }
    }

    /// The cell of a relation in a row of an item.
    fn cell_of_item(&self, item: usize, row: u64, rel: RelNo, col: u32) -> Cell<'_>
        ensures { value_of_cell result ≡ cell_in (row_at (source_of self.now item) (Some row) rel) col }
    {
        match self.sources.get(item) {
            Some(rows) => rows.cell(self.tables, row, rel, col),
            None => Cell::Null,
        }
    }

    /// Whether a relation has a row in a row of an item.
    fn item_has(&self, item: usize, row: u64, rel: RelNo) -> bool
        ensures { result ≡ is_some (row_at (source_of self.now item) (Some row) rel) }
    {
        match self.sources.get(item) {
            Some(rows) => rows.has(self.tables, row, rel),
            None => false,
        }
    }
}

/// The row of an item in a tuple.
fn row_in(tuple: Tuple<'_>, item: usize) -> Option<u64>
    ensures { result ≡ at (map_of tuple.entry) item }
{
    match tuple.rows.get(item) {
        Some(row) => *row,
        None => None,
    }
}

/// The set, and the relation beside if it has a row.
fn with_relation(set: RelSet, rel: RelNo, present: bool) -> RelSet
    requires { rel < 64 }
    ensures { (i : ℕ) → Has result i ↔ (Has set i ⊎ ((i ≡ rel) × IsTrue present)) }
{
    if present {
        set.union(RelSet::one(rel))
    } else {
        set
    }
}
