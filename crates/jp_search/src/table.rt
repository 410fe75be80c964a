ghost use Rattle.std.specs.Prelude.{◌≡◌, ℕ, ◌<◌, ◌≤◌, ◌^◌, None, length, slice_set, IfOk};
ghost use Rattle.jp_search.specs.Tables.{entry_at};

use crate::joins::Facts;
use crate::numbers::number;
use jp_base::{Memory, RelSet};
use jp_tree::{PlanId, PlanNode};
use std::alloc::Global;
use std::marker::Model;

/// What the search knows of a set that has a legal tree: the number of the first one in the pool, what it costs, how many
/// rows the set is estimated to have, and what it says of the joins.
#[derive(Clone, Copy)]
pub struct Found {
    pub plan: PlanId,
    pub cost: u128,
    pub rows: u64,
    pub facts: Facts,
}

/// The root of a tree that isn't in the pool yet, and what the tree costs.
#[derive(Clone, Copy)]
pub struct Choice {
    pub node: PlanNode,
    pub cost: u128,
}

/// An entry for each set, at the set as a number; seen as their list.
#[derive(Drop)]
pub struct Table {
    entries: Vec<Option<Found>>,
}

impl Model for Table {
    ghost use Rattle.std.specs.Prelude.{List, Option};
    ghost use Rattle.jp_search.specs.declared.table.Found.{Found};

    ghost Value = { List (Option Found) };

    ghost view = { λ t. t.entries.items };
}

impl Table {
    /// So many entries, all empty.
    pub fn new(alloc: Global, count: usize) -> Result<Table, Memory>
        ensures count { IfOk result (λ t. length t ≡ count) }
        ensures empty { IfOk result (λ t. (set : ℕ) → entry_at t set ≡ None) }
    {
        Ok(Table {
            entries: vec![in alloc; None; count]?,
        })
    }

    pub fn len(&self) -> usize
        ensures { result ≡ length self.now }
    {
        self.entries.len()
    }

    /// The entry of a set.
    pub fn entry(&self, set: RelSet) -> Option<Found>
        requires few { length self.now ≤ 2 ^ 16 }
        requires there { set < length self.now }
        ensures { result ≡ entry_at self.now set }
    {
        self.entries[number(set)]
    }

    /// Writes the entry of the set that is this number.
    pub fn put(&mut self, number: usize, entry: Option<Found>)
        requires { number < length self.old }
        ensures { self.new ≡ slice_set self.old number entry }
    {
        self.entries[number] = entry;
    }
}
