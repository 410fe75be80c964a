ghost use Rattle.std.specs.Prelude.{◌≡◌, ◌<◌, IfOk, map};
ghost use Rattle.jp_problem.specs.Problems.{rels_of_item};
ghost use Rattle.jp_items.specs.Seeing.{place_from, place_of, places_of};

use crate::rows::has_relation;
use jp_base::{Memory, RelNo, RelSet};
use std::alloc::Global;
use std::marker::Model;

/// The relations of a block's items, with a table that gives for each relation the item that has it. Contracts see the
/// relations of the items.
#[derive(Drop)]
pub struct Layout {
    rels: Vec<RelSet>,
    places: Vec<Option<usize>>,
}

impl Model for Layout {
    ghost use Rattle.std.specs.Prelude.{◌≡◌, ℕ, List};
    ghost use Rattle.jp_items.specs.Seeing.{places_of};

    ghost Value = { List ℕ };

    ghost view = { λ t. t.rels.items };

    ghost invariant = { λ t. t.places.items ≡ places_of t.rels.items };
}

impl Layout {
    /// The layout of items with these relations.
    pub fn new(alloc: Global, rels: Vec<RelSet>) -> Result<Layout, Memory>
        ensures { IfOk result (λ layout. layout ≡ rels.items) }
    {
        let places = all_places(alloc, rels.as_slice())?;
        Ok(Layout { rels, places })
    }

    /// The first item that has the relation.
    pub fn place(&self, rel: RelNo) -> Option<usize>
        ensures { result ≡ place_of self.now rel }
    {
        if rel >= 64 {
            return first_place(self.rels.as_slice(), rel);
        }
        self.places[rel as usize]
    }
}

/// The first item that has it, for each relation.
fn all_places(alloc: Global, rels: &[RelSet]) -> Result<Vec<Option<usize>>, Memory>
    ensures { IfOk result (λ v. v.items ≡ places_of rels.now) }
{
    let mut places = Vec::new(alloc);
    'rels: for rel in 0..64 {
        places.push(first_place(rels, rel))?;
    }
    Ok(places)
}

/// The first item that has the relation.
fn first_place(rels: &[RelSet], rel: RelNo) -> Option<usize>
    ensures { result ≡ place_of rels.now rel }
{
    'rels: for at in 0..rels.len() {
        if has_relation(rels[at], rel) {
            return Some(at);
        }
    }
    None
}
