ghost use Rattle.std.specs.Prelude.{◌≡◌, ◌++◌, IfOk, OnOk, map};
ghost use Rattle.jp_fulls.specs.Leaves.{is_at, is_shown, leaf_if, leaves_from, leaves_of, leaves_of_parts, numbers_of, part_of_leaf};

use jp_base::{Memory, RelNo, RelSet};
use jp_items::{ItemRows, Layout, Numbers, RelRows, has_relation};
use std::alloc::Global;

/// A part of an item's rows, with the place of the item and its own place in the item, both from 0.
#[derive(Drop)]
pub struct Leaf {
    pub part: RelRows,
    pub item: usize,
    pub place: usize,
}

/// The rows of items, taken apart.
#[derive(Drop)]
pub struct Apart {
    /// The parts that are shown, those of the first item first.
    pub leaves: Vec<Leaf>,
    /// The row numbers of each item; None where it has one part, whose rows are the item's.
    pub numbers: Vec<Option<Numbers>>,
}

/// The parts of the items. Of each item those are shown whose relation it has, and no item before it.
pub fn taken_apart(alloc: Global, layout: &Layout, sources: Vec<ItemRows>) -> Result<Apart, Memory>
    ensures leaves { IfOk result (λ a. a.leaves.items ≡ leaves_from layout.now 0 sources.items) }
    ensures numbers { IfOk result (λ a. a.numbers.items ≡ map numbers_of sources.items) }
{
    let mut leaves = Vec::new(alloc);
    let mut numbers = Vec::new(alloc);
    'sources: for source in sources {
        let own = add_item(layout, numbers.len(), source, &mut leaves)?;
        numbers.push(own)?;
    }
    Ok(Apart { leaves, numbers })
}

/// Adds the parts of an item that are shown, and gives its row numbers.
fn add_item(
    layout: &Layout,
    item: usize,
    source: ItemRows,
    leaves: &mut Vec<Leaf>,
) -> Result<Option<Numbers>, Memory>
    ensures leaves { OnOk result (leaves.new.items ≡ leaves.old.items ++ leaves_of layout.now item source) }
    ensures numbers { IfOk result (λ n. n ≡ numbers_of source) }
{
    match source {
        ItemRows::Single { rels, part } => {
            add_part(layout, item, rels, 0, part, leaves)?;
            Ok(None)
        }
        ItemRows::Joined {
            rels,
            parts,
            numbers,
        } => {
            add_parts(layout, item, rels, parts, leaves)?;
            Ok(Some(numbers))
        }
    }
}

/// Adds the parts that are shown.
fn add_parts(
    layout: &Layout,
    item: usize,
    rels: RelSet,
    parts: Vec<RelRows>,
    leaves: &mut Vec<Leaf>,
) -> Result<(), Memory>
    ensures { OnOk result (leaves.new.items ≡ leaves.old.items ++ leaves_of_parts layout.now item rels 0 parts.items) }
{
    let mut place = 0;
    'parts: for part in parts {
        add_part(layout, item, rels, place, part, leaves)?;
        place += 1;
    }
    Ok(())
}

/// Adds the part if it is shown.
fn add_part(
    layout: &Layout,
    item: usize,
    rels: RelSet,
    place: usize,
    part: RelRows,
    leaves: &mut Vec<Leaf>,
) -> Result<(), Memory>
    ensures { OnOk result (leaves.new.items ≡ leaves.old.items ++ leaf_if (is_shown layout.now item rels part.rel) (record { part = part; item = item; place = place })) }
{
    if is_shown(layout, item, rels, part.rel) {
        leaves.push(Leaf { part, item, place })?;
    }
    Ok(())
}

/// Whether the item has the relation and shows it.
fn is_shown(layout: &Layout, item: usize, rels: RelSet, rel: RelNo) -> bool
    ensures { result ≡ is_shown layout.now item rels rel }
{
    has_relation(rels, rel) && is_at(layout.place(rel), item)
}

fn is_at(place: Option<usize>, item: usize) -> bool
    ensures { result ≡ is_at place item }
{
    match place {
        Some(place) => place == item,
        None => false,
    }
}

/// The parts without their places.
pub fn parts_of(alloc: Global, leaves: Vec<Leaf>) -> Result<Vec<RelRows>, Memory>
    ensures { IfOk result (λ v. v.items ≡ map part_of_leaf leaves.items) }
{
    let mut parts = Vec::new(alloc);
    'leaves: for leaf in leaves {
        let Leaf { part, .. } = leaf;
        parts.push(part)?;
    }
    Ok(parts)
}
