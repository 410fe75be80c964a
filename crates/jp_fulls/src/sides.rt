ghost use Rattle.std.specs.Prelude.{◌≡◌, ◌++◌, IfOk, OnOk, length, map, slice_index_or, Some, None};
ghost use Rattle.jp_query.specs.Meaning.{Env};
ghost use Rattle.jp_query.specs.Refs.{union};
ghost use Rattle.jp_query.specs.Tables.{TableRows};
ghost use Rattle.jp_frame.specs.Maps.{at};
ghost use Rattle.jp_framed.specs.Environments.{env_from};
ghost use Rattle.jp_joins.specs.Tuples.{map_of, maps_of};
ghost use Rattle.jp_lists.specs.Lists.{only_rows};
ghost use Rattle.jp_items.specs.Rows.{rows_meant};
ghost use Rattle.jp_fulls.specs.Leaves.{number_at, number_in, numbers_at};

use crate::apart::{Apart, Leaf, parts_of, taken_apart};
use jp_base::{Memory, RelSet};
use jp_items::{ItemRows, Layout, Numbers, has_relation};
use jp_joins::Tuple;
use std::alloc::Global;

/// The tuples of a block as rows of its relations: the parts of all its items in one list. A relation is seen in the first
/// item that the layout gives it.
pub fn side_rows(
    alloc: Global,
    rels: RelSet,
    sources: Vec<ItemRows>,
    layout: &Layout,
    tuples: &[Tuple<'_>],
) -> Result<ItemRows, Memory>
    ensures { (tables : TableRows) (outer : Env) → rels ≡ union layout.now →
        IfOk result (λ r. rows_meant tables r ≡ map (only_rows rels) (map (env_from 0 layout.now (map (rows_meant tables) sources.items) outer) (maps_of tuples.now))) }
{
    let apart = taken_apart(alloc, layout, sources)?;
    let mut numbers = Numbers::new(alloc, apart.leaves.len());
    add_numbers(alloc, &apart, RelSet::empty(), tuples, &mut numbers)?;
    let Apart { leaves, .. } = apart;
    let parts = parts_of(alloc, leaves)?;
    Ok(ItemRows::Joined {
        rels,
        parts,
        numbers,
    })
}

/// Adds the numbers of the parts at each tuple. The relations that are hidden have none.
pub fn add_numbers(
    alloc: Global,
    apart: &Apart,
    hidden: RelSet,
    tuples: &[Tuple<'_>],
    numbers: &mut Numbers,
) -> Result<(), Memory>
    requires { numbers.now.width ≡ length apart.now.leaves.items }
    ensures width { numbers.new.width ≡ numbers.old.width }
    ensures more { OnOk result (numbers.new.list ≡ numbers.old.list ++ map (numbers_at apart.now.numbers.items apart.now.leaves.items hidden) (maps_of tuples.now)) }
{
    let mut list = Vec::new(alloc);
    'tuples: for tuple in tuples {
        put_numbers(apart, hidden, *tuple, &mut list)?;
        numbers.push(list.as_slice(), &[])?;
    }
    Ok(())
}

/// The numbers of the parts at a tuple, written over what the list holds.
fn put_numbers(
    apart: &Apart,
    hidden: RelSet,
    tuple: Tuple<'_>,
    list: &mut Vec<Option<u64>>,
) -> Result<(), Memory>
    ensures { OnOk result (list.new.items ≡ numbers_at apart.now.numbers.items apart.now.leaves.items hidden (map_of tuple.entry)) }
{
    let leaves = apart.leaves.as_slice();
    let numbers = apart.numbers.as_slice();
    list.clear();
    'leaves: for leaf in leaves {
        list.push(number_at(numbers, hidden, tuple, leaf))?;
    }
    Ok(())
}

/// The number of a part's row at a tuple.
fn number_at(
    numbers: &[Option<Numbers>],
    hidden: RelSet,
    tuple: Tuple<'_>,
    leaf: &Leaf,
) -> Option<u64>
    ensures { result ≡ number_at numbers.now hidden (map_of tuple.entry) leaf.now }
{
    if has_relation(hidden, leaf.part.rel) {
        return None;
    }
    match row_in(tuple, leaf.item) {
        Some(row) => number_in_item(numbers, leaf.item, leaf.place, row),
        None => None,
    }
}

/// The row of an item in a tuple.
fn row_in(tuple: Tuple<'_>, item: usize) -> Option<u64>
    ensures { result ≡ at (map_of tuple.entry) item }
{
    match tuple.rows.get(item) {
        Some(row) => *row,
        None => None,
    }
}

/// The number of a part's row in a row of the item.
fn number_in_item(numbers: &[Option<Numbers>], item: usize, place: usize, row: u64) -> Option<u64>
    ensures { result ≡ number_in (slice_index_or numbers.now item None) place row }
{
    match numbers.get(item) {
        Some(Some(own)) => number_of_tuple(own, place, row),
        _ => Some(row),
    }
}

/// The number at a place of a tuple, if both are there.
fn number_of_tuple(numbers: &Numbers, place: usize, row: u64) -> Option<u64>
    ensures { result ≡ number_in (Some numbers.now) place row }
{
    if row >= numbers.len() as u64 {
        return None;
    }
    match numbers.tuple(row as usize).get(place) {
        Some(number) => *number,
        None => None,
    }
}
