#![tactic(auto, using(crate::proofs::ItemLaws::leaves, jp_special::proofs::BlockSize::block_sizes))]

ghost use Rattle.std.specs.Prelude.{◌≡◌, ◌++◌, ◌<◌, ◌≤◌, ◌^◌, All, IfOk, OnOk, length, map, slice_get, true, Some, take};
ghost use Rattle.std.specs.List.{flat_map, list_any};
ghost use Rattle.jp_session.specs.declared.prices.Price.{Price as APrice};
ghost use Rattle.jp_prepared.specs.Items.{distinct_of, distinct_values, is_key};
ghost use Rattle.jp_prepared.specs.Sources.{items_of_block, queries_of_items};
ghost use Rattle.jp_problem.specs.Blocks.{known_rels};
ghost use Rattle.jp_problem.specs.InnerBlocks.{blocks_of_item};
ghost use Rattle.jp_problem.specs.Made.{IsBlock};
ghost use Rattle.jp_problem.specs.Shapes.{items_in, shape_of, together};
ghost use Rattle.jp_session.specs.Items.{AreItems, HasTable, lent, IsBounded, IsItemOf, full_of, is_item, number_of, select_of, table_of};
ghost use Rattle.jp_session.specs.Parts.{is_full};

use crate::prices::Price;
use crate::sources::is_full;
use jp_base::{Memory, RelNo, RelSet};
use jp_catalog::{Catalog, Key, TableDef};
use jp_problem::{Item, ItemKind};
use jp_query::{Expr, JoinTree, Query};
use jp_special::outline;
use sqlite_items::Items;
use std::alloc::Global;

/// What items are made from: the catalogue, the prices of the blocks that are made, by their places, and how many blocks
/// there will be.
#[derive(Clone, Copy)]
pub struct Making<'m> {
    pub catalog: &'m Catalog,
    pub prices: &'m [Price],
    pub count: usize,
}

/// Whether the only column of the key is this one.
fn is_key(key: &Key, column: usize) -> bool
    ensures { result ≡ is_key column key.now }
{
    match key.columns.as_slice() {
        [only] => *only as usize == column,
        _ => false,
    }
}

/// Whether the column is a key of the table by itself.
fn is_key_of(def: &TableDef, column: usize) -> bool
    ensures { result ≡ list_any (is_key column) def.now.keys }
{
    def.keys.as_slice().iter().any(|key| is_key(key, column))
}

/// How many distinct values a column of a table is said to have.
fn distinct_values(def: &TableDef, column: usize) -> u64
    ensures { result ≡ distinct_values def.now column }
{
    let rows = def.rows as u64;
    if is_key_of(def, column) {
        rows
    } else {
        (rows / 10).max(1)
    }
}

/// How many distinct values each column of a table is said to have.
fn distinct_of(alloc: Global, def: &TableDef) -> Result<Items<u64>, Memory>
    ensures { IfOk result (λ distinct. distinct ≡ distinct_of def.now) }
{
    let mut distinct = Items::new(alloc);
    'columns: for column in 0..def.columns.len() {
        distinct.push(distinct_values(def, column))?;
    }
    Ok(distinct)
}

/// A table: its scan costs its rows.
fn table_item(
    alloc: Global,
    rel: RelNo,
    table: u32,
    rels: RelSet,
    def: &TableDef,
) -> Result<Item, Memory>
    ensures is { IfOk result (λ item. item ≡ table_of rels rel table def.now) }
    ensures rows { IfOk result (λ item. def.now.rows ≤ 2 ^ 60) }
{
    let distinct = distinct_of(alloc, def)?;
    Ok(Item {
        kind: ItemKind::Base { rel, table },
        rels,
        rows: def.rows as u64,
        cost: def.rows as u128,
        distinct,
    })
}

/// The number of the block at a place; the last block is block 0.
fn number_of(making: Making<'_>, place: usize) -> u32
    requires there { place < length making.prices.now }
    requires more { length making.prices.now < making.count }
    requires few { making.count ≤ 2 ^ 32 }
    ensures { result ≡ number_of making.entry.count place }
{
    (making.count - 1 - place) as u32
}

/// A sub-select: its block is run, and its rows are scanned.
fn select_item(alloc: Global, making: Making<'_>, rel: RelNo, rels: RelSet, place: usize) -> Item
    requires there { place < length making.prices.now }
    requires more { length making.prices.now < making.count }
    requires few { making.count ≤ 2 ^ 32 }
    requires bounded { All IsBounded making.prices.now }
    ensures { (price : APrice) → slice_get making.entry.prices.now place ≡ Some price → result ≡ select_of rels rel (number_of making.entry.count place) price }
{
    let price = making.prices[place];
    Item {
        kind: ItemKind::Sub {
            rel,
            block: number_of(making, place),
        },
        rels,
        rows: price.rows,
        cost: price.rows as u128 + price.cost,
        distinct: Items::new(alloc),
    }
}

/// A Full join: its sides are run, each row of the one is put beside each of the other, and its rows are scanned.
fn full_item(
    alloc: Global,
    making: Making<'_>,
    on: Items<Expr>,
    rels: RelSet,
    left: usize,
    right: usize,
) -> Item
    requires left { left < length making.prices.now }
    requires right { right < length making.prices.now }
    requires more { length making.prices.now < making.count }
    requires few { making.count ≤ 2 ^ 32 }
    requires bounded { All IsBounded making.prices.now }
    ensures { (lp rp : APrice) → slice_get making.entry.prices.now left ≡ Some lp → slice_get making.entry.prices.now right ≡ Some rp →
        result ≡ full_of rels on (number_of making.entry.count left) (number_of making.entry.count right) lp rp }
{
    let first = making.prices[left];
    let second = making.prices[right];
    let rows = (first.rows + second.rows).min(1 << 60);
    let product = first.rows as u128 * second.rows as u128;
    Item {
        kind: ItemKind::Full {
            left: number_of(making, left),
            right: number_of(making, right),
            on,
        },
        rels,
        rows,
        cost: rows as u128 + (first.cost + (second.cost + product)),
        distinct: Items::new(alloc),
    }
}

/// The item of a leaf, from the places of its blocks, which stand first in the list.
fn item_of(
    alloc: Global,
    making: Making<'_>,
    leaf: &JoinTree,
    rels: RelSet,
    places: &[usize],
) -> Result<Item, Memory>
    requires leaf { is_item leaf.now ≡ true }
    requires table { HasTable making.catalog.now leaf.now }
    requires places { length (blocks_of_item leaf.now) ≤ length places.now }
    requires there { All (λ place. place < length making.prices.now) places.now }
    requires more { length making.prices.now < making.count }
    requires few { making.count ≤ 2 ^ 32 }
    requires bounded { All IsBounded making.prices.now }
    ensures { IfOk result (λ item. IsItemOf making.entry.catalog.now making.entry.prices.now making.entry.count rels leaf.now (take (length (blocks_of_item leaf.now)) places.now) item) }
{
    match leaf {
        JoinTree::Base { rel, table, .. } => match making
            .catalog
            .tables
            .get_index(*table as usize)
        {
            Some((_, def)) => {
                let item = table_item(alloc, *rel, *table, rels, def)?;
                Ok(item)
            }
            None => unreachable!(),
        },
        JoinTree::Sub { rel, .. } => {
            let item = select_item(alloc, making, *rel, rels, places[0]);
            Ok(item)
        }
        JoinTree::Join { on, .. } => {
            let on = copy_list(alloc, on.as_slice())?;
            let item = full_item(alloc, making, on, rels, places[0], places[1]);
            Ok(item)
        }
        JoinTree::From { .. } => unreachable!(),
    }
}

fn copy_list(alloc: Global, exprs: &[Expr]) -> Result<Items<Expr>, Memory>
    ensures { IfOk result (λ copies. copies ≡ exprs.now) }
{
    let mut copies = Items::new(alloc);
    'exprs: for expr in exprs {
        copies.push(expr.copy(alloc)?)?;
    }
    Ok(copies)
}

/// How many blocks an item uses.
fn blocks_of(leaf: &JoinTree) -> usize
    ensures { result ≡ length (blocks_of_item leaf.now) }
{
    match leaf {
        JoinTree::Base { .. } => 0,
        JoinTree::Sub { .. } => 1,
        JoinTree::Join { .. } => 2,
        JoinTree::From { .. } => 0,
    }
}

/// The leaves of a tree that are items, from left to right; a Full join is one.
#[cycle(leaves)]
fn push_leaves<'q>(tree: &'q JoinTree, leaves: &mut Vec<&'q JoinTree>) -> Result<(), Memory>
    ensures { OnOk result (lent leaves.new.items ≡ lent leaves.old.items ++ items_in (shape_of tree.now)) }
{
    match tree {
        JoinTree::Base { .. } => {
            leaves.push(tree)?;
            Ok(())
        }
        JoinTree::Sub { .. } => {
            leaves.push(tree)?;
            Ok(())
        }
        JoinTree::Join {
            kind,
            left,
            right,
            ..
        } => {
            if is_full(*kind) {
                leaves.push(tree)?;
                Ok(())
            } else {
                push_leaves(left.get(), leaves)?;
                push_leaves(right.get(), leaves)?;
                Ok(())
            }
        }
        JoinTree::From { members, .. } => {
            push_leaves_of(members.as_slice(), leaves)?;
            Ok(())
        }
    }
}

#[cycle(leaves)]
fn push_leaves_of<'q>(members: &'q [JoinTree], leaves: &mut Vec<&'q JoinTree>) -> Result<(), Memory>
    ensures { OnOk result (lent leaves.new.items ≡ lent leaves.old.items ++ items_in (together (map shape_of members.now))) }
{
    'members: for member in members {
        push_leaves(member, leaves)?;
    }
    Ok(())
}

/// The items of a block, from left to right, with the places of the blocks that they use one after another.
pub fn items_of(
    alloc: Global,
    making: Making<'_>,
    query: &Query,
    inner: &[usize],
) -> Result<Vec<Item>, Memory>
    requires block { IsBlock query.now }
    requires tables { All (HasTable making.catalog.now) (items_of_block query.now) }
    requires places { length inner.now ≡ length (queries_of_items query.now) }
    requires there { All (λ place. place < length making.prices.now) inner.now }
    requires more { length making.prices.now < making.count }
    requires few { making.count ≤ 2 ^ 32 }
    requires bounded { All IsBounded making.prices.now }
    ensures { IfOk result (λ items. AreItems making.entry.catalog.now making.entry.prices.now making.entry.count (items_of_block query.now) inner.now items.items) }
{
    let outline = outline(alloc, query)?;
    let mut leaves = Vec::new(alloc);
    push_leaves(&query.tree, &mut leaves)?;
    let items = each_item(
        alloc,
        making,
        leaves.as_slice(),
        outline.rels.as_slice(),
        inner,
    )?;
    Ok(items)
}

fn each_item(
    alloc: Global,
    making: Making<'_>,
    leaves: &[&JoinTree],
    rels: &[RelSet],
    inner: &[usize],
) -> Result<Vec<Item>, Memory>
    requires rels { rels.now ≡ map known_rels (lent leaves.now) }
    requires leaves { All (λ leaf. is_item leaf ≡ true) (lent leaves.now) }
    requires tables { All (HasTable making.catalog.now) (lent leaves.now) }
    requires places { length inner.now ≡ length (flat_map blocks_of_item (lent leaves.now)) }
    requires there { All (λ place. place < length making.prices.now) inner.now }
    requires more { length making.prices.now < making.count }
    requires few { making.count ≤ 2 ^ 32 }
    requires bounded { All IsBounded making.prices.now }
    ensures { IfOk result (λ items. AreItems making.entry.catalog.now making.entry.prices.now making.entry.count (lent leaves.now) inner.now items.items) }
{
    let mut items = Vec::new(alloc);
    let mut next = 0;
    'leaves: for at in 0..leaves.len() {
        let leaf = leaves[at];
        items.push(item_of(alloc, making, leaf, rels[at], &inner[next..])?)?;
        next += blocks_of(leaf);
    }
    Ok(items)
}
