ghost use Rattle.std.specs.Prelude.{◌≡◌, ◌<◌, IfOk, IsTrue, Contains, length, map};
ghost use Rattle.jp_induction.specs.Each.{Each};
ghost use Rattle.jp_lists.specs.Lists.{block_of_sublink as block_listed};
ghost use Rattle.jp_tree.specs.BlockParts.{IsBlockAt, blocks_of_item, item_blocks};
ghost use Rattle.jp_tree.specs.BlockParts.{sublinks_of as sublinks};
ghost use Rattle.jp_tree.specs.Prepared.{IsWhole};
ghost use Rattle.jp_outputs.specs.Exprs.{sublink_number};
ghost use Rattle.jp_exec.specs.Given.{RefersWithin};

use crate::places::{block_of_sublink, own_relations};
use jp_base::{Memory, RelSet, SubNo};
use jp_outputs::{names_only, sublinks_of};
use jp_problem::sets::{both, nothing};
use jp_problem::{Item, ItemKind};
use jp_tree::{Block, Prepared};
use std::alloc::Global;

/// Whether the block sees nothing of what stands around it: it has no outer reference, and asks for no presence of a
/// relation outside.
pub fn is_closed(alloc: Global, prepared: &Prepared, number: usize) -> Result<bool, Memory>
    requires whole { IsWhole prepared.now }
    requires there { number < length prepared.now.blocks }
    ensures { IfOk result (λ b. IsTrue b → RefersWithin prepared.now 0 number) }
{
    let closed = refers_within(alloc, prepared, number, nothing())?;
    Ok(closed)
}

/// Whether the block's outer references are to these relations, and it asks for the presence of no others.
#[cycle(closed)]
fn refers_within(
    alloc: Global,
    prepared: &Prepared,
    number: usize,
    set: RelSet,
) -> Result<bool, Memory>
    requires whole { IsWhole prepared.now }
    requires there { number < length prepared.now.blocks }
    ensures { IfOk result (λ b. IsTrue b → RefersWithin prepared.now set number) }
{
    let block = &prepared.blocks.as_slice()[number];
    let inside = both(set, own_relations(block));
    let named = names_only(alloc, block, inside)?;
    if !named {
        return Ok(false);
    }
    let items = items_within(alloc, prepared, number, block, inside)?;
    if !items {
        return Ok(false);
    }
    let numbers = sublinks_of(alloc, block)?;
    let all = sublinks_within(alloc, prepared, number, block, numbers.as_slice(), inside)?;
    Ok(all)
}

#[cycle(closed)]
fn items_within(
    alloc: Global,
    prepared: &Prepared,
    number: usize,
    block: &Block,
    set: RelSet,
) -> Result<bool, Memory>
    requires whole { IsWhole prepared.now }
    requires there { IsBlockAt prepared.now number block.now }
    ensures { IfOk result (λ b. IsTrue b → Each (RefersWithin prepared.now set) (item_blocks block.now)) }
{
    'items: for item in block.problem.items.as_slice() {
        let within = item_within(alloc, prepared, number, block, item, set)?;
        if !within {
            return Ok(false);
        }
    }
    Ok(true)
}

#[cycle(closed)]
fn item_within(
    alloc: Global,
    prepared: &Prepared,
    number: usize,
    block: &Block,
    item: &Item,
    set: RelSet,
) -> Result<bool, Memory>
    requires whole { IsWhole prepared.now }
    requires there { IsBlockAt prepared.now number block.now }
    requires held { Contains block.now.problem.items item.now }
    ensures { IfOk result (λ b. IsTrue b → Each (RefersWithin prepared.now set) (blocks_of_item item.now)) }
{
    match &item.kind {
        ItemKind::Base { .. } => Ok(true),
        ItemKind::Sub { block, .. } => {
            let within = refers_within(alloc, prepared, *block as usize, set)?;
            Ok(within)
        }
        ItemKind::Full { left, right, .. } => {
            let within = refers_within(alloc, prepared, *left as usize, set)?;
            if !within {
                return Ok(false);
            }
            let within = refers_within(alloc, prepared, *right as usize, set)?;
            Ok(within)
        }
    }
}

/// Whether this holds of the blocks of all of the block's sublinks, whose numbers are handed in.
#[cycle(closed)]
fn sublinks_within(
    alloc: Global,
    prepared: &Prepared,
    number: usize,
    block: &Block,
    numbers: &[SubNo],
    set: RelSet,
) -> Result<bool, Memory>
    requires whole { IsWhole prepared.now }
    requires there { IsBlockAt prepared.now number block.now }
    requires own { numbers.now ≡ map sublink_number (sublinks block.now) }
    ensures { IfOk result (λ b. IsTrue b → Each (RefersWithin prepared.now set) (map (block_listed prepared.now.blocks) numbers.now)) }
{
    'sublinks: for sub in numbers {
        let within = sublink_within(alloc, prepared, number, block, *sub, set)?;
        if !within {
            return Ok(false);
        }
    }
    Ok(true)
}

#[cycle(closed)]
fn sublink_within(
    alloc: Global,
    prepared: &Prepared,
    number: usize,
    block: &Block,
    sub: SubNo,
    set: RelSet,
) -> Result<bool, Memory>
    requires whole { IsWhole prepared.now }
    requires there { IsBlockAt prepared.now number block.now }
    requires own { Contains (map sublink_number (sublinks block.now)) sub }
    ensures { IfOk result (λ b. IsTrue b → RefersWithin prepared.now set (block_listed prepared.now.blocks sub)) }
{
    let inner = block_of_sublink(prepared.blocks.as_slice(), sub);
    let within = refers_within(alloc, prepared, inner, set)?;
    Ok(within)
}
