ghost use Rattle.std.specs.Prelude.{◌≡◌, ◌<◌, ◌^◌, IfOk, map};
ghost use Rattle.jp_query.specs.Refs.{union};
ghost use Rattle.jp_problem.specs.Problems.{problem_rels, rels_of_item};
ghost use Rattle.jp_lists.specs.Lists.{around_block, block_of_sublink, is_of_sublink, rels_of_block};
ghost use Rattle.jp_items.specs.Params.{Cells, env_given};

use jp_base::{Memory, RelSet, SubNo};
use jp_items::Layout;
use jp_problem::Item;
use jp_problem::sets::{both, nothing};
use jp_tree::{Block, Prepared};
use std::alloc::Global;

/// The relations of each of the block's items, by place.
pub fn layout_of(alloc: Global, block: &Block) -> Result<Layout, Memory>
    ensures { IfOk result (λ layout. layout ≡ problem_rels block.now.problem) }
{
    let rels = rels_of_items(alloc, block.problem.items.as_slice())?;
    let layout = Layout::new(alloc, rels)?;
    Ok(layout)
}

fn rels_of_items(alloc: Global, items: &[Item]) -> Result<Vec<RelSet>, Memory>
    ensures { IfOk result (λ v. v.items ≡ map rels_of_item items.now) }
{
    let mut rels = Vec::new(alloc);
    'items: for item in items {
        rels.push(item.rels)?;
    }
    Ok(rels)
}

/// The relations of the block's items.
pub fn own_relations(block: &Block) -> RelSet
    ensures is { result ≡ union (problem_rels block.now.problem) }
    ensures below { result < 2 ^ 64 }
{
    rels_in(block.problem.items.as_slice())
}

fn rels_in(items: &[Item]) -> RelSet
    ensures is { result ≡ union (map rels_of_item items.now) }
    ensures below { result < 2 ^ 64 }
{
    let mut rels = nothing();
    'items: for item in items {
        rels = both(rels, item.rels);
    }
    rels
}

/// The relations of the items of the block of this number; none where there is no such block.
pub fn relations_of(prepared: &Prepared, number: usize) -> RelSet
    ensures is { result ≡ rels_of_block prepared.now.blocks number }
    ensures below { result < 2 ^ 64 }
{
    match prepared.blocks.as_slice().get(number) {
        Some(block) => own_relations(block),
        None => nothing(),
    }
}

/// The relations that have a row around a block's items: those outside, but for the block's own.
pub fn present_around(present: RelSet, block: &Block) -> RelSet
    ensures around { (cells : Cells) → env_given cells result ≡ around_block block.now (env_given cells present) }
    ensures below { result < 2 ^ 64 }
    ensures own { union (problem_rels block.now.problem) < 2 ^ 64 }
{
    present.minus(own_relations(block))
}

/// The place of the first block that is the query of the sublink; the number of blocks where there is none.
pub fn block_of_sublink(blocks: &[Block], sub: SubNo) -> usize
    ensures { result ≡ block_of_sublink blocks.now sub }
{
    'blocks: for at in 0..blocks.len() {
        if is_of(blocks[at].sub, sub) {
            return at;
        }
    }
    blocks.len()
}

fn is_of(named: Option<SubNo>, sub: SubNo) -> bool
    ensures { result ≡ is_of_sublink sub named }
{
    match named {
        Some(number) => number == sub,
        None => false,
    }
}
