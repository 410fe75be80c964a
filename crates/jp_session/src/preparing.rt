ghost use Rattle.std.specs.Prelude.{◌≡◌, [], IfOk};
ghost use Rattle.jp_catalog.specs.Sound.{IsSound};
ghost use Rattle.jp_prepared.specs.Planned.{IsPrepared};
ghost use Rattle.jp_query.specs.Conditions.{IsBounded, IsTyped};
ghost use Rattle.jp_query.specs.Freshness.{IsFresh};
ghost use Rattle.jp_query.specs.NoRight.{HasNoRight};
ghost use Rattle.jp_query.specs.Tables.{TableRows, Belong};
ghost use Rattle.jp_resolution.specs.Schemas.{schema_of};
ghost use Rattle.jp_session.specs.Blocks.{IsBlockList};
ghost use Rattle.jp_session.specs.Running.{CanRunStatement};
ghost use Rattle.jp_session.specs.Turned.{turned};
ghost use Rattle.jp_tree.specs.Prepared.{IsWhole};
ghost use Rattle.jp_tree.specs.declared.prepared.Block.{Block as ABlock};

use crate::blocks::{Made, blocks_of};
use crate::gathering::gathered;
use crate::names::names_of;
use jp_base::Memory;
use jp_catalog::Catalog;
use jp_fold::fold;
use jp_folded::{folding_keeps_fresh_queries, folding_keeps_typed_queries};
use jp_prepared::a_prepared_statement_is_whole;
use jp_query::Query;
use jp_tree::{Block, Pool, Prepared};
use sqlite_items::{Boxed, Items};
use std::alloc::Global;

/// The prepared statement of a query, which is folded first. Its blocks are the statement, each sub-select, each side of a
/// Full join and each sublink, of which copies have one block; each has its problem, the items of which cost what their blocks
/// cost, and the first of its legal trees as its plan. The names are those of the query as it is handed in. Memory is the
/// only error.
pub fn prepare(alloc: Global, catalog: &Catalog, query: Query) -> Result<Prepared, Memory>
    requires sound { IsSound catalog.now }
    requires typed { IsTyped (schema_of catalog.now) [] query }
    requires bounded { IsBounded (schema_of catalog.now) [] query }
    requires fresh { IsFresh query }
    ensures prepared { IfOk result (λ prepared. IsPrepared catalog.now query prepared) }
    ensures whole { IfOk result IsWhole }
    ensures runs { IfOk result (λ prepared. (tables : TableRows) → Belong (schema_of catalog.now) tables → CanRunStatement prepared tables) }
{
    a_prepared_statement_is_whole();
    folding_keeps_typed_queries();
    folding_keeps_fresh_queries();
    let names = names_of(alloc, catalog, &query)?;
    let query = fold(alloc, query)?;
    let list = planned_blocks(alloc, catalog, Boxed::new(alloc, query)?)?;
    Ok(Prepared {
        blocks: list.blocks,
        pool: list.pool,
        names,
    })
}

/// The blocks of a statement, by their numbers, and their plans.
#[derive(Drop)]
struct BlockList {
    blocks: Items<Block>,
    pool: Pool,
}

fn planned_blocks(
    alloc: Global,
    catalog: &Catalog,
    query: Boxed<Query>,
) -> Result<BlockList, Memory>
    requires sound { IsSound catalog.now }
    requires typed { IsTyped (schema_of catalog.now) [] query }
    requires bounded { IsBounded (schema_of catalog.now) [] query }
    requires no_right { HasNoRight query }
    requires fresh { IsFresh query }
    ensures { IfOk result (λ list. IsBlockList catalog.now query list.blocks list.pool.nodes) }
{
    let entries = gathered(alloc, query)?;
    let made = blocks_of(alloc, catalog, entries.as_slice())?;
    let Made { blocks, pool, .. } = made;
    let blocks = from_end(alloc, blocks)?;
    Ok(BlockList { blocks, pool })
}

/// The blocks in the opposite order: the last one is block 0.
fn from_end(alloc: Global, blocks: Vec<Block>) -> Result<Items<Block>, Memory>
    ensures { IfOk result (λ list. list ≡ turned (λ (block : ABlock). block) blocks.items) }
{
    let mut blocks = blocks;
    let mut list = Items::new(alloc);
    'left: while let Some(block) = blocks.pop() {
        list.push(block)?;
    }
    Ok(list)
}
