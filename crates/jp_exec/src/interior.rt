ghost use Rattle.std.specs.Prelude.{◌≡◌, ℕ, IfOk};
ghost use Rattle.jp_fulls.specs.Fulls.{full_envs};
ghost use Rattle.jp_problem.specs.declared.types.Item.{Item};
ghost use Rattle.jp_query.specs.Meaning.{Env};
ghost use Rattle.jp_query.specs.Tables.{rows_of_tables};
ghost use Rattle.jp_tree.specs.declared.prepared.Block.{Block as Part};
ghost use Rattle.jp_joins.specs.Tuples.{maps_of};
ghost use Rattle.jp_tree.specs.PlanTrees.{tree_at};
ghost use Rattle.jp_lists.specs.Lists.{kind_source, rels_of_block};
ghost use Rattle.jp_lists.specs.Steps.{tree_list};
ghost use Rattle.jp_items.specs.Sights.{env_around};
ghost use Rattle.jp_exec.specs.Interiors.{GivesInside, IsFullInterior, IsInterior, IsInteriorOf, IsInteriorOfSides, IsSomeFull, IsSomeInterior, interior_env, interior_run};
ghost use Rattle.jp_exec.specs.Running.{given_by, tables_of};

use crate::execution::Execution;
use crate::places::layout_of;
use bumpalo::Bump;
use jp_base::{Memory, RelSet, Row, SubNo};
use jp_fulls::{FullTuples, full_tuples};
use jp_items::{Around, ItemRows, Layout, Scene, Sight};
use jp_joins::Tuple;
use jp_outputs::{block_rows, sublinks_of};
use jp_plans::plan_tuples;
use jp_query::Expr;
use jp_tree::Block;
use std::alloc::Global;

/// What is known inside a block that runs: the rows of its items, their relations by place, and the numbers of its
/// sublinks.
#[derive(Drop)]
pub struct Interior {
    pub sources: Vec<ItemRows>,
    pub layout: Layout,
    pub sublinks: Vec<SubNo>,
}

/// The interior of a block whose items have these rows.
pub fn interior_of(alloc: Global, block: &Block, sources: Vec<ItemRows>) -> Result<Interior, Memory>
    ensures { IfOk result (λ interior. IsInteriorOf block.now sources.items interior) }
{
    let layout = layout_of(alloc, block)?;
    let sublinks = sublinks_of(alloc, block)?;
    Ok(Interior {
        sources,
        layout,
        sublinks,
    })
}

/// The interior of the two sides of a Full item of a block, the right side first.
pub fn interior_of_sides(
    alloc: Global,
    block: &Block,
    right: ItemRows,
    right_rels: RelSet,
    left: ItemRows,
    left_rels: RelSet,
) -> Result<Interior, Memory>
    ensures { IfOk result (λ interior. IsInteriorOfSides block.now right right_rels left left_rels interior) }
{
    let mut sources = Vec::new(alloc);
    sources.push(right)?;
    sources.push(left)?;
    let mut rels = Vec::new(alloc);
    rels.push(right_rels)?;
    rels.push(left_rels)?;
    let layout = Layout::new(alloc, rels)?;
    let sublinks = sublinks_of(alloc, block)?;
    Ok(Interior {
        sources,
        layout,
        sublinks,
    })
}

/// The scene of what is known.
fn scene_in<'e>(run: &Execution<'e>, around: &Around<'e>, interior: &'e Interior) -> Scene<'e>
    ensures prepared { result.prepared.now ≡ run.now.prepared.now }
    ensures tables { result.sight.tables.now ≡ run.now.tables.now }
    ensures around { result.sight.around ≡ around.now }
    ensures sources { result.sight.sources.now ≡ interior.now.sources.items }
    ensures layout { result.sight.layout.now ≡ interior.now.layout }
    ensures sublinks { result.sublinks.now ≡ interior.now.sublinks.items }
{
    Scene {
        prepared: run.prepared,
        sight: Sight {
            tables: run.tables,
            around: Around {
                cells: around.cells,
                present: around.present,
            },
            sources: interior.sources.as_slice(),
            layout: &interior.layout,
        },
        sublinks: interior.sublinks.as_slice(),
    }
}

/// The tuples that a block's plan lists inside it.
pub fn tuples_inside<'e, 't, S: Fn(Tuple<'t>, SubNo) -> Result<Vec<Row>, Memory>>(
    run: &Execution<'e>,
    block: &'e Block,
    around: &Around<'e>,
    interior: &'e Interior,
    subs: &S,
    arena: &'t Bump<Global>,
) -> Result<Vec<Tuple<'t>>, Memory>
    requires can { S.IsAlwaysCallable subs.now }
    requires gives { GivesInside run.now around.now interior.now (S.post subs.now) }
    requires inside { IsSomeInterior run.now block.now around.now interior.now }
    ensures { IfOk result (λ v. maps_of v.items ≡ tree_list (interior_run run.now around.now interior.now) block.now.problem (tree_at run.now.prepared.now.pool.nodes block.now.plan)) }
{
    let scene = scene_in(run, around, interior);
    let tuples = plan_tuples(run.alloc, &scene, run.indexes, block, subs, arena)?;
    Ok(tuples)
}

/// The rows of a block, of the tuples that its plan lists.
pub fn rows_inside<'e, 't, S: Fn(Tuple<'t>, SubNo) -> Result<Vec<Row>, Memory>>(
    run: &Execution<'e>,
    block: &Block,
    around: &Around<'e>,
    interior: &'e Interior,
    subs: &S,
    tuples: &[Tuple<'t>],
) -> Result<Vec<Row>, Memory>
    requires can { S.IsAlwaysCallable subs.now }
    requires gives { GivesInside run.now around.now interior.now (S.post subs.now) }
    requires inside { IsSomeInterior run.now block.now around.now interior.now }
    requires tuples { maps_of tuples.now ≡ tree_list (interior_run run.now around.now interior.now) block.now.problem (tree_at run.now.prepared.now.pool.nodes block.now.plan) }
    ensures { (number : ℕ) (outer : Env) → IsInterior run.now number outer block.now around.now interior.now → IfOk result (λ v. v.items ≡ (given_by run.now number outer).rows) }
{
    let scene = scene_in(run, around, interior);
    let rows = block_rows(run.alloc, &scene, block, subs, tuples)?;
    Ok(rows)
}

/// The tuples of a Full item, of its two sides.
pub fn full_inside<'e, 't, S: Fn(Tuple<'t>, SubNo) -> Result<Vec<Row>, Memory>>(
    run: &Execution<'e>,
    on: &'e [Expr],
    around: &Around<'e>,
    interior: &'e Interior,
    subs: &S,
    arena: &'t Bump<Global>,
) -> Result<FullTuples<'t>, Memory>
    requires can { S.IsAlwaysCallable subs.now }
    requires gives { GivesInside run.now around.now interior.now (S.post subs.now) }
    requires inside { IsSomeFull run.now on.now around.now interior.now }
    ensures { (number : ℕ) (outer : Env) (block : Part) (item : Item) (left : ℕ) (right : ℕ) → IsFullInterior run.now number outer block item left right on.now around.now interior.now →
        IfOk result (λ t. full_envs (rels_of_block run.now.prepared.now.blocks left) (interior_env run.now around.now interior.now) (maps_of t.matched.items) (maps_of t.alone.items)
        ≡ kind_source run.now.prepared.now.blocks (rows_of_tables (tables_of run.now)) (given_by run.now) (env_around around.now) item.kind) }
{
    let scene = scene_in(run, around, interior);
    let tuples = full_tuples(run.alloc, &scene, on, subs, arena)?;
    Ok(tuples)
}
