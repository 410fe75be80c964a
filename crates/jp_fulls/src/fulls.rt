ghost use Rattle.std.specs.Prelude.{◌≡◌, IfOk, length, map};
ghost use Rattle.jp_query.specs.Meaning.{Env};
ghost use Rattle.jp_query.specs.Refs.{union};
ghost use Rattle.jp_query.specs.Tables.{TableRows};
ghost use Rattle.jp_frame.specs.Methods.{rows_of_item};
ghost use Rattle.jp_framed.specs.Environments.{env_from, source_at};
ghost use Rattle.jp_joins.specs.Tuples.{maps_of};
ghost use Rattle.jp_lists.specs.Lists.{only_rows};
ghost use Rattle.jp_items.specs.Rows.{rows_meant};
ghost use Rattle.jp_items.specs.Scenes.{GivesScene, meant_by};
ghost use Rattle.jp_items.specs.Sights.{sources_in};
ghost use Rattle.jp_fulls.specs.Fulls.{HasNoRowsBeside, IsFullScene, alone_maps, full_envs, full_step, matched_maps, place_if, side_maps};

use crate::apart::{Apart, parts_of, taken_apart};
use crate::sides::add_numbers;
use bumpalo::Bump;
use jp_base::{Memory, RelSet, Row, SubNo};
use jp_items::{ItemRows, Layout, Numbers, Scene, SceneStep, lent_scene};
use jp_joins::{Tuple, nest, placed};
use jp_problem::Step;
use jp_query::{Expr, JoinKind};
use std::alloc::Global;

/// The tuples of a Full join, each with the row of the right side at place 0 and that of the left side at place 1.
#[derive(Drop)]
pub struct FullTuples<'t> {
    /// Each left row with its matches in right order, or alone where it has none.
    pub matched: Vec<Tuple<'t>>,
    /// The right rows that match no left one.
    pub alone: Vec<Tuple<'t>>,
}

/// The tuples of a Full join of the two items of a scene, the right side first.
pub fn full_tuples<'e, 't, S: Fn(Tuple<'t>, SubNo) -> Result<Vec<Row>, Memory>>(
    alloc: Global,
    scene: &Scene<'e>,
    on: &'e [Expr],
    subs: &S,
    arena: &'t Bump<Global>,
) -> Result<FullTuples<'t>, Memory>
    requires can { S.IsAlwaysCallable subs.now }
    requires gives { GivesScene scene.now (S.post subs.now) }
    requires full { IsFullScene scene.now on.now }
    ensures matched { IfOk result (λ t. maps_of t.matched.items ≡ matched_maps scene.now on.now) }
    ensures alone { IfOk result (λ t. maps_of t.alone.items ≡ alone_maps scene.now on.now) }
{
    let rights = side_tuples(alloc, scene, 0, arena)?;
    let lefts = side_tuples(alloc, scene, 1, arena)?;
    let left = full_step(scene, JoinKind::Left, on);
    let matched = nest(
        alloc,
        &left,
        subs,
        Step::By(1),
        lefts.as_slice(),
        rights.as_slice(),
        arena,
    )?;
    let anti = full_step(scene, JoinKind::Anti, on);
    let alone = nest(
        alloc,
        &anti,
        subs,
        Step::By(1),
        rights.as_slice(),
        lefts.as_slice(),
        arena,
    )?;
    Ok(FullTuples { matched, alone })
}

/// The step that tries the ON list at pairs of the sides.
fn full_step<'e>(scene: &Scene<'e>, kind: JoinKind, on: &'e [Expr]) -> SceneStep<'e>
    ensures { meant_by result ≡ full_step scene.now kind on.now }
{
    SceneStep {
        scene: lent_scene(scene),
        kind,
        key: None,
        on,
        filters: &[],
    }
}

/// The tuples of the rows of a side.
fn side_tuples<'t>(
    alloc: Global,
    scene: &Scene<'_>,
    side: usize,
    arena: &'t Bump<Global>,
) -> Result<Vec<Tuple<'t>>, Memory>
    ensures { IfOk result (λ v. maps_of v.items ≡ side_maps scene.now side) }
{
    let mut tuples = Vec::new(alloc);
    'rows: for row in 0..rows_of(scene, side) {
        let places = [place_if(side == 0, row), place_if(side == 1, row)];
        tuples.push(placed(arena, &places)?)?;
    }
    Ok(tuples)
}

/// How many rows a side has.
fn rows_of(scene: &Scene<'_>, side: usize) -> u64
    ensures { result ≡ length (source_at (sources_in scene.now.sight) side) }
{
    match scene.sight.sources.get(side) {
        Some(rows) => rows.rows(scene.sight.tables),
        None => 0,
    }
}

fn place_if(here: bool, row: u64) -> Option<u64>
    ensures { result ≡ place_if here row }
{
    if here { Some(row) } else { None }
}

/// The rows of a Full item, of its sides, the right one first, and its tuples. `rels` are the relations that are looked at.
pub fn full_rows(
    alloc: Global,
    rels: RelSet,
    sources: Vec<ItemRows>,
    layout: &Layout,
    left_rels: RelSet,
    tuples: &FullTuples<'_>,
) -> Result<ItemRows, Memory>
    ensures { (tables : TableRows) (outer : Env) → HasNoRowsBeside (union layout.now) rels outer →
        IfOk result (λ r. rows_meant tables r ≡ map (only_rows rels) (full_envs left_rels (env_from 0 layout.now (map (rows_meant tables) sources.items) outer) (maps_of tuples.now.matched.items) (maps_of tuples.now.alone.items))) }
{
    let apart = taken_apart(alloc, layout, sources)?;
    let mut numbers = Numbers::new(alloc, apart.leaves.len());
    add_numbers(
        alloc,
        &apart,
        RelSet::empty(),
        tuples.matched.as_slice(),
        &mut numbers,
    )?;
    add_numbers(
        alloc,
        &apart,
        left_rels,
        tuples.alone.as_slice(),
        &mut numbers,
    )?;
    let Apart { leaves, .. } = apart;
    let parts = parts_of(alloc, leaves)?;
    Ok(ItemRows::Joined {
        rels,
        parts,
        numbers,
    })
}
