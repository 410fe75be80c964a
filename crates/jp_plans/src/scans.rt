ghost use Rattle.std.specs.Prelude.{◌≡◌, ◌<◌, All, IfOk, length, map};
ghost use Rattle.jp_framed.specs.Environments.{source_at};
ghost use Rattle.jp_frame.specs.Methods.{none_row, one_row, rows_of_item};
ghost use Rattle.jp_indexes.specs.Indexes.{IsIndex};
ghost use Rattle.jp_items.specs.Scenes.{GivesScene, IsScene, run_of};
ghost use Rattle.jp_items.specs.Sights.{sources_in};
ghost use Rattle.jp_joins.specs.Tuples.{maps_of};
ghost use Rattle.jp_lists.specs.Steps.{scan_list};
ghost use Rattle.jp_plans.specs.Lookups.{AreEnough};
ghost use Rattle.jp_problem.specs.StepClauses.{scan_clauses};

use crate::lookups::numbers_to_test;
use bumpalo::Bump;
use jp_base::{ItemNo, Memory, Row, SubNo};
use jp_indexes::Index;
use jp_items::{Scene, SceneStep, lent_scene};
use jp_joins::{Tuple, nest, placed};
use jp_problem::{Problem, Step, scan_clauses};
use jp_query::{Expr, JoinKind};
use jp_tree::Block;
use std::alloc::Global;

/// The tuples of an item's rows that make its scan clauses true, in the arena.
pub fn scan_tuples<'e, 't, S: Fn(Tuple<'t>, SubNo) -> Result<Vec<Row>, Memory>>(
    alloc: Global,
    scene: &Scene<'e>,
    indexes: &[Index<'_>],
    block: &'e Block,
    subs: &S,
    item: ItemNo,
    arena: &'t Bump<Global>,
) -> Result<Vec<Tuple<'t>>, Memory>
    requires can { S.IsAlwaysCallable subs.now }
    requires gives { GivesScene scene.now (S.post subs.now) }
    requires scene { IsScene scene.now block.now }
    requires indexes { All (IsIndex scene.now.sight.tables.now.list) indexes.now }
    requires item { item < length block.now.problem.items }
    ensures { IfOk result (λ v. maps_of v.items ≡ scan_list (run_of scene.now) block.now.problem item) }
{
    let problem = &block.problem;
    let clauses = scan_clauses(alloc, problem, item)?;
    let tuples = tuples_to_test(
        alloc,
        scene,
        indexes,
        problem,
        item as usize,
        clauses.items(),
        arena,
    )?;
    if clauses.items().is_empty() {
        return Ok(tuples);
    }
    let step = SceneStep {
        scene: lent_scene(scene),
        kind: JoinKind::Left,
        key: None,
        on: &[],
        filters: clauses.items(),
    };
    // A left join to nothing keeps the rows that make its filters true, whatever its number.
    let list = nest(
        alloc,
        &step,
        subs,
        Step::By(0),
        tuples.as_slice(),
        &[],
        arena,
    )?;
    Ok(list)
}

/// The tuples of an item's rows, or of those that an index finds for its scan clauses.
fn tuples_to_test<'t>(
    alloc: Global,
    scene: &Scene<'_>,
    indexes: &[Index<'_>],
    problem: &Problem,
    item: usize,
    clauses: &[Expr],
    arena: &'t Bump<Global>,
) -> Result<Vec<Tuple<'t>>, Memory>
    requires indexes { All (IsIndex scene.now.sight.tables.now.list) indexes.now }
    requires item { item < length problem.now.items }
    requires clauses { clauses.now ≡ scan_clauses problem.now item }
    ensures { IfOk result (λ v. AreEnough scene.now problem.now item (maps_of v.items)) }
{
    let items = problem.items.len();
    match numbers_to_test(scene, indexes, item, clauses) {
        Some(numbers) => {
            let tuples = listed_tuples(alloc, items, item, numbers, arena)?;
            Ok(tuples)
        }
        None => {
            let rows = rows_of(scene, item);
            let tuples = item_tuples(alloc, items, item, rows, arena)?;
            Ok(tuples)
        }
    }
}

/// How many rows an item has.
fn rows_of(scene: &Scene<'_>, item: usize) -> u64
    ensures { result ≡ length (source_at (sources_in scene.now.sight) item) }
{
    match scene.sight.sources.get(item) {
        Some(rows) => rows.rows(scene.sight.tables),
        None => 0,
    }
}

/// The tuples of so many rows of an item, in which no other item has a row.
fn item_tuples<'t>(
    alloc: Global,
    items: usize,
    item: usize,
    rows: u64,
    arena: &'t Bump<Global>,
) -> Result<Vec<Tuple<'t>>, Memory>
    requires { item < items }
    ensures { IfOk result (λ v. maps_of v.items ≡ rows_of_item items item 0 rows) }
{
    let mut places = no_rows(alloc, items)?;
    let mut tuples = Vec::new(alloc);
    'rows: for row in 0..rows {
        places[item] = Some(row);
        tuples.push(placed(arena, places.as_slice())?)?;
    }
    Ok(tuples)
}

/// The tuples of the rows with these numbers.
fn listed_tuples<'t>(
    alloc: Global,
    items: usize,
    item: usize,
    numbers: &[u64],
    arena: &'t Bump<Global>,
) -> Result<Vec<Tuple<'t>>, Memory>
    requires { item < items }
    ensures { IfOk result (λ v. maps_of v.items ≡ map (one_row items item) numbers.now) }
{
    let mut places = no_rows(alloc, items)?;
    let mut tuples = Vec::new(alloc);
    'numbers: for number in numbers {
        places[item] = Some(*number);
        tuples.push(placed(arena, places.as_slice())?)?;
    }
    Ok(tuples)
}

/// The places of so many items, of which none has a row.
fn no_rows(alloc: Global, items: usize) -> Result<Vec<Option<u64>>, Memory>
    ensures { IfOk result (λ v. v.items ≡ none_row items) }
{
    let mut places = Vec::new(alloc);
    'items: for _ in 0..items {
        places.push(None)?;
    }
    Ok(places)
}
