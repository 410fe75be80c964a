ghost use Rattle.std.specs.Prelude.{◌≡◌, List, All, IfOk, OnOk};
ghost use Rattle.jp_indexes.specs.Indexes.{IsIndex};
ghost use Rattle.jp_items.specs.Scenes.{GivesScene, IsScene, run_of};
ghost use Rattle.jp_joins.specs.Tuples.{maps_of};
ghost use Rattle.jp_lists.specs.Steps.{tree_list};
ghost use Rattle.jp_plans.specs.Operators.{AreParts, CanDo, done, operators_of};
ghost use Rattle.jp_problem.specs.Trees.{IsLegalTree, Tree};
ghost use Rattle.jp_tree.specs.PlanTrees.{tree_at};

use crate::operators::{Operator, push_operators};
use crate::scans::scan_tuples;
use crate::steps::{Part, step_tuples};
use bumpalo::Bump;
use jp_base::{Memory, Row, SubNo};
use jp_indexes::Index;
use jp_items::Scene;
use jp_joins::Tuple;
use jp_problem::sets::{both, one};
use jp_tree::Block;
use std::alloc::Global;

/// The tuples that the block's plan lists, in their order, in the arena. Where an index has the rows that can make a scan
/// clause true, the scan tests these alone.
pub fn plan_tuples<'e, 't, S: Fn(Tuple<'t>, SubNo) -> Result<Vec<Row>, Memory>>(
    alloc: Global,
    scene: &Scene<'e>,
    indexes: &[Index<'_>],
    block: &'e Block,
    subs: &S,
    arena: &'t Bump<Global>,
) -> Result<Vec<Tuple<'t>>, Memory>
    requires can { S.IsAlwaysCallable subs.now }
    requires gives { GivesScene scene.now (S.post subs.now) }
    requires scene { IsScene scene.now block.now }
    requires indexes { All (IsIndex scene.now.sight.tables.now.list) indexes.now }
    ensures { IfOk result (λ v. maps_of v.items ≡ tree_list (run_of scene.now) block.now.problem (tree_at scene.now.prepared.now.pool.nodes block.now.plan)) }
{
    let pool = &scene.prepared.pool;
    pool.has_children_before();
    let mut operators = Vec::new(alloc);
    push_operators(pool, block.plan, &mut operators)?;
    let list = done_all(
        alloc,
        scene,
        indexes,
        block,
        subs,
        operators.as_slice(),
        arena,
    )?;
    Ok(list)
}

/// What the last of the operators gives, in the arena.
fn done_all<'e, 't, S: Fn(Tuple<'t>, SubNo) -> Result<Vec<Row>, Memory>>(
    alloc: Global,
    scene: &Scene<'e>,
    indexes: &[Index<'_>],
    block: &'e Block,
    subs: &S,
    operators: &[Operator],
    arena: &'t Bump<Global>,
) -> Result<Vec<Tuple<'t>>, Memory>
    requires can { S.IsAlwaysCallable subs.now }
    requires gives { GivesScene scene.now (S.post subs.now) }
    requires scene { IsScene scene.now block.now }
    requires indexes { All (IsIndex scene.now.sight.tables.now.list) indexes.now }
    requires legal { IsLegalTree block.now.problem (tree_at scene.now.prepared.now.pool.nodes block.now.plan) }
    requires operators { operators.now ≡ operators_of (tree_at scene.now.prepared.now.pool.nodes block.now.plan) }
    ensures { IfOk result (λ v. maps_of v.items ≡ tree_list (run_of scene.now) block.now.problem (tree_at scene.now.prepared.now.pool.nodes block.now.plan)) }
{
    let mut parts = Vec::new(alloc);
    'operators: for operator in operators {
        do_one(
            alloc, scene, indexes, block, subs, *operator, &mut parts, arena,
        )?;
    }
    match parts.pop() {
        Some(part) => Ok(part.tuples),
        None => unreachable!(),
    }
}

/// Does an operator: takes the parts that it needs from the end, and puts its own there.
fn do_one<'e, 't, S: Fn(Tuple<'t>, SubNo) -> Result<Vec<Row>, Memory>>(
    alloc: Global,
    scene: &Scene<'e>,
    indexes: &[Index<'_>],
    block: &'e Block,
    subs: &S,
    operator: Operator,
    parts: &mut Vec<Part<'t>>,
    arena: &'t Bump<Global>,
) -> Result<(), Memory>
    requires can { S.IsAlwaysCallable subs.now }
    requires gives { GivesScene scene.now (S.post subs.now) }
    requires scene { IsScene scene.now block.now }
    requires indexes { All (IsIndex scene.now.sight.tables.now.list) indexes.now }
    requires ready { CanDo (run_of scene.now) block.now.problem operator parts.old.items }
    ensures { OnOk result ((trees : List Tree) → AreParts (run_of scene.now) block.now.problem trees parts.old.items → AreParts (run_of scene.now) block.now.problem (done operator trees) parts.new.items) }
{
    match operator {
        Operator::Scan(item) => {
            let tuples = scan_tuples(alloc, scene, indexes, block, subs, item, arena)?;
            parts.push(Part {
                set: one(item),
                tuples,
            })?;
            Ok(())
        }
        Operator::Join(method, kind) => {
            let Some(right) = parts.pop() else {
                unreachable!()
            };
            let Some(left) = parts.pop() else {
                unreachable!()
            };
            let problem = &block.problem;
            let tuples = step_tuples(
                alloc, scene, problem, subs, method, kind, &left, &right, arena,
            )?;
            parts.push(Part {
                set: both(left.set, right.set),
                tuples,
            })?;
            Ok(())
        }
    }
}
