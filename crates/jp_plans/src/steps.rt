ghost use Rattle.std.specs.Prelude.{◌≡◌, IfOk};
ghost use Rattle.jp_items.specs.Scenes.{GivesScene, meant_by};
ghost use Rattle.jp_joins.specs.Conditions.{CanJoin};
ghost use Rattle.jp_joins.specs.Meant.{GivesRows};
ghost use Rattle.jp_joins.specs.Tuples.{maps_of};
ghost use Rattle.jp_lists.specs.Steps.{kind_of_join, method_list};
ghost use Rattle.jp_plans.specs.Known.{CanRun, known_step};
ghost use Rattle.jp_problem.specs.Keys.{on_of};
ghost use Rattle.jp_problem.specs.Problems.{join_of};

use crate::keys::key_sides;
use bumpalo::Bump;
use jp_base::{JoinNo, Memory, RelSet, Row, SubNo};
use jp_items::{Scene, SceneStep, lent_scene};
use jp_joins::{Tuple, hash, hash_right, merge, nest};
use jp_problem::{Method, Problem, Step, join_of, new_clauses};
use jp_query::{Expr, JoinKind};
use std::alloc::Global;

/// A part of a plan: its items, and the tuples that it lists.
#[derive(Drop)]
pub struct Part<'t> {
    pub set: RelSet,
    pub tuples: Vec<Tuple<'t>>,
}

/// The tuples of a step of two parts, in the arena.
pub fn step_tuples<'e, 't, S: Fn(Tuple<'t>, SubNo) -> Result<Vec<Row>, Memory>>(
    alloc: Global,
    scene: &Scene<'e>,
    problem: &'e Problem,
    subs: &S,
    method: Method,
    kind: Step,
    left: &Part<'t>,
    right: &Part<'t>,
    arena: &'t Bump<Global>,
) -> Result<Vec<Tuple<'t>>, Memory>
    requires can { S.IsAlwaysCallable subs.now }
    requires gives { GivesScene scene.now (S.post subs.now) }
    requires join { CanJoin (known_step scene.now problem.now left.now.set right.now.set kind) kind (maps_of left.now.tuples.items) (maps_of right.now.tuples.items) }
    requires run { CanRun method (known_step scene.now problem.now left.now.set right.now.set kind) (maps_of left.now.tuples.items) (maps_of right.now.tuples.items) }
    ensures { IfOk result (λ v. maps_of v.items ≡ method_list method (known_step scene.now problem.now left.now.set right.now.set kind) (maps_of left.now.tuples.items) (maps_of right.now.tuples.items)) }
{
    let lefts = left.tuples.as_slice();
    let rights = right.tuples.as_slice();
    let clauses = new_clauses(alloc, problem, left.set, right.set)?;
    let clauses = clauses.items();
    let items = problem.items.as_slice();
    match kind {
        Step::Inner => {
            let step = SceneStep {
                scene: lent_scene(scene),
                kind: JoinKind::Inner,
                key: key_sides(items, left.set, right.set, clauses),
                on: clauses,
                filters: &[],
            };
            let list = run_step(alloc, &step, subs, method, kind, lefts, rights, arena)?;
            Ok(list)
        }
        Step::By(number) => {
            let on = on_list(problem, number);
            let step = SceneStep {
                scene: lent_scene(scene),
                kind: kind_of(problem, number),
                key: key_sides(items, left.set, right.set, on),
                on,
                filters: clauses,
            };
            let list = run_step(alloc, &step, subs, method, kind, lefts, rights, arena)?;
            Ok(list)
        }
    }
}

/// The ON list of a join; empty where there is no such join.
fn on_list(problem: &Problem, number: JoinNo) -> &[Expr]
    ensures { result.now ≡ on_of (join_of problem.now.joins number) }
{
    match join_of(problem.joins.as_slice(), number) {
        Some(join) => join.on.as_slice(),
        None => &[],
    }
}

/// The kind of a join; Inner where there is no such join.
fn kind_of(problem: &Problem, number: JoinNo) -> JoinKind
    ensures { result ≡ kind_of_join (join_of problem.now.joins number) }
{
    match join_of(problem.joins.as_slice(), number) {
        Some(join) => join.kind,
        None => JoinKind::Inner,
    }
}

/// The tuples of a step by its method, in the arena.
fn run_step<'t, S: Fn(Tuple<'t>, SubNo) -> Result<Vec<Row>, Memory>>(
    alloc: Global,
    step: &SceneStep<'_>,
    subs: &S,
    method: Method,
    kind: Step,
    left: &[Tuple<'t>],
    right: &[Tuple<'t>],
    arena: &'t Bump<Global>,
) -> Result<Vec<Tuple<'t>>, Memory>
    requires can { S.IsAlwaysCallable subs.now }
    requires gives { GivesRows (meant_by step.now) (S.post subs.now) }
    requires join { CanJoin (meant_by step.now) kind (maps_of left.now) (maps_of right.now) }
    requires run { CanRun method (meant_by step.now) (maps_of left.now) (maps_of right.now) }
    ensures { IfOk result (λ v. maps_of v.items ≡ method_list method (meant_by step.now) (maps_of left.now) (maps_of right.now)) }
{
    match method {
        Method::Nest => {
            let list = nest(alloc, step, subs, kind, left, right, arena)?;
            Ok(list)
        }
        Method::Hash => {
            let list = hash(alloc, step, subs, kind, left, right, arena)?;
            Ok(list)
        }
        Method::HashRight => {
            let list = hash_right(alloc, step, subs, kind, left, right, arena)?;
            Ok(list)
        }
        Method::Merge => {
            let list = merge(alloc, step, subs, kind, left, right, arena)?;
            Ok(list)
        }
    }
}
