ghost use Rattle.std.specs.Prelude.{◌≡◌, ◌<◌, ◌≤◌, ◌↔◌, ◌||◌, ◌&&◌, not, map, length, IsTrue, IsSome, is_some};
ghost use Rattle.std.specs.List.{list_any};
ghost use Rattle.jp_problem.specs.declared.types.Step.{Step as Kind};
ghost use Rattle.jp_problem.specs.ClassWords.{link_of, linked_of, ranked_at, ups_from};
ghost use Rattle.jp_problem.specs.KeyTests.{are_key, has_number, has_rel, is_key, is_key_class, is_key_clause, is_key_equality, is_open_key_class, is_up_with, lies_from};
ghost use Rattle.jp_problem.specs.Keys.{is_over, key_of};
ghost use Rattle.jp_problem.specs.Legal.{IsLegalStep};
ghost use Rattle.jp_problem.specs.Problems.{rels_of_item};
ghost use Rattle.jp_problem.specs.StepClauses.{clauses_of_stage, step_clauses};

use crate::regions::{is_open, join_of};
use crate::sets::{is_within, meets, one};
use crate::stage::{comes_up, step_stage};
use crate::step_clauses::{first_before, first_there, first_up, stands_alone};
use crate::steps::step_kind;
use crate::sublinks::has_sublink;
use crate::{Class, Item, Problem, Stage, Step};
use jp_base::RelSet;
use jp_query::{CmpOp, Expr, refs};

/// Whether the step that joins the items of `s1` and those of `s2` has a key: an equality without sublinks, among the
/// step clauses of an inner step and in the ON list of a step by a join, one of whose sides uses items of `s1` alone and
/// the other items of `s2` alone, at least one each. It takes no memory.
pub fn has_key(problem: &Problem, s1: RelSet, s2: RelSet) -> bool
    requires legal { (kind : Kind) × IsLegalStep problem.now s1 s2 kind }
    ensures { (kind : Kind) → IsLegalStep problem.now s1 s2 kind → IsTrue result ↔ IsSome (key_of problem.now s1 s2 kind) }
{
    match step_kind(problem, s1, s2) {
        Some(kind) => has_key_of(problem, s1, s2, kind),
        None => false,
    }
}

fn has_key_of(problem: &Problem, s1: RelSet, s2: RelSet, kind: Step) -> bool
    ensures { result ≡ is_some (key_of problem.now s1 s2 kind) }
{
    match kind {
        Step::Inner => is_inner_key(problem, s1, s2),
        Step::By(number) => match join_of(problem.joins.as_slice(), number) {
            Some(join) => any_key(problem.items.as_slice(), s1, s2, join.on.as_slice()),
            None => false,
        },
    }
}

/// Whether one of the step clauses can be the key.
fn is_inner_key(problem: &Problem, s1: RelSet, s2: RelSet) -> bool
    ensures { result ≡ list_any (is_key (map rels_of_item problem.now.items) s1 s2) (step_clauses problem.now s1 s2) }
{
    let stage = step_stage(s1, s2);
    any_at(problem, s1, s2, &stage)
}

fn any_at(problem: &Problem, s1: RelSet, s2: RelSet, stage: &Stage) -> bool
    ensures { result ≡ list_any (is_key (map rels_of_item problem.now.items) s1 s2) (clauses_of_stage problem.now stage.now) }
{
    any_class(problem, s1, s2, stage) || any_clause(problem, s1, s2, stage)
}

fn any_class(problem: &Problem, s1: RelSet, s2: RelSet, stage: &Stage) -> bool
    ensures { result ≡ list_any (is_open_key_class (map rels_of_item problem.now.items) s1 s2 problem.now.joins stage.now) problem.now.classes }
{
    let items = problem.items.as_slice();
    let joins = problem.joins.as_slice();
    problem.classes.as_slice().iter().any(|class| {
        is_open(joins, stage.whole, class.region) && is_key_class(items, s1, s2, stage, class)
    })
}

fn any_clause(problem: &Problem, s1: RelSet, s2: RelSet, stage: &Stage) -> bool
    ensures { result ≡ list_any (is_key_clause (map rels_of_item problem.now.items) s1 s2 problem.now.joins stage.now) problem.now.clauses }
{
    let items = problem.items.as_slice();
    let joins = problem.joins.as_slice();
    problem.clauses.as_slice().iter().any(|clause| {
        stands_alone(joins, stage, clause) && is_key(items, s1, s2, &clause.expr)
    })
}

/// Whether one of the equalities of the class that come up can be the key.
fn is_key_class(items: &[Item], s1: RelSet, s2: RelSet, stage: &Stage, class: &Class) -> bool
    ensures { result ≡ is_key_class (map rels_of_item items.now) s1 s2 stage.now class.now }
{
    let members = class.members.as_slice();
    match &class.constant {
        Some(constant) => any_with_constant(items, s1, s2, stage, members, constant),
        None => {
            is_link_key(items, s1, s2, stage, members) || any_linked(items, s1, s2, stage, members)
        }
    }
}

fn any_with_constant(
    items: &[Item],
    s1: RelSet,
    s2: RelSet,
    stage: &Stage,
    members: &[(Expr, RelSet)],
    constant: &Expr,
) -> bool
    ensures { result ≡ list_any (is_up_with (map rels_of_item items.now) s1 s2 stage.now constant.now) members.now }
{
    members.iter().any(|member| {
        comes_up(stage, member.1) && are_key(items, s1, s2, &member.0, constant)
    })
}

fn is_link_key(
    items: &[Item],
    s1: RelSet,
    s2: RelSet,
    stage: &Stage,
    members: &[(Expr, RelSet)],
) -> bool
    ensures { result ≡ list_any (is_key (map rels_of_item items.now) s1 s2) (link_of stage.now members.now) }
{
    match (
        first_there(stage.left, members),
        first_there(stage.right, members),
    ) {
        (Some(i), Some(j)) => is_ranked_key(items, s1, s2, members, i, j),
        _ => false,
    }
}

fn any_linked(
    items: &[Item],
    s1: RelSet,
    s2: RelSet,
    stage: &Stage,
    members: &[(Expr, RelSet)],
) -> bool
    ensures { result ≡ list_any (is_key (map rels_of_item items.now) s1 s2) (linked_of stage.now members.now) }
{
    match first_before(stage, members) {
        Some(first) => any_up(items, s1, s2, stage, members, first, 0),
        None => match first_up(stage, members) {
            Some(first) => any_up(items, s1, s2, stage, members, first, first + 1),
            None => false,
        },
    }
}

/// Whether the equality of a member with one that comes up from a place on can be the key.
fn any_up(
    items: &[Item],
    s1: RelSet,
    s2: RelSet,
    stage: &Stage,
    members: &[(Expr, RelSet)],
    first: usize,
    from: usize,
) -> bool
    requires there { first < length members.now }
    requires begins { from ≤ length members.now }
    ensures { result ≡ list_any (is_key_equality (map rels_of_item items.now) s1 s2 (ranked_at members.now first)) (ups_from stage.now members.now from) }
{
    'members: for i in from..members.len() {
        if comes_up(stage, members[i].1) && is_ranked_key(items, s1, s2, members, first, i) {
            return true;
        }
    }
    false
}

fn is_ranked_key(
    items: &[Item],
    s1: RelSet,
    s2: RelSet,
    members: &[(Expr, RelSet)],
    i: usize,
    j: usize,
) -> bool
    requires first { i < length members.now }
    requires second { j < length members.now }
    ensures { result ≡ is_key_equality (map rels_of_item items.now) s1 s2 (ranked_at members.now i) (ranked_at members.now j) }
{
    if i < j {
        are_key(items, s1, s2, &members[i].0, &members[j].0)
    } else {
        are_key(items, s1, s2, &members[j].0, &members[i].0)
    }
}

fn any_key(items: &[Item], s1: RelSet, s2: RelSet, list: &[Expr]) -> bool
    ensures { result ≡ list_any (is_key (map rels_of_item items.now) s1 s2) list.now }
{
    list.iter().any(|expr| is_key(items, s1, s2, expr))
}

/// Whether the expression can be the key of the step.
fn is_key(items: &[Item], s1: RelSet, s2: RelSet, expr: &Expr) -> bool
    ensures { result ≡ is_key (map rels_of_item items.now) s1 s2 expr.now }
{
    match expr {
        Expr::Compare(CmpOp::Eq, first, second) => {
            are_key(items, s1, s2, first.get(), second.get())
        }
        _ => false,
    }
}

/// Whether the equality of two expressions can be the key of the step.
fn are_key(items: &[Item], s1: RelSet, s2: RelSet, a: &Expr, b: &Expr) -> bool
    ensures { result ≡ are_key (map rels_of_item items.now) s1 s2 a.now b.now }
{
    !(has_sublink(a) || has_sublink(b))
        && ((is_over(items, s1, a) && is_over(items, s2, b))
            || (is_over(items, s1, b) && is_over(items, s2, a)))
}

/// Whether the expression uses some item, and items of the set alone.
fn is_over(items: &[Item], set: RelSet, expr: &Expr) -> bool
    ensures { result ≡ is_over (map rels_of_item items.now) set expr.now }
{
    let rels = refs(expr);
    has_some(items, rels) && lies_in(items, set, rels)
}

/// Whether some item has one of the relations.
fn has_some(items: &[Item], rels: RelSet) -> bool
    ensures { result ≡ list_any (has_rel rels) items.now }
{
    items.iter().any(|item| meets(item.rels, rels))
}

/// Whether each item that has one of the relations lies in the set.
fn lies_in(items: &[Item], set: RelSet, rels: RelSet) -> bool
    ensures { result ≡ lies_from (map rels_of_item items.now) set rels 0 }
{
    'items: for i in 0..items.len() {
        if meets(items[i].rels, rels) && !holds(set, i) {
            return false;
        }
    }
    true
}

/// Whether the set has the number, which may be greater than any member's.
#[tactic(auto, using(crate::proofs::KeyLaws::beyond))]
fn holds(set: RelSet, i: usize) -> bool
    ensures { result ≡ has_number set i }
{
    if i >= 64 {
        return false;
    }
    is_within(one(i as u8), set)
}
