ghost use Rattle.std.specs.Prelude.{◌≡◌, ◌<◌, ◌≤◌, ◌++◌, ◌∷◌, [], map, filter, length, IfOk, OnOk};
ghost use Rattle.std.specs.List.{flat_map, position};
ghost use Rattle.jp_problem.specs.ClassWords.{equal_to, link_of, linked_of, needs_before, needs_come_up, needs_there, ranked_at, ups_from};
ghost use Rattle.jp_problem.specs.Equalities.{equals};
ghost use Rattle.jp_problem.specs.StepClauses.{clauses_of_stage, equality, expr_of, is_open_class, member_comes_up, of_class, scan_clauses, stands_alone, step_clauses};

use crate::regions::is_open;
use crate::stage::{comes_up, is_there, scan_stage, step_stage, was_there};
use crate::{Class, Clause, Problem, Special, Stage, StepClauses};
use jp_base::{ItemNo, Memory, RelSet};
use jp_query::{CmpOp, Expr};
use sqlite_items::Boxed;
use std::alloc::Global;

/// The clauses that are tested at the scan of an item.
pub fn scan_clauses(alloc: Global, problem: &Problem, item: ItemNo) -> Result<StepClauses, Memory>
    requires { item < 64 }
    ensures { IfOk result (λ clauses. clauses ≡ scan_clauses problem.now item) }
{
    let stage = scan_stage(item);
    clauses_of_stage(alloc, problem, &stage)
}

/// The clauses that are tested at the step that joins the items of `s1` and those of `s2`, and at no scan or step of
/// these: first enough equalities of each class, then the others.
pub fn new_clauses(
    alloc: Global,
    problem: &Problem,
    s1: RelSet,
    s2: RelSet,
) -> Result<StepClauses, Memory>
    ensures { IfOk result (λ clauses. clauses ≡ step_clauses problem.now s1 s2) }
{
    let stage = step_stage(s1, s2);
    clauses_of_stage(alloc, problem, &stage)
}

fn clauses_of_stage(alloc: Global, problem: &Problem, stage: &Stage) -> Result<StepClauses, Memory>
    ensures { IfOk result (λ clauses. clauses ≡ clauses_of_stage problem.now stage.now) }
{
    let joins = problem.joins.as_slice();
    let mut list = StepClauses::new(alloc);
    push_classes(alloc, &mut list, joins, stage, problem.classes.as_slice())?;
    push_clauses(alloc, &mut list, joins, stage, problem.clauses.as_slice())?;
    Ok(list)
}

/// Puts the clauses that are no equality of a class at the end.
fn push_clauses(
    alloc: Global,
    list: &mut StepClauses,
    joins: &[Special],
    stage: &Stage,
    clauses: &[Clause],
) -> Result<(), Memory>
    ensures { OnOk result (list.new ≡ list.old ++ map expr_of (filter (stands_alone joins.now stage.now) clauses.now)) }
{
    'clauses: for clause in clauses {
        push_if_alone(alloc, list, joins, stage, clause)?;
    }
    Ok(())
}

fn push_if_alone(
    alloc: Global,
    list: &mut StepClauses,
    joins: &[Special],
    stage: &Stage,
    clause: &Clause,
) -> Result<(), Memory>
    ensures { OnOk result (list.new ≡ list.old ++ map expr_of (filter (stands_alone joins.now stage.now) (clause.now ∷ []))) }
{
    if stands_alone(joins, stage, clause) {
        list.push(clause.expr.copy(alloc)?)?;
    }
    Ok(())
}

/// Whether the clause is no equality of a class, its region isn't done, and it comes up.
pub(crate) fn stands_alone(joins: &[Special], stage: &Stage, clause: &Clause) -> bool
    ensures { result ≡ stands_alone joins.now stage.now clause.now }
{
    clause.class.is_none()
        && is_open(joins, stage.whole, clause.region)
        && comes_up(stage, clause.req)
}

fn push_classes(
    alloc: Global,
    list: &mut StepClauses,
    joins: &[Special],
    stage: &Stage,
    classes: &[Class],
) -> Result<(), Memory>
    ensures { OnOk result (list.new ≡ list.old ++ flat_map (of_class stage.now) (filter (is_open_class joins.now stage.now.whole) classes.now)) }
{
    'classes: for class in classes {
        push_if_open(alloc, list, joins, stage, class)?;
    }
    Ok(())
}

fn push_if_open(
    alloc: Global,
    list: &mut StepClauses,
    joins: &[Special],
    stage: &Stage,
    class: &Class,
) -> Result<(), Memory>
    ensures { OnOk result (list.new ≡ list.old ++ flat_map (of_class stage.now) (filter (is_open_class joins.now stage.now.whole) (class.now ∷ []))) }
{
    if is_open(joins, stage.whole, class.region) {
        push_class(alloc, list, stage, class)?;
    }
    Ok(())
}

/// Puts the equalities of a class that come up at the end.
fn push_class(
    alloc: Global,
    list: &mut StepClauses,
    stage: &Stage,
    class: &Class,
) -> Result<(), Memory>
    ensures { OnOk result (list.new ≡ list.old ++ of_class stage.now class.now) }
{
    let members = class.members.as_slice();
    match &class.constant {
        Some(constant) => push_with_constant(alloc, list, stage, members, constant),
        None => {
            push_link(alloc, list, stage, members)?;
            push_linked(alloc, list, stage, members)
        }
    }
}

fn push_with_constant(
    alloc: Global,
    list: &mut StepClauses,
    stage: &Stage,
    members: &[(Expr, RelSet)],
    constant: &Expr,
) -> Result<(), Memory>
    ensures { OnOk result (list.new ≡ list.old ++ map (equal_to constant.now) (filter (needs_come_up stage.now) members.now)) }
{
    'members: for member in members {
        push_if_up(alloc, list, stage, member, constant)?;
    }
    Ok(())
}

fn push_if_up(
    alloc: Global,
    list: &mut StepClauses,
    stage: &Stage,
    member: &(Expr, RelSet),
    constant: &Expr,
) -> Result<(), Memory>
    ensures { OnOk result (list.new ≡ list.old ++ map (equal_to constant.now) (filter (needs_come_up stage.now) (member.now ∷ []))) }
{
    if comes_up(stage, member.1) {
        push_equality(alloc, list, &member.0, constant)?;
    }
    Ok(())
}

/// Puts the equality of the first members of the two parts at the end.
fn push_link(
    alloc: Global,
    list: &mut StepClauses,
    stage: &Stage,
    members: &[(Expr, RelSet)],
) -> Result<(), Memory>
    ensures { OnOk result (list.new ≡ list.old ++ link_of stage.now members.now) }
{
    match (
        first_there(stage.left, members),
        first_there(stage.right, members),
    ) {
        (Some(i), Some(j)) => push_ranked(alloc, list, members, i, j),
        _ => Ok(()),
    }
}

/// The place of the first member that lies in the part.
pub(crate) fn first_there(part: Option<RelSet>, members: &[(Expr, RelSet)]) -> Option<usize>
    ensures { result ≡ position (needs_there part) members.now }
{
    members.iter().position(|member| is_there(part, member.1))
}

/// The place of the first member that was there before.
pub(crate) fn first_before(stage: &Stage, members: &[(Expr, RelSet)]) -> Option<usize>
    ensures { result ≡ position (needs_before stage.now) members.now }
{
    members.iter().position(|member| was_there(stage, member.1))
}

/// The place of the first member that comes up.
pub(crate) fn first_up(stage: &Stage, members: &[(Expr, RelSet)]) -> Option<usize>
    ensures { result ≡ position (needs_come_up stage.now) members.now }
{
    members.iter().position(|member| comes_up(stage, member.1))
}

/// Puts the equalities of the members that come up with the first one that was there, or with the first of them, at the
/// end.
fn push_linked(
    alloc: Global,
    list: &mut StepClauses,
    stage: &Stage,
    members: &[(Expr, RelSet)],
) -> Result<(), Memory>
    ensures { OnOk result (list.new ≡ list.old ++ linked_of stage.now members.now) }
{
    match first_before(stage, members) {
        Some(first) => push_ups(alloc, list, stage, members, first, 0),
        None => match first_up(stage, members) {
            Some(first) => push_ups(alloc, list, stage, members, first, first + 1),
            None => Ok(()),
        },
    }
}

/// Puts the equality of a member with each one that comes up from a place on at the end.
fn push_ups(
    alloc: Global,
    list: &mut StepClauses,
    stage: &Stage,
    members: &[(Expr, RelSet)],
    first: usize,
    from: usize,
) -> Result<(), Memory>
    requires there { first < length members.now }
    requires begins { from ≤ length members.now }
    ensures { OnOk result (list.new ≡ list.old ++ map (equality (ranked_at members.now first)) (ups_from stage.now members.now from)) }
{
    'members: for i in from..members.len() {
        push_ranked_if_up(alloc, list, stage, members, first, i)?;
    }
    Ok(())
}

fn push_ranked_if_up(
    alloc: Global,
    list: &mut StepClauses,
    stage: &Stage,
    members: &[(Expr, RelSet)],
    first: usize,
    i: usize,
) -> Result<(), Memory>
    requires first { first < length members.now }
    requires second { i < length members.now }
    ensures { OnOk result (list.new ≡ list.old ++ map (equality (ranked_at members.now first)) (filter (member_comes_up stage.now) (ranked_at members.now i ∷ []))) }
{
    if comes_up(stage, members[i].1) {
        push_ranked(alloc, list, members, first, i)?;
    }
    Ok(())
}

/// Puts the equality of two members, the earlier one on the left, at the end.
fn push_ranked(
    alloc: Global,
    list: &mut StepClauses,
    members: &[(Expr, RelSet)],
    i: usize,
    j: usize,
) -> Result<(), Memory>
    requires first { i < length members.now }
    requires second { j < length members.now }
    ensures { OnOk result (list.new ≡ list.old ++ equality (ranked_at members.now i) (ranked_at members.now j) ∷ []) }
{
    if i < j {
        push_equality(alloc, list, &members[i].0, &members[j].0)
    } else {
        push_equality(alloc, list, &members[j].0, &members[i].0)
    }
}

fn push_equality(
    alloc: Global,
    list: &mut StepClauses,
    first: &Expr,
    second: &Expr,
) -> Result<(), Memory>
    ensures { OnOk result (list.new ≡ list.old ++ equals first.now second.now ∷ []) }
{
    let first = Boxed::new(alloc, first.copy(alloc)?)?;
    let second = Boxed::new(alloc, second.copy(alloc)?)?;
    list.push(Expr::Compare(CmpOp::Eq, first, second))
}
