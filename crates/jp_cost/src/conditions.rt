#![tactic(auto, using(crate::proofs::PickLaws::open_regions))]

ghost use Rattle.std.specs.Prelude.{◌≡◌, ◌&&◌, ◌∷◌, filter, find, fold, map, List};
ghost use Rattle.jp_problem.specs.StepClauses.{is_open, is_open_class};
ghost use Rattle.jp_cost.specs.Estimates.{counted_expr, counted_in_class, counts_alone, divided_by_all, filtered_by, is_available, is_picked, picks, with_first};
ghost use Rattle.jp_cost.specs.Steps.{by_class, by_clause, by_member, from_first, is_meant};

use crate::values::{divided, divisor, values_of};
use jp_base::RelSet;
use jp_problem::sets::{both, is_within, meets, nothing};
use jp_problem::{Class, Clause, Problem, is_open};
use jp_query::Expr;

/// Which of the conditions that count in a set are meant, by the items that they need.
#[derive(Clone, Copy)]
pub enum Pick {
    /// Those in the core that need this item and no greater one: the core, the set of the item alone, and the items up to it.
    Ending(RelSet, RelSet, RelSet),
    /// Those that don't lie in the core.
    Beyond(RelSet),
}

impl Pick {
    fn picks(&self, needs: RelSet) -> bool
        ensures { result ≡ picks self.now needs }
    {
        match self {
            Pick::Ending(core, item, upto) => {
                is_within(needs, *core) && meets(needs, *item) && is_within(needs, *upto)
            }
            Pick::Beyond(core) => !is_within(needs, *core),
        }
    }
}

/// The rows divided by each condition that counts in the set and is meant.
pub fn filtered(problem: &Problem, set: RelSet, pick: &Pick, rows: u64) -> u64
    ensures { result ≡ filtered_by problem.now set pick.now rows }
{
    let rows = after_clauses(problem, set, pick, rows);
    after_classes(problem, set, pick, rows)
}

fn after_clauses(problem: &Problem, set: RelSet, pick: &Pick, rows: u64) -> u64
    ensures { result ≡ fold (by_clause problem.now set pick.now) rows problem.now.clauses }
{
    let mut rows = rows;
    'clauses: for clause in problem.clauses.as_slice() {
        rows = after_clause(problem, set, pick, rows, clause);
    }
    rows
}

#[tactic(auto, unfolding(crate::specs::Steps::by_clause))]
fn after_clause(problem: &Problem, set: RelSet, pick: &Pick, rows: u64, clause: &Clause) -> u64
    ensures { result ≡ by_clause problem.now set pick.now rows clause.now }
{
    if is_meant(problem, set, pick, clause) {
        divided(rows, divisor(problem, &clause.expr))
    } else {
        rows
    }
}

/// Whether the clause is no equality of a class, lies in the set, isn't done with its region, and is meant.
#[tactic(auto, unfolding(crate::specs::Steps::is_meant))]
fn is_meant(problem: &Problem, set: RelSet, pick: &Pick, clause: &Clause) -> bool
    ensures { result ≡ is_meant problem.now set pick.now clause.now }
{
    clause.class.is_none()
        && is_within(clause.req, set)
        && is_open(problem.joins.as_slice(), set, clause.region)
        && pick.picks(clause.req)
}

fn after_classes(problem: &Problem, set: RelSet, pick: &Pick, rows: u64) -> u64
    ensures { result ≡ fold (by_class problem.now set pick.now) rows problem.now.classes }
{
    let mut rows = rows;
    'classes: for class in problem.classes.as_slice() {
        rows = after_class(problem, set, pick, rows, class);
    }
    rows
}

#[tactic(auto, unfolding(crate::specs::Steps::by_class))]
fn after_class(problem: &Problem, set: RelSet, pick: &Pick, rows: u64, class: &Class) -> u64
    ensures { result ≡ by_class problem.now set pick.now rows class.now }
{
    if !is_open(problem.joins.as_slice(), set, class.region) {
        return rows;
    }
    after_equalities(problem, set, pick, rows, class)
}

/// The rows divided by the equalities of a class's first available member, which is its constant where it has one, with
/// each other one.
fn after_equalities(problem: &Problem, set: RelSet, pick: &Pick, rows: u64, class: &Class) -> u64
    ensures { result ≡ divided_by_all problem.now rows (map counted_expr (filter (is_picked pick.now) (counted_in_class set class.now))) }
{
    let members = class.members.as_slice();
    match &class.constant {
        Some(constant) => after_members(problem, set, pick, rows, constant, nothing(), members),
        None => after_first(problem, set, pick, rows, members),
    }
}

fn after_first(
    problem: &Problem,
    set: RelSet,
    pick: &Pick,
    rows: u64,
    members: &[(Expr, RelSet)],
) -> u64
    ensures { result ≡ divided_by_all problem.now rows (map counted_expr (filter (is_picked pick.now) (with_first (filter (is_available set) members.now)))) }
{
    match from_available(set, members).split_first() {
        None => rows,
        Some((first, others)) => {
            let (expr, needs) = first;
            after_members(problem, set, pick, rows, expr, *needs, others)
        }
    }
}

/// The members from the first available one on.
fn from_available(set: RelSet, members: &[(Expr, RelSet)]) -> &[(Expr, RelSet)]
    ensures { result.now ≡ from_first (is_available set) members.now }
{
    'members: for i in 0..members.len() {
        if is_within(members[i].1, set) {
            return &members[i..];
        }
    }
    &[]
}

/// The rows divided by the equalities of a first member, with what it needs, and each other available one that is meant.
fn after_members(
    problem: &Problem,
    set: RelSet,
    pick: &Pick,
    rows: u64,
    first: &Expr,
    needs: RelSet,
    members: &[(Expr, RelSet)],
) -> u64
    ensures { result ≡ fold (by_member problem.now set pick.now first.now needs) rows members.now }
{
    let mut rows = rows;
    'members: for member in members {
        rows = after_member(problem, set, pick, rows, first, needs, member);
    }
    rows
}

#[tactic(auto, unfolding(crate::specs::Steps::by_member))]
fn after_member(
    problem: &Problem,
    set: RelSet,
    pick: &Pick,
    rows: u64,
    first: &Expr,
    needs: RelSet,
    member: &(Expr, RelSet),
) -> u64
    ensures { result ≡ by_member problem.now set pick.now first.now needs rows member.now }
{
    if is_within(member.1, set) && pick.picks(both(needs, member.1)) {
        divided(
            rows,
            values_of(problem, first).max(values_of(problem, &member.0)),
        )
    } else {
        rows
    }
}
