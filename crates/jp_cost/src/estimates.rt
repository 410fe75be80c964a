#![tactic(auto, using(crate::proofs::RoundLaws::rounds_equations))]

ghost use Rattle.std.specs.Prelude.{◌≡◌, ◌≤◌, ◌<◌, ◌^◌, ◌*◌, bit_or, fold, length, if◌then◌else◌};
ghost use Rattle.std.specs.List.{list_any};
ghost use Rattle.jp_problem.specs.LegalTests.{is_inside};
ghost use Rattle.jp_problem.specs.Made.{IsEstimable};
ghost use Rattle.jp_problem.specs.Sets.{meets as meet};
ghost use Rattle.jp_query.specs.Refs.{below_64, only};
ghost use Rattle.jp_cost.specs.Estimates.{at_most, core as core_of, core_rows, divided_by_all, estimate, estimate_in, filtered_by, join_rows};
ghost use Rattle.jp_cost.specs.declared.conditions.Pick.TheVariants.{Ending};
ghost use Rattle.jp_cost.specs.Rounds.{after_outer, is_around, is_outer, with_right};

use crate::conditions::{Pick, filtered};
use crate::values::{divided, divisor};
use jp_base::RelSet;
use jp_problem::sets::{both, is_within, meets, nothing};
use jp_problem::{Item, Problem, Special, is_done};
use jp_query::{Expr, JoinKind};

/// How many rows the items of a set are estimated to have together. It depends on the set alone, whatever tree makes it.
pub fn estimate(problem: &Problem, set: RelSet) -> u64
    requires estimable { IsEstimable problem.now }
    ensures is { result ≡ estimate problem.now set }
    ensures least { 1 ≤ result }
    ensures most { result ≤ 2 ^ 60 }
{
    estimate_in(problem, set, problem.joins.as_slice().len() + 1)
}

/// The estimate by so many rounds; by none it is one row.
#[cycle(estimates)]
fn estimate_in(problem: &Problem, set: RelSet, rounds: usize) -> u64
    ensures { result ≡ estimate_in rounds problem.now set }
{
    if rounds == 0 {
        return 1;
    }
    let core = core(problem, set);
    let rows = core_rows(problem, set, core);
    let rows = after_joins(problem, set, rounds - 1, rows);
    filtered(problem, set, &Pick::Beyond(core), rows)
}

#[cycle(estimates)]
fn after_joins(problem: &Problem, set: RelSet, rounds: usize, rows: u64) -> u64
    ensures { result ≡ fold (after_outer problem.now set (estimate_in rounds problem.now)) rows problem.now.joins }
{
    let mut rows = rows;
    'joins: for join in problem.joins.as_slice() {
        rows = after_join(problem, set, rounds, rows, join);
    }
    rows
}

#[cycle(estimates)]
#[tactic(auto, unfolding(crate::specs::Rounds::after_outer))]
fn after_join(problem: &Problem, set: RelSet, rounds: usize, rows: u64, join: &Special) -> u64
    ensures { result ≡ after_outer problem.now set (estimate_in rounds problem.now) rows join.now }
{
    if is_outer(problem.joins.as_slice(), set, join) {
        joined(problem, rounds, rows, join)
    } else {
        rows
    }
}

#[cycle(estimates)]
fn joined(problem: &Problem, rounds: usize, rows: u64, join: &Special) -> u64
    ensures { result ≡ join_rows problem.now (estimate_in rounds problem.now) rows join.now }
{
    match join.kind {
        JoinKind::Left => {
            let right = estimate_in(problem, join.min_right, rounds);
            let matches = divided_by_all(problem, at_most(rows, right), join.on.as_slice());
            rows.max(matches)
        }
        JoinKind::Inner => divided(rows, 2),
        JoinKind::Right => divided(rows, 2),
        JoinKind::Full => divided(rows, 2),
        JoinKind::Semi => divided(rows, 2),
        JoinKind::Anti => divided(rows, 2),
    }
}

/// Whether the join is done in the set and inside no other that is.
#[tactic(auto, unfolding(crate::specs::Rounds::is_outer))]
fn is_outer(joins: &[Special], set: RelSet, join: &Special) -> bool
    ensures { result ≡ is_outer joins.now set join.now }
{
    is_done(set, join) && !is_inside_another(joins, set, join)
}

fn is_inside_another(joins: &[Special], set: RelSet, join: &Special) -> bool
    ensures { result ≡ list_any (is_around set join.now) joins.now }
{
    joins.iter().any(|other| is_around(set, join, other))
}

#[tactic(auto, unfolding(crate::specs::Rounds::is_around))]
fn is_around(set: RelSet, join: &Special, other: &Special) -> bool
    ensures { result ≡ is_around set join.now other.now }
{
    is_done(set, other) && is_inside(join, other)
}

/// Whether all that `join` needs lies in the right set of `other`.
#[tactic(auto, using(crate::proofs::RoundLaws::inside_is))]
fn is_inside(join: &Special, other: &Special) -> bool
    ensures { result ≡ is_inside join.now other.now }
{
    is_within(join.min_left, other.min_right) && is_within(join.min_right, other.min_right)
}

/// The product of two numbers of rows, or the most rows there are.
fn at_most(rows: u64, others: u64) -> u64
    ensures { result ≡ at_most (rows * others) }
{
    (rows as u128 * others as u128).min(1 << 60) as u64
}

/// The rows divided by each condition of a list.
fn divided_by_all(problem: &Problem, rows: u64, conditions: &[Expr]) -> u64
    ensures { result ≡ divided_by_all problem.now rows conditions.now }
{
    let mut rows = rows;
    'conditions: for condition in conditions {
        rows = divided(rows, divisor(problem, condition));
    }
    rows
}

/// The items of a set that no join done in it makes absent.
fn core(problem: &Problem, set: RelSet) -> RelSet
    ensures is { result ≡ core_of problem.now set }
    ensures below { result < 2 ^ 64 }
{
    set.minus(absent(problem.joins.as_slice(), set))
}

/// The right sets of the joins that are done in a set.
fn absent(joins: &[Special], set: RelSet) -> RelSet
    ensures { result ≡ fold (with_right set) 0 joins.now }
{
    let mut items = nothing();
    'joins: for join in joins {
        items = with_right(set, items, join);
    }
    items
}

#[tactic(auto, unfolding(crate::specs::Rounds::with_right))]
fn with_right(set: RelSet, items: RelSet, join: &Special) -> RelSet
    ensures { result ≡ with_right set items join.now }
{
    if is_done(set, join) {
        both(items, join.min_right)
    } else {
        items
    }
}

/// The rows of the core, item by item.
fn core_rows(problem: &Problem, set: RelSet, core: RelSet) -> u64
    requires is_core { core ≡ core_of problem.now set }
    requires below { core < 2 ^ 64 }
    ensures { result ≡ core_rows problem.now set }
{
    let mut rows = 1;
    let mut upto = nothing();
    'items: for (i, item) in problem.items.as_slice().iter().enumerate() {
        let one = single(i);
        upto = both(upto, one);
        rows = after_item(problem, set, core, one, upto, rows, item);
    }
    rows
}

fn after_item(
    problem: &Problem,
    set: RelSet,
    core: RelSet,
    one: RelSet,
    upto: RelSet,
    rows: u64,
    item: &Item,
) -> u64
    ensures { result ≡ (if meet core one then filtered_by problem.now set (Ending core one upto) (at_most (rows * item.now.rows)) else rows) }
{
    if meets(core, one) {
        filtered(
            problem,
            set,
            &Pick::Ending(core, one, upto),
            at_most(rows, item.rows),
        )
    } else {
        rows
    }
}

/// The set of one number; the empty one of a number that is in no set.
fn single(i: usize) -> RelSet
    ensures { result ≡ below_64 (only i) }
{
    if i < 64 {
        RelSet::one(i as u8)
    } else {
        nothing()
    }
}
