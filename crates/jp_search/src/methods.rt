//! The method of a step. Whether a step has a key is asked only where it may have one and where that would tell: most steps
//! of a search are dearer than the least one of their set, whatever their method.

ghost use Rattle.std.specs.Prelude.{◌≡◌, ◌≤◌, ◌^◌, bit_or, nat_lt, length, Some};
ghost use Rattle.std.specs.List.{list_any};
ghost use Rattle.jp_problem.specs.Keys.{is_by_left};
ghost use Rattle.jp_problem.specs.Legal.{IsLegalStep};
ghost use Rattle.jp_search.specs.Splits.{by_key, cheaper, is_dearer, lesser, lies_in, may_have_key, method_of, stepped};

use crate::table::{Choice, Found};
use jp_base::RelSet;
use jp_cost::step_cost;
use jp_problem::sets::is_within;
use jp_problem::{Clause, Method, Problem, Step, has_key, is_left, join_of};
use jp_tree::PlanNode;

/// Whether a step of parts of the set may have a key.
#[tactic(auto, unfolding(crate::specs::Splits::may_have_key))]
pub fn may_have_key(problem: &Problem, set: RelSet) -> bool
    ensures { result ≡ may_have_key problem.now set }
{
    0 < problem.classes.len()
        || 0 < problem.joins.len()
        || has_clause(problem.clauses.as_slice(), set)
}

fn has_clause(clauses: &[Clause], set: RelSet) -> bool
    ensures { result ≡ list_any (lies_in set) clauses.now }
{
    clauses.iter().any(|clause| is_within(clause.req, set))
}

/// A step of two trees by the cheapest method that it allows, or any where it costs more than the least so far. `keys` says
/// whether it may have a key.
pub fn step(
    problem: &Problem,
    left: RelSet,
    right: RelSet,
    kind: Step,
    a: Found,
    b: Found,
    keys: bool,
    least: Option<Choice>,
) -> Choice
    requires keys { keys ≡ may_have_key problem.now (bit_or left right) }
    requires legal { IsLegalStep problem.now left right kind }
    requires left_cost { a.cost ≤ 2 ^ 126 }
    requires right_cost { b.cost ≤ 2 ^ 126 }
    requires left_rows { a.rows ≤ 2 ^ 60 }
    requires right_rows { b.rows ≤ 2 ^ 60 }
    ensures { lesser least (Some result) ≡ lesser least (Some (stepped (method_of problem.now left right kind a.rows b.rows) kind a b)) }
{
    let nest = stepped(Method::Nest, kind, a, b);
    if !keys {
        return nest;
    }
    let method = by_key(is_by_left(problem, kind), a.rows, b.rows);
    let keyed = stepped(method, kind, a, b);
    if nest.cost <= keyed.cost {
        return nest;
    }
    if is_dearer(keyed.cost, least) {
        return keyed;
    }
    if has_key(problem, left, right) {
        keyed
    } else {
        nest
    }
}

fn stepped(method: Method, kind: Step, left: Found, right: Found) -> Choice
    requires left_cost { left.cost ≤ 2 ^ 126 }
    requires right_cost { right.cost ≤ 2 ^ 126 }
    requires left_rows { left.rows ≤ 2 ^ 60 }
    requires right_rows { right.rows ≤ 2 ^ 60 }
    ensures { result ≡ stepped method kind left right }
{
    Choice {
        node: PlanNode::Join {
            method,
            step: kind,
            left: left.plan,
            right: right.plan,
        },
        cost: left.cost + right.cost + step_cost(method, left.rows, right.rows),
    }
}

/// The cheapest of the methods that need a key.
fn by_key(by_left: bool, left: u64, right: u64) -> Method
    requires left_rows { left ≤ 2 ^ 60 }
    requires right_rows { right ≤ 2 ^ 60 }
    ensures { result ≡ by_key by_left left right }
{
    let hash = if by_left {
        cheaper(left, right, Method::Hash, Method::HashRight)
    } else {
        Method::Hash
    };
    cheaper(left, right, hash, Method::Merge)
}

/// The method whose step costs less, and the first where they cost the same.
fn cheaper(left: u64, right: u64, first: Method, second: Method) -> Method
    requires left_rows { left ≤ 2 ^ 60 }
    requires right_rows { right ≤ 2 ^ 60 }
    ensures { result ≡ cheaper left right first second }
{
    if step_cost(second, left, right) < step_cost(first, left, right) {
        second
    } else {
        first
    }
}

/// Whether the step is by a Left join.
fn is_by_left(problem: &Problem, kind: Step) -> bool
    ensures { result ≡ is_by_left problem.now kind }
{
    match kind {
        Step::Inner => false,
        Step::By(number) => match join_of(problem.joins.as_slice(), number) {
            Some(join) => is_left(join.kind),
            None => false,
        },
    }
}

/// Whether this is more than what the least choice so far costs.
fn is_dearer(cost: u128, least: Option<Choice>) -> bool
    ensures { result ≡ is_dearer cost least }
{
    match least {
        Some(choice) => choice.cost < cost,
        None => false,
    }
}
