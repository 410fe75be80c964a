ghost use Rattle.std.specs.Prelude.{◌≡◌, ℕ, ◌+◌, ◌<◌, ◌≤◌, ◌^◌, ◌↔◌, bit_or, length, Some, All, true};
ghost use Rattle.jp_base.specs.Sets.{IsGreatestBelow};
ghost use Rattle.jp_problem.specs.Legal.{Apart};
ghost use Rattle.jp_problem.specs.Made.{HasApartSets};
ghost use Rattle.jp_search.specs.Counts.{parts_of};
ghost use Rattle.jp_search.specs.Joins.{facts_of};
ghost use Rattle.jp_search.specs.Ready.{IsReady, IsTold};
ghost use Rattle.jp_search.specs.Splits.{IsLeastAbove, lesser, may_have_key, scanned, split_of};

use crate::Steps;
use crate::joins::{Facts, kind_of};
use crate::methods::{may_have_key, step};
use crate::table::{Choice, Table};
use jp_base::{ItemNo, RelSet};
use jp_problem::Problem;
use jp_problem::sets::{is_empty, without};
use jp_tree::PlanNode;
use std::sync::ledger::Ledger;

/// The root of the first tree of a set: the scan of its only item, or the best of its splits.
pub fn chosen<L: Ledger>(
    problem: &Problem,
    table: &Table,
    set: RelSet,
    facts: &Facts,
    steps: &mut Steps<L>,
) -> Option<Choice>
    requires ready { IsReady problem.now table.now set }
    requires facts { facts.now ≡ facts_of problem.now.joins set }
    ensures single { (i : ℕ) → set ≡ 2 ^ i → result ≡ Some (scanned problem.now i) }
    ensures several { ((i : ℕ) → ¬ (set ≡ 2 ^ i)) → IsLeastAbove problem.now table.now set 0 result }
    ensures count { steps.new ≤ steps.old + parts_of (length problem.now.items) set }
{
    match only_item(set) {
        Some(item) => Some(scan(problem, item)),
        None => {
            if facts.joinable {
                least_split(problem, table, set, facts, steps)
            } else {
                None
            }
        }
    }
}

/// The item of a set of one.
fn only_item(set: RelSet) -> Option<ItemNo>
    requires { set < 2 ^ 16 }
    ensures { (i : ℕ) → (result ≡ Some i) ↔ (set ≡ 2 ^ i) }
{
    let item = set.first()?;
    if set.within(RelSet::one(item)) {
        Some(item)
    } else {
        None
    }
}

fn scan(problem: &Problem, item: ItemNo) -> Choice
    requires { item < length problem.now.items }
    ensures { result ≡ scanned problem.now item }
{
    Choice {
        node: PlanNode::Scan(item),
        cost: problem.items.as_slice()[item as usize].cost,
    }
}

/// The best of the splits of a set, if one is a legal step of sets that have trees. Each split is one step.
fn least_split<L: Ledger>(
    problem: &Problem,
    table: &Table,
    set: RelSet,
    facts: &Facts,
    steps: &mut Steps<L>,
) -> Option<Choice>
    requires ready { IsReady problem.now table.now set }
    requires facts { facts.now ≡ facts_of problem.now.joins set }
    requires joinable { facts.now.joinable ≡ true }
    ensures least { IsLeastAbove problem.now table.now set 0 result }
    ensures count { steps.new ≤ steps.old + parts_of (length problem.now.items) set }
{
    let keys = may_have_key(problem, set);
    let mut least = None;
    let mut left = below(set, set);
    'parts: while !is_empty(left) {
        steps.count();
        let right = without(set, left);
        least = lesser(
            least,
            split(problem, table, left, right, facts, keys, least),
        );
        left = below(set, left);
    }
    least
}

/// The greatest part of the set below another set as a number.
fn below(set: RelSet, part: RelSet) -> RelSet
    requires some { 0 < part }
    requires few { part < 2 ^ 16 }
    ensures { IsGreatestBelow set part result }
{
    match set.next_part(part) {
        Some(next) => next,
        None => unreachable!(),
    }
}

/// The choice that costs less, and the second where they cost the same.
fn lesser(first: Option<Choice>, second: Option<Choice>) -> Option<Choice>
    ensures { result ≡ lesser first second }
{
    match first {
        Some(a) => match second {
            Some(b) => { if a.cost < b.cost { Some(a) } else { Some(b) } }
            None => Some(a),
        },
        None => second,
    }
}

/// The step of the first trees of two disjoint sets, where it is legal and both have one; `facts` are those of their union,
/// which is joinable, and `keys` says whether it may have a key. Where it costs more than the least so far, any step that does too.
fn split(
    problem: &Problem,
    table: &Table,
    left: RelSet,
    right: RelSet,
    facts: &Facts,
    keys: bool,
    least: Option<Choice>,
) -> Option<Choice>
    requires sets { All HasApartSets problem.now.joins }
    requires few { length table.now ≤ 2 ^ 16 }
    requires left_there { left < length table.now }
    requires right_there { right < length table.now }
    requires left_told { IsTold problem.now table.now left }
    requires right_told { IsTold problem.now table.now right }
    requires apart { Apart left right }
    requires facts { facts.now ≡ facts_of problem.now.joins (bit_or left right) }
    requires joinable { facts.now.joinable ≡ true }
    requires keys { keys ≡ may_have_key problem.now (bit_or left right) }
    ensures { lesser least result ≡ lesser least (split_of problem.now table.now left right) }
{
    let a = table.entry(left)?;
    let b = table.entry(right)?;
    let kind = kind_of(problem, left, right, &a.facts, &b.facts, facts)?;
    Some(step(problem, left, right, kind, a, b, keys, least))
}
