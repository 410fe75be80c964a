ghost use Rattle.std.specs.Prelude.{◌≡◌, ℕ, ◌<◌, ◌^◌, List, IfOk};
ghost use Rattle.jp_problem.specs.declared.types.Rule.{Rule as Growth};
ghost use Rattle.jp_problem.specs.Closure.{IsLeastClosed, added, closure, round};
ghost use Rattle.jp_problem.specs.MinimumSets.{both_sets, requirement, stands_in, taken_by_right, taken_in_side};

use crate::sets::{both, is_within, meets, nothing, set_if};
use crate::{Rule, Special};
use jp_base::{Memory, RelSet};
use std::alloc::Global;

/// A law: the closure is the least set that holds the seed and is closed under the rules.
pub fn closures_are_least()
    ensures { (rules : List Growth) (seed : ℕ) → IsLeastClosed rules seed (closure rules seed) }
{}

/// The least set that holds the seed and is closed under the rules, reached in rounds until nothing is added.
pub fn closure(rules: &[Rule], seed: RelSet) -> RelSet
    ensures { result ≡ closure rules.now seed }
{
    let mut set = seed;
    'rounds: loop {
        let more = round(rules, set);
        if is_within(more, set) {
            return set;
        }
        set = more;
    }
}

/// What the rules make of a set when each is applied to it once.
fn round(rules: &[Rule], set: RelSet) -> RelSet
    ensures is { result ≡ round rules.now set }
    ensures below { result < 2 ^ 64 }
{
    let mut more = nothing();
    'rules: for rule in rules {
        more = both(more, added(set, rule));
    }
    both(set, more)
}

fn added(set: RelSet, rule: &Rule) -> RelSet
    ensures { result ≡ added set rule.now }
{
    set_if(meets(set, rule.met), rule.taken)
}

/// The least set that holds these items and is closed under the joins of a side, or of the whole tree.
pub fn requirement(
    alloc: Global,
    joins: &[Special],
    side: RelSet,
    set: RelSet,
) -> Result<RelSet, Memory>
    ensures { IfOk result (λ r. r ≡ requirement joins.now side set) }
{
    let rules = taken_in_side(alloc, joins, side)?;
    let set = closure(rules.as_slice(), set);
    Ok(set)
}

fn taken_in_side(alloc: Global, joins: &[Special], side: RelSet) -> Result<Vec<Rule>, Memory>
    ensures { IfOk result (λ rules. rules.items ≡ taken_in_side joins.now side) }
{
    let rules = joins
        .iter()
        .filter(|s| stands_in(side, s))
        .map(|s| taken_by_right(s))
        .collect(alloc)?;
    Ok(rules)
}

/// Whether the join stands in a side with these items.
pub fn stands_in(side: RelSet, s: &Special) -> bool
    ensures { result ≡ stands_in side s.now }
{
    is_within(both(s.syn_left, s.syn_right), side)
}

/// The items that a join needs.
pub fn both_sets(s: &Special) -> RelSet
    ensures { result ≡ both_sets s.now }
{
    both(s.min_left, s.min_right)
}

/// A set that meets the right set of the join takes in both of its sets.
pub fn taken_by_right(s: &Special) -> Rule
    ensures { result ≡ taken_by_right s.now }
{
    Rule {
        met: s.min_right,
        taken: both_sets(s),
    }
}
