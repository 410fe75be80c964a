ghost use Rattle.std.specs.Prelude.{◌≡◌, ◌<◌, ◌≤◌, length, map, filter, IfOk};
ghost use Rattle.jp_problem.specs.MinimumSets.{taken_by_right, filtering_sets, filters_side, has_anchor, has_no_anchor, is_anchor, is_below, is_left_below, is_left_inside, is_unanchored, kept_in, kept_placeholders, needs_in, nulled_below, region_needs, right_rules, right_seed, right_set, taken_by_left, used_in};

use crate::relations::{has, rejects};
use jp_base::{Memory, RelSet};
use jp_problem::sets::{both, common, is_empty, is_within, nothing, or_if_empty, set_if, without};
use jp_problem::{
    Outline, Placed, Rule, Special, Written, both_sets, closure, is_left, requirement, stands_in,
    taken_by_right,
};
use std::alloc::Global;

/// The least set of items that a join needs to its right, from the sets of the joins before it.
pub fn right_set(
    alloc: Global,
    outline: &Outline,
    joins: &[Special],
    s: &Written,
) -> Result<RelSet, Memory>
    requires few { length outline.now.rels ≤ 64 }
    ensures { IfOk result (λ set. set ≡ right_set outline.now joins.now s.now) }
{
    if is_left(s.kind) {
        let rules = right_rules(alloc, outline.rels.as_slice(), joins, s)?;
        let seed = right_seed(alloc, outline, joins, s)?;
        let set = closure(rules.as_slice(), seed);
        Ok(set)
    } else {
        Ok(s.syn_right)
    }
}

/// What the right set of a Left join holds from the start.
fn right_seed(
    alloc: Global,
    outline: &Outline,
    joins: &[Special],
    s: &Written,
) -> Result<RelSet, Memory>
    ensures { IfOk result (λ set. set ≡ right_seed outline.now joins.now s.now) }
{
    let needs = region_needs(alloc, outline.clauses.as_slice(), joins, s)?;
    let kept = kept_placeholders(outline.placeholders.as_slice(), s);
    let alone = without(s.syn_right, nulled_below(joins, s));
    let seed = both(nothing(), used_in(s, s.syn_right));
    let seed = both(seed, alone);
    let seed = both(seed, filtering_sets(joins, s));
    let seed = both(both(seed, needs), kept);
    Ok(seed)
}

/// The items of a side that the ON list uses, or all of the side where it uses none.
pub fn used_in(s: &Written, side: RelSet) -> RelSet
    ensures { result ≡ used_in s.now side }
{
    or_if_empty(common(s.uses, side), side)
}

/// The items that the Left joins below make absent.
fn nulled_below(joins: &[Special], s: &Written) -> RelSet
    ensures { result ≡ nulled_below joins.now s.now }
{
    let mut nulled = nothing();
    'joins: for t in joins {
        if is_left_below(s, t) {
            nulled = both(nulled, t.min_right);
        }
    }
    nulled
}

fn is_left_below(s: &Written, t: &Special) -> bool
    ensures { result ≡ is_left_below s.now t.now }
{
    is_left(t.kind) && is_below(s, t)
}

fn is_below(s: &Written, t: &Special) -> bool
    ensures { result ≡ is_below s.now t.now }
{
    stands_in(s.syn_left, t) || stands_in(s.syn_right, t)
}

/// The sets of the Semi and Anti joins of the join's region.
fn filtering_sets(joins: &[Special], s: &Written) -> RelSet
    ensures { result ≡ filtering_sets joins.now s.now }
{
    let mut sets = nothing();
    'joins: for v in joins {
        if filters_side(s, v) {
            sets = both(sets, both_sets(v));
        }
    }
    sets
}

fn filters_side(s: &Written, v: &Special) -> bool
    ensures { result ≡ filters_side s.now v.now }
{
    v.region == s.no && !is_left(v.kind)
}

/// What the clauses of the join's region need.
fn region_needs(
    alloc: Global,
    clauses: &[Placed],
    joins: &[Special],
    s: &Written,
) -> Result<RelSet, Memory>
    ensures { IfOk result (λ set. set ≡ region_needs clauses.now joins.now s.now) }
{
    let mut needs = nothing();
    'clauses: for c in clauses {
        if c.region == s.no {
            let more = needs_in(alloc, joins, s.syn_right, c)?;
            needs = both(needs, more);
        }
    }
    Ok(needs)
}

fn needs_in(alloc: Global, joins: &[Special], side: RelSet, c: &Placed) -> Result<RelSet, Memory>
    ensures { IfOk result (λ set. set ≡ needs_in joins.now side c.now) }
{
    let needs = requirement(alloc, joins, side, or_if_empty(c.uses, side))?;
    Ok(needs)
}

/// The items of the placeholders whose items lie in the join's right side.
fn kept_placeholders(placeholders: &[RelSet], s: &Written) -> RelSet
    ensures { result ≡ kept_placeholders placeholders.now s.now }
{
    let mut kept = nothing();
    'placeholders: for items in placeholders {
        kept = both(kept, kept_in(s.syn_right, *items));
    }
    kept
}

fn kept_in(side: RelSet, items: RelSet) -> RelSet
    ensures { result ≡ kept_in side items }
{
    set_if(is_within(items, side), items)
}

/// The Left joins in the right side that come along.
fn right_rules(
    alloc: Global,
    rels: &[RelSet],
    joins: &[Special],
    s: &Written,
) -> Result<Vec<Rule>, Memory>
    requires few { length rels.now ≤ 64 }
    ensures { IfOk result (λ rules. rules.items ≡ right_rules rels.now joins.now s.now) }
{
    let mut rules = rules_by_right(alloc, joins, s)?;
    let mut more = rules_by_left(alloc, rels, nulled_below(joins, s), joins, s)?;
    rules.append(&mut more)?;
    Ok(rules)
}

fn rules_by_right(alloc: Global, joins: &[Special], s: &Written) -> Result<Vec<Rule>, Memory>
    ensures { IfOk result (λ rules. rules.items ≡ map taken_by_right (filter (is_left_inside s.now) joins.now)) }
{
    let rules = joins
        .iter()
        .filter(|u| is_left_inside(s, u))
        .map(|u| taken_by_right(u))
        .collect(alloc)?;
    Ok(rules)
}

fn rules_by_left(
    alloc: Global,
    rels: &[RelSet],
    nulled: RelSet,
    joins: &[Special],
    s: &Written,
) -> Result<Vec<Rule>, Memory>
    requires few { length rels.now ≤ 64 }
    ensures { IfOk result (λ rules. rules.items ≡ map taken_by_left (filter (is_unanchored rels.now nulled s.now) joins.now)) }
{
    let rules = joins
        .iter()
        .filter(|u| is_unanchored(rels, nulled, s, u))
        .map(|u| taken_by_left(u))
        .collect(alloc)?;
    Ok(rules)
}

fn is_left_inside(s: &Written, u: &Special) -> bool
    ensures { result ≡ is_left_inside s.now u.now }
{
    is_left(u.kind) && stands_in(s.syn_right, u)
}

fn is_unanchored(rels: &[RelSet], nulled: RelSet, s: &Written, u: &Special) -> bool
    requires few { length rels.now ≤ 64 }
    ensures { result ≡ is_unanchored rels.now nulled s.now u.now }
{
    is_left_inside(s, u) && !has_anchor(rels, nulled, u)
}

fn taken_by_left(u: &Special) -> Rule
    ensures { result ≡ taken_by_left u.now }
{
    Rule {
        met: u.min_left,
        taken: both_sets(u),
    }
}

/// Whether some item that no Left join below makes absent holds the Left join `u`: its absence makes the ON list of `u` not
/// true.
fn has_anchor(rels: &[RelSet], nulled: RelSet, u: &Special) -> bool
    requires few { length rels.now ≤ 64 }
    ensures { result ≡ has_anchor rels.now nulled u.now }
{
    'items: for (i, rel) in rels.iter().enumerate() {
        if is_anchor(nulled, u, i, *rel) {
            return true;
        }
    }
    false
}

fn is_anchor(nulled: RelSet, u: &Special, i: usize, rels: RelSet) -> bool
    requires { i < 64 }
    ensures { result ≡ is_anchor nulled u.now i rels }
{
    !has(nulled, i) && rejects(u.on.as_slice(), rels)
}
