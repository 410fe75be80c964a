ghost use Rattle.std.specs.Prelude.{◌≡◌, ◌≤◌, length, map, filter, IfOk, OnOk};
ghost use Rattle.jp_problem.specs.MinimumSets.{comes_first, is_needed_left, left_rules, left_set, may_come_later, specials_in, with_sets};

use crate::relations::{rejects, rels_at};
use crate::right_side::{right_set, used_in};
use jp_base::{Memory, RelSet};
use jp_problem::{Outline, Rule, Special, Written, closure, is_left, stands_in, taken_by_right};
use jp_query::Expr;
use sqlite_items::Items;
use std::alloc::Global;

/// The special joins that an outline tells of, by ascending number, each with its sets.
pub fn specials_in(alloc: Global, outline: &Outline) -> Result<Vec<Special>, Memory>
    requires few { length outline.now.rels ≤ 64 }
    ensures { IfOk result (λ joins. joins.items ≡ specials_in outline.now) }
{
    let mut joins = Vec::new(alloc);
    'joins: for s in outline.joins.as_slice() {
        let special = with_sets(alloc, outline, joins.as_slice(), s)?;
        joins.push(special)?;
    }
    Ok(joins)
}

fn with_sets(
    alloc: Global,
    outline: &Outline,
    joins: &[Special],
    s: &Written,
) -> Result<Special, Memory>
    requires few { length outline.now.rels ≤ 64 }
    ensures { IfOk result (λ special. special ≡ with_sets outline.now joins.now s.now) }
{
    let min_left = left_set(alloc, outline.rels.as_slice(), joins, s)?;
    let min_right = right_set(alloc, outline, joins, s)?;
    let on = copies(alloc, s.on.as_slice())?;
    Ok(Special {
        no: s.no,
        kind: s.kind,
        min_left,
        min_right,
        syn_left: s.syn_left,
        syn_right: s.syn_right,
        lhs_strict: rejects(s.on.as_slice(), rels_at(outline.rels.as_slice(), min_left)),
        region: s.region,
        on,
    })
}

/// Equal expressions, in memory of their own.
pub fn copies(alloc: Global, exprs: &[Expr]) -> Result<Items<Expr>, Memory>
    ensures { IfOk result (λ list. list ≡ exprs.now) }
{
    let mut list = Items::new(alloc);
    'exprs: for e in exprs {
        list.push(e.copy(alloc)?)?;
    }
    Ok(list)
}

/// The least set of items that a join needs to its left, from the sets of the joins before it.
fn left_set(
    alloc: Global,
    rels: &[RelSet],
    joins: &[Special],
    s: &Written,
) -> Result<RelSet, Memory>
    requires few { length rels.now ≤ 64 }
    ensures { IfOk result (λ set. set ≡ left_set rels.now joins.now s.now) }
{
    let rules = left_rules(alloc, rels, joins, s)?;
    let set = closure(rules.as_slice(), used_in(s, s.syn_left));
    Ok(set)
}

fn left_rules(
    alloc: Global,
    rels: &[RelSet],
    joins: &[Special],
    s: &Written,
) -> Result<Vec<Rule>, Memory>
    requires few { length rels.now ≤ 64 }
    ensures { IfOk result (λ rules. rules.items ≡ left_rules rels.now joins.now s.now) }
{
    let rules = joins
        .iter()
        .filter(|t| is_needed_left(rels, s, t))
        .map(|t| taken_by_right(t))
        .collect(alloc)?;
    Ok(rules)
}

/// Whether the join `t` stands in the left side and comes first.
fn is_needed_left(rels: &[RelSet], s: &Written, t: &Special) -> bool
    requires few { length rels.now ≤ 64 }
    ensures { result ≡ is_needed_left rels.now s.now t.now }
{
    stands_in(s.syn_left, t) && !may_come_later(rels, s, t)
}

/// Whether the ON list of the Left join `s` isn't true where the right set of `t` is absent.
fn may_come_later(rels: &[RelSet], s: &Written, t: &Special) -> bool
    requires few { length rels.now ≤ 64 }
    ensures { result ≡ may_come_later rels.now s.now t.now }
{
    is_left(s.kind) && rejects(s.on.as_slice(), rels_at(rels, t.min_right))
}
