ghost use Rattle.std.specs.Prelude.{◌≡◌, ◌≤◌, length, map, IfOk};
ghost use Rattle.jp_problem.specs.MinimumSets.{clause_needs};
ghost use Rattle.jp_problem.specs.Problems.{clause_of, region_items};
ghost use Rattle.jp_problem.specs.Sets.{span};

use jp_base::{JoinNo, Memory, RelSet};
use jp_problem::sets::{nothing, or_if_empty};
use jp_problem::{Clause, Placed, Special, join_of, requirement};
use jp_special::span;
use sqlite_items::Items;
use std::alloc::Global;

/// The conditions of a block as clauses, in the same order, each with the items that it needs where these joins are the
/// block's; `distribute` makes its clauses by it. The only error is want of memory.
pub fn clauses_of(
    alloc: Global,
    rels: &[RelSet],
    joins: &[Special],
    placed: &[Placed],
) -> Result<Items<Clause>, Memory>
    requires few { length rels.now ≤ 64 }
    ensures { IfOk result (λ clauses. clauses ≡ map (clause_of rels.now joins.now) placed.now) }
{
    let mut clauses = Items::new(alloc);
    'placed: for c in placed {
        clauses.push(clause_of(alloc, rels, joins, c)?)?;
    }
    Ok(clauses)
}

fn clause_of(
    alloc: Global,
    rels: &[RelSet],
    joins: &[Special],
    c: &Placed,
) -> Result<Clause, Memory>
    requires few { length rels.now ≤ 64 }
    ensures { IfOk result (λ clause. clause ≡ clause_of rels.now joins.now c.now) }
{
    let side = region_items(rels, joins, c.region);
    let req = clause_needs(alloc, joins, side, c.uses)?;
    Ok(Clause {
        expr: c.expr.copy(alloc)?,
        region: c.region,
        req,
        class: None,
    })
}

/// What a clause of a region with these items needs: from the items that it uses, or from all of the region's where it uses
/// none.
fn clause_needs(
    alloc: Global,
    joins: &[Special],
    side: RelSet,
    uses: RelSet,
) -> Result<RelSet, Memory>
    ensures { IfOk result (λ needs. needs ≡ clause_needs joins.now side uses) }
{
    let needs = requirement(alloc, joins, side, or_if_empty(uses, side))?;
    Ok(needs)
}

/// The items of a region: all of them at the top, else those of the right side of its join.
fn region_items(rels: &[RelSet], joins: &[Special], region: JoinNo) -> RelSet
    requires few { length rels.now ≤ 64 }
    ensures { result ≡ region_items (span 0 (length rels.now)) joins.now region }
{
    if region == 0 {
        return span(0, rels.len() as u8);
    }
    match join_of(joins, region) {
        Some(join) => join.syn_right,
        None => nothing(),
    }
}
