ghost use Rattle.std.specs.Prelude.{◌≡◌, ◌+◌, ◌<◌, ◌≤◌, length, map, filter, IfOk};
ghost use Rattle.jp_problem.specs.Blocks.{is_clause_of_side, items_with, placed_in, stays_in_on, used, used_by};
ghost use Rattle.jp_problem.specs.Sets.{span};
ghost use Rattle.jp_query.specs.Refs.{only};

use jp_base::{JoinNo, Memory, RelSet};
use jp_problem::Placed;
use jp_problem::sets::{both, is_empty, is_within, meets, nothing, set_if};
use jp_query::{Expr, refs};
use sqlite_items::Items;
use std::alloc::Global;

/// So many items from `first` on.
pub fn span(first: u8, count: u8) -> RelSet
    requires { first + count ≤ 64 }
    ensures { result ≡ span first count }
{
    let mut items = nothing();
    'items: for i in first..first + count {
        items = both(items, one(i));
    }
    items
}

fn one(i: u8) -> RelSet
    requires { i < 64 }
    ensures { result ≡ only i }
{
    RelSet::one(i)
}

/// The items that have a relation of the set.
pub fn items_with(rels: &[RelSet], set: RelSet) -> RelSet
    requires few { length rels.now ≤ 64 }
    ensures { result ≡ items_with rels.now set }
{
    let mut found = nothing();
    'items: for (i, rel) in rels.iter().enumerate() {
        found = both(found, set_if(meets(*rel, set), one(i as u8)));
    }
    found
}

fn used(rels: &[RelSet], e: &Expr) -> RelSet
    requires few { length rels.now ≤ 64 }
    ensures { result ≡ used rels.now e.now }
{
    items_with(rels, refs(e))
}

pub fn used_by(rels: &[RelSet], conds: &[Expr]) -> RelSet
    requires few { length rels.now ≤ 64 }
    ensures { result ≡ used_by rels.now conds.now }
{
    let mut items = nothing();
    'conds: for e in conds {
        items = both(items, used(rels, e));
    }
    items
}

/// Whether a member of an ON list is a clause of the join's region: it uses items, and of the right side alone.
fn is_clause_of_side(rels: &[RelSet], side: RelSet, e: &Expr) -> bool
    requires few { length rels.now ≤ 64 }
    ensures { result ≡ is_clause_of_side rels.now side e.now }
{
    !is_empty(used(rels, e)) && is_within(used(rels, e), side)
}

/// The members of an ON list that stay in it.
pub fn own_members(
    alloc: Global,
    rels: &[RelSet],
    side: RelSet,
    on: &[Expr],
) -> Result<Items<Expr>, Memory>
    requires few { length rels.now ≤ 64 }
    ensures { IfOk result (λ own. own ≡ filter (stays_in_on rels.now side) on.now) }
{
    let mut own = Items::new(alloc);
    'members: for e in on {
        if !is_clause_of_side(rels, side, e) {
            own.push(e.copy(alloc)?)?;
        }
    }
    Ok(own)
}

/// The members of an ON list that are clauses of the join's region.
pub fn moved_members(
    alloc: Global,
    rels: &[RelSet],
    region: JoinNo,
    side: RelSet,
    on: &[Expr],
) -> Result<Items<Placed>, Memory>
    requires few { length rels.now ≤ 64 }
    ensures { IfOk result (λ moved. moved ≡ map (placed_in rels.now region) (filter (is_clause_of_side rels.now side) on.now)) }
{
    let mut moved = Items::new(alloc);
    'members: for e in on {
        if is_clause_of_side(rels, side, e) {
            moved.push(placed_in(alloc, rels, region, e)?)?;
        }
    }
    Ok(moved)
}

/// The conditions as clauses of the region.
pub fn placed(
    alloc: Global,
    rels: &[RelSet],
    region: JoinNo,
    conds: &[Expr],
) -> Result<Items<Placed>, Memory>
    requires few { length rels.now ≤ 64 }
    ensures { IfOk result (λ list. list ≡ map (placed_in rels.now region) conds.now) }
{
    let mut list = Items::new(alloc);
    'conds: for e in conds {
        list.push(placed_in(alloc, rels, region, e)?)?;
    }
    Ok(list)
}

fn placed_in(alloc: Global, rels: &[RelSet], region: JoinNo, e: &Expr) -> Result<Placed, Memory>
    requires few { length rels.now ≤ 64 }
    ensures { IfOk result (λ p. p ≡ placed_in rels.now region e.now) }
{
    Ok(Placed {
        expr: e.copy(alloc)?,
        region,
        uses: used(rels, e),
    })
}
