ghost use Rattle.std.specs.Prelude.{◌≡◌, ◌+◌, ◌<◌, ◌≤◌, length, All, IfOk};
ghost use Rattle.jp_problem.specs.Made.{IsSearchable};
ghost use Rattle.jp_search_tests.specs.Chain.{IsChainFrom, IsChainJoin};
ghost use Rattle.jp_search_tests.specs.Plain.{HasRows};

use crate::plain::plain_items;
use jp_base::{JoinNo, Memory, RelSet};
use jp_problem::{Problem, Special};
use jp_query::JoinKind;
use sqlite_items::Items;
use std::alloc::Global;

/// A problem of items that left joins link, each with the next one; their ON lists are empty.
pub fn chain_problem(alloc: Global, rows: &[u64]) -> Result<Problem, Memory>
    requires some { 1 ≤ length rows.now }
    requires few { length rows.now ≤ 16 }
    requires rows { All HasRows rows.now }
    ensures { IfOk result (λ problem. IsSearchable problem) }
{
    let items = plain_items(alloc, rows)?;
    let joins = chain_joins(alloc, rows.len() as u8)?;
    Ok(Problem {
        items,
        joins,
        clauses: Items::new(alloc),
        classes: Items::new(alloc),
    })
}

/// The joins of so many items.
fn chain_joins(alloc: Global, count: u8) -> Result<Items<Special>, Memory>
    requires some { 1 ≤ count }
    requires few { count ≤ 16 }
    ensures count { IfOk result (λ joins. length joins + 1 ≡ count) }
    ensures chain { IfOk result (λ joins. IsChainFrom 0 joins) }
{
    let mut joins = Items::new(alloc);
    'joins: for number in 1..count {
        joins.push(chain_join(alloc, number))?;
    }
    Ok(joins)
}

fn chain_join(alloc: Global, number: JoinNo) -> Special
    requires some { 1 ≤ number }
    requires few { number < 16 }
    ensures { IsChainJoin number result }
{
    Special {
        no: number,
        kind: JoinKind::Left,
        min_left: RelSet::one(number - 1),
        min_right: RelSet::one(number),
        syn_left: RelSet::one(number - 1),
        syn_right: RelSet::one(number),
        lhs_strict: true,
        region: 0,
        on: Items::new(alloc),
    }
}
