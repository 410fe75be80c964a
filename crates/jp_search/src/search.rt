ghost use Rattle.std.specs.Prelude.{◌≡◌, ℕ, ◌+◌, ◌<◌, ◌≤◌, ◌^◌, ◌∷◌, ◌++◌, [], length, IfOk, OnErr, Some, None};
ghost use Rattle.jp_problem.specs.Made.{IsSearchable};
ghost use Rattle.jp_problem.specs.Trees.{Tree, IsPlan};
ghost use Rattle.jp_tree.specs.Pools.{GrowsTo, HasChildrenBelow, IsTreeOf};
ghost use Rattle.jp_search.specs.Counts.{parts_below, parts_of};
ghost use Rattle.jp_search.specs.Entries.{IsEntry, Knows};
ghost use Rattle.jp_search.specs.Tables.{entry_at};
ghost use Rattle.jp_search.specs.TreeOrder.{ComesBefore};

use crate::Steps;
use crate::joins::facts_of;
use crate::numbers::set_of;
use crate::splits::chosen;
use crate::table::{Found, Table};
use jp_base::{Memory, RelSet};
use jp_cost::estimate;
use jp_problem::Problem;
use jp_tree::{PlanId, PlanNode, Pool};
use std::alloc::Global;
use std::sync::ledger::Ledger;

/// The first of the legal trees of all items, as a number in the pool. Trees are ordered by cost, then by the left set of
/// the root as a number, then by method, then by the left tree, then by the right tree (PostgreSQL's
/// `standard_join_search` also looks for the cheapest, by levels; the order here is this product's own), and methods as
/// Nest, Hash, HashRight, Merge. The memory that it takes is one entry and one node of the pool for each set of items,
/// before the first counted step; a step is one split of a set into a left and a right part that is looked at.
pub fn best<L: Ledger>(
    alloc: Global,
    problem: &Problem,
    pool: &mut Pool,
    steps: &mut Steps<L>,
) -> Result<PlanId, Memory>
    requires { IsSearchable problem.now }
    ensures plan { IfOk result (λ id. (tree : Tree) × IsTreeOf pool.new.nodes id tree × IsPlan problem.now tree) }
    ensures first { IfOk result (λ id. (tree other : Tree) → IsTreeOf pool.new.nodes id tree → IsPlan problem.now other → ¬ ComesBefore problem.now other tree) }
    ensures kept { GrowsTo pool.old.nodes pool.new.nodes }
    // one node for a set, which all trees share
    ensures shared { length pool.new.nodes ≤ length pool.old.nodes + 2 ^ length problem.now.items }
    ensures memory { OnErr result (pool.new.nodes ≡ pool.old.nodes) }
    ensures before_steps { OnErr result (steps.new ≡ steps.old) }
    ensures steps { steps.new ≤ steps.old + 3 ^ length problem.now.items }
{
    let count = 1 << problem.items.len();
    let mut table = Table::new(alloc, count)?;
    pool.reserve(count)?;
    fill(problem, &mut table, pool, steps);
    Ok(plan_of(&table, set_of(count - 1)))
}

/// Finds the entry of each set, by ascending number: each part of a set is a lesser number.
fn fill<L: Ledger>(problem: &Problem, table: &mut Table, pool: &mut Pool, steps: &mut Steps<L>)
    requires searchable { IsSearchable problem.now }
    requires size { length table.old ≡ 2 ^ length problem.now.items }
    requires begun { Knows problem.now pool.old.nodes table.old 1 }
    requires room { length table.old ≤ pool.old.spare }
    ensures size { length table.new ≡ 2 ^ length problem.now.items }
    ensures known { Knows problem.now pool.new.nodes table.new (length table.new) }
    ensures kept { GrowsTo pool.old.nodes pool.new.nodes }
    ensures shared { length pool.new.nodes ≤ length pool.old.nodes + length table.new }
    ensures steps { steps.new ≤ steps.old + parts_below (length problem.now.items) (length table.new) }
{
    'sets: for number in 1..table.len() {
        let entry = found(problem, table, set_of(number), pool, steps);
        table.put(number, entry);
    }
}

/// The entry of a set, with its tree put into the pool.
fn found<L: Ledger>(
    problem: &Problem,
    table: &Table,
    set: RelSet,
    pool: &mut Pool,
    steps: &mut Steps<L>,
) -> Option<Found>
    requires searchable { IsSearchable problem.now }
    requires size { length table.now ≡ 2 ^ length problem.now.items }
    requires there { set < length table.now }
    requires some { 0 < set }
    requires known { Knows problem.now pool.old.nodes table.now set }
    requires room { 0 < pool.old.spare }
    ensures entry { IsEntry problem.now pool.new.nodes set result }
    ensures kept { GrowsTo pool.old.nodes pool.new.nodes }
    ensures shared { length pool.new.nodes ≤ length pool.old.nodes + 1 }
    ensures room { pool.old.spare ≤ pool.new.spare + 1 }
    ensures steps { steps.new ≤ steps.old + parts_of (length problem.now.items) set }
{
    let facts = facts_of(problem, set);
    match chosen(problem, table, set, &facts, steps) {
        Some(choice) => Some(Found {
            plan: put(pool, choice.node),
            cost: choice.cost,
            rows: estimate(problem, set),
            facts,
        }),
        None => None,
    }
}

/// Puts a node into a pool that has room for it.
fn put(pool: &mut Pool, node: PlanNode) -> PlanId
    requires room { 0 < pool.old.spare }
    requires children { HasChildrenBelow (length pool.old.nodes) node }
    ensures nodes { pool.new.nodes ≡ pool.old.nodes ++ node ∷ [] }
    ensures number { result ≡ length pool.old.nodes }
    ensures room { pool.old.spare ≤ pool.new.spare + 1 }
{
    match pool.push(node) {
        Ok(id) => id,
        Err(_) => unreachable!(),
    }
}

/// The number of the tree of a set that has one.
fn plan_of(table: &Table, set: RelSet) -> PlanId
    requires few { length table.now ≤ 2 ^ 16 }
    requires there { set < length table.now }
    requires some { ¬ (entry_at table.now set ≡ None) }
    ensures { (found : Found) → entry_at table.now set ≡ Some found → result ≡ found.plan }
{
    match table.entry(set) {
        Some(found) => found.plan,
        None => unreachable!(),
    }
}
