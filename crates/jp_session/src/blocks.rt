ghost use Rattle.std.specs.Prelude.{◌≡◌, ◌+◌, ◌<◌, ◌≤◌, ◌^◌, IfOk, OnOk, length};
ghost use Rattle.jp_problem.specs.Made.{IsSearchable};
ghost use Rattle.jp_session.specs.Blocks.{AreMade, CanBePlanned, IsList, IsPlanned};
ghost use Rattle.jp_session.specs.Costs.{IsLegalPlan};
ghost use Rattle.jp_tree.specs.Pools.{GrowsTo, IsTreeOf};
ghost use Rattle.jp_cost.specs.Estimates.{estimate as estimate_of};
ghost use Rattle.jp_cost.specs.TreeCosts.{tree_cost};
ghost use Rattle.jp_problem.specs.Problems.{items_of as all_items};
ghost use Rattle.jp_problem.specs.Trees.{Tree};

use crate::costs::plan_cost;
use crate::gathering::Entry;
use crate::items::{Making, items_of};
use crate::prices::Price;
use jp_base::Memory;
use jp_catalog::Catalog;
use jp_cost::estimate;
use jp_problem::Problem;
use jp_quals::distribute;
use jp_query::{Order, Output};
use jp_search::{Steps, best};
use jp_special::{span, specials};
use jp_tree::{Block, PlanId, Pool};
use sqlite_items::Items;
use std::alloc::Global;
use std::marker::Brand;
use std::sync::ledger::{Blank, Ledger};

/// The blocks that are made so far, the price of each, and the plans of all.
#[derive(Drop)]
pub struct Made {
    pub blocks: Vec<Block>,
    pub prices: Vec<Price>,
    pub pool: Pool,
}

/// A block and what its plan is estimated to give and costs.
#[derive(Drop)]
struct Planned {
    block: Block,
    price: Price,
}

/// The blocks of a list of parts, in its order, each with the first of its legal trees as its plan.
pub fn blocks_of(alloc: Global, catalog: &Catalog, entries: &[Entry]) -> Result<Made, Memory>
    requires list { IsList catalog.now entries.now }
    requires few { length entries.now ≤ 2 ^ 32 }
    ensures made { IfOk result (λ made. AreMade catalog.now entries.now made.blocks.items made.prices.items made.pool.nodes) }
    ensures all { IfOk result (λ made. length made.blocks.items ≡ length entries.now) }
{
    counted_blocks::<Brand>(alloc, catalog, entries, Blank::new(1))
}

fn counted_blocks<L: Ledger>(
    alloc: Global,
    catalog: &Catalog,
    entries: &[Entry],
    blank: Blank,
) -> Result<Made, Memory>
    requires list { IsList catalog.now entries.now }
    requires few { length entries.now ≤ 2 ^ 32 }
    requires name { blank.name ≡ L.name }
    requires parts { blank.parts ≡ L.parts }
    requires one { 0 < blank.parts }
    ensures made { IfOk result (λ made. AreMade catalog.now entries.now made.blocks.items made.prices.items made.pool.nodes) }
    ensures all { IfOk result (λ made. length made.blocks.items ≡ length entries.now) }
{
    let mut steps = Steps::<L>::new(blank);
    let mut made = Made {
        blocks: Vec::new(alloc),
        prices: Vec::new(alloc),
        pool: Pool::new(alloc),
    };
    'entries: for at in 0..entries.len() {
        add_block(alloc, catalog, entries, at, &mut made, &mut steps)?;
    }
    Ok(made)
}

/// Makes the block at a place, which is the next one.
fn add_block<L: Ledger>(
    alloc: Global,
    catalog: &Catalog,
    entries: &[Entry],
    at: usize,
    made: &mut Made,
    steps: &mut Steps<L>,
) -> Result<(), Memory>
    requires list { IsList catalog.now entries.now }
    requires few { length entries.now ≤ 2 ^ 32 }
    requires made { AreMade catalog.now entries.now made.old.blocks.items made.old.prices.items made.old.pool.nodes }
    requires at { length made.old.blocks.items ≡ at }
    requires left { at < length entries.now }
    ensures made { OnOk result (AreMade catalog.now entries.now made.new.blocks.items made.new.prices.items made.new.pool.nodes) }
    ensures one { OnOk result (length made.new.blocks.items ≡ at + 1) }
{
    let entry = &entries[at];
    let making = Making {
        catalog,
        prices: made.prices.as_slice(),
        count: entries.len(),
    };
    let planned = plan_block(alloc, making, entry, &mut made.pool, steps)?;
    made.blocks.push(planned.block)?;
    made.prices.push(planned.price)?;
    Ok(())
}

/// The block of a part with its plan and price.
fn plan_block<L: Ledger>(
    alloc: Global,
    making: Making<'_>,
    entry: &Entry,
    pool: &mut Pool,
    steps: &mut Steps<L>,
) -> Result<Planned, Memory>
    requires can { CanBePlanned making.catalog.now making.prices.now making.count entry.now }
    ensures is { IfOk result (λ p. IsPlanned making.entry.catalog.now making.entry.prices.now making.entry.count entry.now pool.new.nodes p.block p.price) }
    ensures kept { GrowsTo pool.old.nodes pool.new.nodes }
{
    let query = entry.part.query.get();
    let items = items_of(alloc, making, query, entry.inner.as_slice())?;
    let joins = specials(alloc, query)?;
    let problem = distribute(alloc, query, joins, items)?;
    let columns = copy_outputs(alloc, query.columns.as_slice())?;
    let order = copy_orders(alloc, query.order.as_slice())?;
    let plan = best(alloc, &problem, pool, steps)?;
    let price = price_of_plan(&problem, pool, plan);
    let block = Block {
        problem,
        plan,
        columns,
        distinct: query.distinct,
        order,
        sub: entry.part.sub,
    };
    Ok(Planned { block, price })
}

/// What a plan of all items is estimated to give, and what it costs.
fn price_of_plan(problem: &Problem, pool: &Pool, plan: PlanId) -> Price
    requires searchable { IsSearchable problem.now }
    requires plan { IsLegalPlan problem.now pool.now.nodes plan }
    ensures rows { result.rows ≡ estimate_of problem.now (all_items problem.now) }
    ensures cost { (tree : Tree) → IsTreeOf pool.now.nodes plan tree → result.cost ≡ tree_cost problem.now tree }
    ensures few { result.rows ≤ 2 ^ 60 }
    ensures fits { result.cost ≤ 2 ^ 126 }
{
    let items = span(0, problem.items.len() as u8);
    Price {
        rows: estimate(problem, items),
        cost: plan_cost(problem, pool, plan),
    }
}

fn copy_outputs(alloc: Global, outputs: &[Output]) -> Result<Items<Output>, Memory>
    ensures { IfOk result (λ copies. copies ≡ outputs.now) }
{
    let mut copies = Items::new(alloc);
    'outputs: for output in outputs {
        copies.push(output.copy(alloc)?)?;
    }
    Ok(copies)
}

fn copy_orders(alloc: Global, orders: &[Order]) -> Result<Items<Order>, Memory>
    ensures { IfOk result (λ copies. copies ≡ orders.now) }
{
    let mut copies = Items::new(alloc);
    'orders: for order in orders {
        copies.push(order.copy(alloc)?)?;
    }
    Ok(copies)
}
