ghost use Rattle.std.specs.Prelude.{◌≡◌, ◌+◌, ◌≤◌, ◌^◌, bit_or, slice_get};
ghost use Rattle.jp_cost.specs.Costs.{cost};
ghost use Rattle.jp_cost.specs.Estimates.{estimate};
ghost use Rattle.jp_problem.specs.Made.{IsEstimable, IsSearchable};
ghost use Rattle.jp_problem.specs.Trees.{set_of};
ghost use Rattle.jp_tree.specs.Pools.{IsTreeOf};
ghost use Rattle.jp_cost.specs.TreeCosts.{scan_cost, tree_cost};
ghost use Rattle.jp_tree.specs.PlanTrees.{IsLegalAt, tree_at};

use jp_base::{ItemNo, RelSet};
use jp_cost::{estimate, step_cost};
use jp_problem::sets::{both, one};
use jp_problem::{Method, Problem};
use jp_tree::{PlanId, PlanNode, Pool};

/// The items of a plan, and what it costs.
#[derive(Clone, Copy, Debug, PartialEq, Eq)]
pub struct Weight {
    pub set: RelSet,
    pub cost: u128,
}

/// The items of a plan of a problem, and what it costs.
pub fn weight_of(problem: &Problem, pool: &Pool, id: PlanId) -> Weight
    requires searchable { IsSearchable problem.now }
    requires legal { IsLegalAt problem.now pool.now.nodes id }
    ensures set { result.set ≡ set_of (tree_at pool.now.nodes id) }
    ensures cost { result.cost ≡ tree_cost problem.now (tree_at pool.now.nodes id) }
    ensures named { IsTreeOf pool.now.nodes id (tree_at pool.now.nodes id) }
{
    match pool.node(id) {
        PlanNode::Scan(item) => Weight {
            set: one(item),
            cost: scan_cost(problem, item),
        },
        PlanNode::Join {
            method,
            left,
            right,
            ..
        } => {
            let left = weight_of(problem, pool, left);
            let right = weight_of(problem, pool, right);
            joined(problem, method, left, right)
        }
    }
}

/// A step of two plans.
fn joined(problem: &Problem, method: Method, left: Weight, right: Weight) -> Weight
    requires estimable { IsEstimable problem.now }
    requires fits { left.cost + right.cost + cost method (estimate problem.now left.set) (estimate problem.now right.set) ≤ 2 ^ 126 }
    ensures set { result.set ≡ bit_or left.set right.set }
    ensures cost { result.cost ≡ left.cost + right.cost + cost method (estimate problem.now left.set) (estimate problem.now right.set) }
{
    let step = step_cost(
        method,
        estimate(problem, left.set),
        estimate(problem, right.set),
    );
    Weight {
        set: both(left.set, right.set),
        cost: left.cost + right.cost + step,
    }
}

fn scan_cost(problem: &Problem, item: ItemNo) -> u128
    ensures { result ≡ scan_cost (slice_get problem.now.items item) }
{
    match problem.items.get(item as usize) {
        Some(item) => item.cost,
        None => 0,
    }
}
