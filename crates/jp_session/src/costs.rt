ghost use Rattle.std.specs.Prelude.{◌≡◌, ◌<◌, length, slice_get};
ghost use Rattle.jp_cost.specs.Costs.{cost};
ghost use Rattle.jp_cost.specs.Estimates.{estimate};
ghost use Rattle.jp_cost.specs.TreeCosts.{scan_cost, tree_cost};
ghost use Rattle.jp_problem.specs.Made.{IsSearchable};
ghost use Rattle.jp_problem.specs.Trees.{Tree};
ghost use Rattle.jp_session.specs.Costs.{IsLegalPlan, IsPricedAs};
ghost use Rattle.jp_tree.specs.Pools.{IsTreeOf};

use jp_base::{ItemNo, RelSet};
use jp_cost::{estimate, step_cost};
use jp_problem::sets::both;
use jp_problem::{Method, Problem};
use jp_tree::{PlanId, PlanNode, Pool};

/// The items of a tree and what the tree costs.
#[derive(Clone, Copy)]
struct Priced {
    set: RelSet,
    cost: u128,
}

/// What the plan of a number costs: the sum over its scans and its steps.
pub fn plan_cost(problem: &Problem, pool: &Pool, plan: PlanId) -> u128
    requires searchable { IsSearchable problem.now }
    requires plan { IsLegalPlan problem.now pool.now.nodes plan }
    ensures { (tree : Tree) → IsTreeOf pool.now.nodes plan tree → result ≡ tree_cost problem.now tree }
{
    price_of(problem, pool, plan).cost
}

fn price_of(problem: &Problem, pool: &Pool, plan: PlanId) -> Priced
    requires searchable { IsSearchable problem.now }
    requires plan { IsLegalPlan problem.now pool.now.nodes plan }
    ensures { (tree : Tree) → IsTreeOf pool.now.nodes plan tree → IsPricedAs problem.now tree result.set result.cost }
{
    match pool.node(plan) {
        PlanNode::Scan(item) => Priced {
            set: RelSet::one(item),
            cost: scan_cost(problem, item),
        },
        PlanNode::Join {
            method,
            left,
            right,
            ..
        } => {
            let left = price_of(problem, pool, left);
            let right = price_of(problem, pool, right);
            let step = join_cost(problem, method, left.set, right.set);
            Priced {
                set: both(left.set, right.set),
                cost: left.cost + right.cost + step,
            }
        }
    }
}

fn scan_cost(problem: &Problem, item: ItemNo) -> u128
    requires { item < length problem.now.items }
    ensures { result ≡ scan_cost (slice_get problem.now.items item) }
{
    problem.items.as_slice()[item as usize].cost
}

fn join_cost(problem: &Problem, method: Method, left: RelSet, right: RelSet) -> u128
    requires { IsSearchable problem.now }
    ensures { result ≡ cost method (estimate problem.now left) (estimate problem.now right) }
{
    step_cost(method, estimate(problem, left), estimate(problem, right))
}
