ghost use Rattle.std.specs.Prelude.{◌≡◌, ◌<◌, ◌++◌, OnOk, length};
ghost use Rattle.jp_tree.specs.PlanTrees.{tree_at};
ghost use Rattle.jp_plans.specs.Operators.{operators_of};

use jp_base::{ItemNo, Memory};
use jp_problem::{Method, Step};
use jp_tree::{PlanId, PlanNode, Pool};

/// The scan of an item, or a step by a method of what two operators before it give.
#[derive(Clone, Copy)]
pub enum Operator {
    Scan(ItemNo),
    Join(Method, Step),
}

/// Puts the operators of a plan at the end, each after those whose parts it takes.
pub fn push_operators(pool: &Pool, id: PlanId, operators: &mut Vec<Operator>) -> Result<(), Memory>
    requires { id < length pool.now.nodes }
    ensures { OnOk result (operators.new.items ≡ operators.old.items ++ operators_of (tree_at pool.now.nodes id)) }
{
    match pool.node(id) {
        PlanNode::Scan(item) => {
            operators.push(Operator::Scan(item))?;
            Ok(())
        }
        PlanNode::Join {
            method,
            step,
            left,
            right,
        } => {
            push_operators(pool, left, operators)?;
            push_operators(pool, right, operators)?;
            operators.push(Operator::Join(method, step))?;
            Ok(())
        }
    }
}
