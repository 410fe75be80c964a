#![tactic(auto, using(crate::proofs::SizeLaws::sizes))]

ghost use Rattle.std.specs.Prelude.{◌≤◌, IfOk};
ghost use Rattle.jp_special_trees.specs.Sizes.{size};

use jp_query::JoinTree;
use std::test::Fail;

/// No fewer than the items and special joins of a small tree of tables, joins and FROM lists of one member.
pub fn measure(tree: &JoinTree) -> Result<usize, Fail>
    ensures { IfOk result (λ n. size tree.now ≤ n) }
{
    match tree {
        JoinTree::Base { .. } => Ok(1),
        JoinTree::Join { left, right, .. } => {
            let left = measure(left.get())?;
            let right = measure(right.get())?;
            if left > 64 || right > 64 {
                return Err(Fail::from("a large tree"));
            }
            Ok(left + right + 1)
        }
        JoinTree::From { members, .. } => match members.as_slice() {
            [member] => measure(member),
            _ => Err(Fail::from("another FROM list")),
        },
        _ => Err(Fail::from("another tree")),
    }
}
