#![tactic(auto, using(crate::proofs::KindLaws::kinds))]

ghost use Rattle.std.specs.Prelude.{◌≡◌, [], ◌∷◌, map, IfOk};
ghost use Rattle.jp_problem.specs.Shapes.{shape_of, together};
ghost use Rattle.jp_special.specs.Walks.{is_full, is_inner, kinds_in};

use jp_base::Memory;
use jp_query::{JoinKind, JoinTree};
use sqlite_items::Items;
use std::alloc::Global;

/// The kinds of the special joins of a tree, in post-order.
#[cycle(kinds)]
pub fn join_kinds(alloc: Global, tree: &JoinTree) -> Result<Items<JoinKind>, Memory>
    ensures { IfOk result (λ kinds. kinds ≡ kinds_in (shape_of tree.now)) }
{
    match tree {
        JoinTree::Base { .. } => Ok(Items::new(alloc)),
        JoinTree::Sub { .. } => Ok(Items::new(alloc)),
        JoinTree::Join {
            kind,
            left,
            right,
            ..
        } => {
            if is_one_item(*kind) {
                Ok(Items::new(alloc))
            } else {
                let mut kinds = join_kinds(alloc, left.get())?;
                let more = join_kinds(alloc, right.get())?;
                kinds.append(more)?;
                if !is_inner(*kind) {
                    kinds.push(*kind)?;
                }
                Ok(kinds)
            }
        }
        JoinTree::From { members, .. } => {
            let kinds = member_kinds(alloc, members.as_slice())?;
            Ok(kinds)
        }
    }
}

#[cycle(kinds)]
fn member_kinds(alloc: Global, members: &[JoinTree]) -> Result<Items<JoinKind>, Memory>
    ensures { IfOk result (λ kinds. kinds ≡ kinds_in (together (map shape_of members.now))) }
{
    let mut kinds = Items::new(alloc);
    'members: for member in members {
        let more = join_kinds(alloc, member)?;
        kinds.append(more)?;
    }
    Ok(kinds)
}

/// Whether a join of this kind is one item.
pub fn is_one_item(kind: JoinKind) -> bool
    ensures { result ≡ is_full kind }
{
    match kind {
        JoinKind::Full => true,
        _ => false,
    }
}

pub fn is_inner(kind: JoinKind) -> bool
    ensures { result ≡ is_inner kind }
{
    match kind {
        JoinKind::Inner => true,
        _ => false,
    }
}
