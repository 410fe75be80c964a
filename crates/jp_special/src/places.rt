ghost use Rattle.std.specs.Prelude.{◌≡◌, ◌<◌, ◌≤◌, length, IfOk};
ghost use Rattle.jp_problem.specs.Blocks.{behind, in_right_side, written};
ghost use Rattle.jp_problem.specs.Shapes.{count_joins, items_in, shape_of, special};
ghost use Rattle.jp_special.specs.Walks.{HasRoom};

use crate::conditions::{own_members, span, used_by};
use crate::kinds::join_kinds;
use crate::survey::item_rels;
use jp_base::{Memory, RelSet};
use jp_problem::{Place, Written};
use jp_query::{Expr, JoinKind, JoinTree};
use std::alloc::Global;

/// How many items and special joins a tree has.
#[derive(Clone, Copy)]
struct Counts {
    items: u8,
    joins: u8,
}

fn count_in(alloc: Global, tree: &JoinTree) -> Result<Counts, Memory>
    requires items { length (items_in (shape_of tree.now)) ≤ 64 }
    requires joins { count_joins (shape_of tree.now) < 256 }
    ensures { IfOk result (λ n. (n.items ≡ length (items_in (shape_of tree.now))) × (n.joins ≡ count_joins (shape_of tree.now))) }
{
    let items = item_rels(alloc, tree)?;
    let joins = join_kinds(alloc, tree)?;
    Ok(Counts {
        items: items.len() as u8,
        joins: joins.len() as u8,
    })
}

/// The place behind a tree.
pub fn behind(alloc: Global, tree: &JoinTree, at: Place) -> Result<Place, Memory>
    requires { HasRoom at (shape_of tree.now) }
    ensures { IfOk result (λ place. place ≡ behind (shape_of tree.now) at) }
{
    let left = count_in(alloc, tree)?;
    Ok(Place {
        items: at.items + left.items,
        joins: at.joins + left.joins,
        region: at.region,
    })
}

/// The place of the right side of a special join of these sides.
pub fn in_right_side(
    alloc: Global,
    kind: JoinKind,
    left: &JoinTree,
    right: &JoinTree,
    on: &[Expr],
    at: Place,
) -> Result<Place, Memory>
    requires { HasRoom at (special kind (shape_of left.now) (shape_of right.now) on.now) }
    ensures { IfOk result (λ place. place ≡ in_right_side (shape_of left.now) (shape_of right.now) at) }
{
    let first = count_in(alloc, left)?;
    let second = count_in(alloc, right)?;
    Ok(Place {
        items: at.items + first.items,
        joins: at.joins + first.joins,
        region: at.joins + (first.joins + second.joins) + 1,
    })
}

/// A special join as it is written.
pub fn written(
    alloc: Global,
    rels: &[RelSet],
    kind: JoinKind,
    left: &JoinTree,
    right: &JoinTree,
    on: &[Expr],
    at: Place,
) -> Result<Written, Memory>
    requires few { length rels.now ≤ 64 }
    requires room { HasRoom at (special kind (shape_of left.now) (shape_of right.now) on.now) }
    ensures { IfOk result (λ join. join ≡ written rels.now kind (shape_of left.now) (shape_of right.now) on.now at) }
{
    let first = count_in(alloc, left)?;
    let second = count_in(alloc, right)?;
    let side = span(at.items + first.items, second.items);
    let own = own_members(alloc, rels, side, on)?;
    let uses = used_by(rels, own.as_slice());
    Ok(Written {
        no: at.joins + (first.joins + second.joins) + 1,
        kind,
        syn_left: span(at.items, first.items),
        syn_right: side,
        region: at.region,
        on: own,
        uses,
    })
}
