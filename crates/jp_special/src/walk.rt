ghost use Rattle.std.specs.Prelude.{◌≡◌, ◌≤◌, [], length, map, IfOk};
ghost use Rattle.jp_problem.specs.Shapes.{shape_of, together};
ghost use Rattle.jp_special.specs.Walks.{HasRoom, walk_of, walked_beside, walked_under, walked_with};

use crate::conditions::{moved_members, placed};
use crate::kinds::{is_inner, is_one_item};
use crate::places::{behind, in_right_side, written};
use jp_base::{JoinNo, Memory, RelSet};
use jp_problem::{Place, Placed, Written};
use jp_query::{Expr, JoinTree};
use sqlite_items::Items;
use std::alloc::Global;

/// The special joins and the clauses of a part of a tree.
#[derive(Drop)]
pub struct Walked {
    pub joins: Items<Written>,
    pub clauses: Items<Placed>,
}

/// The special joins of a tree in post-order, and its clauses in post-order of their places.
#[cycle(walk)]
pub fn walk(alloc: Global, rels: &[RelSet], tree: &JoinTree, at: Place) -> Result<Walked, Memory>
    requires few { length rels.now ≤ 64 }
    requires room { HasRoom at (shape_of tree.now) }
    ensures { IfOk result (λ walked. walked ≡ walk_of rels.now (shape_of tree.now) at) }
{
    match tree {
        JoinTree::Base { .. } => Ok(nothing_walked(alloc)),
        JoinTree::Sub { .. } => Ok(nothing_walked(alloc)),
        JoinTree::Join {
            kind,
            left,
            right,
            on,
        } => {
            if is_one_item(*kind) {
                Ok(nothing_walked(alloc))
            } else if is_inner(*kind) {
                let first = walk(alloc, rels, left.get(), at)?;
                let there = behind(alloc, left.get(), at)?;
                let second = walk(alloc, rels, right.get(), there)?;
                let walked = beside(first, second)?;
                let walked = under(alloc, rels, at.region, on.as_slice(), walked)?;
                Ok(walked)
            } else {
                let first = walk(alloc, rels, left.get(), at)?;
                let there = in_right_side(
                    alloc,
                    *kind,
                    left.get(),
                    right.get(),
                    on.as_slice(),
                    at,
                )?;
                let second = walk(alloc, rels, right.get(), there)?;
                let walked = beside(first, second)?;
                let own = written(
                    alloc,
                    rels,
                    *kind,
                    left.get(),
                    right.get(),
                    on.as_slice(),
                    at,
                )?;
                let walked = joined(alloc, rels, on.as_slice(), own, walked)?;
                Ok(walked)
            }
        }
        JoinTree::From { members, conds } => {
            let walked = walk_members(alloc, rels, members.as_slice(), at)?;
            let walked = under(alloc, rels, at.region, conds.as_slice(), walked)?;
            Ok(walked)
        }
    }
}

#[cycle(walk)]
fn walk_members(
    alloc: Global,
    rels: &[RelSet],
    members: &[JoinTree],
    at: Place,
) -> Result<Walked, Memory>
    requires few { length rels.now ≤ 64 }
    requires room { HasRoom at (together (map shape_of members.now)) }
    ensures { IfOk result (λ walked. walked ≡ walk_of rels.now (together (map shape_of members.now)) at) }
{
    let mut walked = nothing_walked(alloc);
    let mut there = at;
    'members: for member in members {
        let more = walk(alloc, rels, member, there)?;
        there = behind(alloc, member, there)?;
        walked = beside(walked, more)?;
    }
    Ok(walked)
}

fn nothing_walked(alloc: Global) -> Walked
    ensures { result ≡ record { joins = []; clauses = [] } }
{
    Walked {
        joins: Items::new(alloc),
        clauses: Items::new(alloc),
    }
}

fn beside(first: Walked, second: Walked) -> Result<Walked, Memory>
    ensures { IfOk result (λ walked. walked ≡ walked_beside first second) }
{
    let Walked {
        mut joins,
        mut clauses,
    } = first;
    joins.append(second.joins)?;
    clauses.append(second.clauses)?;
    Ok(Walked { joins, clauses })
}

pub fn under(
    alloc: Global,
    rels: &[RelSet],
    region: JoinNo,
    conds: &[Expr],
    walked: Walked,
) -> Result<Walked, Memory>
    requires few { length rels.now ≤ 64 }
    ensures { IfOk result (λ all. all ≡ walked_under rels.now region conds.now walked) }
{
    let Walked { joins, mut clauses } = walked;
    clauses.append(placed(alloc, rels, region, conds)?)?;
    Ok(Walked { joins, clauses })
}

/// A special join behind what its sides give, and the members of its ON list that are clauses of its region.
fn joined(
    alloc: Global,
    rels: &[RelSet],
    on: &[Expr],
    own: Written,
    walked: Walked,
) -> Result<Walked, Memory>
    requires few { length rels.now ≤ 64 }
    ensures { IfOk result (λ all. all ≡ walked_with rels.now on.now own walked) }
{
    let Walked {
        mut joins,
        mut clauses,
    } = walked;
    clauses.append(moved_members(alloc, rels, own.no, own.syn_right, on)?)?;
    joins.push(own)?;
    Ok(Walked { joins, clauses })
}
