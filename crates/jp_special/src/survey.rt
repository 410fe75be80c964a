#![tactic(auto, using(crate::proofs::SurveyLaws::surveys))]

ghost use Rattle.std.specs.Prelude.{◌≡◌, [], ◌∷◌, map, IfOk};
ghost use Rattle.jp_query.specs.Joins.{join_rels};
ghost use Rattle.jp_query.specs.Refs.{below_64, only, union};
ghost use Rattle.jp_problem.specs.Blocks.{item_rels, known_rels};
ghost use Rattle.jp_problem.specs.Shapes.{shape_of, together};

use crate::kinds::is_one_item;
use jp_base::{Memory, RelNo, RelSet};
use jp_problem::sets::{both, nothing};
use jp_query::{JoinKind, JoinTree};
use sqlite_items::Items;
use std::alloc::Global;

/// The relations of each item of a tree, from left to right.
#[cycle(survey)]
pub fn item_rels(alloc: Global, tree: &JoinTree) -> Result<Items<RelSet>, Memory>
    ensures { IfOk result (λ rels. rels ≡ item_rels (shape_of tree.now)) }
{
    match tree {
        JoinTree::Base { .. } => {
            let rels = one_item(alloc, tree)?;
            Ok(rels)
        }
        JoinTree::Sub { .. } => {
            let rels = one_item(alloc, tree)?;
            Ok(rels)
        }
        JoinTree::Join {
            kind,
            left,
            right,
            ..
        } => {
            if is_one_item(*kind) {
                let rels = one_item(alloc, tree)?;
                Ok(rels)
            } else {
                let mut rels = item_rels(alloc, left.get())?;
                let more = item_rels(alloc, right.get())?;
                rels.append(more)?;
                Ok(rels)
            }
        }
        JoinTree::From { members, .. } => {
            let rels = member_rels(alloc, members.as_slice())?;
            Ok(rels)
        }
    }
}

#[cycle(survey)]
fn member_rels(alloc: Global, members: &[JoinTree]) -> Result<Items<RelSet>, Memory>
    ensures { IfOk result (λ rels. rels ≡ item_rels (together (map shape_of members.now))) }
{
    let mut rels = Items::new(alloc);
    'members: for member in members {
        let more = item_rels(alloc, member)?;
        rels.append(more)?;
    }
    Ok(rels)
}

fn one_item(alloc: Global, tree: &JoinTree) -> Result<Items<RelSet>, Memory>
    ensures { IfOk result (λ rels. rels ≡ known_rels tree.now ∷ []) }
{
    let mut rels = Items::new(alloc);
    rels.push(known_rels(tree))?;
    Ok(rels)
}

/// The relations that a tree's tuples give rows to. A number from 64 on, which no typed query has, is left out.
#[cycle(known_rels)]
fn known_rels(tree: &JoinTree) -> RelSet
    ensures { result ≡ known_rels tree.now }
{
    match tree {
        JoinTree::Base { rel, .. } => relation(*rel),
        JoinTree::Sub { rel, .. } => relation(*rel),
        JoinTree::Join {
            kind,
            left,
            right,
            ..
        } => join_rels(*kind, known_rels(left.get()), known_rels(right.get())),
        JoinTree::From { members, .. } => known_rels_of_members(members.as_slice()),
    }
}

#[cycle(known_rels)]
fn known_rels_of_members(members: &[JoinTree]) -> RelSet
    ensures { result ≡ union (map known_rels members.now) }
{
    let mut rels = nothing();
    'members: for member in members {
        rels = both(rels, known_rels(member));
    }
    rels
}

/// The relations of a join: those of both sides, but of Semi and Anti those of the left one.
fn join_rels(kind: JoinKind, left: RelSet, right: RelSet) -> RelSet
    ensures { result ≡ join_rels kind left right }
{
    match kind {
        JoinKind::Inner => both(left, right),
        JoinKind::Left => both(left, right),
        JoinKind::Right => both(left, right),
        JoinKind::Full => both(left, right),
        JoinKind::Semi => left,
        JoinKind::Anti => left,
    }
}

/// The set of one relation, if its number is below 64.
fn relation(rel: RelNo) -> RelSet
    ensures { result ≡ below_64 (only rel) }
{
    if rel < 64 {
        RelSet::one(rel)
    } else {
        nothing()
    }
}
