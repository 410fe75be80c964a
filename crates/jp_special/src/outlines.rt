#![tactic(auto, using(crate::proofs::OutlineLaws::conditions))]

ghost use Rattle.std.specs.Prelude.{◌≡◌, ◌≤◌, length, map, IfOk};
ghost use Rattle.jp_problem.specs.Blocks.{items_with, outline_of, placeholders_in, top};
ghost use Rattle.jp_problem.specs.Shapes.{block_shape, exprs_in, shape_of, together};
ghost use Rattle.jp_special.specs.Placeholders.{in_each};
ghost use Rattle.jp_special.specs.Walks.{HasRoom, placeholder_list};

use crate::conditions::items_with;
use crate::kinds::is_one_item;
use crate::placeholders::{in_list, in_orders, in_outputs, joined};
use crate::survey::item_rels;
use crate::walk::{under, walk};
use jp_base::{Memory, RelSet};
use jp_problem::{Outline, Place};
use jp_query::{JoinTree, Query};
use sqlite_items::Items;
use std::alloc::Global;

/// What a block's tree says of its items, its special joins and its conditions.
pub fn outline(alloc: Global, query: &Query) -> Result<Outline, Memory>
    requires { HasRoom top (block_shape query.now) }
    ensures { IfOk result (λ outline. outline ≡ outline_of query.now) }
{
    let rels = item_rels(alloc, &query.tree)?;
    let at = Place {
        items: 0,
        joins: 0,
        region: 0,
    };
    let walked = walk(alloc, rels.as_slice(), &query.tree, at)?;
    let walked = under(alloc, rels.as_slice(), 0, query.conds.as_slice(), walked)?;
    let found = placeholder_list(alloc, query)?;
    let placeholders = items_of_each(alloc, rels.as_slice(), found.as_slice())?;
    Ok(Outline {
        rels,
        joins: walked.joins,
        clauses: walked.clauses,
        placeholders,
    })
}

/// The placeholders of a block: those of its conditions, its outputs and its ORDER BY items.
fn placeholder_list(alloc: Global, query: &Query) -> Result<Items<RelSet>, Memory>
    ensures { IfOk result (λ found. found ≡ placeholder_list query.now) }
{
    let tree = in_conditions(alloc, &query.tree)?;
    let conds = in_list(alloc, query.conds.as_slice())?;
    let columns = in_outputs(alloc, query.columns.as_slice())?;
    let order = in_orders(alloc, query.order.as_slice())?;
    let found = joined(tree, conds)?;
    let listed = joined(columns, order)?;
    let found = joined(found, listed)?;
    Ok(found)
}

fn items_of_each(
    alloc: Global,
    rels: &[RelSet],
    placeholders: &[RelSet],
) -> Result<Items<RelSet>, Memory>
    requires few { length rels.now ≤ 64 }
    ensures { IfOk result (λ items. items ≡ map (items_with rels.now) placeholders.now) }
{
    let mut items = Items::new(alloc);
    'placeholders: for place in placeholders {
        items.push(items_with(rels, *place))?;
    }
    Ok(items)
}

/// The placeholders of a tree's conditions and ON lists, those of Full joins left out.
#[cycle(conditions)]
fn in_conditions(alloc: Global, tree: &JoinTree) -> Result<Items<RelSet>, Memory>
    ensures { IfOk result (λ found. found ≡ in_each placeholders_in (exprs_in (shape_of tree.now))) }
{
    match tree {
        JoinTree::Base { .. } => Ok(Items::new(alloc)),
        JoinTree::Sub { .. } => Ok(Items::new(alloc)),
        JoinTree::Join {
            kind,
            left,
            right,
            on,
        } => {
            if is_one_item(*kind) {
                Ok(Items::new(alloc))
            } else {
                let left = in_conditions(alloc, left.get())?;
                let right = in_conditions(alloc, right.get())?;
                let on = in_list(alloc, on.as_slice())?;
                let found = joined(left, right)?;
                let found = joined(found, on)?;
                Ok(found)
            }
        }
        JoinTree::From { members, conds } => {
            let members = in_members(alloc, members.as_slice())?;
            let conds = in_list(alloc, conds.as_slice())?;
            let found = joined(members, conds)?;
            Ok(found)
        }
    }
}

#[cycle(conditions)]
fn in_members(alloc: Global, members: &[JoinTree]) -> Result<Items<RelSet>, Memory>
    ensures { IfOk result (λ found. found ≡ in_each placeholders_in (exprs_in (together (map shape_of members.now)))) }
{
    let mut all = Items::new(alloc);
    'members: for member in members {
        let more = in_conditions(alloc, member)?;
        all = joined(all, more)?;
    }
    Ok(all)
}
