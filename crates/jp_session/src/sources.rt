#![tactic(auto, using(crate::proofs::PartLaws::equations))]

ghost use Rattle.std.specs.Prelude.{◌≡◌, ◌++◌, ◌∷◌, [], IfOk, OnOk, map};
ghost use Rattle.std.specs.List.{flat_map};
ghost use Rattle.jp_problem.specs.InnerBlocks.{side_block};
ghost use Rattle.jp_problem.specs.Shapes.{shape_of, together};
ghost use Rattle.jp_session.specs.Parts.{condition_parts, is_full, item_part, item_parts, order_parts, output_parts, parts_of, sublink_parts, arm_parts_of, term_parts, with_number};

use jp_base::{Memory, SubNo};
use jp_query::{Expr, JoinKind, JoinTree, Order, Output, Query};
use sqlite_items::{Boxed, Items};
use std::alloc::Global;
use std::collections::VecDeque;

/// The query of a block, and the number of the sublink of which it is the query.
#[derive(Drop)]
pub struct Part {
    pub query: Boxed<Query>,
    pub sub: Option<SubNo>,
}

/// The parts that a block uses: the sub-selects and the sides of Full joins that are its items, each Full join with the
/// sublinks of its ON list, and the sublinks of the block's own expressions that stand in no other sublink.
pub fn parts_of(alloc: Global, query: &Query) -> Result<VecDeque<Part>, Memory>
    ensures { IfOk result (λ parts. parts.items ≡ parts_of query.now) }
{
    let mut parts = VecDeque::new(alloc);
    push_items(alloc, &query.tree, &mut parts)?;
    push_conditions(alloc, &query.tree, &mut parts)?;
    push_list(alloc, query.conds.as_slice(), &mut parts)?;
    push_outputs(alloc, query.columns.as_slice(), &mut parts)?;
    push_orders(alloc, query.order.as_slice(), &mut parts)?;
    Ok(parts)
}

/// Those of the items of a tree.
#[cycle(items)]
fn push_items(alloc: Global, tree: &JoinTree, parts: &mut VecDeque<Part>) -> Result<(), Memory>
    ensures { OnOk result (parts.new.items ≡ parts.old.items ++ item_parts (shape_of tree.now)) }
{
    match tree {
        JoinTree::Base { .. } => Ok(()),
        JoinTree::Sub { query, .. } => {
            push_query(alloc, query.get(), parts)?;
            Ok(())
        }
        JoinTree::Join {
            kind,
            left,
            right,
            on,
        } => {
            if is_full(*kind) {
                push_side(alloc, left.get(), parts)?;
                push_side(alloc, right.get(), parts)?;
                push_list(alloc, on.as_slice(), parts)?;
                Ok(())
            } else {
                push_items(alloc, left.get(), parts)?;
                push_items(alloc, right.get(), parts)?;
                Ok(())
            }
        }
        JoinTree::From { members, .. } => {
            push_members(alloc, members.as_slice(), parts)?;
            Ok(())
        }
    }
}

#[cycle(items)]
fn push_members(
    alloc: Global,
    members: &[JoinTree],
    parts: &mut VecDeque<Part>,
) -> Result<(), Memory>
    ensures { OnOk result (parts.new.items ≡ parts.old.items ++ item_parts (together (map shape_of members.now))) }
{
    'members: for member in members {
        push_items(alloc, member, parts)?;
    }
    Ok(())
}

fn push_query(alloc: Global, query: &Query, parts: &mut VecDeque<Part>) -> Result<(), Memory>
    ensures { OnOk result (parts.new.items ≡ parts.old.items ++ item_part query.now ∷ []) }
{
    let query = boxed_copy(alloc, query)?;
    push_part(query, None, parts)?;
    Ok(())
}

/// A side of a Full join, which is a query of that tree alone.
fn push_side(alloc: Global, tree: &JoinTree, parts: &mut VecDeque<Part>) -> Result<(), Memory>
    ensures { OnOk result (parts.new.items ≡ parts.old.items ++ item_part (side_block tree.now) ∷ []) }
{
    let query = side_of(alloc, tree)?;
    push_part(query, None, parts)?;
    Ok(())
}

fn push_part(
    query: Boxed<Query>,
    sub: Option<SubNo>,
    parts: &mut VecDeque<Part>,
) -> Result<(), Memory>
    ensures { OnOk result (parts.new.items ≡ parts.old.items ++ record { query = query; sub = sub } ∷ []) }
{
    parts.push_back(Part { query, sub })?;
    Ok(())
}

fn boxed_copy(alloc: Global, query: &Query) -> Result<Boxed<Query>, Memory>
    ensures { IfOk result (λ copy. copy ≡ query.now) }
{
    let copy = query.copy(alloc)?;
    let copy = Boxed::new(alloc, copy)?;
    Ok(copy)
}

fn side_of(alloc: Global, tree: &JoinTree) -> Result<Boxed<Query>, Memory>
    ensures { IfOk result (λ query. query ≡ side_block tree.now) }
{
    let tree = tree.copy(alloc)?;
    let query = Boxed::new(
        alloc,
        Query {
            columns: Items::new(alloc),
            distinct: false,
            tree,
            conds: Items::new(alloc),
            order: Items::new(alloc),
        },
    )?;
    Ok(query)
}

/// Whether a join of this kind is one item.
pub fn is_full(kind: JoinKind) -> bool
    ensures { result ≡ is_full kind }
{
    match kind {
        JoinKind::Full => true,
        _ => false,
    }
}

/// The sublinks of the conditions and ON lists of a tree, those of Full joins left out.
#[cycle(conditions)]
fn push_conditions(alloc: Global, tree: &JoinTree, parts: &mut VecDeque<Part>) -> Result<(), Memory>
    ensures { OnOk result (parts.new.items ≡ parts.old.items ++ condition_parts (shape_of tree.now)) }
{
    match tree {
        JoinTree::Base { .. } => Ok(()),
        JoinTree::Sub { .. } => Ok(()),
        JoinTree::Join {
            kind,
            left,
            right,
            on,
        } => {
            if is_full(*kind) {
                Ok(())
            } else {
                push_conditions(alloc, left.get(), parts)?;
                push_conditions(alloc, right.get(), parts)?;
                push_list(alloc, on.as_slice(), parts)?;
                Ok(())
            }
        }
        JoinTree::From { members, conds } => {
            push_of_members(alloc, members.as_slice(), parts)?;
            push_list(alloc, conds.as_slice(), parts)?;
            Ok(())
        }
    }
}

#[cycle(conditions)]
fn push_of_members(
    alloc: Global,
    members: &[JoinTree],
    parts: &mut VecDeque<Part>,
) -> Result<(), Memory>
    ensures { OnOk result (parts.new.items ≡ parts.old.items ++ condition_parts (together (map shape_of members.now))) }
{
    'members: for member in members {
        push_conditions(alloc, member, parts)?;
    }
    Ok(())
}

/// The sublinks of an expression that stand in no other sublink's query.
#[cycle(sublinks)]
fn push_expr(alloc: Global, expr: &Expr, parts: &mut VecDeque<Part>) -> Result<(), Memory>
    ensures { OnOk result (parts.new.items ≡ parts.old.items ++ sublink_parts expr.now) }
{
    match expr {
        Expr::Col { .. } | Expr::Lit(_, _) => Ok(()),
        Expr::Place(operand, _)
        | Expr::Neg(operand)
        | Expr::Not(operand)
        | Expr::Test(_, operand) => push_expr(alloc, operand.get(), parts),
        Expr::Sum(terms) => push_terms(alloc, terms.as_slice(), parts),
        Expr::Product(list)
        | Expr::Concat(list)
        | Expr::And(list)
        | Expr::Or(list)
        | Expr::Coalesce(list) => push_list(alloc, list.as_slice(), parts),
        Expr::Compare(_, left, right) => {
            push_expr(alloc, left.get(), parts)?;
            push_expr(alloc, right.get(), parts)?;
            Ok(())
        }
        Expr::Between(operand, low, high) => {
            push_expr(alloc, operand.get(), parts)?;
            push_expr(alloc, low.get(), parts)?;
            push_expr(alloc, high.get(), parts)?;
            Ok(())
        }
        Expr::InList(operand, list) => {
            push_expr(alloc, operand.get(), parts)?;
            push_list(alloc, list.as_slice(), parts)?;
            Ok(())
        }
        Expr::Case {
            operand,
            arms,
            otherwise,
        } => {
            match operand {
                Some(operand) => push_expr(alloc, operand.get(), parts)?,
                None => {}
            }
            push_arms(alloc, arms.as_slice(), parts)?;
            match otherwise {
                Some(otherwise) => push_expr(alloc, otherwise.get(), parts)?,
                None => {}
            }
            Ok(())
        }
        Expr::Exists(number, query) => push_sublink(alloc, *number, query.get(), parts),
        Expr::InSub(number, operand, query) => {
            push_sublink(alloc, *number, query.get(), parts)?;
            push_expr(alloc, operand.get(), parts)?;
            Ok(())
        }
    }
}

#[cycle(sublinks)]
fn push_list(alloc: Global, exprs: &[Expr], parts: &mut VecDeque<Part>) -> Result<(), Memory>
    ensures { OnOk result (parts.new.items ≡ parts.old.items ++ flat_map sublink_parts exprs.now) }
{
    'exprs: for expr in exprs {
        push_expr(alloc, expr, parts)?;
    }
    Ok(())
}

#[cycle(sublinks)]
fn push_terms(
    alloc: Global,
    terms: &[(bool, Expr)],
    parts: &mut VecDeque<Part>,
) -> Result<(), Memory>
    ensures { OnOk result (parts.new.items ≡ parts.old.items ++ flat_map term_parts terms.now) }
{
    'terms: for term in terms {
        push_expr(alloc, &term.1, parts)?;
    }
    Ok(())
}

#[cycle(sublinks)]
fn push_arms(alloc: Global, arms: &[(Expr, Expr)], parts: &mut VecDeque<Part>) -> Result<(), Memory>
    ensures { OnOk result (parts.new.items ≡ parts.old.items ++ flat_map arm_parts_of arms.now) }
{
    'arms: for arm in arms {
        push_expr(alloc, &arm.0, parts)?;
        push_expr(alloc, &arm.1, parts)?;
    }
    Ok(())
}

fn push_sublink(
    alloc: Global,
    number: SubNo,
    query: &Query,
    parts: &mut VecDeque<Part>,
) -> Result<(), Memory>
    ensures { OnOk result (parts.new.items ≡ parts.old.items ++ with_number number query.now ∷ []) }
{
    let query = boxed_copy(alloc, query)?;
    push_part(query, Some(number), parts)?;
    Ok(())
}

fn push_outputs(alloc: Global, outputs: &[Output], parts: &mut VecDeque<Part>) -> Result<(), Memory>
    ensures { OnOk result (parts.new.items ≡ parts.old.items ++ flat_map output_parts outputs.now) }
{
    'outputs: for output in outputs {
        push_expr(alloc, &output.expr, parts)?;
    }
    Ok(())
}

fn push_orders(alloc: Global, orders: &[Order], parts: &mut VecDeque<Part>) -> Result<(), Memory>
    ensures { OnOk result (parts.new.items ≡ parts.old.items ++ flat_map order_parts orders.now) }
{
    'orders: for order in orders {
        push_expr(alloc, &order.expr, parts)?;
    }
    Ok(())
}
