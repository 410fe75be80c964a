#![tactic(auto, using(crate::proofs::PlaceholderLaws::placeholders))]

ghost use Rattle.std.specs.Prelude.{◌≡◌, [], ◌∷◌, ◌++◌, IfOk};
ghost use Rattle.jp_problem.specs.Blocks.{placeholders_in};
ghost use Rattle.jp_special.specs.Placeholders.{in_arm, in_each, in_order, in_output, in_query, in_term, in_tree};

use jp_base::{Memory, RelSet};
use jp_query::{Expr, JoinTree, Order, Output, Query};
use sqlite_items::Items;
use std::alloc::Global;

/// The relations of each placeholder in an expression, sublinks included.
#[cycle(placeholders)]
pub fn placeholders_in(alloc: Global, expr: &Expr) -> Result<Items<RelSet>, Memory>
    ensures { IfOk result (λ found. found ≡ placeholders_in expr.now) }
{
    match expr {
        Expr::Col { .. } => Ok(Items::new(alloc)),
        Expr::Lit(_, _) => Ok(Items::new(alloc)),
        Expr::Place(inner, rels) => {
            let more = placeholders_in(alloc, inner.get())?;
            let found = followed(alloc, *rels, more)?;
            Ok(found)
        }
        Expr::Neg(operand) => {
            let found = placeholders_in(alloc, operand.get())?;
            Ok(found)
        }
        Expr::Sum(terms) => {
            let found = in_terms(alloc, terms.as_slice())?;
            Ok(found)
        }
        Expr::Product(factors) => {
            let found = in_list(alloc, factors.as_slice())?;
            Ok(found)
        }
        Expr::Concat(parts) => {
            let found = in_list(alloc, parts.as_slice())?;
            Ok(found)
        }
        Expr::Compare(_, left, right) => {
            let left = placeholders_in(alloc, left.get())?;
            let right = placeholders_in(alloc, right.get())?;
            let found = joined(left, right)?;
            Ok(found)
        }
        Expr::Between(operand, low, high) => {
            let operand = placeholders_in(alloc, operand.get())?;
            let low = placeholders_in(alloc, low.get())?;
            let high = placeholders_in(alloc, high.get())?;
            let found = joined(operand, low)?;
            let found = joined(found, high)?;
            Ok(found)
        }
        Expr::InList(operand, list) => {
            let operand = placeholders_in(alloc, operand.get())?;
            let list = in_list(alloc, list.as_slice())?;
            let found = joined(operand, list)?;
            Ok(found)
        }
        Expr::And(members) => {
            let found = in_list(alloc, members.as_slice())?;
            Ok(found)
        }
        Expr::Or(members) => {
            let found = in_list(alloc, members.as_slice())?;
            Ok(found)
        }
        Expr::Not(operand) => {
            let found = placeholders_in(alloc, operand.get())?;
            Ok(found)
        }
        Expr::Test(_, operand) => {
            let found = placeholders_in(alloc, operand.get())?;
            Ok(found)
        }
        Expr::Coalesce(members) => {
            let found = in_list(alloc, members.as_slice())?;
            Ok(found)
        }
        Expr::Case {
            operand,
            arms,
            otherwise,
        } => {
            let operand = match operand {
                Some(operand) => placeholders_in(alloc, operand.get())?,
                None => Items::new(alloc),
            };
            let otherwise = match otherwise {
                Some(otherwise) => placeholders_in(alloc, otherwise.get())?,
                None => Items::new(alloc),
            };
            let arms = in_arms(alloc, arms.as_slice())?;
            let found = joined(operand, arms)?;
            let found = joined(found, otherwise)?;
            Ok(found)
        }
        Expr::Exists(_, query) => {
            let found = in_query(alloc, query.get())?;
            Ok(found)
        }
        Expr::InSub(_, operand, query) => {
            let operand = placeholders_in(alloc, operand.get())?;
            let query = in_query(alloc, query.get())?;
            let found = joined(operand, query)?;
            Ok(found)
        }
    }
}

pub fn joined(first: Items<RelSet>, second: Items<RelSet>) -> Result<Items<RelSet>, Memory>
    ensures { IfOk result (λ all. all ≡ first ++ second) }
{
    let mut all = first;
    all.append(second)?;
    Ok(all)
}

fn followed(alloc: Global, first: RelSet, more: Items<RelSet>) -> Result<Items<RelSet>, Memory>
    ensures { IfOk result (λ all. all ≡ first ∷ more) }
{
    let mut all = Items::new(alloc);
    all.push(first)?;
    all.append(more)?;
    Ok(all)
}

/// Those of each expression of a list, in order.
#[cycle(placeholders)]
pub fn in_list(alloc: Global, exprs: &[Expr]) -> Result<Items<RelSet>, Memory>
    ensures { IfOk result (λ found. found ≡ in_each placeholders_in exprs.now) }
{
    let mut all = Items::new(alloc);
    'exprs: for expr in exprs {
        let more = placeholders_in(alloc, expr)?;
        all = joined(all, more)?;
    }
    Ok(all)
}

#[cycle(placeholders)]
fn in_terms(alloc: Global, terms: &[(bool, Expr)]) -> Result<Items<RelSet>, Memory>
    ensures { IfOk result (λ found. found ≡ in_each in_term terms.now) }
{
    let mut all = Items::new(alloc);
    'terms: for (_, term) in terms {
        let more = placeholders_in(alloc, term)?;
        all = joined(all, more)?;
    }
    Ok(all)
}

#[cycle(placeholders)]
fn in_arms(alloc: Global, arms: &[(Expr, Expr)]) -> Result<Items<RelSet>, Memory>
    ensures { IfOk result (λ found. found ≡ in_each in_arm arms.now) }
{
    let mut all = Items::new(alloc);
    'arms: for (when, then) in arms {
        let when = placeholders_in(alloc, when)?;
        let then = placeholders_in(alloc, then)?;
        let more = joined(when, then)?;
        all = joined(all, more)?;
    }
    Ok(all)
}

#[cycle(placeholders)]
fn in_tree(alloc: Global, tree: &JoinTree) -> Result<Items<RelSet>, Memory>
    ensures { IfOk result (λ found. found ≡ in_tree tree.now) }
{
    match tree {
        JoinTree::Base { .. } => Ok(Items::new(alloc)),
        JoinTree::Sub { query, .. } => {
            let found = in_query(alloc, query.get())?;
            Ok(found)
        }
        JoinTree::Join {
            left,
            right,
            on,
            ..
        } => {
            let left = in_tree(alloc, left.get())?;
            let right = in_tree(alloc, right.get())?;
            let on = in_list(alloc, on.as_slice())?;
            let found = joined(left, right)?;
            let found = joined(found, on)?;
            Ok(found)
        }
        JoinTree::From { members, conds } => {
            let members = in_trees(alloc, members.as_slice())?;
            let conds = in_list(alloc, conds.as_slice())?;
            let found = joined(members, conds)?;
            Ok(found)
        }
    }
}

#[cycle(placeholders)]
fn in_trees(alloc: Global, trees: &[JoinTree]) -> Result<Items<RelSet>, Memory>
    ensures { IfOk result (λ found. found ≡ in_each in_tree trees.now) }
{
    let mut all = Items::new(alloc);
    'trees: for tree in trees {
        let more = in_tree(alloc, tree)?;
        all = joined(all, more)?;
    }
    Ok(all)
}

#[cycle(placeholders)]
pub fn in_outputs(alloc: Global, outputs: &[Output]) -> Result<Items<RelSet>, Memory>
    ensures { IfOk result (λ found. found ≡ in_each in_output outputs.now) }
{
    let mut all = Items::new(alloc);
    'outputs: for output in outputs {
        let more = placeholders_in(alloc, &output.expr)?;
        all = joined(all, more)?;
    }
    Ok(all)
}

#[cycle(placeholders)]
pub fn in_orders(alloc: Global, orders: &[Order]) -> Result<Items<RelSet>, Memory>
    ensures { IfOk result (λ found. found ≡ in_each in_order orders.now) }
{
    let mut all = Items::new(alloc);
    'orders: for order in orders {
        let more = placeholders_in(alloc, &order.expr)?;
        all = joined(all, more)?;
    }
    Ok(all)
}

#[cycle(placeholders)]
fn in_query(alloc: Global, query: &Query) -> Result<Items<RelSet>, Memory>
    ensures { IfOk result (λ found. found ≡ in_query query.now) }
{
    let columns = in_outputs(alloc, query.columns.as_slice())?;
    let tree = in_tree(alloc, &query.tree)?;
    let conds = in_list(alloc, query.conds.as_slice())?;
    let order = in_orders(alloc, query.order.as_slice())?;
    let found = joined(columns, tree)?;
    let found = joined(found, conds)?;
    let found = joined(found, order)?;
    Ok(found)
}
