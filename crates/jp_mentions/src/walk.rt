#![tactic(auto, using(crate::proofs::TableLaws::equations))]

ghost use Rattle.std.specs.Prelude.{◌≡◌, ◌++◌, OnOk};
ghost use Rattle.std.specs.List.{flat_map};
ghost use Rattle.jp_mentions.specs.Walk.{tables_of, tables_of_arm, tables_of_order, tables_of_output, tables_of_query, tables_of_term, tables_of_tree};

use jp_base::Memory;
use jp_query::{Expr, JoinTree, Order, Output, Query};

/// Puts the tables of a query's base leaves at the end, at every depth and in sublinks, each as often as it stands there.
#[cycle(tables)]
pub fn push_query(query: &Query, tables: &mut Vec<u32>) -> Result<(), Memory>
    ensures { OnOk result (tables.new.items ≡ tables.old.items ++ tables_of_query query.now) }
{
    push_outputs(query.columns.as_slice(), tables)?;
    push_tree(&query.tree, tables)?;
    push_list(query.conds.as_slice(), tables)?;
    push_orders(query.order.as_slice(), tables)?;
    Ok(())
}

#[cycle(tables)]
fn push_expr(expr: &Expr, tables: &mut Vec<u32>) -> Result<(), Memory>
    ensures { OnOk result (tables.new.items ≡ tables.old.items ++ tables_of expr.now) }
{
    match expr {
        Expr::Col { .. } | Expr::Lit(_, _) => Ok(()),
        Expr::Place(operand, _)
        | Expr::Neg(operand)
        | Expr::Not(operand)
        | Expr::Test(_, operand) => push_expr(operand.get(), tables),
        Expr::Sum(terms) => push_terms(terms.as_slice(), tables),
        Expr::Product(list)
        | Expr::Concat(list)
        | Expr::And(list)
        | Expr::Or(list)
        | Expr::Coalesce(list) => push_list(list.as_slice(), tables),
        Expr::Compare(_, left, right) => {
            push_expr(left.get(), tables)?;
            push_expr(right.get(), tables)?;
            Ok(())
        }
        Expr::Between(operand, low, high) => {
            push_expr(operand.get(), tables)?;
            push_expr(low.get(), tables)?;
            push_expr(high.get(), tables)?;
            Ok(())
        }
        Expr::InList(operand, list) => {
            push_expr(operand.get(), tables)?;
            push_list(list.as_slice(), tables)?;
            Ok(())
        }
        Expr::Case {
            operand,
            arms,
            otherwise,
        } => {
            match operand {
                Some(operand) => push_expr(operand.get(), tables)?,
                None => {}
            }
            push_arms(arms.as_slice(), tables)?;
            match otherwise {
                Some(otherwise) => push_expr(otherwise.get(), tables)?,
                None => {}
            }
            Ok(())
        }
        Expr::Exists(_, query) => push_query(query.get(), tables),
        Expr::InSub(_, operand, query) => {
            push_expr(operand.get(), tables)?;
            push_query(query.get(), tables)?;
            Ok(())
        }
    }
}

#[cycle(tables)]
fn push_list(exprs: &[Expr], tables: &mut Vec<u32>) -> Result<(), Memory>
    ensures { OnOk result (tables.new.items ≡ tables.old.items ++ flat_map tables_of exprs.now) }
{
    for expr in exprs {
        push_expr(expr, tables)?;
    }
    Ok(())
}

#[cycle(tables)]
fn push_terms(terms: &[(bool, Expr)], tables: &mut Vec<u32>) -> Result<(), Memory>
    ensures { OnOk result (tables.new.items ≡ tables.old.items ++ flat_map tables_of_term terms.now) }
{
    for term in terms {
        push_expr(&term.1, tables)?;
    }
    Ok(())
}

#[cycle(tables)]
fn push_arms(arms: &[(Expr, Expr)], tables: &mut Vec<u32>) -> Result<(), Memory>
    ensures { OnOk result (tables.new.items ≡ tables.old.items ++ flat_map tables_of_arm arms.now) }
{
    for arm in arms {
        push_expr(&arm.0, tables)?;
        push_expr(&arm.1, tables)?;
    }
    Ok(())
}

#[cycle(tables)]
fn push_tree(tree: &JoinTree, tables: &mut Vec<u32>) -> Result<(), Memory>
    ensures { OnOk result (tables.new.items ≡ tables.old.items ++ tables_of_tree tree.now) }
{
    match tree {
        JoinTree::Base { table, .. } => {
            tables.push(*table)?;
            Ok(())
        }
        JoinTree::Sub { query, .. } => push_query(query.get(), tables),
        JoinTree::Join {
            left,
            right,
            on,
            ..
        } => {
            push_tree(left.get(), tables)?;
            push_tree(right.get(), tables)?;
            push_list(on.as_slice(), tables)?;
            Ok(())
        }
        JoinTree::From { members, conds } => {
            push_trees(members.as_slice(), tables)?;
            push_list(conds.as_slice(), tables)?;
            Ok(())
        }
    }
}

#[cycle(tables)]
fn push_trees(trees: &[JoinTree], tables: &mut Vec<u32>) -> Result<(), Memory>
    ensures { OnOk result (tables.new.items ≡ tables.old.items ++ flat_map tables_of_tree trees.now) }
{
    for tree in trees {
        push_tree(tree, tables)?;
    }
    Ok(())
}

#[cycle(tables)]
fn push_outputs(outputs: &[Output], tables: &mut Vec<u32>) -> Result<(), Memory>
    ensures { OnOk result (tables.new.items ≡ tables.old.items ++ flat_map tables_of_output outputs.now) }
{
    for output in outputs {
        push_expr(&output.expr, tables)?;
    }
    Ok(())
}

#[cycle(tables)]
fn push_orders(orders: &[Order], tables: &mut Vec<u32>) -> Result<(), Memory>
    ensures { OnOk result (tables.new.items ≡ tables.old.items ++ flat_map tables_of_order orders.now) }
{
    for order in orders {
        push_expr(&order.expr, tables)?;
    }
    Ok(())
}
