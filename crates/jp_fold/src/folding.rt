#![tactic(auto, using(crate::proofs::Equations::equations))]

ghost use Rattle.std.specs.Prelude.{◌≡◌, map, IfOk};
ghost use Rattle.std.specs.Option.{option_map};
ghost use Rattle.jp_fold.specs.InBits.{arm_made, conditions_made, expr_made, join_made, order_made, output_made, parts_made, query_made, term_made, tree_made};

use crate::connectives::{conjunction, disjunction, members_of, push};
use crate::literals::{boxed, operator, strict};
use jp_base::Memory;
use jp_query::{Expr, JoinKind, JoinTree, Order, Output, Query};
use sqlite_items::{Boxed, Items};
use std::alloc::Global;

#[cycle(folding)]
pub fn fold_query(alloc: Global, query: &Query) -> Result<Boxed<Query>, Memory>
    ensures { IfOk result (λ q. q ≡ query_made query.now) }
{
    let columns = fold_outputs(alloc, query.columns.as_slice())?;
    let tree = fold_tree(alloc, &query.tree)?;
    let conds = fold_conditions(alloc, query.conds.as_slice())?;
    let order = fold_orders(alloc, query.order.as_slice())?;
    let folded = boxed(
        alloc,
        Query {
            columns,
            distinct: query.distinct,
            tree: tree.into_inner(),
            conds,
            order,
        },
    )?;
    Ok(folded)
}

#[cycle(folding)]
fn fold_tree(alloc: Global, tree: &JoinTree) -> Result<Boxed<JoinTree>, Memory>
    ensures { IfOk result (λ t. t ≡ tree_made tree.now) }
{
    match tree {
        JoinTree::Base { rel, name, table } => {
            let name = name.copy(alloc)?;
            boxed(
                alloc,
                JoinTree::Base {
                    rel: *rel,
                    name,
                    table: *table,
                },
            )
        }
        JoinTree::Sub { rel, name, query } => {
            let name = name.copy(alloc)?;
            let query = fold_query(alloc, query.get())?;
            boxed(
                alloc,
                JoinTree::Sub {
                    rel: *rel,
                    name,
                    query,
                },
            )
        }
        JoinTree::Join {
            kind,
            left,
            right,
            on,
        } => {
            let left = fold_tree(alloc, left.get())?;
            let right = fold_tree(alloc, right.get())?;
            let on = fold_conditions(alloc, on.as_slice())?;
            boxed(alloc, joined(*kind, left, right, on))
        }
        JoinTree::From { members, conds } => {
            let members = fold_trees(alloc, members.as_slice())?;
            let conds = fold_conditions(alloc, conds.as_slice())?;
            boxed(alloc, JoinTree::From { members, conds })
        }
    }
}

/// A Right join becomes a Left join with its sides exchanged.
fn joined(
    kind: JoinKind,
    left: Boxed<JoinTree>,
    right: Boxed<JoinTree>,
    on: Items<Expr>,
) -> JoinTree
    ensures { result ≡ join_made kind left right on }
{
    if kind == JoinKind::Right {
        return JoinTree::Join {
            kind: JoinKind::Left,
            left: right,
            right: left,
            on,
        };
    }
    JoinTree::Join {
        kind,
        left,
        right,
        on,
    }
}

/// A list of conditions is folded as their AND.
#[cycle(folding)]
fn fold_conditions(alloc: Global, conds: &[Expr]) -> Result<Items<Expr>, Memory>
    ensures { IfOk result (λ list. list ≡ conditions_made (map expr_made conds.now)) }
{
    let members = fold_list(alloc, conds)?;
    let whole = conjunction(alloc, members)?;
    let conds = members_of(alloc, whole)?;
    Ok(conds)
}

#[cycle(folding)]
fn fold_expr(alloc: Global, expr: &Expr) -> Result<Boxed<Expr>, Memory>
    ensures { IfOk result (λ e. e ≡ expr_made expr.now) }
{
    match expr {
        Expr::And(members) => {
            let members = fold_list(alloc, members.as_slice())?;
            conjunction(alloc, members)
        }
        Expr::Or(members) => {
            let members = fold_list(alloc, members.as_slice())?;
            disjunction(alloc, members)
        }
        Expr::Col { .. } | Expr::Lit(..) | Expr::Place(..) | Expr::Exists(..) | Expr::InSub(..) => {
            let level = fold_parts(alloc, expr)?;
            boxed(alloc, level)
        }
        Expr::Neg(_) | Expr::Sum(_) | Expr::Product(_) | Expr::Concat(_) | Expr::Compare(..) => {
            let level = fold_parts(alloc, expr)?;
            let level = boxed(alloc, level)?;
            strict(alloc, level)
        }
        Expr::Between(..)
        | Expr::InList(..)
        | Expr::Not(_)
        | Expr::Test(..)
        | Expr::Coalesce(_)
        | Expr::Case { .. } => {
            let level = fold_parts(alloc, expr)?;
            let level = boxed(alloc, level)?;
            operator(alloc, level)
        }
    }
}

/// An expression with its parts folded.
#[cycle(folding)]
fn fold_parts(alloc: Global, expr: &Expr) -> Result<Expr, Memory>
    ensures { IfOk result (λ e. e ≡ parts_made expr.now) }
{
    match expr {
        Expr::Col {
            rel,
            col,
            ty,
            nulled,
        } => Ok(Expr::Col {
            rel: *rel,
            col: *col,
            ty: *ty,
            nulled: *nulled,
        }),
        Expr::Lit(value, ty) => {
            let value = value.copy(alloc)?;
            Ok(Expr::Lit(value, *ty))
        }
        Expr::Place(inner, rels) => {
            let inner = fold_expr(alloc, inner.get())?;
            Ok(Expr::Place(inner, *rels))
        }
        Expr::Neg(operand) => {
            let operand = fold_expr(alloc, operand.get())?;
            Ok(Expr::Neg(operand))
        }
        Expr::Sum(terms) => {
            let terms = fold_terms(alloc, terms.as_slice())?;
            Ok(Expr::Sum(terms))
        }
        Expr::Product(factors) => {
            let factors = fold_list(alloc, factors.as_slice())?;
            Ok(Expr::Product(factors))
        }
        Expr::Concat(pieces) => {
            let pieces = fold_list(alloc, pieces.as_slice())?;
            Ok(Expr::Concat(pieces))
        }
        Expr::Compare(op, left, right) => {
            let left = fold_expr(alloc, left.get())?;
            let right = fold_expr(alloc, right.get())?;
            Ok(Expr::Compare(*op, left, right))
        }
        Expr::Between(operand, low, high) => {
            let operand = fold_expr(alloc, operand.get())?;
            let low = fold_expr(alloc, low.get())?;
            let high = fold_expr(alloc, high.get())?;
            Ok(Expr::Between(operand, low, high))
        }
        Expr::InList(operand, list) => {
            let operand = fold_expr(alloc, operand.get())?;
            let list = fold_list(alloc, list.as_slice())?;
            Ok(Expr::InList(operand, list))
        }
        Expr::And(members) => {
            let members = fold_list(alloc, members.as_slice())?;
            Ok(Expr::And(members))
        }
        Expr::Or(members) => {
            let members = fold_list(alloc, members.as_slice())?;
            Ok(Expr::Or(members))
        }
        Expr::Not(operand) => {
            let operand = fold_expr(alloc, operand.get())?;
            Ok(Expr::Not(operand))
        }
        Expr::Test(test, operand) => {
            let operand = fold_expr(alloc, operand.get())?;
            Ok(Expr::Test(*test, operand))
        }
        Expr::Coalesce(members) => {
            let members = fold_list(alloc, members.as_slice())?;
            Ok(Expr::Coalesce(members))
        }
        Expr::Case {
            operand,
            arms,
            otherwise,
        } => {
            let operand = fold_option(alloc, operand)?;
            let arms = fold_arms(alloc, arms.as_slice())?;
            let otherwise = fold_option(alloc, otherwise)?;
            Ok(Expr::Case {
                operand,
                arms,
                otherwise,
            })
        }
        Expr::Exists(sub, query) => {
            let query = fold_query(alloc, query.get())?;
            Ok(Expr::Exists(*sub, query))
        }
        Expr::InSub(sub, operand, query) => {
            let operand = fold_expr(alloc, operand.get())?;
            let query = fold_query(alloc, query.get())?;
            Ok(Expr::InSub(*sub, operand, query))
        }
    }
}

#[cycle(folding)]
fn fold_option(alloc: Global, expr: &Option<Boxed<Expr>>) -> Result<Option<Boxed<Expr>>, Memory>
    ensures { IfOk result (λ e. e ≡ option_map expr_made expr.now) }
{
    match expr {
        Some(expr) => {
            let folded = fold_expr(alloc, expr.get())?;
            Ok(Some(folded))
        }
        None => Ok(None),
    }
}

#[cycle(folding)]
fn fold_list(alloc: Global, exprs: &[Expr]) -> Result<Items<Expr>, Memory>
    ensures { IfOk result (λ list. list ≡ map expr_made exprs.now) }
{
    let mut out = Items::new(alloc);
    for expr in exprs {
        let folded = fold_expr(alloc, expr)?;
        push(&mut out, folded.into_inner())?;
    }
    Ok(out)
}

#[cycle(folding)]
fn fold_terms(alloc: Global, terms: &[(bool, Expr)]) -> Result<Items<(bool, Expr)>, Memory>
    ensures { IfOk result (λ list. list ≡ map term_made terms.now) }
{
    let mut out = Items::new(alloc);
    for (subtracted, term) in terms {
        let folded = fold_expr(alloc, term)?;
        push(&mut out, (*subtracted, folded.into_inner()))?;
    }
    Ok(out)
}

#[cycle(folding)]
fn fold_arms(alloc: Global, arms: &[(Expr, Expr)]) -> Result<Items<(Expr, Expr)>, Memory>
    ensures { IfOk result (λ list. list ≡ map arm_made arms.now) }
{
    let mut out = Items::new(alloc);
    for (when, then) in arms {
        let when = fold_expr(alloc, when)?;
        let then = fold_expr(alloc, then)?;
        push(&mut out, (when.into_inner(), then.into_inner()))?;
    }
    Ok(out)
}

#[cycle(folding)]
fn fold_trees(alloc: Global, trees: &[JoinTree]) -> Result<Items<JoinTree>, Memory>
    ensures { IfOk result (λ list. list ≡ map tree_made trees.now) }
{
    let mut out = Items::new(alloc);
    for tree in trees {
        let folded = fold_tree(alloc, tree)?;
        push(&mut out, folded.into_inner())?;
    }
    Ok(out)
}

#[cycle(folding)]
fn fold_outputs(alloc: Global, outputs: &[Output]) -> Result<Items<Output>, Memory>
    ensures { IfOk result (λ list. list ≡ map output_made outputs.now) }
{
    let mut out = Items::new(alloc);
    for output in outputs {
        let folded = fold_output(alloc, output)?;
        push(&mut out, folded)?;
    }
    Ok(out)
}

#[cycle(folding)]
fn fold_output(alloc: Global, output: &Output) -> Result<Output, Memory>
    ensures { IfOk result (λ u. u ≡ output_made output.now) }
{
    let name = output.name.copy(alloc)?;
    let expr = fold_expr(alloc, &output.expr)?;
    Ok(Output {
        name,
        ty: output.ty,
        expr: expr.into_inner(),
    })
}

#[cycle(folding)]
fn fold_orders(alloc: Global, orders: &[Order]) -> Result<Items<Order>, Memory>
    ensures { IfOk result (λ list. list ≡ map order_made orders.now) }
{
    let mut out = Items::new(alloc);
    for order in orders {
        let folded = fold_order(alloc, order)?;
        push(&mut out, folded)?;
    }
    Ok(out)
}

#[cycle(folding)]
fn fold_order(alloc: Global, order: &Order) -> Result<Order, Memory>
    ensures { IfOk result (λ o. o ≡ order_made order.now) }
{
    let expr = fold_expr(alloc, &order.expr)?;
    Ok(Order {
        expr: expr.into_inner(),
        desc: order.desc,
        nulls_first: order.nulls_first,
    })
}
