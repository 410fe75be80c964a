#![tactic(auto, using(crate::proofs::RefsLaws::equations))]

ghost use Rattle.std.specs.Prelude.{◌≡◌, ℕ, map, bit_or};
ghost use Rattle.jp_query.specs.Refs.{only, union, below_64, refs_of, refs_of_tree, refs_of_query, refs_of_output, refs_of_order, refs_of_term, refs_of_arm};

use crate::{Expr, JoinTree, Order, Output, Query};
use jp_base::{RelNo, RelSet};

/// The relations of an expression's columns and placeholders, those inside its sublinks included. A column's number
/// from 64 on, which no typed expression has, is left out.
#[cycle(references)]
pub fn refs(expr: &Expr) -> RelSet
    ensures { result ≡ refs_of expr.now }
{
    match expr {
        Expr::Col { rel, .. } => relation(*rel),
        Expr::Lit(_, _) => nothing(),
        Expr::Place(inner, rels) => both(refs(inner.get()), *rels),
        Expr::Neg(operand) => refs(operand.get()),
        Expr::Sum(terms) => refs_in_terms(terms.as_slice()),
        Expr::Product(factors) => refs_in_list(factors.as_slice()),
        Expr::Concat(parts) => refs_in_list(parts.as_slice()),
        Expr::Compare(_, left, right) => both(refs(left.get()), refs(right.get())),
        Expr::Between(operand, low, high) => {
            both(both(refs(operand.get()), refs(low.get())), refs(high.get()))
        }
        Expr::InList(operand, list) => both(refs(operand.get()), refs_in_list(list.as_slice())),
        Expr::And(members) => refs_in_list(members.as_slice()),
        Expr::Or(members) => refs_in_list(members.as_slice()),
        Expr::Not(operand) => refs(operand.get()),
        Expr::Test(_, operand) => refs(operand.get()),
        Expr::Coalesce(members) => refs_in_list(members.as_slice()),
        Expr::Case {
            operand,
            arms,
            otherwise,
        } => {
            let operand = match operand {
                Some(operand) => refs(operand.get()),
                None => nothing(),
            };
            let otherwise = match otherwise {
                Some(otherwise) => refs(otherwise.get()),
                None => nothing(),
            };
            both(both(operand, refs_in_arms(arms.as_slice())), otherwise)
        }
        Expr::Exists(_, query) => refs_in_query(query.get()),
        Expr::InSub(_, operand, query) => both(refs(operand.get()), refs_in_query(query.get())),
    }
}

/// The set of one relation, if its number is below 64.
fn relation(rel: RelNo) -> RelSet
    ensures { result ≡ below_64 (only rel) }
{
    if rel < 64 {
        RelSet::one(rel)
    } else {
        nothing()
    }
}

/// The set without members.
fn nothing() -> RelSet
    ensures { result ≡ 0 }
{
    RelSet::empty()
}

fn both(a: RelSet, b: RelSet) -> RelSet
    ensures { result ≡ bit_or a b }
{
    a.union(b)
}

#[cycle(references)]
fn refs_in_list(exprs: &[Expr]) -> RelSet
    ensures { result ≡ union (map refs_of exprs.now) }
{
    let mut all = nothing();
    for expr in exprs {
        all = both(all, refs(expr));
    }
    all
}

#[cycle(references)]
fn refs_in_terms(terms: &[(bool, Expr)]) -> RelSet
    ensures { result ≡ union (map refs_of_term terms.now) }
{
    let mut all = nothing();
    for (_, term) in terms {
        all = both(all, refs(term));
    }
    all
}

#[cycle(references)]
fn refs_in_arms(arms: &[(Expr, Expr)]) -> RelSet
    ensures { result ≡ union (map refs_of_arm arms.now) }
{
    let mut all = nothing();
    for (when, then) in arms {
        all = both(all, both(refs(when), refs(then)));
    }
    all
}

#[cycle(references)]
fn refs_in_tree(tree: &JoinTree) -> RelSet
    ensures { result ≡ refs_of_tree tree.now }
{
    match tree {
        JoinTree::Base { .. } => nothing(),
        JoinTree::Sub { query, .. } => refs_in_query(query.get()),
        JoinTree::Join {
            left,
            right,
            on,
            ..
        } => both(
            both(refs_in_tree(left.get()), refs_in_tree(right.get())),
            refs_in_list(on.as_slice()),
        ),
        JoinTree::From { members, conds } => {
            both(
                refs_in_trees(members.as_slice()),
                refs_in_list(conds.as_slice()),
            )
        }
    }
}

#[cycle(references)]
fn refs_in_trees(trees: &[JoinTree]) -> RelSet
    ensures { result ≡ union (map refs_of_tree trees.now) }
{
    let mut all = nothing();
    for tree in trees {
        all = both(all, refs_in_tree(tree));
    }
    all
}

#[cycle(references)]
fn refs_in_outputs(outputs: &[Output]) -> RelSet
    ensures { result ≡ union (map refs_of_output outputs.now) }
{
    let mut all = nothing();
    for output in outputs {
        all = both(all, refs(&output.expr));
    }
    all
}

#[cycle(references)]
fn refs_in_orders(orders: &[Order]) -> RelSet
    ensures { result ≡ union (map refs_of_order orders.now) }
{
    let mut all = nothing();
    for order in orders {
        all = both(all, refs(&order.expr));
    }
    all
}

#[cycle(references)]
fn refs_in_query(query: &Query) -> RelSet
    ensures { result ≡ refs_of_query query.now }
{
    let columns = refs_in_outputs(query.columns.as_slice());
    let tree = refs_in_tree(&query.tree);
    let conds = refs_in_list(query.conds.as_slice());
    let order = refs_in_orders(query.order.as_slice());
    both(both(both(columns, tree), conds), order)
}
