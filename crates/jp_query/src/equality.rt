#![tactic(auto, using(crate::proofs::EqualityRules::equations))]

ghost use Rattle.std.specs.Prelude.{◌≡◌};
ghost use Rattle.jp_base.specs.Values.{are_same};
ghost use Rattle.jp_query.specs.Equality.{same_each, same_expr, same_exprs, same_of_terms, same_of_arms, same_op, same_test};

use crate::{CmpOp, Expr, IsTest};
use jp_base::{Value, total_order};
use std::cmp::Ordering;

/// Whether two expressions are equal, labels and types included. Two sublinks are taken as equal where their numbers
/// are, so no query is looked at: in a query as resolution gives it, sublinks of one number are equal.
#[cycle(equality)]
pub fn is_same(a: &Expr, b: &Expr) -> bool
    ensures { result ≡ same_expr a.now b.now }
{
    match a {
        Expr::Col {
            rel,
            col,
            ty,
            nulled,
        } => match b {
            Expr::Col {
                rel: other_rel,
                col: other_col,
                ty: other_ty,
                nulled: other_nulled,
            } => rel == other_rel && col == other_col && ty == other_ty && nulled == other_nulled,
            _ => false,
        },
        Expr::Lit(value, ty) => match b {
            Expr::Lit(other, other_ty) => is_same_value(value, other) && ty == other_ty,
            _ => false,
        },
        Expr::Place(inner, rels) => match b {
            Expr::Place(other, other_rels) => {
                rels == other_rels && is_same(inner.get(), other.get())
            }
            _ => false,
        },
        Expr::Neg(operand) => match b {
            Expr::Neg(other) => is_same(operand.get(), other.get()),
            _ => false,
        },
        Expr::Sum(terms) => match b {
            Expr::Sum(others) => are_same_terms(terms.as_slice(), others.as_slice()),
            _ => false,
        },
        Expr::Product(factors) => match b {
            Expr::Product(others) => are_same_lists(factors.as_slice(), others.as_slice()),
            _ => false,
        },
        Expr::Concat(parts) => match b {
            Expr::Concat(others) => are_same_lists(parts.as_slice(), others.as_slice()),
            _ => false,
        },
        Expr::Compare(op, left, right) => match b {
            Expr::Compare(other_op, other_left, other_right) => {
                is_same_op(*op, *other_op)
                    && is_same(left.get(), other_left.get())
                    && is_same(right.get(), other_right.get())
            }
            _ => false,
        },
        Expr::Between(operand, low, high) => match b {
            Expr::Between(other, other_low, other_high) => {
                is_same(operand.get(), other.get())
                    && is_same(low.get(), other_low.get())
                    && is_same(high.get(), other_high.get())
            }
            _ => false,
        },
        Expr::InList(operand, list) => match b {
            Expr::InList(other, others) => {
                is_same(operand.get(), other.get())
                    && are_same_lists(list.as_slice(), others.as_slice())
            }
            _ => false,
        },
        Expr::And(members) => match b {
            Expr::And(others) => are_same_lists(members.as_slice(), others.as_slice()),
            _ => false,
        },
        Expr::Or(members) => match b {
            Expr::Or(others) => are_same_lists(members.as_slice(), others.as_slice()),
            _ => false,
        },
        Expr::Not(operand) => match b {
            Expr::Not(other) => is_same(operand.get(), other.get()),
            _ => false,
        },
        Expr::Test(test, operand) => match b {
            Expr::Test(other_test, other) => {
                is_same_test(*test, *other_test) && is_same(operand.get(), other.get())
            }
            _ => false,
        },
        Expr::Coalesce(members) => match b {
            Expr::Coalesce(others) => are_same_lists(members.as_slice(), others.as_slice()),
            _ => false,
        },
        Expr::Case {
            operand,
            arms,
            otherwise,
        } => match b {
            Expr::Case {
                operand: other_operand,
                arms: other_arms,
                otherwise: other_otherwise,
            } => {
                let operand = match operand {
                    Some(operand) => match other_operand {
                        Some(other) => is_same(operand.get(), other.get()),
                        None => false,
                    },
                    None => other_operand.is_none(),
                };
                let otherwise = match otherwise {
                    Some(otherwise) => match other_otherwise {
                        Some(other) => is_same(otherwise.get(), other.get()),
                        None => false,
                    },
                    None => other_otherwise.is_none(),
                };
                operand && are_same_arms(arms.as_slice(), other_arms.as_slice()) && otherwise
            }
            _ => false,
        },
        Expr::Exists(sub, _) => match b {
            Expr::Exists(other, _) => sub == other,
            _ => false,
        },
        Expr::InSub(sub, _, _) => match b {
            Expr::InSub(other, _, _) => sub == other,
            _ => false,
        },
    }
}

/// Whether two literals are equal, NULL to NULL.
fn is_same_value(a: &Value, b: &Value) -> bool
    ensures { result ≡ are_same a.now b.now }
{
    total_order(a.cell(), b.cell()) == Ordering::Equal
}

fn is_same_op(a: CmpOp, b: CmpOp) -> bool
    ensures { result ≡ same_op a b }
{
    a == b
}

fn is_same_test(a: IsTest, b: IsTest) -> bool
    ensures { result ≡ same_test a b }
{
    a == b
}

#[cycle(equality)]
fn are_same_lists(a: &[Expr], b: &[Expr]) -> bool
    ensures { result ≡ same_exprs a.now b.now }
{
    if a.len() != b.len() {
        return false;
    }
    for (i, expr) in a.iter().enumerate() {
        if !is_same(expr, &b[i]) {
            return false;
        }
    }
    true
}

#[cycle(equality)]
fn are_same_terms(a: &[(bool, Expr)], b: &[(bool, Expr)]) -> bool
    ensures { result ≡ same_each same_of_terms a.now b.now }
{
    if a.len() != b.len() {
        return false;
    }
    for (i, (subtracted, term)) in a.iter().enumerate() {
        let (other_subtracted, other) = &b[i];
        if subtracted != other_subtracted || !is_same(term, other) {
            return false;
        }
    }
    true
}

#[cycle(equality)]
fn are_same_arms(a: &[(Expr, Expr)], b: &[(Expr, Expr)]) -> bool
    ensures { result ≡ same_each same_of_arms a.now b.now }
{
    if a.len() != b.len() {
        return false;
    }
    for (i, (when, then)) in a.iter().enumerate() {
        let (other_when, other_then) = &b[i];
        if !is_same(when, other_when) || !is_same(then, other_then) {
            return false;
        }
    }
    true
}
