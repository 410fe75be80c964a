#![tactic(auto, using(crate::proofs::TextLaws::equations))]

ghost use Rattle.std.specs.Prelude.{◌≡◌, ◌++◌, OnOk, map, string_bytes, false, true};
ghost use Rattle.std.specs.List.{flat_map};
ghost use Rattle.jp_query.specs.declared.Expr.{out-Expr};
ghost use Rattle.jp_explain.specs.Expressions.{expr_text, is_bare, operand_term, operand_text, printed_arm, terms_text};
ghost use Rattle.jp_explain.specs.Lists.{separated};

use crate::names::{push_column, push_relations};
use crate::pieces::{gap, push, push_number};
use crate::values::{comparison, push_value, sign, test_words};
use jp_base::Memory;
use jp_query::Expr;
use jp_tree::RelName;

/// Puts an expression at the end.
#[cycle(texts)]
pub fn push_expr(names: &[RelName], expr: &Expr, text: &mut String) -> Result<(), Memory>
    ensures { OnOk result (string_bytes text.new ≡ string_bytes text.old ++ expr_text names.now expr.now) }
{
    if is_bare(expr) {
        push_bare(names, expr, text)?;
        return Ok(());
    }
    push_operation(names, expr, text)?;
    Ok(())
}

/// Puts an expression at the end as an operand: in parentheses, where it is made by an operator.
#[cycle(texts)]
fn push_operand(names: &[RelName], expr: &Expr, text: &mut String) -> Result<(), Memory>
    ensures { OnOk result (string_bytes text.new ≡ string_bytes text.old ++ operand_text names.now expr.now) }
{
    if is_bare(expr) {
        push_bare(names, expr, text)?;
        return Ok(());
    }
    push("(", text)?;
    push_operation(names, expr, text)?;
    push(")", text)?;
    Ok(())
}

/// Puts an expression at the end that isn't made by an operator.
#[cycle(texts)]
fn push_bare(names: &[RelName], expr: &Expr, text: &mut String) -> Result<(), Memory>
    requires { is_bare (out-Expr expr.now) ≡ true }
    ensures { OnOk result (string_bytes text.new ≡ string_bytes text.old ++ expr_text names.now expr.now) }
{
    match expr {
        Expr::Col { rel, col, .. } => push_column(names, *rel, *col, text),
        Expr::Lit(value, _) => push_value(value, text),
        Expr::Place(inner, rels) => {
            push("PH(", text)?;
            push_expr(names, inner.get(), text)?;
            push("; ", text)?;
            push_relations(names, *rels, text)?;
            push(")", text)
        }
        Expr::Coalesce(members) => {
            push("COALESCE(", text)?;
            push_list(names, ", ", members.as_slice(), text)?;
            push(")", text)
        }
        Expr::Case {
            operand,
            arms,
            otherwise,
        } => {
            push("CASE", text)?;
            match operand {
                Some(operand) => {
                    push(" ", text)?;
                    push_expr(names, operand.get(), text)?;
                }
                None => {}
            }
            push_arms(names, arms.as_slice(), text)?;
            match otherwise {
                Some(otherwise) => {
                    push(" ELSE ", text)?;
                    push_expr(names, otherwise.get(), text)?;
                }
                None => {}
            }
            push(" END", text)?;
            Ok(())
        }
        Expr::Exists(sub, _) => {
            push("EXISTS(#", text)?;
            push_number(u128::from(*sub), text)?;
            push(")", text)
        }
        _ => unreachable!(),
    }
}

/// Puts an expression at the end that is made by an operator.
#[cycle(texts)]
fn push_operation(names: &[RelName], expr: &Expr, text: &mut String) -> Result<(), Memory>
    requires { is_bare (out-Expr expr.now) ≡ false }
    ensures { OnOk result (string_bytes text.new ≡ string_bytes text.old ++ expr_text names.now expr.now) }
{
    match expr {
        Expr::Neg(operand) => {
            push("-", text)?;
            push_operand(names, operand.get(), text)
        }
        Expr::Sum(terms) => push_terms(names, terms.as_slice(), text),
        Expr::Product(factors) => push_operands(names, " * ", factors.as_slice(), text),
        Expr::Concat(pieces) => push_operands(names, " || ", pieces.as_slice(), text),
        Expr::Compare(op, left, right) => {
            push_operand(names, left.get(), text)?;
            push(comparison(*op), text)?;
            push_operand(names, right.get(), text)
        }
        Expr::Between(operand, low, high) => {
            push_operand(names, operand.get(), text)?;
            push(" BETWEEN ", text)?;
            push_operand(names, low.get(), text)?;
            push(" AND ", text)?;
            push_operand(names, high.get(), text)
        }
        Expr::InList(operand, list) => {
            push_operand(names, operand.get(), text)?;
            push(" IN (", text)?;
            push_list(names, ", ", list.as_slice(), text)?;
            push(")", text)
        }
        Expr::And(members) => push_operands(names, " AND ", members.as_slice(), text),
        Expr::Or(members) => push_operands(names, " OR ", members.as_slice(), text),
        Expr::Not(operand) => {
            push("NOT ", text)?;
            push_operand(names, operand.get(), text)
        }
        Expr::Test(test, operand) => {
            push_operand(names, operand.get(), text)?;
            push(test_words(*test), text)
        }
        Expr::InSub(sub, operand, _) => {
            push_operand(names, operand.get(), text)?;
            push(" IN (#", text)?;
            push_number(u128::from(*sub), text)?;
            push(")", text)
        }
        _ => unreachable!(),
    }
}

/// Whether the expression stands without parentheses as an operand.
fn is_bare(expr: &Expr) -> bool
    ensures { result ≡ is_bare (out-Expr expr.now) }
{
    matches!(
        expr,
        Expr::Col { .. }
            | Expr::Lit(_, _)
            | Expr::Place(_, _)
            | Expr::Coalesce(_)
            | Expr::Case { .. }
            | Expr::Exists(_, _)
    )
}

/// Puts expressions at the end, with a mark between each two.
#[cycle(texts)]
pub fn push_list(
    names: &[RelName],
    between: &str,
    exprs: &[Expr],
    text: &mut String,
) -> Result<(), Memory>
    ensures { OnOk result (string_bytes text.new ≡ string_bytes text.old ++ separated between.now (map (expr_text names.now) exprs.now)) }
{
    let mut first = true;
    'exprs: for expr in exprs {
        push(gap(first, between), text)?;
        push_expr(names, expr, text)?;
        first = false;
    }
    Ok(())
}

/// Puts operands at the end, with their operator between each two.
#[cycle(texts)]
fn push_operands(
    names: &[RelName],
    between: &str,
    exprs: &[Expr],
    text: &mut String,
) -> Result<(), Memory>
    ensures { OnOk result (string_bytes text.new ≡ string_bytes text.old ++ separated between.now (map (operand_text names.now) exprs.now)) }
{
    let mut first = true;
    'exprs: for expr in exprs {
        push(gap(first, between), text)?;
        push_operand(names, expr, text)?;
        first = false;
    }
    Ok(())
}

/// Puts the terms of a sum at the end.
#[cycle(texts)]
fn push_terms(names: &[RelName], terms: &[(bool, Expr)], text: &mut String) -> Result<(), Memory>
    ensures { OnOk result (string_bytes text.new ≡ string_bytes text.old ++ terms_text true (map (operand_term names.now) terms.now)) }
{
    let mut first = true;
    'terms: for (subtracted, term) in terms {
        push(sign(first, *subtracted), text)?;
        push_operand(names, term, text)?;
        first = false;
    }
    Ok(())
}

/// Puts the arms of a CASE at the end.
#[cycle(texts)]
fn push_arms(names: &[RelName], arms: &[(Expr, Expr)], text: &mut String) -> Result<(), Memory>
    ensures { OnOk result (string_bytes text.new ≡ string_bytes text.old ++ flat_map (printed_arm names.now) arms.now) }
{
    'arms: for (condition, value) in arms {
        push(" WHEN ", text)?;
        push_expr(names, condition, text)?;
        push(" THEN ", text)?;
        push_expr(names, value, text)?;
    }
    Ok(())
}
