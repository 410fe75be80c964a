#![tactic(auto, using(crate::proofs::NumberLaws::equations))]

ghost use Rattle.std.specs.Prelude.{◌≡◌, ◌++◌, ◌∷◌, [], OnOk, IfOk, map};
ghost use Rattle.jp_query.specs.Parts.{all_in, arm_parts, term_part};
ghost use Rattle.jp_joins.specs.Lending.{numbers_in, numbers_in_all};

use jp_base::{Memory, SubNo};
use jp_query::Expr;
use std::alloc::Global;

/// The numbers of the sublinks of a list of expressions that stand in no other sublink's query, in the order in which they
/// are written.
pub fn numbers_of(alloc: Global, exprs: &[Expr]) -> Result<Vec<SubNo>, Memory>
    ensures { IfOk result (λ v. v.items ≡ numbers_in_all exprs.now) }
{
    let mut list = Vec::new(alloc);
    add_of_list(exprs, &mut list)?;
    Ok(list)
}

/// The numbers of the sublinks of an expression that stand in no other sublink's query, in the order in which they are
/// written.
pub fn numbers_of_one(alloc: Global, expr: &Expr) -> Result<Vec<SubNo>, Memory>
    ensures { IfOk result (λ v. v.items ≡ numbers_in expr.now) }
{
    let mut list = Vec::new(alloc);
    add_numbers(expr, &mut list)?;
    Ok(list)
}

/// Adds the numbers of the expression.
#[cycle(numbers)]
fn add_numbers(expr: &Expr, list: &mut Vec<SubNo>) -> Result<(), Memory>
    ensures { OnOk result (list.new.items ≡ list.old.items ++ numbers_in expr.now) }
{
    match expr {
        Expr::Col { .. } => Ok(()),
        Expr::Lit(..) => Ok(()),
        Expr::Place(inner, _) => {
            add_numbers(inner.get(), list)?;
            Ok(())
        }
        Expr::Neg(operand) => {
            add_numbers(operand.get(), list)?;
            Ok(())
        }
        Expr::Sum(terms) => {
            add_of_terms(terms.as_slice(), list)?;
            Ok(())
        }
        Expr::Product(factors) => {
            add_of_list(factors.as_slice(), list)?;
            Ok(())
        }
        Expr::Concat(parts) => {
            add_of_list(parts.as_slice(), list)?;
            Ok(())
        }
        Expr::Compare(_, left, right) => {
            add_numbers(left.get(), list)?;
            add_numbers(right.get(), list)?;
            Ok(())
        }
        Expr::Between(operand, low, high) => {
            add_numbers(operand.get(), list)?;
            add_numbers(low.get(), list)?;
            add_numbers(high.get(), list)?;
            Ok(())
        }
        Expr::InList(operand, members) => {
            add_numbers(operand.get(), list)?;
            add_of_list(members.as_slice(), list)?;
            Ok(())
        }
        Expr::And(members) => {
            add_of_list(members.as_slice(), list)?;
            Ok(())
        }
        Expr::Or(members) => {
            add_of_list(members.as_slice(), list)?;
            Ok(())
        }
        Expr::Not(operand) => {
            add_numbers(operand.get(), list)?;
            Ok(())
        }
        Expr::Test(_, operand) => {
            add_numbers(operand.get(), list)?;
            Ok(())
        }
        Expr::Coalesce(members) => {
            add_of_list(members.as_slice(), list)?;
            Ok(())
        }
        Expr::Case {
            operand,
            arms,
            otherwise,
        } => {
            match operand {
                Some(operand) => add_numbers(operand.get(), list)?,
                None => {}
            }
            add_of_arms(arms.as_slice(), list)?;
            match otherwise {
                Some(otherwise) => add_numbers(otherwise.get(), list)?,
                None => {}
            }
            Ok(())
        }
        Expr::Exists(number, _) => {
            add(*number, list)?;
            Ok(())
        }
        Expr::InSub(number, operand, _) => {
            add(*number, list)?;
            add_numbers(operand.get(), list)?;
            Ok(())
        }
    }
}

/// Adds those of the members of a list.
#[cycle(numbers)]
fn add_of_list(exprs: &[Expr], list: &mut Vec<SubNo>) -> Result<(), Memory>
    ensures { OnOk result (list.new.items ≡ list.old.items ++ all_in (map numbers_in exprs.now)) }
{
    'exprs: for expr in exprs {
        add_numbers(expr, list)?;
    }
    Ok(())
}

/// Adds those of the terms of a sum.
#[cycle(numbers)]
fn add_of_terms(terms: &[(bool, Expr)], list: &mut Vec<SubNo>) -> Result<(), Memory>
    ensures { OnOk result (list.new.items ≡ list.old.items ++ all_in (map numbers_in (map term_part terms.now))) }
{
    'terms: for (_, term) in terms {
        add_numbers(term, list)?;
    }
    Ok(())
}

/// Adds those of the arms of CASE.
#[cycle(numbers)]
fn add_of_arms(arms: &[(Expr, Expr)], list: &mut Vec<SubNo>) -> Result<(), Memory>
    ensures { OnOk result (list.new.items ≡ list.old.items ++ all_in (map numbers_in (arm_parts arms.now))) }
{
    'arms: for (when, then) in arms {
        add_numbers(when, list)?;
        add_numbers(then, list)?;
    }
    Ok(())
}

fn add(number: SubNo, list: &mut Vec<SubNo>) -> Result<(), Memory>
    ensures { OnOk result (list.new.items ≡ list.old.items ++ number ∷ []) }
{
    list.push(number)?;
    Ok(())
}
