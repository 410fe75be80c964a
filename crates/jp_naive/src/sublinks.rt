#![tactic(auto, using(crate::proofs::OuterLaws::equations))]

ghost use Rattle.std.specs.Prelude.{◌≡◌, ◌++◌, ◌∷◌, [], OnOk, IfOk, map};
ghost use Rattle.jp_query.specs.Outermost.{outermost};
ghost use Rattle.jp_query.specs.Parts.{all_in, arm_parts, term_part};
ghost use Rattle.jp_naive.specs.Sublinks.{outer_of};

use jp_base::{Memory, Row, SubNo};
use jp_query::{Expr, Query};
use std::alloc::Global;

/// A sublink, by its number and its query.
#[derive(Clone, Copy)]
pub struct Sublink<'q> {
    pub number: SubNo,
    pub query: &'q Query,
}

/// The rows of a sublink, by its number.
#[derive(Drop)]
pub struct Lent {
    pub number: SubNo,
    pub rows: Vec<Row>,
}

/// The sublinks of an expression that stand in no other sublink's query, in the order in which they are written.
pub fn outermost_of<'q>(alloc: Global, expr: &'q Expr) -> Result<Vec<Sublink<'q>>, Memory>
    ensures { IfOk result (λ v. map outer_of v.items ≡ outermost expr.now) }
{
    let mut list = Vec::new(alloc);
    add_outermost(expr, &mut list)?;
    Ok(list)
}

/// Adds the outermost sublinks of the expression.
#[cycle(outermost)]
fn add_outermost<'q>(expr: &'q Expr, list: &mut Vec<Sublink<'q>>) -> Result<(), Memory>
    ensures { OnOk result (map outer_of list.new.items ≡ map outer_of list.old.items ++ outermost expr.now) }
{
    match expr {
        Expr::Col { .. } => Ok(()),
        Expr::Lit(..) => Ok(()),
        Expr::Place(inner, _) => {
            add_outermost(inner.get(), list)?;
            Ok(())
        }
        Expr::Neg(operand) => {
            add_outermost(operand.get(), list)?;
            Ok(())
        }
        Expr::Sum(terms) => {
            add_of_terms(terms.as_slice(), list)?;
            Ok(())
        }
        Expr::Product(factors) => {
            add_of_list(factors.as_slice(), list)?;
            Ok(())
        }
        Expr::Concat(parts) => {
            add_of_list(parts.as_slice(), list)?;
            Ok(())
        }
        Expr::Compare(_, left, right) => {
            add_outermost(left.get(), list)?;
            add_outermost(right.get(), list)?;
            Ok(())
        }
        Expr::Between(operand, low, high) => {
            add_outermost(operand.get(), list)?;
            add_outermost(low.get(), list)?;
            add_outermost(high.get(), list)?;
            Ok(())
        }
        Expr::InList(operand, members) => {
            add_outermost(operand.get(), list)?;
            add_of_list(members.as_slice(), list)?;
            Ok(())
        }
        Expr::And(members) => {
            add_of_list(members.as_slice(), list)?;
            Ok(())
        }
        Expr::Or(members) => {
            add_of_list(members.as_slice(), list)?;
            Ok(())
        }
        Expr::Not(operand) => {
            add_outermost(operand.get(), list)?;
            Ok(())
        }
        Expr::Test(_, operand) => {
            add_outermost(operand.get(), list)?;
            Ok(())
        }
        Expr::Coalesce(members) => {
            add_of_list(members.as_slice(), list)?;
            Ok(())
        }
        Expr::Case {
            operand,
            arms,
            otherwise,
        } => {
            match operand {
                Some(operand) => add_outermost(operand.get(), list)?,
                None => {}
            }
            add_of_arms(arms.as_slice(), list)?;
            match otherwise {
                Some(otherwise) => add_outermost(otherwise.get(), list)?,
                None => {}
            }
            Ok(())
        }
        Expr::Exists(number, query) => {
            add(*number, query.get(), list)?;
            Ok(())
        }
        Expr::InSub(number, operand, query) => {
            add(*number, query.get(), list)?;
            add_outermost(operand.get(), list)?;
            Ok(())
        }
    }
}

/// Adds those of the members of a list.
#[cycle(outermost)]
fn add_of_list<'q>(exprs: &'q [Expr], list: &mut Vec<Sublink<'q>>) -> Result<(), Memory>
    ensures { OnOk result (map outer_of list.new.items ≡ map outer_of list.old.items ++ all_in (map outermost exprs.now)) }
{
    'exprs: for expr in exprs {
        add_outermost(expr, list)?;
    }
    Ok(())
}

/// Adds those of the terms of a sum.
#[cycle(outermost)]
fn add_of_terms<'q>(terms: &'q [(bool, Expr)], list: &mut Vec<Sublink<'q>>) -> Result<(), Memory>
    ensures { OnOk result (map outer_of list.new.items ≡ map outer_of list.old.items ++ all_in (map outermost (map term_part terms.now))) }
{
    'terms: for (_, term) in terms {
        add_outermost(term, list)?;
    }
    Ok(())
}

/// Adds those of the arms of CASE.
#[cycle(outermost)]
fn add_of_arms<'q>(arms: &'q [(Expr, Expr)], list: &mut Vec<Sublink<'q>>) -> Result<(), Memory>
    ensures { OnOk result (map outer_of list.new.items ≡ map outer_of list.old.items ++ all_in (map outermost (arm_parts arms.now))) }
{
    'arms: for (when, then) in arms {
        add_outermost(when, list)?;
        add_outermost(then, list)?;
    }
    Ok(())
}

fn add<'q>(number: SubNo, query: &'q Query, list: &mut Vec<Sublink<'q>>) -> Result<(), Memory>
    ensures { OnOk result (map outer_of list.new.items ≡ map outer_of list.old.items ++ record { number = number; query = query.now } ∷ []) }
{
    match list.push(Sublink { number, query }) {
        Ok(()) => Ok(()),
        Err(_) => Err(Memory),
    }
}
