#![tactic(auto, using(crate::proofs::ComputedLaws::equations, crate::proofs::ConcatenationLaws::parts_of))]

ghost use Rattle.std.specs.Prelude.{◌≡◌, true, map, IfOk, OnErr};
ghost use Rattle.std.specs.List.{list_any};
ghost use Rattle.std.specs.Option.{option_map};
ghost use Rattle.jp_base.specs.Cells.{value_of_cell};
ghost use Rattle.jp_base.specs.declared.values.Value.{Value};
ghost use Rattle.jp_query.specs.Operators.{value_of_truth, all_of, any_of, concat_of, first_value, first_arm};
ghost use Rattle.jp_eval.specs.Arithmetic.{product_in_128, terms_sum};
ghost use Rattle.jp_eval.specs.Computed.{computed, value_in, truth_in, equality_in, term_in, arm_in, gives_truth};
ghost use Rattle.jp_eval.specs.Concatenation.{has_concatenation, term_has_concatenation, arm_has_concatenation};
ghost use Rattle.jp_eval.specs.Evaluated.{value_of_evaluated, chosen_or};

use crate::Env;
use crate::arithmetic::{Multiplied, cell_of_product, negation, times, with_term};
use crate::evaluated::{Evaluated, is_chosen};
use crate::operators::{comparison, is_among_rows, is_between, is_met, with_piece};
use jp_base::{Cell, Memory, Truth, Txt};
use jp_placeholder::value_is_null;
use jp_query::{CmpOp, Expr};
use std::alloc::Global;

/// The value of an expression. A text that no `||` made is lent.
#[cycle(evaluation)]
pub fn evaluate<'e, E: Env>(
    alloc: Global,
    expr: &'e Expr,
    env: &'e E,
) -> Result<Evaluated<'e>, Memory>
    ensures value { IfOk result (λ v. value_of_evaluated v ≡ computed (E.sublink_rows env.now) expr.now (E.environment env.now)) }
    ensures memory { OnErr result (has_concatenation expr.now ≡ true) }
{
    match expr {
        Expr::Col { rel, col, .. } => Ok(Evaluated::Lent(env.cell(*rel, *col))),
        Expr::Lit(value, _) => Ok(Evaluated::Lent(value.cell())),
        Expr::Place(inner, rels) => {
            if value_is_null(*rels, env.present()) {
                return Ok(Evaluated::Lent(Cell::Null));
            }
            let inner = evaluate(alloc, inner.get(), env)?;
            Ok(inner)
        }
        Expr::Neg(operand) => {
            let operand = evaluate(alloc, operand.get(), env)?;
            Ok(Evaluated::Lent(negation(operand.cell())))
        }
        Expr::Sum(terms) => {
            let sum = sum(alloc, terms.as_slice(), env)?;
            Ok(Evaluated::Lent(sum))
        }
        Expr::Product(factors) => {
            let product = product(alloc, factors.as_slice(), env)?;
            Ok(Evaluated::Lent(cell_of_product(product)))
        }
        Expr::Concat(pieces) => {
            let text = concatenation(alloc, pieces.as_slice(), env)?;
            Ok(text)
        }
        Expr::Coalesce(members) => {
            let first = first_present(alloc, members.as_slice(), env)?;
            Ok(first)
        }
        Expr::Case {
            operand,
            arms,
            otherwise,
        } => {
            let operand = match operand {
                Some(operand) => Some(evaluate(alloc, operand.get(), env)?),
                None => None,
            };
            let chosen = chosen_arm(alloc, &operand, arms.as_slice(), env)?;
            match chosen {
                Some(chosen) => Ok(chosen),
                None => match otherwise {
                    Some(otherwise) => {
                        let otherwise = evaluate(alloc, otherwise.get(), env)?;
                        Ok(otherwise)
                    }
                    None => Ok(Evaluated::Lent(Cell::Null)),
                },
            }
        }
        Expr::Compare(..)
        | Expr::Between(..)
        | Expr::InList(..)
        | Expr::And(_)
        | Expr::Or(_)
        | Expr::Not(_)
        | Expr::Test(..)
        | Expr::Exists(..)
        | Expr::InSub(..) => {
            let truth = truth_of_operator(alloc, expr, env)?;
            Ok(Evaluated::Truth(truth))
        }
    }
}

/// The truth of an operator that gives a truth value.
#[cycle(evaluation)]
fn truth_of_operator<E: Env>(alloc: Global, expr: &Expr, env: &E) -> Result<Truth, Memory>
    requires { gives_truth expr.now ≡ true }
    ensures value { IfOk result (λ t. value_of_truth t ≡ computed (E.sublink_rows env.now) expr.now (E.environment env.now)) }
    ensures memory { OnErr result (has_concatenation expr.now ≡ true) }
{
    match expr {
        Expr::Compare(op, left, right) => {
            let left = evaluate(alloc, left.get(), env)?;
            let right = evaluate(alloc, right.get(), env)?;
            Ok(comparison(*op, left.cell(), right.cell()))
        }
        Expr::Between(operand, low, high) => {
            let operand = evaluate(alloc, operand.get(), env)?;
            let low = evaluate(alloc, low.get(), env)?;
            let high = evaluate(alloc, high.get(), env)?;
            Ok(is_between(operand.cell(), low.cell(), high.cell()))
        }
        Expr::InList(operand, list) => {
            let operand = evaluate(alloc, operand.get(), env)?;
            let truth = is_among(alloc, operand.cell(), list.as_slice(), env)?;
            Ok(truth)
        }
        Expr::And(members) => {
            let truth = conjunction(alloc, members.as_slice(), env)?;
            Ok(truth)
        }
        Expr::Or(members) => {
            let truth = disjunction(alloc, members.as_slice(), env)?;
            Ok(truth)
        }
        Expr::Not(operand) => {
            let operand = evaluate(alloc, operand.get(), env)?;
            Ok(operand.truth().not())
        }
        Expr::Test(test, operand) => {
            let operand = evaluate(alloc, operand.get(), env)?;
            Ok(Truth::of(is_met(*test, operand.cell())))
        }
        Expr::Exists(sub, _) => Ok(Truth::of(!env.rows_of(*sub).is_empty())),
        Expr::InSub(sub, operand, _) => {
            let operand = evaluate(alloc, operand.get(), env)?;
            Ok(is_among_rows(operand.cell(), env.rows_of(*sub)))
        }
        _ => unreachable!(),
    }
}

/// The sum of terms, each with whether it is subtracted.
#[cycle(evaluation)]
fn sum<E: Env>(alloc: Global, terms: &[(bool, Expr)], env: &E) -> Result<Cell<'static>, Memory>
    ensures value { IfOk result (λ v. value_of_cell v ≡ terms_sum (map (term_in (E.sublink_rows env.now) (E.environment env.now)) terms.now)) }
    ensures memory { OnErr result (list_any term_has_concatenation terms.now ≡ true) }
{
    let mut total = Cell::Num(0);
    for (subtracted, term) in terms {
        let term = evaluate(alloc, term, env)?;
        total = with_term(total, *subtracted, term.cell());
    }
    Ok(total)
}

/// The product of factors.
#[cycle(evaluation)]
fn product<E: Env>(alloc: Global, factors: &[Expr], env: &E) -> Result<Multiplied, Memory>
    ensures value { IfOk result (λ v. v ≡ product_in_128 (map (value_in (E.sublink_rows env.now) (E.environment env.now)) factors.now)) }
    ensures memory { OnErr result (list_any has_concatenation factors.now ≡ true) }
{
    let mut all = Multiplied::Number(1);
    for factor in factors {
        let factor = evaluate(alloc, factor, env)?;
        all = times(all, factor.cell());
    }
    Ok(all)
}

/// The text that the pieces of a `||` make, or NULL.
#[cycle(evaluation)]
fn concatenation<E: Env>(
    alloc: Global,
    pieces: &[Expr],
    env: &E,
) -> Result<Evaluated<'static>, Memory>
    ensures { IfOk result (λ v. value_of_evaluated v ≡ concat_of (map (value_in (E.sublink_rows env.now) (E.environment env.now)) pieces.now)) }
{
    let mut text = Some(String::new(alloc));
    for piece in pieces {
        let piece = evaluate(alloc, piece, env)?;
        text = with_piece(text, piece.cell())?;
    }
    match text {
        Some(text) => Ok(Evaluated::Made(Txt::new(alloc, text.as_str())?)),
        None => Ok(Evaluated::Lent(Cell::Null)),
    }
}

/// The truth of AND. It is settled at the first member that is false.
#[cycle(evaluation)]
fn conjunction<E: Env>(alloc: Global, members: &[Expr], env: &E) -> Result<Truth, Memory>
    ensures value { IfOk result (λ t. t ≡ all_of (map (truth_in (E.sublink_rows env.now) (E.environment env.now)) members.now)) }
    ensures memory { OnErr result (list_any has_concatenation members.now ≡ true) }
{
    let mut all = Truth::True;
    for member in members {
        let member = evaluate(alloc, member, env)?;
        all = all.and(member.truth());
        if all == Truth::False {
            return Ok(all);
        }
    }
    Ok(all)
}

/// The truth of OR. It is settled at the first member that is true.
#[cycle(evaluation)]
fn disjunction<E: Env>(alloc: Global, members: &[Expr], env: &E) -> Result<Truth, Memory>
    ensures value { IfOk result (λ t. t ≡ any_of (map (truth_in (E.sublink_rows env.now) (E.environment env.now)) members.now)) }
    ensures memory { OnErr result (list_any has_concatenation members.now ≡ true) }
{
    let mut any = Truth::False;
    for member in members {
        let member = evaluate(alloc, member, env)?;
        any = any.or(member.truth());
        if any == Truth::True {
            return Ok(any);
        }
    }
    Ok(any)
}

/// The truth of IN over a list. It is settled at the first member that is equal.
#[cycle(evaluation)]
fn is_among<E: Env>(
    alloc: Global,
    operand: Cell<'_>,
    list: &[Expr],
    env: &E,
) -> Result<Truth, Memory>
    ensures value { IfOk result (λ t. t ≡ any_of (map (equality_in (E.sublink_rows env.now) (E.environment env.now) (value_of_cell operand.entry)) list.now)) }
    ensures memory { OnErr result (list_any has_concatenation list.now ≡ true) }
{
    let mut any = Truth::False;
    for member in list {
        let member = evaluate(alloc, member, env)?;
        any = any.or(comparison(CmpOp::Eq, operand, member.cell()));
        if any == Truth::True {
            return Ok(any);
        }
    }
    Ok(any)
}

/// The first value of COALESCE that isn't NULL.
#[cycle(evaluation)]
fn first_present<'e, E: Env>(
    alloc: Global,
    members: &'e [Expr],
    env: &'e E,
) -> Result<Evaluated<'e>, Memory>
    ensures value { IfOk result (λ v. value_of_evaluated v ≡ first_value (map (value_in (E.sublink_rows env.now) (E.environment env.now)) members.now)) }
    ensures memory { OnErr result (list_any has_concatenation members.now ≡ true) }
{
    for member in members {
        let member = evaluate(alloc, member, env)?;
        if !member.is_null() {
            return Ok(member);
        }
    }
    Ok(Evaluated::Lent(Cell::Null))
}

/// The result of the first arm of CASE that is chosen, if there is one.
#[cycle(evaluation)]
fn chosen_arm<'e, E: Env>(
    alloc: Global,
    operand: &Option<Evaluated<'e>>,
    arms: &'e [(Expr, Expr)],
    env: &'e E,
) -> Result<Option<Evaluated<'e>>, Memory>
    ensures value { IfOk result (λ v. (otherwise : Value) → chosen_or v otherwise ≡ first_arm (option_map value_of_evaluated operand.now) (map (arm_in (E.sublink_rows env.now) (E.environment env.now)) arms.now) otherwise) }
    ensures memory { OnErr result (list_any arm_has_concatenation arms.now ≡ true) }
{
    for (when, then) in arms {
        let when = evaluate(alloc, when, env)?;
        if is_chosen(operand, when.cell()) {
            let then = evaluate(alloc, then, env)?;
            return Ok(Some(then));
        }
    }
    Ok(None)
}
