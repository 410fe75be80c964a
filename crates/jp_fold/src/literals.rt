#![tactic(auto, using(crate::proofs::Equations::equations, crate::proofs::Equations::literals))]

ghost use Rattle.std.specs.Prelude.{◌≡◌, true, map, IfOk};
ghost use Rattle.std.specs.List.{list_all, list_any};
ghost use Rattle.jp_query.specs.declared.Expr.{out-Expr};
ghost use Rattle.jp_query.specs.Parts.{term_part, arm_parts, option_part};
ghost use Rattle.jp_folding.specs.Folding as folding;
ghost use Rattle.jp_fold.specs.InBits.{has_literals, has_null, kind_type, literal_made, operator_made, strict_made, type_of_arm, type_of_first, type_of_literal, is_strict};

use jp_base::{Cell, Memory, RelNo, RelSet, Row, SubNo, Ty, Value};
use jp_eval::{Env, eval_in_128_bits};
use jp_query::Expr;
use sqlite_items::Boxed;
use std::alloc::Global;

/// An environment without relations and without rows for sublinks.
struct Nothing;

impl Env for Nothing {
    ghost use Rattle.std.specs.Prelude.{[]};
    ghost use Rattle.jp_query.specs.Meaning.{no_tables, no_outer_rows};

    ghost environment = { λ s. no_outer_rows };

    ghost sublink_rows = { λ s. no_tables };

    fn cell(&self, _rel: RelNo, _col: u32) -> Cell<'_> {
        Cell::Null
    }

    fn present(&self) -> RelSet {
        RelSet::empty()
    }

    fn rows_of(&self, _sub: SubNo) -> &[Row] {
        &[]
    }
}

pub fn boxed<T: Drop>(alloc: Global, value: T) -> Result<Boxed<T>, Memory>
    ensures { IfOk result (λ b. b ≡ value) }
{
    match Boxed::new(alloc, value) {
        Ok(b) => Ok(b),
        Err(_) => Err(Memory),
    }
}

fn is_literal(expr: &Expr) -> bool
    ensures { result ≡ folding.is_literal expr.now }
{
    matches!(expr, Expr::Lit(..))
}

fn is_null(expr: &Expr) -> bool
    ensures { result ≡ folding.is_null expr.now }
{
    matches!(expr, Expr::Lit(Value::Null, _))
}

pub fn is_true(expr: &Expr) -> bool
    ensures { result ≡ folding.is_true expr.now }
{
    matches!(expr, Expr::Lit(Value::Bool(true), _))
}

pub fn is_false(expr: &Expr) -> bool
    ensures { result ≡ folding.is_false expr.now }
{
    matches!(expr, Expr::Lit(Value::Bool(false), _))
}

pub fn are_literals(exprs: &[Expr]) -> bool
    ensures { result ≡ list_all folding.is_literal exprs.now }
{
    for expr in exprs {
        if !is_literal(expr) {
            return false;
        }
    }
    true
}

fn are_literal_terms(terms: &[(bool, Expr)]) -> bool
    ensures { result ≡ list_all folding.is_literal (map term_part terms.now) }
{
    for (_, term) in terms {
        if !is_literal(term) {
            return false;
        }
    }
    true
}

fn are_literal_arms(arms: &[(Expr, Expr)]) -> bool
    ensures { result ≡ list_all folding.is_literal (arm_parts arms.now) }
{
    for (when, then) in arms {
        if !is_literal(when) || !is_literal(then) {
            return false;
        }
    }
    true
}

fn is_literal_or_none(expr: &Option<Boxed<Expr>>) -> bool
    ensures { result ≡ list_all folding.is_literal (option_part expr.now) }
{
    match expr {
        Some(expr) => is_literal(expr.get()),
        None => true,
    }
}

fn is_null_among(exprs: &[Expr]) -> bool
    ensures { result ≡ list_any folding.is_null exprs.now }
{
    for expr in exprs {
        if is_null(expr) {
            return true;
        }
    }
    false
}

fn is_null_among_terms(terms: &[(bool, Expr)]) -> bool
    ensures { result ≡ list_any folding.is_null (map term_part terms.now) }
{
    for (_, term) in terms {
        if is_null(term) {
            return true;
        }
    }
    false
}

/// Whether the operands of an operator are literals.
fn has_literals_alone(level: &Expr) -> bool
    ensures { result ≡ has_literals level.now }
{
    match level {
        Expr::Col { .. } | Expr::Lit(..) | Expr::Exists(..) => true,
        Expr::Place(operand, _)
        | Expr::Neg(operand)
        | Expr::Not(operand)
        | Expr::Test(_, operand)
        | Expr::InSub(_, operand, _) => is_literal(operand.get()),
        Expr::Sum(terms) => are_literal_terms(terms.as_slice()),
        Expr::Product(members)
        | Expr::Concat(members)
        | Expr::And(members)
        | Expr::Or(members)
        | Expr::Coalesce(members) => are_literals(members.as_slice()),
        Expr::Compare(_, left, right) => is_literal(left.get()) && is_literal(right.get()),
        Expr::Between(operand, low, high) => {
            is_literal(operand.get()) && is_literal(low.get()) && is_literal(high.get())
        }
        Expr::InList(operand, list) => is_literal(operand.get()) && are_literals(list.as_slice()),
        Expr::Case {
            operand,
            arms,
            otherwise,
        } => {
            is_literal_or_none(operand)
                && are_literal_arms(arms.as_slice())
                && is_literal_or_none(otherwise)
        }
    }
}

/// Whether an operator that is NULL where an operand is has such an operand.
fn has_null_operand(level: &Expr) -> bool
    requires { is_strict level.now ≡ true }
    ensures { result ≡ has_null level.now }
{
    match level {
        Expr::Neg(operand) => is_null(operand.get()),
        Expr::Sum(terms) => is_null_among_terms(terms.as_slice()),
        Expr::Product(members) | Expr::Concat(members) => is_null_among(members.as_slice()),
        Expr::Compare(_, left, right) => is_null(left.get()) || is_null(right.get()),
        _ => unreachable!(),
    }
}

fn type_in(expr: &Expr) -> Ty
    ensures { result ≡ type_of_literal expr.now }
{
    match expr {
        Expr::Lit(_, ty) => *ty,
        _ => Ty::Text,
    }
}

/// The type of an operator of literals.
fn type_of_operator(level: &Expr) -> Ty
    ensures { result ≡ kind_type (out-Expr level.now) }
{
    match level {
        Expr::Neg(_) | Expr::Sum(_) | Expr::Product(_) => Ty::Number,
        Expr::Concat(_) => Ty::Text,
        Expr::Coalesce(members) => match members.get(0) {
            Some(first) => type_in(first),
            None => Ty::Text,
        },
        Expr::Case { arms, .. } => match arms.get(0) {
            Some((_, then)) => type_in(then),
            None => Ty::Text,
        },
        _ => Ty::Boolean,
    }
}

/// The literal that an operator of literals becomes.
pub fn computed(alloc: Global, level: &Expr) -> Result<Boxed<Expr>, Memory>
    ensures { IfOk result (λ e. e ≡ literal_made level.now) }
{
    let value = eval_in_128_bits(alloc, level, &Nothing)?;
    let literal = boxed(alloc, Expr::Lit(value, type_of_operator(level)))?;
    Ok(literal)
}

/// An operator that is NULL where an operand is.
pub fn strict(alloc: Global, level: Boxed<Expr>) -> Result<Boxed<Expr>, Memory>
    requires { is_strict level ≡ true }
    ensures { IfOk result (λ e. e ≡ strict_made level) }
{
    if has_literals_alone(level.get()) {
        let literal = computed(alloc, level.get())?;
        return Ok(literal);
    }
    if has_null_operand(level.get()) {
        let null = boxed(alloc, Expr::Lit(Value::Null, type_of_operator(level.get())))?;
        return Ok(null);
    }
    Ok(level)
}

/// An operator that may have a value where an operand is NULL.
pub fn operator(alloc: Global, level: Boxed<Expr>) -> Result<Boxed<Expr>, Memory>
    ensures { IfOk result (λ e. e ≡ operator_made level) }
{
    if has_literals_alone(level.get()) {
        let literal = computed(alloc, level.get())?;
        return Ok(literal);
    }
    Ok(level)
}
