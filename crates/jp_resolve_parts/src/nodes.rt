ghost use Rattle.std.specs.Prelude.{◌≡◌, Ok};
ghost use Rattle.jp_resolution.specs.Answers.{Gives};
ghost use Rattle.jp_resolution.specs.Types as spec;

use crate::bounds::{fits, greatest_bound, product_of_bounds, sum_of_bounds};
use crate::types::{
    all_can_be, all_terms_can_be, boxed, boxed_as, can_be, common_type, exprs_as, or_type,
    own_type, terms_as, truth, typed,
};
use jp_ast::{CmpWord, IsWord};
use jp_base::{Txt, Ty, Value};
use jp_query::{CmpOp, Expr, IsTest};
use jp_resolution::{ResolveError, TypedExpr};
use std::alloc::Global;

/// A number; one past 2^127-1 is refused at its place.
pub fn number_literal(alloc: Global, at: u32, value: i128) -> Result<TypedExpr, ResolveError>
    ensures { Gives (spec.number_literal at value) result }
{
    let bound = value.unsigned_abs();
    if !fits(bound) {
        return Err(ResolveError::NumberTooWide(at));
    }
    let node = typed(
        alloc,
        Ty::Number,
        Expr::Lit(Value::Num(value), Ty::Number),
        bound,
    )?;
    Ok(node)
}

pub fn text_literal(alloc: Global, value: &Txt) -> Result<TypedExpr, ResolveError>
    ensures { Gives (spec.text_literal value.now) result }
{
    let value = value.copy(alloc)?;
    let node = typed(alloc, Ty::Text, Expr::Lit(Value::Text(value), Ty::Text), 0)?;
    Ok(node)
}

pub fn bool_literal(alloc: Global, value: bool) -> Result<TypedExpr, ResolveError>
    ensures { Gives (spec.truth_literal value) result }
{
    let node = truth(alloc, Expr::Lit(Value::Bool(value), Ty::Boolean))?;
    Ok(node)
}

/// NULL, whose type isn't settled.
pub fn null_literal(alloc: Global) -> Result<TypedExpr, ResolveError>
    ensures { Gives spec.null_literal result }
{
    let expr = boxed(alloc, Expr::Lit(Value::Null, Ty::Text))?;
    Ok(TypedExpr {
        ty: None,
        expr,
        bound: 0,
    })
}

/// A number with a sign; `+` leaves no node.
pub fn sign_node(
    alloc: Global,
    at: u32,
    minus: bool,
    operand: TypedExpr,
) -> Result<TypedExpr, ResolveError>
    ensures { Gives (spec.sign_node at minus operand) result }
{
    if !can_be(Ty::Number, &operand) {
        return Err(ResolveError::TypeMismatch(at));
    }
    let bound = operand.bound;
    let expr = boxed_as(alloc, Ty::Number, operand)?;
    if minus {
        let node = typed(alloc, Ty::Number, Expr::Neg(expr), bound)?;
        Ok(node)
    } else {
        Ok(TypedExpr {
            ty: Some(Ty::Number),
            expr,
            bound,
        })
    }
}

/// Numbers added and subtracted.
pub fn sum_node(
    alloc: Global,
    at: u32,
    terms: Vec<(bool, TypedExpr)>,
) -> Result<TypedExpr, ResolveError>
    ensures { Gives (spec.sum_node at terms.items) result }
{
    if !all_terms_can_be(Ty::Number, terms.as_slice()) {
        return Err(ResolveError::TypeMismatch(at));
    }
    let bound = sum_of_bounds(terms.as_slice());
    if !fits(bound) {
        return Err(ResolveError::NumberTooWide(at));
    }
    let terms = terms_as(alloc, Ty::Number, terms)?;
    let node = typed(alloc, Ty::Number, Expr::Sum(terms), bound)?;
    Ok(node)
}

/// Numbers multiplied.
pub fn product_node(
    alloc: Global,
    at: u32,
    factors: Vec<TypedExpr>,
) -> Result<TypedExpr, ResolveError>
    ensures { Gives (spec.product_node at factors.items) result }
{
    if !all_can_be(Ty::Number, factors.as_slice()) {
        return Err(ResolveError::TypeMismatch(at));
    }
    let bound = product_of_bounds(factors.as_slice());
    if !fits(bound) {
        return Err(ResolveError::NumberTooWide(at));
    }
    let factors = exprs_as(alloc, Ty::Number, factors)?;
    let node = typed(alloc, Ty::Number, Expr::Product(factors), bound)?;
    Ok(node)
}

/// Texts joined.
pub fn concat_node(alloc: Global, at: u32, parts: Vec<TypedExpr>) -> Result<TypedExpr, ResolveError>
    ensures { Gives (spec.concat_node at parts.items) result }
{
    if !all_can_be(Ty::Text, parts.as_slice()) {
        return Err(ResolveError::TypeMismatch(at));
    }
    let parts = exprs_as(alloc, Ty::Text, parts)?;
    let node = typed(alloc, Ty::Text, Expr::Concat(parts), 0)?;
    Ok(node)
}

/// The operator that a word stands for.
fn op_of(op: CmpWord) -> CmpOp
    ensures { result ≡ spec.op_of op }
{
    match op {
        CmpWord::Eq => CmpOp::Eq,
        CmpWord::Ne => CmpOp::Ne,
        CmpWord::Lt => CmpOp::Lt,
        CmpWord::Le => CmpOp::Le,
        CmpWord::Gt => CmpOp::Gt,
        CmpWord::Ge => CmpOp::Ge,
    }
}

/// A comparison of two operands of one type.
pub fn compare_node(
    alloc: Global,
    at: u32,
    op: CmpWord,
    left: TypedExpr,
    right: TypedExpr,
) -> Result<TypedExpr, ResolveError>
    ensures { Gives (spec.compare_node at op (left, right)) result }
{
    let ty = or_type(left.ty, own_type(&right));
    if !can_be(ty, &left) || !can_be(ty, &right) {
        return Err(ResolveError::TypeMismatch(at));
    }
    let left = boxed_as(alloc, ty, left)?;
    let right = boxed_as(alloc, ty, right)?;
    let node = truth(alloc, Expr::Compare(op_of(op), left, right))?;
    Ok(node)
}

/// BETWEEN over three operands of one type.
pub fn between_node(
    alloc: Global,
    at: u32,
    operand: TypedExpr,
    low: TypedExpr,
    high: TypedExpr,
) -> Result<TypedExpr, ResolveError>
    ensures { Gives (spec.between_node at (operand, (low, high))) result }
{
    let ty = or_type(operand.ty, or_type(low.ty, own_type(&high)));
    if !can_be(ty, &operand) || !can_be(ty, &low) || !can_be(ty, &high) {
        return Err(ResolveError::TypeMismatch(at));
    }
    let operand = boxed_as(alloc, ty, operand)?;
    let low = boxed_as(alloc, ty, low)?;
    let high = boxed_as(alloc, ty, high)?;
    let node = truth(alloc, Expr::Between(operand, low, high))?;
    Ok(node)
}

/// IN over a list, all of one type with the operand.
pub fn in_list_node(
    alloc: Global,
    at: u32,
    operand: TypedExpr,
    list: Vec<TypedExpr>,
) -> Result<TypedExpr, ResolveError>
    ensures { Gives (spec.in_list_node at (operand, list.items)) result }
{
    let ty = or_type(operand.ty, common_type(list.as_slice()));
    if !can_be(ty, &operand) || !all_can_be(ty, list.as_slice()) {
        return Err(ResolveError::TypeMismatch(at));
    }
    let operand = boxed_as(alloc, ty, operand)?;
    let list = exprs_as(alloc, ty, list)?;
    let node = truth(alloc, Expr::InList(operand, list))?;
    Ok(node)
}

pub fn and_node(alloc: Global, at: u32, members: Vec<TypedExpr>) -> Result<TypedExpr, ResolveError>
    ensures { Gives (spec.and_node at members.items) result }
{
    if !all_can_be(Ty::Boolean, members.as_slice()) {
        return Err(ResolveError::TypeMismatch(at));
    }
    let members = exprs_as(alloc, Ty::Boolean, members)?;
    let node = truth(alloc, Expr::And(members))?;
    Ok(node)
}

pub fn or_node(alloc: Global, at: u32, members: Vec<TypedExpr>) -> Result<TypedExpr, ResolveError>
    ensures { Gives (spec.or_node at members.items) result }
{
    if !all_can_be(Ty::Boolean, members.as_slice()) {
        return Err(ResolveError::TypeMismatch(at));
    }
    let members = exprs_as(alloc, Ty::Boolean, members)?;
    let node = truth(alloc, Expr::Or(members))?;
    Ok(node)
}

pub fn not_node(alloc: Global, at: u32, operand: TypedExpr) -> Result<TypedExpr, ResolveError>
    ensures { Gives (spec.not_node at operand) result }
{
    if !can_be(Ty::Boolean, &operand) {
        return Err(ResolveError::TypeMismatch(at));
    }
    let operand = boxed_as(alloc, Ty::Boolean, operand)?;
    let node = truth(alloc, Expr::Not(operand))?;
    Ok(node)
}

/// The test that IS and a word stand for.
fn test_of(word: IsWord, negated: bool) -> IsTest
    ensures { result ≡ spec.test_of word negated }
{
    match word {
        IsWord::Null if negated => IsTest::NotNull,
        IsWord::Null => IsTest::Null,
        IsWord::True if negated => IsTest::NotTrue,
        IsWord::True => IsTest::True,
        IsWord::False if negated => IsTest::NotFalse,
        IsWord::False => IsTest::False,
        IsWord::Unknown if negated => IsTest::NotUnknown,
        IsWord::Unknown => IsTest::Unknown,
    }
}

/// A test by IS. IS NULL takes every type, the other tests booleans.
pub fn is_node(
    alloc: Global,
    at: u32,
    negated: bool,
    word: IsWord,
    operand: TypedExpr,
) -> Result<TypedExpr, ResolveError>
    ensures { Gives (spec.is_node at negated word operand) result }
{
    if word == IsWord::Null {
        let ty = own_type(&operand);
        let operand = boxed_as(alloc, ty, operand)?;
        let node = truth(alloc, Expr::Test(test_of(word, negated), operand))?;
        return Ok(node);
    }
    if !can_be(Ty::Boolean, &operand) {
        return Err(ResolveError::TypeMismatch(at));
    }
    let operand = boxed_as(alloc, Ty::Boolean, operand)?;
    let node = truth(alloc, Expr::Test(test_of(word, negated), operand))?;
    Ok(node)
}

/// COALESCE over a list of one type.
pub fn coalesce_node(
    alloc: Global,
    at: u32,
    list: Vec<TypedExpr>,
) -> Result<TypedExpr, ResolveError>
    ensures { Gives (spec.coalesce_node at list.items) result }
{
    let ty = common_type(list.as_slice());
    if !all_can_be(ty, list.as_slice()) {
        return Err(ResolveError::TypeMismatch(at));
    }
    let bound = greatest_bound(list.as_slice());
    let list = exprs_as(alloc, ty, list)?;
    let node = typed(alloc, ty, Expr::Coalesce(list), bound)?;
    Ok(node)
}
