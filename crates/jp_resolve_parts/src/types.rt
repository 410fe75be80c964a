ghost use Rattle.std.specs.Prelude.{◌≡◌, ◌++◌, [], ◌∷◌, map, Ok};
ghost use Rattle.std.specs.List.{list_all};
ghost use Rattle.jp_query.specs.Parts.{term_part};
ghost use Rattle.jp_resolution.specs.Answers.{Gives};
ghost use Rattle.jp_resolution.specs.Types as spec;

use jp_base::{Ty, Value};
use jp_query::Expr;
use jp_resolution::{ResolveError, TypedExpr};
use sqlite_items::{Boxed, Items};
use std::alloc::Global;

/// `Boxed::new`, where a refusal is want of memory.
pub fn boxed<T: Drop>(alloc: Global, value: T) -> Result<Boxed<T>, ResolveError>
    ensures { Gives (Ok value) result }
{
    let boxed = Boxed::new(alloc, value)?;
    Ok(boxed)
}

/// An expression of a type, with the greatest magnitude of its number.
pub fn typed(alloc: Global, ty: Ty, expr: Expr, bound: u128) -> Result<TypedExpr, ResolveError>
    ensures { Gives (Ok (spec.typed ty expr bound)) result }
{
    let expr = boxed(alloc, expr)?;
    Ok(TypedExpr {
        ty: Some(ty),
        expr,
        bound,
    })
}

/// A boolean expression.
pub fn truth(alloc: Global, expr: Expr) -> Result<TypedExpr, ResolveError>
    ensures { Gives (Ok (spec.truth expr)) result }
{
    let node = typed(alloc, Ty::Boolean, expr, 0)?;
    Ok(node)
}

/// The first type, else the second.
pub fn or_type(ty: Option<Ty>, other: Ty) -> Ty
    ensures { result ≡ spec.or_type ty other }
{
    match ty {
        Some(ty) => ty,
        None => other,
    }
}

/// Whether an operand can be of the type: it is, or is a NULL literal.
pub fn can_be(needed: Ty, operand: &TypedExpr) -> bool
    ensures { result ≡ spec.can_be needed operand.now }
{
    match operand.ty {
        Some(ty) => needed == ty,
        None => true,
    }
}

/// Whether each operand can.
pub fn all_can_be(needed: Ty, operands: &[TypedExpr]) -> bool
    ensures { result ≡ list_all (spec.can_be needed) operands.now }
{
    'operands: for operand in operands {
        if !can_be(needed, operand) {
            return false;
        }
    }
    true
}

/// Whether each term can.
pub fn all_terms_can_be(needed: Ty, terms: &[(bool, TypedExpr)]) -> bool
    ensures { result ≡ list_all (spec.can_be needed) (map term_part terms.now) }
{
    'terms: for term in terms {
        if !can_be(needed, &term.1) {
            return false;
        }
    }
    true
}

/// The type of the first operand that is no NULL literal, else text.
pub fn common_type(operands: &[TypedExpr]) -> Ty
    ensures { result ≡ spec.common_type operands.now }
{
    'operands: for operand in operands {
        if let Some(ty) = operand.ty {
            return ty;
        }
    }
    Ty::Text
}

/// The type of an operand of which nothing is needed: a NULL literal is a text.
pub fn own_type(operand: &TypedExpr) -> Ty
    ensures { result ≡ spec.own_type operand.now }
{
    or_type(operand.ty, Ty::Text)
}

/// The operand's expression; a NULL literal takes the type.
pub fn expr_as(needed: Ty, operand: TypedExpr) -> Expr
    ensures { result ≡ spec.expr_as needed operand }
{
    match operand.ty {
        Some(_) => operand.expr.into_inner(),
        None => Expr::Lit(Value::Null, needed),
    }
}

/// The operand's expression where nothing is needed.
pub fn own_expr(operand: TypedExpr) -> Expr
    ensures { result ≡ spec.own_expr operand }
{
    let ty = own_type(&operand);
    expr_as(ty, operand)
}

/// The operand's expression in a box; a NULL literal takes the type.
pub fn boxed_as(alloc: Global, needed: Ty, operand: TypedExpr) -> Result<Boxed<Expr>, ResolveError>
    ensures { Gives (Ok (spec.expr_as needed operand)) result }
{
    match operand.ty {
        Some(_) => Ok(operand.expr),
        None => {
            let null = boxed(alloc, Expr::Lit(Value::Null, needed))?;
            Ok(null)
        }
    }
}

/// The operands' expressions.
pub fn exprs_as(
    alloc: Global,
    needed: Ty,
    operands: Vec<TypedExpr>,
) -> Result<Items<Expr>, ResolveError>
    ensures { Gives (Ok (map (spec.expr_as needed) operands.items)) result }
{
    let mut exprs = Items::new(alloc);
    'operands: for operand in operands {
        exprs.push(expr_as(needed, operand))?;
    }
    Ok(exprs)
}

/// The terms' expressions, each with whether it is subtracted.
pub fn terms_as(
    alloc: Global,
    needed: Ty,
    terms: Vec<(bool, TypedExpr)>,
) -> Result<Items<(bool, Expr)>, ResolveError>
    ensures { Gives (Ok (map (spec.term_as needed) terms.items)) result }
{
    let mut exprs = Items::new(alloc);
    'terms: for term in terms {
        let (minus, operand) = term;
        exprs.push((minus, expr_as(needed, operand)))?;
    }
    Ok(exprs)
}
