ghost use Rattle.std.specs.Prelude.{◌≡◌, ◌++◌, [], map, option_map, Ok};
ghost use Rattle.std.specs.List.{list_all};
ghost use Rattle.jp_query.specs.Parts.{option_part};
ghost use Rattle.jp_query.specs.Scopes.{greatest, arm_result};
ghost use Rattle.jp_query.specs.Typing.{arm_when};
ghost use Rattle.jp_resolution.specs.Answers.{Gives};
ghost use Rattle.jp_resolution.specs.Types as spec;

use crate::types::{boxed_as, can_be, expr_as, or_type, own_type, typed};
use jp_base::Ty;
use jp_query::Expr;
use jp_resolution::{ResolveError, TypedExpr};
use sqlite_items::{Boxed, Items};
use std::alloc::Global;

/// What stands behind WHEN and behind THEN.
pub type Arm = (TypedExpr, TypedExpr);

/// CASE. With an operand, what stands behind WHEN is of its type, without one it is a condition; the results are of one
/// type.
pub fn case_node(
    alloc: Global,
    at: u32,
    operand: Option<TypedExpr>,
    arms: Vec<Arm>,
    otherwise: Option<TypedExpr>,
) -> Result<TypedExpr, ResolveError>
    ensures { Gives (spec.case_node at (record { operand = operand; arms = arms.items; otherwise = otherwise })) result }
{
    let when = when_type(&operand, arms.as_slice());
    let ty = result_type(arms.as_slice(), &otherwise);
    if !are_compared(when, &operand, arms.as_slice())
        || !are_results(ty, arms.as_slice(), &otherwise)
    {
        return Err(ResolveError::TypeMismatch(at));
    }
    let bound = result_bound(arms.as_slice(), &otherwise);
    let operand = option_as(alloc, when, operand)?;
    let arms = arms_as(alloc, when, ty, arms)?;
    let otherwise = option_as(alloc, ty, otherwise)?;
    let expr = Expr::Case {
        operand,
        arms,
        otherwise,
    };
    let node = typed(alloc, ty, expr, bound)?;
    Ok(node)
}

/// The type that stands behind WHEN.
fn when_type(operand: &Option<TypedExpr>, arms: &[Arm]) -> Ty
    ensures { result ≡ spec.when_type operand.now (map arm_when arms.now) }
{
    match operand {
        Some(operand) => or_type(operand.ty, common_when(arms)),
        None => Ty::Boolean,
    }
}

/// The type of the first expression behind WHEN that is no NULL literal, else text.
fn common_when(arms: &[Arm]) -> Ty
    ensures { result ≡ spec.common_type (map arm_when arms.now) }
{
    'arms: for arm in arms {
        if let Some(ty) = arm.0.ty {
            return ty;
        }
    }
    Ty::Text
}

/// The type of the first result that is no NULL literal, else text.
fn result_type(arms: &[Arm], otherwise: &Option<TypedExpr>) -> Ty
    ensures { result ≡ spec.common_type (map arm_result arms.now ++ option_part otherwise.now) }
{
    'arms: for arm in arms {
        if let Some(ty) = arm.1.ty {
            return ty;
        }
    }
    match otherwise {
        Some(result) => own_type(result),
        None => Ty::Text,
    }
}

/// Whether the part can be of the type, where it is there.
fn option_can_be(needed: Ty, part: &Option<TypedExpr>) -> bool
    ensures { result ≡ list_all (spec.can_be needed) (option_part part.now) }
{
    match part {
        Some(part) => can_be(needed, part),
        None => true,
    }
}

/// Whether the operand and what stands behind WHEN can be of the type.
fn are_compared(needed: Ty, operand: &Option<TypedExpr>, arms: &[Arm]) -> bool
    ensures { result ≡ list_all (spec.can_be needed) (option_part operand.now ++ map arm_when arms.now) }
{
    if !option_can_be(needed, operand) {
        return false;
    }
    'arms: for arm in arms {
        if !can_be(needed, &arm.0) {
            return false;
        }
    }
    true
}

/// Whether the results can be of the type.
fn are_results(needed: Ty, arms: &[Arm], otherwise: &Option<TypedExpr>) -> bool
    ensures { result ≡ list_all (spec.can_be needed) (map arm_result arms.now ++ option_part otherwise.now) }
{
    'arms: for arm in arms {
        if !can_be(needed, &arm.1) {
            return false;
        }
    }
    option_can_be(needed, otherwise)
}

/// The greatest of the results' bounds.
fn result_bound(arms: &[Arm], otherwise: &Option<TypedExpr>) -> u128
    ensures { result ≡ greatest (map spec.bound_in (map arm_result arms.now ++ option_part otherwise.now)) }
{
    let mut most: u128 = 0;
    'arms: for arm in arms {
        most = most.max(arm.1.bound);
    }
    match otherwise {
        Some(result) => most.max(result.bound),
        None => most,
    }
}

/// A part's expression, where it is there.
fn option_as(
    alloc: Global,
    needed: Ty,
    part: Option<TypedExpr>,
) -> Result<Option<Boxed<Expr>>, ResolveError>
    ensures { Gives (Ok (option_map (spec.expr_as needed) part)) result }
{
    match part {
        Some(part) => {
            let expr = boxed_as(alloc, needed, part)?;
            Ok(Some(expr))
        }
        None => Ok(None),
    }
}

/// The arms' expressions.
fn arms_as(
    alloc: Global,
    when: Ty,
    then: Ty,
    arms: Vec<Arm>,
) -> Result<Items<(Expr, Expr)>, ResolveError>
    ensures { Gives (Ok (map (spec.arm_as when then) arms.items)) result }
{
    let mut exprs = Items::new(alloc);
    'arms: for arm in arms {
        let (condition, value) = arm;
        exprs.push((expr_as(when, condition), expr_as(then, value)))?;
    }
    Ok(exprs)
}
