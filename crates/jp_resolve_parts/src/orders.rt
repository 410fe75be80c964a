ghost use Rattle.std.specs.Prelude.{◌≡◌, Ok};
ghost use Rattle.std.specs.List.{list_all, list_any};
ghost use Rattle.jp_resolution.specs.Answers.{Gives};
ghost use Rattle.jp_resolution.specs.Ordering as spec;
ghost use Rattle.jp_resolve_parts.specs.Orders.{outputs_named, named_answer};

use crate::types::own_expr;
use jp_query::{Expr, Output, is_same};
use jp_resolution::{ResolveError, TypedExpr};
use std::alloc::Global;

/// The expression of the output at a position, from 1.
pub fn position_expr(
    alloc: Global,
    at: u32,
    outputs: &[Output],
    position: i128,
) -> Result<Expr, ResolveError>
    ensures { Gives (spec.position at (spec.output_at outputs.now position)) result }
{
    let Ok(position) = usize::try_from(position) else {
        return Err(ResolveError::BadPosition(at));
    };
    if position == 0 {
        return Err(ResolveError::BadPosition(at));
    }
    match outputs.get(position - 1) {
        Some(output) => {
            let expr = output.expr.copy(alloc)?;
            Ok(expr)
        }
        None => Err(ResolveError::BadPosition(at)),
    }
}

/// The expression of the output of a name, if there is one. Several outputs of the name have equal expressions, else it is
/// ambiguous.
pub fn named_expr(
    alloc: Global,
    at: u32,
    outputs: &[Output],
    name: &str,
) -> Result<Option<Expr>, ResolveError>
    ensures { Gives (named_answer at (outputs_named name.now outputs.now)) result }
{
    for place in 0..outputs.len() {
        if name == outputs[place].name.as_str() {
            let first = &outputs[place].expr;
            if !are_same(&outputs[place + 1..], name, first) {
                return Err(ResolveError::Ambiguous(at));
            }
            let expr = first.copy(alloc)?;
            return Ok(Some(expr));
        }
    }
    Ok(None)
}

/// Whether the outputs of a name have this expression.
fn are_same(outputs: &[Output], name: &str, expr: &Expr) -> bool
    ensures { result ≡ list_all (spec.has_expr expr.now) (outputs_named name.now outputs.now) }
{
    'outputs: for output in outputs {
        if name == output.name.as_str() && !is_same(expr, &output.expr) {
            return false;
        }
    }
    true
}

/// The expression of an item that is no output. With DISTINCT it must equal a selected one.
pub fn selected_expr(
    at: u32,
    distinct: bool,
    outputs: &[Output],
    operand: TypedExpr,
) -> Result<Expr, ResolveError>
    ensures { result ≡ spec.selected at distinct outputs.now operand }
{
    let expr = own_expr(operand);
    if distinct && !has_expr(outputs, &expr) {
        return Err(ResolveError::OrderNotSelected(at));
    }
    Ok(expr)
}

/// Whether the expression of an output equals this one.
fn has_expr(outputs: &[Output], expr: &Expr) -> bool
    ensures { result ≡ list_any (spec.has_expr expr.now) outputs.now }
{
    'outputs: for output in outputs {
        if is_same(expr, &output.expr) {
            return true;
        }
    }
    false
}
