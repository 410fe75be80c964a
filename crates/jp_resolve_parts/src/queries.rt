ghost use Rattle.std.specs.Prelude.{◌≡◌, Ok};
ghost use Rattle.jp_resolution.specs.Answers.{Gives};
ghost use Rattle.jp_resolution.specs.Resolving as spec;
ghost use Rattle.jp_resolve_parts.specs.Views.{type_of_column};

use crate::types::{boxed, boxed_as, can_be, truth};
use jp_base::{SubNo, Ty};
use jp_query::{Expr, Order, Query};
use jp_resolution::{ResolveError, Selection, TypedExpr};
use sqlite_items::Items;
use std::alloc::Global;

/// The query of a select.
pub fn query_of(selection: Selection, order: Items<Order>) -> Query
    ensures { result ≡ spec.query_of selection order }
{
    let Selection {
        entries: _,
        outputs,
        columns: _,
        distinct,
        tree,
        conds,
    } = selection;
    Query {
        columns: outputs,
        distinct,
        tree: tree.into_inner(),
        conds,
        order,
    }
}

/// EXISTS over a select.
pub fn exists_node(
    alloc: Global,
    sub: SubNo,
    selection: Selection,
) -> Result<TypedExpr, ResolveError>
    ensures { Gives (spec.exists_node (sub, selection)) result }
{
    let query = boxed(alloc, query_of(selection, Items::new(alloc)))?;
    let node = truth(alloc, Expr::Exists(sub, query))?;
    Ok(node)
}

/// IN over a select, which has one column, of one type with the operand.
pub fn in_select_node(
    alloc: Global,
    at: u32,
    sub: SubNo,
    operand: TypedExpr,
    selection: Selection,
) -> Result<TypedExpr, ResolveError>
    ensures { Gives (spec.in_select_node at (sub, (operand, selection))) result }
{
    let ty = the_type(at, &selection)?;
    if !can_be(ty, &operand) {
        return Err(ResolveError::TypeMismatch(at));
    }
    let operand = boxed_as(alloc, ty, operand)?;
    let query = boxed(alloc, query_of(selection, Items::new(alloc)))?;
    let node = truth(alloc, Expr::InSub(sub, operand, query))?;
    Ok(node)
}

/// The type of the only column.
fn the_type(at: u32, selection: &Selection) -> Result<Ty, ResolveError>
    ensures { result ≡ type_of_column (spec.the_column at selection.now.outputs) }
{
    match selection.outputs.as_slice() {
        [output] => Ok(output.ty),
        _ => Err(ResolveError::NotOneColumn(at)),
    }
}
