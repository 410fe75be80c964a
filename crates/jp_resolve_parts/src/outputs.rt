#![tactic(auto, using(crate::proofs::OutputLaws::output_laws))]

ghost use Rattle.std.specs.Prelude.{◌≡◌, [], ◌∷◌, map, Ok, OnOk};
ghost use Rattle.jp_resolution.specs.Answers.{Gives};
ghost use Rattle.jp_resolution.specs.Names.{entry_columns, columns_of};
ghost use Rattle.jp_resolution.specs.Resolving.{selected, column_output, all_columns};
ghost use Rattle.jp_resolution.specs.Types.{own_type, own_expr};
ghost use Rattle.jp_resolve_parts.specs.Outs.{with_outputs, outputs_behind, after_new};
ghost use Rattle.jp_resolve_parts.specs.Views.{shown};

use crate::lookups::{LentColumn, column_expr};
use crate::types::{boxed_as, own_type};
use jp_base::{Txt, Ty};
use jp_query::{Expr, Output};
use jp_resolution::{Column, Entry, ResolveError, TypedExpr};
use sqlite_items::{Boxed, Items};
use std::alloc::Global;

/// The outputs of a select, and the same as columns of an entry.
#[derive(Drop)]
pub struct Outputs {
    pub list: Items<Output>,
    pub columns: Items<Column>,
}

/// No output.
pub fn new_outputs(alloc: Global) -> Outputs
    ensures { result ≡ record { list = []; columns = [] } }
{
    Outputs {
        list: Items::new(alloc),
        columns: Items::new(alloc),
    }
}

/// One more output.
fn push_output(
    alloc: Global,
    outputs: &mut Outputs,
    name: Txt,
    ty: Ty,
    expr: Boxed<Expr>,
    bound: u128,
) -> Result<(), ResolveError>
    ensures memory { Gives (Ok record {}) result }
    ensures outputs { OnOk result (outputs.new ≡ with_outputs outputs.old (selected name ty expr bound ∷ [])) }
{
    let copy = name.copy(alloc)?;
    outputs.columns.push(Column {
        name: copy,
        ty,
        bound,
    })?;
    outputs.list.push(Output {
        name,
        ty,
        expr: expr.into_inner(),
    })?;
    Ok(())
}

/// One more output, of which no type is needed.
pub fn push_typed(
    alloc: Global,
    outputs: &mut Outputs,
    name: Txt,
    operand: TypedExpr,
) -> Result<(), ResolveError>
    ensures memory { Gives (Ok record {}) result }
    ensures outputs { OnOk result (outputs.new ≡ with_outputs outputs.old (selected name (own_type operand) (own_expr operand) operand.bound ∷ [])) }
{
    let ty = own_type(&operand);
    let bound = operand.bound;
    let expr = boxed_as(alloc, ty, operand)?;
    push_output(alloc, outputs, name, ty, expr, bound)?;
    Ok(())
}

/// One more output, a column under its own name.
fn push_column(
    alloc: Global,
    outputs: &mut Outputs,
    column: LentColumn<'_>,
) -> Result<(), ResolveError>
    ensures memory { Gives (Ok record {}) result }
    ensures outputs { OnOk result (outputs.new ≡ with_outputs outputs.old (column_output (shown column.entry) ∷ [])) }
{
    let name = column.column.name.copy(alloc)?;
    let operand = column_expr(alloc, column)?;
    push_output(
        alloc,
        outputs,
        name,
        column.column.ty,
        operand.expr,
        column.column.bound,
    )?;
    Ok(())
}

/// All columns of an entry.
pub fn push_entry(alloc: Global, outputs: &mut Outputs, entry: &Entry) -> Result<(), ResolveError>
    ensures memory { Gives (Ok record {}) result }
    ensures outputs { OnOk result (outputs.new ≡ with_outputs outputs.old (map column_output (entry_columns entry.now))) }
{
    let relation = entry.relation;
    let mut place: usize = 0;
    'columns: for column in entry.columns.as_slice() {
        let column = LentColumn {
            relation,
            place,
            column,
        };
        push_column(alloc, outputs, column)?;
        place += 1;
    }
    Ok(())
}

/// All columns of the entries in order.
fn push_all(alloc: Global, outputs: &mut Outputs, entries: &[Entry]) -> Result<(), ResolveError>
    ensures memory { Gives (Ok record {}) result }
    ensures outputs { OnOk result (outputs.new ≡ with_outputs outputs.old (map column_output (columns_of entries.now))) }
{
    'entries: for entry in entries {
        push_entry(alloc, outputs, entry)?;
    }
    Ok(())
}

/// What `*` stands for: all columns of the innermost level.
pub fn push_level(
    alloc: Global,
    outputs: &mut Outputs,
    levels: &[Items<Entry>],
) -> Result<(), ResolveError>
    ensures { Gives (outputs_behind outputs.old (all_columns levels.now)) (after_new result outputs.new) }
{
    match levels.first() {
        Some(level) => {
            push_all(alloc, outputs, level.as_slice())?;
            Ok(())
        }
        None => Ok(()),
    }
}
