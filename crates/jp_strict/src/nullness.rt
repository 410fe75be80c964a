#![tactic(auto, using(crate::proofs::ForcedLaws::equations))]

ghost use Rattle.std.specs.Prelude.{◌≡◌, ◌++◌, ◌<◌, ◌↔◌, ℕ, [], ◌∷◌, IfOk, OnOk};
ghost use Rattle.std.specs.List.{flat_map};
ghost use Rattle.jp_base.specs.Sets.{Has};
ghost use Rattle.jp_query.specs.Nullness.{Gone, surely_of, rejects, nonnull_items, forced_null, forced_by, forcing};

use crate::absence::{Absence, both, common, nothing, relation};
use crate::walk::surely;
use jp_base::{Memory, RelNo, RelSet};
use jp_query::{Expr, IsTest};
use std::alloc::Global;

/// Whether an expression is surely NULL where these relations are null-extended.
pub fn is_null(expr: &Expr, gone: RelSet) -> bool
    ensures { result ≡ (surely_of (Gone.relations gone) expr.now).null }
{
    let tests = surely(expr, &Absence::Relations(gone));
    tests.null.has(0)
}

/// Whether a condition is surely not true where these relations are null-extended: it rejects their nulls.
pub fn rejects_null(expr: &Expr, gone: RelSet) -> bool
    ensures { result ≡ rejects (Gone.relations gone) (expr.now ∷ []) }
{
    let tests = surely(expr, &Absence::Relations(gone));
    tests.not_true.has(0)
}

/// Whether a condition is surely not true where this column is NULL: it rejects the column's null.
pub fn rejects_column(expr: &Expr, rel: RelNo, col: u32) -> bool
    ensures { result ≡ rejects (Gone.column rel col) (expr.now ∷ []) }
{
    let tests = surely(expr, &Absence::Column(rel, col));
    tests.not_true.has(0)
}

/// The relations whose nulls, each taken alone, a condition rejects; all numbers below 64 where it is surely never true.
pub fn nonnull_items(expr: &Expr) -> RelSet
    ensures { result ≡ nonnull_items (expr.now ∷ []) }
{
    let all = all_relations();
    let tests = surely(expr, &Absence::Each(all));
    common(all, tests.not_true)
}

/// The set of all numbers below 64.
fn all_relations() -> RelSet
    ensures { (i : ℕ) → Has result i ↔ (i < 64) }
{
    let mut all = nothing();
    for rel in 0..64 {
        all = both(all, relation(rel));
    }
    all
}

/// The columns that a condition forces to be NULL: those that it, or a member of an AND in it, tests by IS NULL or
/// IS UNKNOWN, as relation and column, in their order.
pub fn forced_null(alloc: Global, expr: &Expr) -> Result<Vec<(RelNo, u32)>, Memory>
    ensures { IfOk result (λ v. v.items ≡ forced_null (expr.now ∷ [])) }
{
    let mut columns = Vec::new(alloc);
    push_forced(expr, &mut columns)?;
    Ok(columns)
}

#[cycle(forced)]
fn push_forced(expr: &Expr, columns: &mut Vec<(RelNo, u32)>) -> Result<(), Memory>
    ensures { OnOk result (columns.new.items ≡ columns.old.items ++ forced_by expr.now) }
{
    match expr {
        Expr::Test(IsTest::Null, operand) => push_column(operand.get(), columns)?,
        Expr::Test(IsTest::Unknown, operand) => push_column(operand.get(), columns)?,
        Expr::And(members) => push_forced_in(members.as_slice(), columns)?,
        _ => {}
    }
    Ok(())
}

#[cycle(forced)]
fn push_forced_in(members: &[Expr], columns: &mut Vec<(RelNo, u32)>) -> Result<(), Memory>
    ensures { OnOk result (columns.new.items ≡ columns.old.items ++ flat_map forced_by members.now) }
{
    for member in members {
        push_forced(member, columns)?;
    }
    Ok(())
}

/// The column that an expression is, if it is one.
fn push_column(expr: &Expr, columns: &mut Vec<(RelNo, u32)>) -> Result<(), Memory>
    ensures { OnOk result (columns.new.items ≡ columns.old.items ++ (forcing expr.now).itself) }
{
    if let Expr::Col { rel, col, .. } = expr {
        columns.push((*rel, *col))?;
    }
    Ok(())
}
