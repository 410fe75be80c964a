//! Placeholders: an expression whose value counts as NULL where the relations that it stands for are absent.
#![tactic(auto)]

ghost use Rattle.std.specs.Prelude.{◌≡◌, ◌↔◌, ℕ, List, IsTrue, IfOk, not, if◌then◌else◌};
ghost use Rattle.jp_base.specs.declared.values.Value.TheVariants as value;
ghost use Rattle.jp_base.specs.Sets.{Meets};
ghost use Rattle.jp_query.specs.Meaning.{Row, Env, any_present, value_of, value_given};
ghost use Rattle.jp_placeholder.specs.Present.{IsPresentSet};

#[cfg(test)]
mod tests;

use jp_base::{Memory, RelSet};
use jp_query::Expr;
use sqlite_items::Boxed;
use std::alloc::Global;

/// Whether a placeholder for the relations `rels` is NULL for want of them, where those of `present` have rows: no
/// member of `rels` is present. Else it has its expression's value, which may be NULL too.
pub fn value_is_null(rels: RelSet, present: RelSet) -> bool
    ensures members { IsTrue result ↔ ¬ Meets rels present }
    ensures placeholder { (env : Env) → IsPresentSet present env → result ≡ not (any_present rels env) }
{
    !rels.meets(present)
}

/// The placeholder of `expr` for the relations `rels`, which has that expression inside, not a copy.
pub fn wrap(alloc: Global, expr: Expr, rels: RelSet) -> Result<Expr, Memory>
    ensures node { IfOk result (λ placeholder. placeholder ≡ Expr.Place expr rels) }
    // where none of the relations is present it is NULL, elsewhere the expression's value
    ensures in_place { (tables : ℕ → List Row) (env : Env) → IfOk result (λ placeholder.
        value_of tables placeholder env ≡ (if any_present rels env then value_of tables expr env else value.Null)) }
    ensures given { (rows : ℕ → List Row) (env : Env) → IfOk result (λ placeholder.
        value_given rows placeholder env ≡ (if any_present rels env then value_given rows expr env else value.Null)) }
{
    let inner = Boxed::new(alloc, expr)?;
    Ok(Expr::Place(inner, rels))
}
