//! Folding: literals are computed, AND and OR are made shorter, and a Right join becomes a Left join with its sides
//! exchanged.
#![tactic(auto)]

ghost use Rattle.std.specs.Prelude.{◌≡◌, IfOk};
ghost use Rattle.jp_fold.specs.Fold.{CanFold};
ghost use Rattle.jp_folding.specs.Folding.{folded};

mod connectives;
mod folding;
mod literals;
#[cfg(test)]
mod tests;

use folding::fold_query;
use jp_base::Memory;
use jp_query::Query;
use std::alloc::Global;

/// The query folded, at every depth. What is folded stays typed, has the rows that it had and no Right join, as the laws
/// beside its definition say. It takes linear time.
pub fn fold(alloc: Global, query: Query) -> Result<Query, Memory>
    requires { CanFold query }
    ensures { IfOk result (λ q. q ≡ folded query) }
{
    let folded = fold_query(alloc, &query)?;
    Ok(folded.into_inner())
}
