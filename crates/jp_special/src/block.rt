#![tactic(auto, using(crate::proofs::BlockSize::block_sizes))]

ghost use Rattle.std.specs.Prelude.{◌≡◌, IfOk};
ghost use Rattle.jp_problem.specs.Made.{IsBlock};
ghost use Rattle.jp_problem.specs.MinimumSets.{specials_of};

use crate::minimum::specials_in;
use crate::outlines::outline;
use jp_base::Memory;
use jp_problem::Special;
use jp_query::Query;
use std::alloc::Global;

/// The special joins of a block, by ascending number, each with the least sets that it needs to its left and right.
pub fn specials(alloc: Global, query: &Query) -> Result<Vec<Special>, Memory>
    requires { IsBlock query.now }
    ensures { IfOk result (λ joins. joins.items ≡ specials_of query.now) }
{
    let outline = outline(alloc, query)?;
    let joins = specials_in(alloc, &outline)?;
    Ok(joins)
}
