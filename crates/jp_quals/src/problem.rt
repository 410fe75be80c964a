#![tactic(auto, using(jp_special::proofs::BlockSize::few_items, crate::proofs::MadeLaws::made_of))]

ghost use Rattle.std.specs.Prelude.{◌≡◌, IfOk};
ghost use Rattle.jp_problem.specs.Made.{IsBlock, IsMade};
ghost use Rattle.jp_problem.specs.MinimumSets.{specials_of};
ghost use Rattle.jp_problem.specs.Problems.{AreItemsOf, problem_of};

use crate::clauses::clauses_of;
use jp_base::Memory;
use jp_problem::{Item, Problem, Special};
use jp_query::Query;
use jp_special::outline;
use sqlite_items::Items;
use std::alloc::Global;

/// The problem of a block, without classes: its items and its special joins as they are handed in, and each condition that
/// isn't in the ON list of a special join as a clause, with its region and the items that it needs (as PostgreSQL's
/// `distribute_qual_to_rels` in initsplan.c finds `required_relids`). The joins are those that `specials` gives.
pub fn distribute(
    alloc: Global,
    query: &Query,
    specials: Vec<Special>,
    items: Vec<Item>,
) -> Result<Problem, Memory>
    requires block { IsBlock query.now }
    requires specials { specials.items ≡ specials_of query.now }
    requires items { AreItemsOf query.now items.items }
    ensures is { IfOk result (λ problem. problem ≡ problem_of items.items query.now) }
    ensures made { IfOk result IsMade }
{
    let block = outline(alloc, query)?;
    let clauses = clauses_of(
        alloc,
        block.rels.as_slice(),
        specials.as_slice(),
        block.clauses.as_slice(),
    )?;
    Ok(Problem {
        items: Items::from_vec(items),
        joins: Items::from_vec(specials),
        clauses,
        classes: Items::new(alloc),
    })
}
