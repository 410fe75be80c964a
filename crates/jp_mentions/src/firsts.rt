#![tactic(auto, using(crate::proofs::FirstLaws::firsts), unfolding(crate::specs::Walk::tables_of_query))]

ghost use Rattle.std.specs.Prelude.{◌≡◌, IfOk, OnOk};
ghost use Rattle.jp_query.specs.Mentions.{first_of_each, tables_mentioned};
ghost use Rattle.jp_mentions.specs.Walk.{with_new};

use crate::walk::push_query;
use jp_base::Memory;
use jp_query::Query;
use std::alloc::Global;

/// The tables that a query names at every depth, in its outputs and sublinks too, each once and in the order in which its text
/// first names them, as places of the catalogue. The only error is want of memory.
pub fn mentioned_tables(alloc: Global, query: &Query) -> Result<Vec<u32>, Memory>
    ensures { IfOk result (λ v. v.items ≡ tables_mentioned query.now) }
{
    let mut tables = Vec::new(alloc);
    push_query(query, &mut tables)?;
    let firsts = firsts_of(alloc, tables.as_slice())?;
    Ok(firsts)
}

/// Each number once, where it first stands.
fn firsts_of(alloc: Global, numbers: &[u32]) -> Result<Vec<u32>, Memory>
    ensures { IfOk result (λ v. v.items ≡ first_of_each numbers.now) }
{
    let mut firsts = Vec::new(alloc);
    for number in numbers {
        push_new(&mut firsts, *number)?;
    }
    Ok(firsts)
}

/// Puts a number at the end, unless it is there.
fn push_new(numbers: &mut Vec<u32>, number: u32) -> Result<(), Memory>
    ensures { OnOk result (numbers.new.items ≡ with_new numbers.old.items number) }
{
    if !numbers.contains(&number) {
        numbers.push(number)?;
    }
    Ok(())
}
