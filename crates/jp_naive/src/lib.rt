//! The slow evaluator: the rows of a query, computed as its meaning says. It is the definition's program, for small
//! tables and for comparison.
#![tactic(auto)]

ghost use Rattle.std.specs.Prelude.{◌≡◌, IfOk};
ghost use Rattle.jp_query.specs.Freshness.{IsFresh};
ghost use Rattle.jp_query.specs.Meaning.{meaning, no_outer_rows};
ghost use Rattle.jp_query.specs.Tables.{rows_of_tables, AllLoaded, IsTypedOver};

mod env;
mod frames;
mod joins;
mod leaves;
mod lines;
mod numbers;
mod outer;
mod rows;
mod sublinks;

use jp_base::{Memory, Row};
use jp_query::Query;
use jp_table::Tables;
use rows::rows_of;
use std::alloc::Global;

/// The rows of a query over the tables of its catalogue, in the order that its meaning gives them. The only error is want
/// of memory.
pub fn meaning_of(alloc: Global, query: &Query, tables: &Tables) -> Result<Vec<Row>, Memory>
    requires typed { IsTypedOver tables.now.list query.now }
    requires fresh { IsFresh query.now }
    requires loaded { AllLoaded tables.now.list query.now }
    ensures { IfOk result (λ v. v.items ≡ meaning (rows_of_tables tables.now.list) query.now no_outer_rows) }
{
    let rows = rows_of(alloc, query, &[], tables)?;
    Ok(rows)
}
