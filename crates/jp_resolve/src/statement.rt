#![tactic(auto, using(crate::proofs::TopLaws::tops))]

ghost use Rattle.std.specs.Prelude.{◌≡◌, [], true, IfOk};
ghost use Rattle.jp_statements.specs.Whole.{is_whole};
ghost use Rattle.jp_query.specs.Conditions.{IsBounded, IsTyped};
ghost use Rattle.jp_query.specs.Freshness.{IsFresh};
ghost use Rattle.jp_resolution.specs.Answers.{Gives};
ghost use Rattle.jp_resolution.specs.Resolving.{Resolves, counted, ordered};
ghost use Rattle.jp_resolution.specs.Schemas.{schema_of};
ghost use Rattle.jp_resolved.specs.Sorted.{SortsBySelected};

use crate::counting::Resolver;
use jp_ast::{OrderAst, Stmt};
use jp_catalog::Catalog;
use jp_query::Query;
use jp_resolution::{Counts, ResolveError, Selection};
use jp_resolve_parts::{both, inner_levels, no_counts, query_of};
use sqlite_items::Items;
use std::alloc::Global;

/// So many entries may stand in the FROM lists of a statement, at every depth.
const ENTRY_LIMIT: u32 = 12;

/// The query that a statement stands for over a catalogue, or its first refusal. A statement that tokens derive is whole;
/// then the query is typed and bounded over the schema of the catalogue, and fresh, and under DISTINCT it sorts by what it
/// selects.
#[tactic(auto, using(crate::proofs::TopLaws::tops), unfolding(jp_resolution::specs::Resolving::resolved))]
pub fn resolve(alloc: Global, catalog: &Catalog, stmt: &Stmt) -> Result<Query, ResolveError>
    ensures query { Resolves catalog.now stmt.now result }
    ensures typed { is_whole stmt.now ≡ true → IfOk result (IsTyped (schema_of catalog.now) []) }
    ensures bounded { is_whole stmt.now ≡ true → IfOk result (IsBounded (schema_of catalog.now) []) }
    ensures fresh { is_whole stmt.now ≡ true → IfOk result IsFresh }
    ensures selected { is_whole stmt.now ≡ true → IfOk result SortsBySelected }
{
    let resolver = Resolver { alloc, catalog };
    let select = resolver.select_counts(&stmt.select)?;
    let order = resolver.order_counts(stmt.order.as_slice())?;
    let counts = both(select, order)?;
    if counts.entries > ENTRY_LIMIT {
        return Err(ResolveError::TooManyTables(counts.entries));
    }
    let none = Items::new(alloc);
    let selection = resolver.select(&stmt.select, none.as_slice(), no_counts())?;
    let query = with_order(&resolver, stmt.order.as_slice(), select, selection)?;
    Ok(query)
}

/// The query of a statement's select and its ORDER BY.
fn with_order(
    resolver: &Resolver<'_>,
    orders: &[OrderAst],
    before: Counts,
    selection: Selection,
) -> Result<Query, ResolveError>
    ensures { Gives (ordered resolver.now.catalog.now orders.now before selection) result }
{
    let none = Items::new(resolver.alloc);
    let levels = inner_levels(
        resolver.alloc,
        selection.entries.as_slice(),
        none.as_slice(),
    )?;
    let distinct = selection.distinct;
    let order = resolver.orders(
        orders,
        distinct,
        selection.outputs.as_slice(),
        levels.as_slice(),
        before,
    )?;
    Ok(query_of(selection, order))
}
