ghost use Rattle.std.specs.Prelude.{[]};
ghost use Rattle.std.specs.List.Sorted.{IsPermutation};
ghost use Rattle.jp_catalog.specs.Sound.{IsSound};
ghost use Rattle.jp_catalog.specs.declared.types.Catalog.{Catalog};
ghost use Rattle.jp_query.specs.declared.Query.{Query};
ghost use Rattle.jp_query.specs.Conditions.{IsBounded, IsTyped};
ghost use Rattle.jp_query.specs.Freshness.{IsFresh};
ghost use Rattle.jp_query.specs.InOrder.{IsInOrder};
ghost use Rattle.jp_query.specs.Meaning.{meaning, no_outer_rows};
ghost use Rattle.jp_query.specs.Tables.{TableRows, Belong, rows_of_tables};
ghost use Rattle.jp_resolution.specs.Schemas.{schema_of};
ghost use Rattle.jp_lists.specs.Lists.{list_of};
ghost use Rattle.jp_tree.specs.Pools.{IsPool};
ghost use Rattle.jp_tree.specs.declared.prepared.Prepared.{Prepared};
ghost use Rattle.jp_prepared.specs.Planned.{IsPrepared};

use jp_folded::folding_keeps_typed_queries;
use jp_lists::a_block_gives_what_its_plan_lists;
use jp_prepared::a_prepared_statement_is_whole;

/// A law: what the plans list is what the statement means. Over tables that belong to the catalogue's schema, the rows that
/// block 0 of the prepared statement of a typed, bounded and fresh query lists are, as a bag, those of the query, and stand
/// in the order of its ORDER BY. The methods of the plans are any that their steps allow; their nodes stand in a pool, the
/// children of each before it.
pub fn plans_list_what_the_statement_means()
    ensures rows { (catalog : Catalog) (query : Query) (prepared : Prepared) (tables : TableRows) →
        IsSound catalog → IsTyped (schema_of catalog) [] query → IsBounded (schema_of catalog) [] query → IsFresh query → IsPool prepared.pool.nodes → IsPrepared catalog query prepared → Belong (schema_of catalog) tables →
        IsPermutation (meaning (rows_of_tables tables) query no_outer_rows) (list_of prepared (rows_of_tables tables) 0 no_outer_rows) }
    ensures in_order { (catalog : Catalog) (query : Query) (prepared : Prepared) (tables : TableRows) →
        IsSound catalog → IsTyped (schema_of catalog) [] query → IsBounded (schema_of catalog) [] query → IsFresh query → IsPool prepared.pool.nodes → IsPrepared catalog query prepared → Belong (schema_of catalog) tables →
        IsInOrder (rows_of_tables tables) query no_outer_rows (list_of prepared (rows_of_tables tables) 0 no_outer_rows) }
{
    folding_keeps_typed_queries();
    a_prepared_statement_is_whole();
    a_block_gives_what_its_plan_lists();
}
