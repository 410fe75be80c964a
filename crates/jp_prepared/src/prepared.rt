ghost use Rattle.std.specs.Prelude.{[]};
ghost use Rattle.jp_catalog.specs.Sound.{IsSound};
ghost use Rattle.jp_catalog.specs.declared.types.Catalog.{Catalog};
ghost use Rattle.jp_query.specs.declared.Query.{Query};
ghost use Rattle.jp_query.specs.Conditions.{IsBounded, IsTyped};
ghost use Rattle.jp_query.specs.Freshness.{IsFresh};
ghost use Rattle.jp_resolution.specs.Schemas.{schema_of};
ghost use Rattle.jp_tree.specs.declared.prepared.Prepared.{Prepared};
ghost use Rattle.jp_tree.specs.Prepared.{IsWhole};
ghost use Rattle.jp_prepared.specs.Planned.{IsPrepared};

use jp_folded::{folding_keeps_fresh_queries, folding_keeps_typed_queries};

/// A law: the prepared statement of a fresh query that is typed and bounded is whole: it can be run and printed.
pub fn a_prepared_statement_is_whole()
    ensures { (catalog : Catalog) (query : Query) (prepared : Prepared) →
        IsSound catalog → IsTyped (schema_of catalog) [] query → IsBounded (schema_of catalog) [] query → IsFresh query → IsPrepared catalog query prepared →
        IsWhole prepared }
{
    folding_keeps_typed_queries();
    folding_keeps_fresh_queries();
}
