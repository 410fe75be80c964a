ghost use Rattle.jp_query.specs.declared.Query.{Query};
ghost use Rattle.jp_query.specs.Conditions.{IsBounded, IsTyped};
ghost use Rattle.jp_query.specs.Freshness.{IsFresh};
ghost use Rattle.jp_query.specs.Scopes.{Schema, Scope};
ghost use Rattle.jp_folding.specs.Folding.{folded};

/// A law: a query that is typed where it stands is typed there when it is folded, and one that is bounded too stays
/// bounded.
pub fn folding_keeps_typed_queries()
    ensures typed { (schema : Schema) (outer : Scope) (query : Query) → IsTyped schema outer query → IsTyped schema outer (folded query) }
    ensures bounded { (schema : Schema) (outer : Scope) (query : Query) → IsTyped schema outer query → IsBounded schema outer query → IsBounded schema outer (folded query) }
{}

/// A law: a fresh query is fresh when it is folded.
pub fn folding_keeps_fresh_queries()
    ensures { (query : Query) → IsFresh query → IsFresh (folded query) }
{}
