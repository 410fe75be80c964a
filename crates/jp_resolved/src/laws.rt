ghost use Rattle.std.specs.Prelude.{◌≡◌, [], true, Ok};
ghost use Rattle.jp_catalog.specs.declared.types.Catalog.{Catalog};
ghost use Rattle.jp_ast.specs.declared.tree.Stmt.{Stmt};
ghost use Rattle.jp_statements.specs.Whole.{is_whole};
ghost use Rattle.jp_query.specs.declared.Query.{Query};
ghost use Rattle.jp_query.specs.Conditions.{IsTyped, IsBounded};
ghost use Rattle.jp_query.specs.Freshness.{IsFresh};
ghost use Rattle.jp_resolution.specs.Resolving.{resolved};
ghost use Rattle.jp_resolution.specs.Schemas.{schema_of};
ghost use Rattle.jp_resolved.specs.Sorted.{SortsBySelected};

/// A law: the query that a whole statement stands for is typed and bounded over the schema of the catalogue. Nothing is
/// asked of the catalogue: a name that stands twice is the first one's or ambiguous.
pub fn each_resolved_query_is_typed()
    ensures typed { (catalog : Catalog) (stmt : Stmt) (q : Query) → is_whole stmt ≡ true → resolved catalog stmt ≡ Ok q → IsTyped (schema_of catalog) [] q }
    ensures bounded { (catalog : Catalog) (stmt : Stmt) (q : Query) → is_whole stmt ≡ true → resolved catalog stmt ≡ Ok q → IsBounded (schema_of catalog) [] q }
{}

/// A law: the query that a whole statement stands for is fresh, and under DISTINCT each of its ORDER BY items is the
/// expression of an output.
pub fn each_resolved_query_is_fresh()
    ensures fresh { (catalog : Catalog) (stmt : Stmt) (q : Query) → is_whole stmt ≡ true → resolved catalog stmt ≡ Ok q → IsFresh q }
    ensures selected { (catalog : Catalog) (stmt : Stmt) (q : Query) → is_whole stmt ≡ true → resolved catalog stmt ≡ Ok q → SortsBySelected q }
{}
