ghost use Rattle.std.specs.Prelude.{◌≡◌, ℕ, All, true};
ghost use Rattle.jp_query.specs.declared.Expr.{Expr};
ghost use Rattle.jp_query.specs.declared.Query.{Query};
ghost use Rattle.jp_query.specs.Parts.{columns_in, columns_in_query, placeholders_in_query};
ghost use Rattle.jp_query.specs.Refs.{refs_of, refs_of_query};
ghost use Rattle.jp_query.specs.Typing.{IsTypedExpr, typed_query};
ghost use Rattle.jp_laws.specs.Referred.{placeholders_in, IsReferred, AreReferred};

/// A law: in a typed expression or query, sublinks and sub-selects included, the relation of each column and the members
/// of each placeholder lie below 64 and are among the references.
pub fn typed_columns_are_among_the_references()
    ensures columns { (expr : Expr) → IsTypedExpr expr → All (IsReferred (refs_of expr)) (columns_in expr) }
    ensures placeholders { (expr : Expr) → IsTypedExpr expr → All (AreReferred (refs_of expr)) (placeholders_in expr) }
    ensures query_columns { (query : Query) → (typed_query query).is_typed ≡ true → All (IsReferred (refs_of_query query)) (columns_in_query query) }
    ensures query_placeholders { (query : Query) → (typed_query query).is_typed ≡ true → All (AreReferred (refs_of_query query)) (placeholders_in_query query) }
{}
