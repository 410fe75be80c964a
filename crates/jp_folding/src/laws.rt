ghost use Rattle.std.specs.Prelude.{◌≡◌, [], true};
ghost use Rattle.jp_query.specs.declared.Expr.{Expr};
ghost use Rattle.jp_query.specs.declared.JoinTree.{JoinTree};
ghost use Rattle.jp_query.specs.declared.Query.{Query};
ghost use Rattle.jp_query.specs.Conditions.{IsTyped, judged_expr, judged_tree, judged_query, knows_columns, tells_relations_apart};
ghost use Rattle.jp_query.specs.Fitting.{FitsInPlace, FitsTree, FitsQuery};
ghost use Rattle.jp_query.specs.Meaning.{Env, value_of, tuples_of, meaning};
ghost use Rattle.jp_query.specs.NoRight.{has_no_right_in_expr, has_no_right_in_tree, HasNoRight};
ghost use Rattle.jp_query.specs.Scopes.{Schema, Scope};
ghost use Rattle.jp_query.specs.Tables.{TableRows, Belong, rows_of_tables};
ghost use Rattle.jp_query.specs.Typing.{IsTypedExpr, type_of, tree_is_typed, typed_query};
ghost use Rattle.jp_folding.specs.Folding.{folded_expr, folded_tree, folded};

/// A law: a folded query has the rows that it had, the same list in every environment that fits it; a folded tree has the
/// tuples, and a folded expression the value that it had. A statement's query asks nothing of its environment.
///
/// The environment must fit, since an AND with one member left is that member: these are equal where its value is a
/// truth value or NULL.
pub fn folding_keeps_the_rows()
    ensures value { (schema : Schema) (tables : TableRows) (scope : Scope) (expr : Expr) (env : Env) →
        IsTypedExpr expr → (judged_expr schema knows_columns expr).passes scope ≡ true → (judged_expr schema tells_relations_apart expr).passes scope ≡ true → FitsInPlace schema tables scope expr env →
        value_of (rows_of_tables tables) (folded_expr expr) env ≡ value_of (rows_of_tables tables) expr env }
    ensures relations { (schema : Schema) (tables : TableRows) (outer : Scope) (tree : JoinTree) (env : Env) →
        tree_is_typed tree ≡ true → (judged_tree schema knows_columns tree).passes outer ≡ true → (judged_tree schema tells_relations_apart tree).passes outer ≡ true → FitsTree schema tables outer tree env →
        (tuples_of (rows_of_tables tables) (folded_tree tree)).rels ≡ (tuples_of (rows_of_tables tables) tree).rels }
    ensures tuples { (schema : Schema) (tables : TableRows) (outer : Scope) (tree : JoinTree) (env : Env) →
        tree_is_typed tree ≡ true → (judged_tree schema knows_columns tree).passes outer ≡ true → (judged_tree schema tells_relations_apart tree).passes outer ≡ true → FitsTree schema tables outer tree env →
        (tuples_of (rows_of_tables tables) (folded_tree tree)).tuples env ≡ (tuples_of (rows_of_tables tables) tree).tuples env }
    ensures rows { (schema : Schema) (tables : TableRows) (outer : Scope) (query : Query) (env : Env) →
        (typed_query query).is_typed ≡ true → (judged_query schema knows_columns query).passes outer ≡ true → (judged_query schema tells_relations_apart query).passes outer ≡ true → FitsQuery schema tables outer query env →
        meaning (rows_of_tables tables) (folded query) env ≡ meaning (rows_of_tables tables) query env }
    ensures statement { (schema : Schema) (tables : TableRows) (query : Query) (env : Env) →
        IsTyped schema [] query → Belong schema tables →
        meaning (rows_of_tables tables) (folded query) env ≡ meaning (rows_of_tables tables) query env }
{}

/// A law: a folded expression has the type that it had, and a folded query the stated types of its outputs.
pub fn folding_keeps_types()
    ensures expr { (expr : Expr) → IsTypedExpr expr → type_of (folded_expr expr) ≡ type_of expr }
    ensures tree { (tree : JoinTree) → tree_is_typed tree ≡ true → tree_is_typed (folded_tree tree) ≡ true }
    ensures query { (query : Query) → (typed_query query).is_typed ≡ true → typed_query (folded query) ≡ typed_query query }
{}

/// A law: what is folded has no Right join at any depth.
pub fn folding_leaves_no_right_join()
    ensures expr { (expr : Expr) → has_no_right_in_expr (folded_expr expr) ≡ true }
    ensures tree { (tree : JoinTree) → has_no_right_in_tree (folded_tree tree) ≡ true }
    ensures query { (query : Query) → HasNoRight (folded query) }
{}
