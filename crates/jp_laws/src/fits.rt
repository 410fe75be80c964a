ghost use Rattle.std.specs.Prelude.{◌≡◌, ℕ, ◌++◌, List, [], All, Some, true};
ghost use Rattle.jp_base.specs.declared.values.Ty.{Ty};
ghost use Rattle.jp_query.specs.declared.Expr.{Expr};
ghost use Rattle.jp_query.specs.declared.JoinTree.{JoinTree};
ghost use Rattle.jp_query.specs.declared.Query.{Query};
ghost use Rattle.jp_query.specs.Meaning.{Row, Env, value_of, value_given, tuples_of, meaning};
ghost use Rattle.jp_query.specs.Outermost.{outermost, IsGiven};
ghost use Rattle.jp_query.specs.Parts.{ColumnRef, columns_in_query, outer_references};
ghost use Rattle.jp_query.specs.Scopes.{Schema, Scope, Entry, bound_of, entries_of, columns_of_query};
ghost use Rattle.jp_query.specs.Tables.{TableRows, IsCellOf, IsRowOf, Belong, rows_of_tables};
ghost use Rattle.jp_query.specs.Typing.{IsTypedExpr, type_of, tree_is_typed, typed_query};
ghost use Rattle.jp_query.specs.Conditions.{IsTyped, judged_expr, judged_tree, judged_query, knows_columns, tells_relations_apart};
ghost use Rattle.jp_query.specs.Fitting.{IsCellAt, own_columns, FitsLent, FitsInPlace, FitsTree, FitsQuery, FitsTuple};

/// A law: in an environment that fits it, a typed expression has a value that is NULL or of its type, and a number within
/// its bound. Only the cells of columns outside its sublinks count, with sublinks in place too: EXISTS and IN are
/// booleans whatever their rows.
pub fn a_typed_expression_has_a_value_of_its_type()
    ensures given { (schema : Schema) (scope : Scope) (rows : ℕ → List Row) (expr : Expr) (env : Env) (t : Ty) →
        type_of expr ≡ Some t → (judged_expr schema knows_columns expr).passes scope ≡ true → FitsLent scope rows expr env →
        IsCellOf (record { type = t; bound = bound_of schema expr scope }) (value_given rows expr env) }
    ensures in_place { (schema : Schema) (tables : TableRows) (scope : Scope) (expr : Expr) (env : Env) (t : Ty) →
        type_of expr ≡ Some t → (judged_expr schema knows_columns expr).passes scope ≡ true → FitsInPlace schema tables scope expr env →
        IsCellOf (record { type = t; bound = bound_of schema expr scope }) (value_of (rows_of_tables tables) expr env) }
    ensures by_cells { (schema : Schema) (scope : Scope) (tables : ℕ → List Row) (expr : Expr) (env : Env) (t : Ty) →
        type_of expr ≡ Some t → (judged_expr schema knows_columns expr).passes scope ≡ true → All (IsCellAt scope env) (own_columns expr) →
        IsCellOf (record { type = t; bound = bound_of schema expr scope }) (value_of tables expr env) }
{}

/// A law: in an environment that fits it, each tuple of a typed tree gives each entry's relation no row or a row of the
/// entry's columns, and the others the environment's rows. So the cells of expressions above the tree fit.
pub fn a_typed_tree_has_tuples_of_its_entries()
    ensures tuples { (schema : Schema) (tables : TableRows) (outer : Scope) (tree : JoinTree) (env : Env) →
        tree_is_typed tree ≡ true → (judged_tree schema knows_columns tree).passes outer ≡ true → (judged_tree schema tells_relations_apart tree).passes outer ≡ true → FitsTree schema tables outer tree env →
        All (FitsTuple (entries_of schema tree outer) env) ((tuples_of (rows_of_tables tables) tree).tuples env) }
    ensures cells { (entries : List Entry) (outer : Scope) (env : Env) (tuple : Env) (columns : List ColumnRef) →
        FitsTuple entries env tuple → All (IsCellAt outer env) columns → All (IsCellAt (entries ++ outer) tuple) columns }
{}

/// A law: in an environment that fits it, the rows of a typed query have one value for each output, NULL or of the
/// output's type and a number within its bound. A statement's query asks nothing of its environment.
pub fn a_typed_query_has_rows_of_its_outputs()
    ensures rows { (schema : Schema) (tables : TableRows) (outer : Scope) (query : Query) (env : Env) →
        (typed_query query).is_typed ≡ true → (judged_query schema knows_columns query).passes outer ≡ true → (judged_query schema tells_relations_apart query).passes outer ≡ true → FitsQuery schema tables outer query env →
        All (IsRowOf (columns_of_query schema query outer)) (meaning (rows_of_tables tables) query env) }
    ensures statement { (schema : Schema) (tables : TableRows) (query : Query) (env : Env) →
        IsTyped schema [] query → Belong schema tables →
        All (IsRowOf (columns_of_query schema query [])) (meaning (rows_of_tables tables) query env) }
{}

/// A law: an outer reference is a column that is visible outside, so where the cells of a query's outer references fit, those
/// of all its columns do.
pub fn only_outer_references_are_visible_outside()
    ensures { (schema : Schema) (outer : Scope) (query : Query) (env : Env) →
        (judged_query schema tells_relations_apart query).passes outer ≡ true → All (IsCellAt outer env) (outer_references query) →
        All (IsCellAt outer env) (columns_in_query query) }
{}

/// A law: where an environment fits an expression with its sublinks in place, it fits it with lent rows too, if these are
/// one bag with the rows of the sublinks' queries.
pub fn rows_of_sublinks_fit_when_lent()
    ensures { (schema : Schema) (tables : TableRows) (scope : Scope) (rows : ℕ → List Row) (expr : Expr) (env : Env) →
        IsTypedExpr expr → (judged_expr schema knows_columns expr).passes scope ≡ true → (judged_expr schema tells_relations_apart expr).passes scope ≡ true →
        FitsInPlace schema tables scope expr env → All (IsGiven (rows_of_tables tables) rows env) (outermost expr) → FitsLent scope rows expr env }
{}
