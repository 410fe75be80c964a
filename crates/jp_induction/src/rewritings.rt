ghost use Rattle.std.specs.Prelude.{◌≡◌, ℕ, List, true};
ghost use Rattle.jp_query.specs.declared.Expr.{Expr};
ghost use Rattle.jp_query.specs.declared.JoinTree.{JoinTree};
ghost use Rattle.jp_query.specs.declared.Query.{Query};
ghost use Rattle.jp_query.specs.Meaning.{Row, value_of, tuples_of, meaning};
ghost use Rattle.jp_query.specs.Scopes.{Scope};
ghost use Rattle.jp_induction.specs.Rewritings.{AreHandedDown, KeepsEachLevel, KeepsEachTested, PlaceTests, Rewriting, rewritten_expr, rewritten_query, rewritten_tree};

/// A law: a rewriting whose steps keep the meaning of each level keeps that of every expression, join tree and query.
pub fn steps_that_keep_each_level_keep_the_meaning()
    ensures value { (tables : ℕ → List Row) (r : Rewriting) (expr : Expr) → KeepsEachLevel tables r → value_of tables (rewritten_expr r expr) ≡ value_of tables expr }
    ensures tuples { (tables : ℕ → List Row) (r : Rewriting) (tree : JoinTree) → KeepsEachLevel tables r → tuples_of tables (rewritten_tree r tree) ≡ tuples_of tables tree }
    ensures rows { (tables : ℕ → List Row) (r : Rewriting) (query : Query) → KeepsEachLevel tables r → meaning tables (rewritten_query r query) ≡ meaning tables query }
{}

/// A law: where tests are handed down from each level to its parts, a rewriting whose steps keep the meaning of each level
/// that passes keeps that of every expression, join tree and query that passes.
pub fn steps_that_keep_tested_levels_keep_the_meaning()
    ensures value { (tables : ℕ → List Row) (r : Rewriting) (tests : PlaceTests) (scope : Scope) (expr : Expr) →
        AreHandedDown tests → KeepsEachTested tables r tests → tests.expr scope expr ≡ true → value_of tables (rewritten_expr r expr) ≡ value_of tables expr }
    ensures tuples { (tables : ℕ → List Row) (r : Rewriting) (tests : PlaceTests) (scope : Scope) (tree : JoinTree) →
        AreHandedDown tests → KeepsEachTested tables r tests → tests.tree scope tree ≡ true → tuples_of tables (rewritten_tree r tree) ≡ tuples_of tables tree }
    ensures rows { (tables : ℕ → List Row) (r : Rewriting) (tests : PlaceTests) (scope : Scope) (query : Query) →
        AreHandedDown tests → KeepsEachTested tables r tests → tests.query scope query ≡ true → meaning tables (rewritten_query r query) ≡ meaning tables query }
{}
