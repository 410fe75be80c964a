ghost use Rattle.std.specs.Prelude.{◌≡◌, ℕ, List, All, map};
ghost use Rattle.jp_query.specs.declared.Expr.{Expr};
ghost use Rattle.jp_query.specs.Conjuncts.{conjuncts, conjuncts_of_all, IsNoAnd};
ghost use Rattle.jp_query.specs.Meaning.{Row, Env, holds, truth_given, truth_of, value_given, value_of};
ghost use Rattle.jp_query.specs.Operators.{is_true};

/// A law: the conjuncts of an expression hold exactly where it is true, with its sublinks in place and with given rows for
/// them, and those of a list of conditions where the list holds. No conjunct is an AND.
pub fn conjuncts_hold_where_the_whole_does()
    ensures value { (tables : ℕ → List Row) (expr : Expr) (env : Env) → holds (map (value_of tables) (conjuncts expr)) env ≡ is_true (truth_of tables expr env) }
    ensures given { (rows : ℕ → List Row) (expr : Expr) (env : Env) → holds (map (value_given rows) (conjuncts expr)) env ≡ is_true (truth_given rows expr env) }
    ensures list { (tables : ℕ → List Row) (conds : List Expr) (env : Env) → holds (map (value_of tables) (conjuncts_of_all conds)) env ≡ holds (map (value_of tables) conds) env }
    ensures no_and { (expr : Expr) → All IsNoAnd (conjuncts expr) }
{}
