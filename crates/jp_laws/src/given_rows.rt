ghost use Rattle.std.specs.Prelude.{◌≡◌, ℕ, List, All};
ghost use Rattle.jp_query.specs.declared.Expr.{Expr};
ghost use Rattle.jp_query.specs.Meaning.{Row, Env, value_of, value_given};
ghost use Rattle.jp_query.specs.Outermost.{outermost, IsGiven};

/// A law: with given rows for the outermost sublinks that are one bag with the rows of their queries in the environment,
/// an expression has the value that it has with its sublinks in place.
pub fn given_rows_give_the_value_in_place()
    ensures { (tables : ℕ → List Row) (rows : ℕ → List Row) (expr : Expr) (env : Env) → All (IsGiven tables rows env) (outermost expr) → value_given rows expr env ≡ value_of tables expr env }
{}
