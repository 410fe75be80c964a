ghost use Rattle.std.specs.Prelude.{◌≡◌, ℕ, List};
ghost use Rattle.jp_query.specs.declared.Expr.{Expr};
ghost use Rattle.jp_query.specs.Meaning.{Row, Env, value_given};
ghost use Rattle.jp_eval.specs.Computed.{computed};
ghost use Rattle.jp_eval.specs.Evaluation.{CanEvaluate};

/// A law: where an expression can be evaluated, no number passes 128 bits on the way, and what arithmetic in 128 bits gives is
/// its value.
pub fn values_in_128_bits_are_exact()
    ensures { (rows : ℕ → List Row) (expr : Expr) (env : Env) → CanEvaluate rows expr env → computed rows expr env ≡ value_given rows expr env }
{}
