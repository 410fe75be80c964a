//! The evaluator of expressions over lent cells: the value of an expression, and the truth of a condition, in an
//! environment that the caller brings.
#![tactic(auto)]

ghost use Rattle.std.specs.Prelude.{◌≡◌, ℕ, List, true, IfOk, OnErr};
ghost use Rattle.jp_base.specs.Cells.{value_of_cell};
ghost use Rattle.jp_query.specs.Meaning.{Row, Env as Environment, cell_in, value_given, truth_given};
ghost use Rattle.jp_placeholder.specs.Present.{IsPresentSet};
ghost use Rattle.jp_eval.specs.Computed.{computed};
ghost use Rattle.jp_eval.specs.Concatenation.{has_concatenation};
ghost use Rattle.jp_eval.specs.Evaluation.{CanEvaluate};

mod arithmetic;
mod evaluated;
mod evaluation;
mod laws;
mod operators;
#[cfg(test)]
mod tests;

use evaluation::evaluate;
use jp_base::{Cell, Memory, RelNo, RelSet, Row, SubNo, Truth, Value};
use jp_query::Expr;
pub use laws::values_in_128_bits_are_exact;
use std::alloc::Global;

/// What an expression is evaluated in: a row, or none, for each relation, and rows for each sublink. An implementation
/// lends what it has; it evaluates no expression.
pub trait Env {
    /// The row of each relation, or none where the relation is absent.
    ghost environment: { Self → Environment };

    /// The rows of each sublink that stands in no other sublink's query, which the environment's maker computed before.
    ghost sublink_rows: { Self → ℕ → List Row };

    /// The value of a column. It is NULL where the relation is absent, and where its row has no such column.
    fn cell(&self, rel: RelNo, col: u32) -> Cell<'_>
        ensures { value_of_cell result ≡ cell_in (environment self.now rel) col };

    /// The relations that have a row.
    fn present(&self) -> RelSet
        ensures { IsPresentSet result (environment self.now) };

    /// The rows of a sublink.
    fn rows_of(&self, sub: SubNo) -> &[Row]
        ensures { result.now ≡ sublink_rows self.now sub };
}

/// The value of an expression, in memory of its own. Only a text takes memory.
pub fn eval<E: Env>(alloc: Global, expr: &Expr, env: &E) -> Result<Value, Memory>
    requires { CanEvaluate (E.sublink_rows env.now) expr.now (E.environment env.now) }
    ensures { IfOk result (λ v. v ≡ value_given (E.sublink_rows env.now) expr.now (E.environment env.now)) }
{
    let value = eval_in_128_bits(alloc, expr, env)?;
    Ok(value)
}

/// The value of any expression by arithmetic in 128 bits, in which a number that they don't hold counts as NULL. Of an
/// expression that `eval` takes it is the value, as `values_in_128_bits_are_exact` says.
pub fn eval_in_128_bits<E: Env>(alloc: Global, expr: &Expr, env: &E) -> Result<Value, Memory>
    ensures { IfOk result (λ v. v ≡ computed (E.sublink_rows env.now) expr.now (E.environment env.now)) }
{
    let value = evaluate(alloc, expr, env)?.into_value(alloc)?;
    Ok(value)
}

/// The truth of a condition. Without `||` it takes no memory: it compares lent cells and copies no text.
pub fn holds<E: Env>(alloc: Global, expr: &Expr, env: &E) -> Result<Truth, Memory>
    requires { CanEvaluate (E.sublink_rows env.now) expr.now (E.environment env.now) }
    ensures truth { IfOk result (λ t. t ≡ truth_given (E.sublink_rows env.now) expr.now (E.environment env.now)) }
    ensures memory { OnErr result (has_concatenation expr.now ≡ true) }
{
    let truth = evaluate(alloc, expr, env)?.truth();
    Ok(truth)
}
