ghost use Rattle.std.specs.Prelude.{◌≡◌, IfOk};
ghost use Rattle.std.specs.Option.{option_map};
ghost use Rattle.jp_base.specs.Cells.{value_of_cell};
ghost use Rattle.jp_base.specs.Values.{is_null};
ghost use Rattle.jp_eval.specs.Evaluated.{value_of_evaluated};
ghost use Rattle.jp_query.specs.Operators.{truth_of_value, is_chosen as chosen};

use crate::operators::{cell_of_truth, comparison, truth_of_cell};
use jp_base::{Cell, Memory, Truth, Txt, Value};
use jp_query::CmpOp;
use std::alloc::Global;

/// What an expression gives: a truth value, a value that the expression or the environment lends, or the text that a
/// `||` made.
#[derive(Drop)]
pub enum Evaluated<'e> {
    Truth(Truth),
    Lent(Cell<'e>),
    Made(Txt),
}

impl Evaluated<'_> {
    /// The value, lent.
    pub fn cell(&self) -> Cell<'_>
        ensures { value_of_cell result ≡ value_of_evaluated self.now }
    {
        match self {
            Evaluated::Truth(truth) => cell_of_truth(*truth),
            Evaluated::Lent(cell) => *cell,
            Evaluated::Made(text) => Cell::Text(text.as_str()),
        }
    }

    /// The truth of a condition that gives this.
    pub fn truth(&self) -> Truth
        ensures { result ≡ truth_of_value (value_of_evaluated self.now) }
    {
        match self {
            Evaluated::Truth(truth) => *truth,
            Evaluated::Lent(cell) => truth_of_cell(*cell),
            Evaluated::Made(_) => Truth::Unknown,
        }
    }

    /// Whether the value is NULL.
    pub fn is_null(&self) -> bool
        ensures { result ≡ is_null (value_of_evaluated self.now) }
    {
        matches!(self.cell(), Cell::Null)
    }

    /// The value, in memory of its own.
    pub fn into_value(self, alloc: Global) -> Result<Value, Memory>
        ensures { IfOk result (λ v. v ≡ value_of_evaluated self.entry) }
    {
        match self {
            Evaluated::Truth(truth) => {
                let value = cell_of_truth(truth).to_value(alloc)?;
                Ok(value)
            }
            Evaluated::Lent(cell) => {
                let value = cell.to_value(alloc)?;
                Ok(value)
            }
            Evaluated::Made(text) => Ok(Value::Text(text)),
        }
    }
}

/// Whether an arm of CASE is chosen by its first value: with an operand it is equal to it, without one it is true.
pub fn is_chosen(operand: &Option<Evaluated<'_>>, when: Cell<'_>) -> bool
    ensures { result ≡ chosen (option_map value_of_evaluated operand.now) (value_of_cell when.entry) }
{
    match operand {
        Some(operand) => comparison(CmpOp::Eq, operand.cell(), when) == Truth::True,
        None => truth_of_cell(when) == Truth::True,
    }
}
