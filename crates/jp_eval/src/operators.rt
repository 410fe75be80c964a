#![tactic(auto, using(crate::proofs::ComputedLaws::loops))]

ghost use Rattle.std.specs.Prelude.{◌≡◌, map, string_bytes, IfOk};
ghost use Rattle.std.specs.Option.{option_map};
ghost use Rattle.jp_base.specs.Cells.{value_of_cell};
ghost use Rattle.jp_base.specs.declared.values.Value.TheVariants as value;
ghost use Rattle.jp_base.specs.Values.{order_of};
ghost use Rattle.jp_query.specs.Meaning.{first_of as first_value_of};
ghost use Rattle.jp_query.specs.Operators.{value_of_truth, truth_of_value, any_of, orders_by, compared, between, passes, joined};
ghost use Rattle.jp_eval.specs.Computed.{equality_of_row};
ghost use Rattle.jp_eval.specs.Evaluated.{value_of_text};

use jp_base::{Cell, Memory, Row, Truth, compare};
use jp_query::{CmpOp, IsTest};
use std::cmp::Ordering;

/// A truth value as the value of a boolean expression: Unknown is NULL.
pub fn cell_of_truth(truth: Truth) -> Cell<'static>
    ensures { value_of_cell result ≡ value_of_truth truth }
{
    match truth {
        Truth::True => Cell::Bool(true),
        Truth::False => Cell::Bool(false),
        Truth::Unknown => Cell::Null,
    }
}

/// The truth that the value of a boolean expression stands for: NULL is Unknown.
pub fn truth_of_cell(cell: Cell<'_>) -> Truth
    ensures { result ≡ truth_of_value (value_of_cell cell.entry) }
{
    match cell {
        Cell::Bool(truth) => Truth::of(truth),
        _ => Truth::Unknown,
    }
}

/// The truth of a comparison.
pub fn comparison(op: CmpOp, left: Cell<'_>, right: Cell<'_>) -> Truth
    ensures { result ≡ compared op (value_of_cell left.entry) (value_of_cell right.entry) }
{
    match order(left, right) {
        Some(order) => Truth::of(is_ordered(op, order)),
        None => Truth::Unknown,
    }
}

/// The order of two values. Values of different types, which meet in no typed expression, have none, as if one were
/// NULL.
fn order(left: Cell<'_>, right: Cell<'_>) -> Option<Ordering>
    ensures { result ≡ order_of (value_of_cell left.entry) (value_of_cell right.entry) }
{
    match (left, right) {
        (Cell::Num(_), Cell::Num(_)) => compare(left, right),
        (Cell::Bool(_), Cell::Bool(_)) => compare(left, right),
        (Cell::Text(_), Cell::Text(_)) => compare(left, right),
        _ => None,
    }
}

/// Whether a comparison is true of a left value that stands so to the right one.
fn is_ordered(op: CmpOp, order: Ordering) -> bool
    ensures { result ≡ orders_by op order }
{
    match op {
        CmpOp::Eq => order.is_eq(),
        CmpOp::Ne => order.is_ne(),
        CmpOp::Lt => order.is_lt(),
        CmpOp::Le => order.is_le(),
        CmpOp::Gt => order.is_gt(),
        CmpOp::Ge => order.is_ge(),
    }
}

/// Whether IS with this word is true of the value.
pub fn is_met(test: IsTest, operand: Cell<'_>) -> bool
    ensures { result ≡ passes test (value_of_cell operand.entry) }
{
    match test {
        IsTest::Null => matches!(operand, Cell::Null),
        IsTest::NotNull => !matches!(operand, Cell::Null),
        IsTest::True => truth_of_cell(operand) == Truth::True,
        IsTest::NotTrue => truth_of_cell(operand) != Truth::True,
        IsTest::False => truth_of_cell(operand) == Truth::False,
        IsTest::NotFalse => truth_of_cell(operand) != Truth::False,
        IsTest::Unknown => truth_of_cell(operand) == Truth::Unknown,
        IsTest::NotUnknown => truth_of_cell(operand) != Truth::Unknown,
    }
}

/// The truth of BETWEEN.
pub fn is_between(operand: Cell<'_>, low: Cell<'_>, high: Cell<'_>) -> Truth
    ensures { result ≡ between (value_of_cell operand.entry) (value_of_cell low.entry) (value_of_cell high.entry) }
{
    comparison(CmpOp::Ge, operand, low).and(comparison(CmpOp::Le, operand, high))
}

/// The truth of IN over the rows of its query. It is settled at the first row that is equal.
pub fn is_among_rows(operand: Cell<'_>, rows: &[Row]) -> Truth
    ensures { result ≡ any_of (map (equality_of_row (value_of_cell operand.entry)) rows.now) }
{
    let mut any = Truth::False;
    for row in rows {
        any = any.or(comparison(CmpOp::Eq, operand, first_of(row)));
        if any == Truth::True {
            return any;
        }
    }
    any
}

/// The one value of a row of an IN's query.
fn first_of(row: &Row) -> Cell<'_>
    ensures { value_of_cell result ≡ first_value_of row.now }
{
    match row.get(0) {
        Some(value) => value.cell(),
        None => Cell::Null,
    }
}

/// The text so far and one more piece of a `||`; none where a piece is NULL.
pub fn with_piece(text: Option<String>, piece: Cell<'_>) -> Result<Option<String>, Memory>
    ensures { IfOk result (λ t. value_of_text (option_map string_bytes t) ≡ joined (value_of_text (option_map string_bytes text)) (value_of_cell piece.entry)) }
{
    match text {
        Some(text) => {
            let text = appended(text, piece)?;
            Ok(text)
        }
        None => Ok(None),
    }
}

fn appended(mut text: String, piece: Cell<'_>) -> Result<Option<String>, Memory>
    ensures { IfOk result (λ t. value_of_text (option_map string_bytes t) ≡ joined (value.Text (string_bytes text)) (value_of_cell piece.entry)) }
{
    match piece {
        Cell::Text(piece) => match text.push_str(piece) {
            Ok(()) => Ok(Some(text)),
            Err(_) => Err(Memory),
        },
        _ => Ok(None),
    }
}
