ghost use Rattle.std.specs.Prelude.{◌≡◌, ◌↔◌, ◌⊎◌, IfOk, IsNone, Some};
ghost use Rattle.std.specs.Cmp.{IsStrictWeakOrder, IsTotalOrder};
ghost use Rattle.std.specs.declared.cmp.Ordering.{Ordering};
ghost use Rattle.std.specs.declared.cmp.Ordering.TheVariants.{Equal};
ghost use Rattle.jp_base.specs.declared.values.Value.TheVariants as value;
ghost use Rattle.jp_base.specs.Cells.{value_of_cell};
ghost use Rattle.jp_base.specs.declared.values.Value.{Value};
ghost use Rattle.jp_base.specs.Values.{order_of, IsComparable, type_rank, total_order_of, is_below};

use crate::{Memory, Txt, Value};
use std::alloc::Global;
use std::cmp::Ordering;

/// A value that stands elsewhere, as in a table or a row: the text is lent, not copied.
#[derive(Clone, Copy, Debug)]
pub enum Cell<'a> {
    Null,
    Num(i128),
    Bool(bool),
    Text(&'a str),
}

impl Cell<'_> {
    /// The same value, in memory of its own.
    pub fn to_value(self, alloc: Global) -> Result<Value, Memory>
        ensures { IfOk result (λ v. v ≡ value_of_cell self.entry) }
    {
        match self {
            Cell::Null => Ok(Value::Null),
            Cell::Num(number) => Ok(Value::Num(number)),
            Cell::Bool(truth) => Ok(Value::Bool(truth)),
            Cell::Text(text) => {
                let text = Txt::new(alloc, text)?;
                Ok(Value::Text(text))
            }
        }
    }
}

/// The order of two values of one type: numbers by size, False below True, texts by their bytes. None where
/// one is NULL, since SQL then calls each comparison unknown.
pub fn compare(a: Cell<'_>, b: Cell<'_>) -> Option<Ordering>
    requires { IsComparable (value_of_cell a) (value_of_cell b) }
    ensures order { result ≡ order_of (value_of_cell a.entry) (value_of_cell b.entry) }
    ensures none { IsNone result ↔ ((value_of_cell a.entry ≡ value.Null) ⊎ (value_of_cell b.entry ≡ value.Null)) }
{
    match (a, b) {
        (Cell::Num(a), Cell::Num(b)) => Some(a.cmp(&b)),
        (Cell::Bool(a), Cell::Bool(b)) => Some(a.cmp(&b)),
        (Cell::Text(a), Cell::Text(b)) => Some(a.cmp(b)),
        _ => None,
    }
}

/// An order of all values, for sorts and maps: NULL lies below numbers, these below booleans, these below texts. Two
/// values of one type are in the order of `compare`.
pub fn total_order(a: Cell<'_>, b: Cell<'_>) -> Ordering
    ensures { result ≡ total_order_of (value_of_cell a.entry) (value_of_cell b.entry) }
{
    match (a, b) {
        (Cell::Num(a), Cell::Num(b)) => a.cmp(&b),
        (Cell::Bool(a), Cell::Bool(b)) => a.cmp(&b),
        (Cell::Text(a), Cell::Text(b)) => a.cmp(b),
        _ => rank(a).cmp(&rank(b)),
    }
}

fn rank(cell: Cell<'_>) -> u8
    ensures { result ≡ type_rank (value_of_cell cell.entry) }
{
    match cell {
        Cell::Null => 0,
        Cell::Num(_) => 1,
        Cell::Bool(_) => 2,
        Cell::Text(_) => 3,
    }
}

/// A law of `total_order`: it is a total order, in which no two values tie but equal ones, and it gives two values the
/// order that `compare` gives them.
pub fn values_are_ordered()
    ensures total { IsTotalOrder total_order_of }
    ensures weak { IsStrictWeakOrder is_below }
    ensures equal { (a b : Value) → (total_order_of a b ≡ Equal) ↔ (a ≡ b) }
    ensures same { (a b : Value) (order : Ordering) → order_of a b ≡ Some order → total_order_of a b ≡ order }
{}
