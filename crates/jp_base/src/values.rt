ghost use Rattle.std.specs.Prelude.{◌≡◌, IfOk};
ghost use Rattle.jp_base.specs.Cells.{value_of_cell};

use crate::{Cell, Memory, Txt};
use sqlite_items::Items;
use std::alloc::Global;

/// The type of a column or an expression.
#[derive(Clone, Copy, Debug, PartialEq, Eq)]
pub enum Ty {
    Number,
    Boolean,
    Text,
}

/// A value of a row. NULL has every type.
#[derive(Debug, Drop)]
pub enum Value {
    Null,
    /// A whole number. Columns hold 64 bits, expressions 128.
    Num(i128),
    Bool(bool),
    Text(Txt),
}

/// The values of one row, a place for each column.
pub type Row = Items<Value>;

impl Value {
    /// The value, lent.
    pub fn cell(&self) -> Cell<'_>
        ensures { value_of_cell result ≡ self.now }
    {
        match self {
            Value::Null => Cell::Null,
            Value::Num(number) => Cell::Num(*number),
            Value::Bool(truth) => Cell::Bool(*truth),
            Value::Text(text) => Cell::Text(text.as_str()),
        }
    }

    /// An equal value, in memory of its own.
    pub fn copy(&self, alloc: Global) -> Result<Value, Memory>
        ensures { IfOk result (λ v. v ≡ self.now) }
    {
        let copy = self.cell().to_value(alloc)?;
        Ok(copy)
    }
}
