ghost use Rattle.std.specs.Prelude.{◌≡◌, ◌<◌, [], map, true, false, Some, None, IfOk, MatchOption, length};
ghost use Rattle.std.specs.List.{slice_index_or};
ghost use Rattle.std.specs.Str.{bytes_eq, is_utf8};
ghost use Rattle.jp_base.specs.Cells.{value_of_cell};
ghost use Rattle.jp_base.specs.declared.values.Value.TheVariants as value;
ghost use Rattle.jp_base.specs.declared.values.Ty.TheVariants as column_ty;
ghost use Rattle.jp_table.specs.Columns.{stored_of};
ghost use Rattle.jp_table.specs.Fields.{number_of, truth_of, value_of_field};
ghost use Rattle.jp_table.specs.Loading.{bad_field};
ghost use Rattle.jp_table.specs.Storage.{Took, value_of_number, value_of_truth};

use crate::TableError;
use crate::texts::Texts;
use jp_base::{Cell, Memory, Ty};
use std::alloc::Global;
use std::marker::Model;

/// The field that stands for NULL.
const NULL_MARK: &[u8] = b"\\N";

/// A column of a table in memory. Contracts see its type and the value of each row.
#[derive(Drop)]
pub(crate) struct Column {
    cells: Cells,
}

/// The values of a column, in the form of its type. None is NULL.
#[derive(Drop)]
enum Cells {
    Numbers(Vec<Option<i64>>),
    Booleans(Vec<Option<bool>>),
    Texts(Texts),
}

impl Model for Column {
    ghost use Rattle.jp_table.specs.Columns.{stored_of};
    ghost use Rattle.jp_table.specs.Storage.{Stored};

    ghost Value = { Stored };

    ghost view = { λ c. stored_of c.cells };
}

impl Column {
    /// A column without rows.
    pub(crate) fn new(alloc: Global, ty: Ty) -> Column
        ensures { result ≡ (ty, []) }
    {
        let cells = match ty {
            Ty::Number => Cells::Numbers(Vec::new(alloc)),
            Ty::Boolean => Cells::Booleans(Vec::new(alloc)),
            Ty::Text => Cells::Texts(Texts::new(alloc)),
        };
        Column { cells }
    }

    /// Puts the value of a field at the end. False says that the field has no value of the column's type, and that
    /// the column is as it was.
    pub(crate) fn push(&mut self, field: &[u8]) -> Result<bool, Memory>
        ensures { IfOk result (Took (value_of_field self.old.0 field.now) self.old self.new) }
    {
        let taken = self.cells.push(field)?;
        Ok(taken)
    }

    /// The error of a field that has no value of the column's type, by its record and column.
    pub(crate) fn bad_field(&self, record_no: u64, column: u32) -> TableError
        ensures { result ≡ bad_field self.now.0 record_no column }
    {
        match &self.cells {
            Cells::Numbers(_) => TableError::BadNumber(record_no, column),
            Cells::Booleans(_) => TableError::BadBool(record_no, column),
            Cells::Texts(_) => TableError::NotUtf8(record_no, column),
        }
    }

    /// The cell of a row.
    pub(crate) fn cell(&self, row: usize) -> Cell<'_>
        requires { row < length self.now.1 }
        ensures { value_of_cell result ≡ slice_index_or self.now.1 row value.Null }
    {
        match &self.cells {
            Cells::Numbers(numbers) => number_cell(numbers, row),
            Cells::Booleans(truths) => truth_cell(truths, row),
            Cells::Texts(texts) => texts.cell(row),
        }
    }
}

impl Cells {
    fn push(&mut self, field: &[u8]) -> Result<bool, Memory>
        ensures { IfOk result (Took (value_of_field (stored_of self.old).0 field.now) (stored_of self.old) (stored_of self.new)) }
    {
        match self {
            Cells::Numbers(numbers) => {
                let taken = push_number(numbers, field)?;
                Ok(taken)
            }
            Cells::Booleans(truths) => {
                let taken = push_truth(truths, field)?;
                Ok(taken)
            }
            Cells::Texts(texts) => {
                let taken = push_text(texts, field)?;
                Ok(taken)
            }
        }
    }
}

fn number_cell(numbers: &[Option<i64>], row: usize) -> Cell<'_>
    requires { row < length numbers.now }
    ensures { value_of_cell result ≡ slice_index_or (map value_of_number numbers.now) row value.Null }
{
    match numbers[row] {
        Some(number) => Cell::Num(i128::from(number)),
        None => Cell::Null,
    }
}

fn truth_cell(truths: &[Option<bool>], row: usize) -> Cell<'_>
    requires { row < length truths.now }
    ensures { value_of_cell result ≡ slice_index_or (map value_of_truth truths.now) row value.Null }
{
    match truths[row] {
        Some(truth) => Cell::Bool(truth),
        None => Cell::Null,
    }
}

fn push_number(numbers: &mut Vec<Option<i64>>, field: &[u8]) -> Result<bool, Memory>
    ensures { IfOk result (Took (value_of_field column_ty.Number field.now) (column_ty.Number, map value_of_number numbers.old.items) (column_ty.Number, map value_of_number numbers.new.items)) }
{
    let Some(number) = read_number(field) else {
        return Ok(false);
    };
    numbers.push(number)?;
    Ok(true)
}

fn push_truth(truths: &mut Vec<Option<bool>>, field: &[u8]) -> Result<bool, Memory>
    ensures { IfOk result (Took (value_of_field column_ty.Boolean field.now) (column_ty.Boolean, map value_of_truth truths.old.items) (column_ty.Boolean, map value_of_truth truths.new.items)) }
{
    let Some(truth) = read_truth(field) else {
        return Ok(false);
    };
    truths.push(truth)?;
    Ok(true)
}

fn push_text(texts: &mut Texts, field: &[u8]) -> Result<bool, Memory>
    ensures { IfOk result (Took (value_of_field column_ty.Text field.now) (column_ty.Text, texts.old) (column_ty.Text, texts.new)) }
{
    if field == NULL_MARK {
        texts.push_null()?;
        return Ok(true);
    }
    let Some(text) = read_text(field) else {
        return Ok(false);
    };
    texts.push(text)?;
    Ok(true)
}

/// What a field of a number column says: Some(None) is NULL, and None no number.
fn read_number(field: &[u8]) -> Option<Option<i64>>
    ensures { MatchOption result (value_of_field column_ty.Number field.now ≡ None) (λ number. value_of_field column_ty.Number field.now ≡ Some (value_of_number number)) }
{
    if field.is_empty() || field == NULL_MARK {
        return Some(None);
    }
    match parse_number(field) {
        Some(number) => Some(Some(number)),
        None => None,
    }
}

/// The number that the bytes write in decimal.
fn parse_number(field: &[u8]) -> Option<i64>
    ensures { result ≡ number_of field.now }
{
    match str::from_utf8(field) {
        Ok(text) => text.parse::<i64>().ok(),
        Err(_) => None,
    }
}

/// What a field of a boolean column says: Some(None) is NULL, and None no truth value.
fn read_truth(field: &[u8]) -> Option<Option<bool>>
    ensures { MatchOption result (value_of_field column_ty.Boolean field.now ≡ None) (λ truth. value_of_field column_ty.Boolean field.now ≡ Some (value_of_truth truth)) }
{
    if field.is_empty() || field == NULL_MARK {
        return Some(None);
    }
    match parse_truth(field) {
        Some(truth) => Some(Some(truth)),
        None => None,
    }
}

/// The truth value that the bytes name.
fn parse_truth(field: &[u8]) -> Option<bool>
    ensures { result ≡ truth_of field.now }
{
    if is_word(field, "t") {
        return Some(true);
    }
    if is_word(field, "true") {
        return Some(true);
    }
    if is_word(field, "f") {
        return Some(false);
    }
    if is_word(field, "false") {
        return Some(false);
    }
    None
}

fn is_word(field: &[u8], word: &str) -> bool
    ensures { result ≡ bytes_eq field.now word.now }
{
    field == word.as_bytes()
}

/// The bytes as a text, None where they aren't UTF-8.
fn read_text(field: &[u8]) -> Option<&str>
    ensures { MatchOption result (is_utf8 field.now ≡ false) (λ text. (text.now ≡ field.now) × (is_utf8 field.now ≡ true)) }
{
    match str::from_utf8(field) {
        Ok(text) => Some(text),
        Err(_) => None,
    }
}
