ghost use Rattle.std.specs.Prelude.{◌≡◌, ◌<◌, ◌≤◌, ◌^◌, [], All, IfOk, length, map};
ghost use Rattle.std.specs.List.{slice_index_or};
ghost use Rattle.csv.specs.Records.{fields_of};
ghost use Rattle.jp_base.specs.declared.values.Ty.TheVariants as ty;
ghost use Rattle.jp_catalog.specs.Sound.{IsSoundTable};
ghost use Rattle.jp_table.specs.Judging.{HasColumns, after_keys, first_refusal, keys_hold, rows_read};
ghost use Rattle.jp_table.specs.Keys.{KeysHold};
ghost use Rattle.jp_table.specs.Loading.{Agrees, column_types, row_read, table_of, values_from};
ghost use Rattle.jp_table.specs.Rows.{IsRowOf};
ghost use Rattle.jp_table.specs.Storage.{AllHave, Pushes, types_of};

use crate::column::Column;
use crate::header::{field_at, is_header};
use crate::keys::refusal_of_keys;
use crate::records::Records;
use crate::{Table, TableError};
use csv::ByteRecord;
use jp_base::Memory;
use jp_catalog::{Columns, Key, TableDef};
use std::alloc::Global;

/// The table of a data file's bytes, judged against its definition. A byte order mark at the start of the file
/// is no part of it. Records are judged one after the other, each by its number of fields, its fields from left to
/// right, NULL in the primary key, and repeated keys in their order, the primary key first; the error is the first.
/// Keys are judged when all records before the first bad one are read.
pub fn load(alloc: Global, def: &TableDef, bytes: &[u8]) -> Result<Table, TableError>
    requires sound { IsSoundTable def.now }
    requires numbered { length def.now.columns < 2 ^ 32 }
    ensures table { Agrees result (table_of def.now bytes.now) }
    ensures fits { IfOk result (λ table. All (IsRowOf (column_types def.now)) table) }
    ensures keys { IfOk result (KeysHold def.now) }
{
    let mut records = Records::new(alloc, bytes);
    let mut fields = ByteRecord::new(alloc);
    if !records.read(&mut fields)? {
        return Err(TableError::Header);
    }
    if !is_header(&def.columns, &fields) {
        return Err(TableError::Header);
    }
    let columns = empty_columns(alloc, &def.columns)?;
    let loaded = load_rows(&mut records, &mut fields, columns)?;
    judge_keys(alloc, def.keys.as_slice(), loaded)
}

/// A column without rows for each column of the definition.
fn empty_columns(alloc: Global, columns: &Columns) -> Result<Vec<Column>, Memory>
    ensures { IfOk result (λ v. v.items ≡ map (λ column. (column.1, [])) columns.now) }
{
    let mut made = Vec::new(alloc);
    for i in 0..columns.len() {
        made.push(empty_column(alloc, columns, i))?;
    }
    Ok(made)
}

/// The column at a place of the definition, without rows.
fn empty_column(alloc: Global, columns: &Columns, i: usize) -> Column
    requires { i < length columns.now }
    ensures { result ≡ ((slice_index_or columns.now i ([], ty.Number)).1, []) }
{
    match columns.get_index(i) {
        Some((_, ty)) => Column::new(alloc, *ty),
        None => unreachable!(),
    }
}

/// The rows before the first record that gives none, and why it gives none.
#[derive(Drop)]
struct Loaded {
    table: Table,
    stop: Option<TableError>,
}

/// The rows of the records that are left, over columns without rows.
fn load_rows(
    records: &mut Records<'_>,
    fields: &mut ByteRecord,
    mut columns: Vec<Column>,
) -> Result<Loaded, Memory>
    requires few { length records.old < 2 ^ 64 }
    requires numbered { length columns.items < 2 ^ 32 }
    requires empty { AllHave 0 columns.items }
    ensures { IfOk result (λ loaded. (loaded.table, loaded.stop) ≡ rows_read (types_of columns.items) 0 records.old) }
{
    let mut rows = 0;
    'rows: while records.read(fields)? {
        match push_row(&mut columns, fields, rows + 1)? {
            None => rows += 1,
            Some(refusal) => {
                return Ok(Loaded {
                    table: Table { columns, rows },
                    stop: Some(refusal),
                });
            }
        }
    }
    Ok(Loaded {
        table: Table { columns, rows },
        stop: None,
    })
}

/// Puts the values of a record at the ends of the columns. Where it gives no row, its refusal is the answer, and
/// some columns may have a value more.
fn push_row(
    columns: &mut Vec<Column>,
    fields: &ByteRecord,
    record_no: u64,
) -> Result<Option<TableError>, Memory>
    requires { length columns.old.items < 2 ^ 32 }
    ensures { IfOk result (Pushes (row_read (types_of columns.old.items) record_no (fields_of fields.now)) columns.old.items columns.new.items) }
{
    if fields.len() != columns.len() {
        return Ok(Some(TableError::FieldCount(record_no, fields.len() as u64)));
    }
    let refusal = push_fields(columns, fields, record_no)?;
    Ok(refusal)
}

/// The same where there is a field for each column.
fn push_fields(
    columns: &mut Vec<Column>,
    fields: &ByteRecord,
    record_no: u64,
) -> Result<Option<TableError>, Memory>
    requires numbered { length columns.old.items < 2 ^ 32 }
    requires one_each { length (fields_of fields.now) ≡ length columns.old.items }
    ensures { IfOk result (Pushes (values_from (types_of columns.old.items) record_no 1 (fields_of fields.now)) columns.old.items columns.new.items) }
{
    for i in 0..columns.len() {
        if !columns[i].push(field_at(fields, i))? {
            return Ok(Some(columns[i].bad_field(record_no, i as u32 + 1)));
        }
    }
    Ok(None)
}

/// The table that was loaded, where its keys hold and no record stopped it.
fn judge_keys(alloc: Global, keys: &[Key], loaded: Loaded) -> Result<Table, TableError>
    requires { All (HasColumns loaded.table) keys.now }
    ensures { Agrees result (after_keys (first_refusal (keys_hold keys.now) [] loaded.table) (loaded.table, loaded.stop)) }
{
    let Loaded { table, stop } = loaded;
    if let Some(refusal) = refusal_of_keys(alloc, keys, &table)? {
        return Err(refusal);
    }
    if let Some(refusal) = stop {
        return Err(refusal);
    }
    Ok(table)
}
