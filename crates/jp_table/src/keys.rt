ghost use Rattle.std.specs.Prelude.{◌≡◌, ◌<◌, ◌∷◌, [], All, IfOk, MatchOption, filter, length, map, true};
ghost use Rattle.std.specs.List.{list_any, slice_index_or};
ghost use Rattle.jp_table.specs.Judging.{HasColumns, first_refusal, is_kind, keys_hold, no_null, no_repeat, record_of, sooner};
ghost use Rattle.jp_table.specs.Loading.{has_null, is_primary, key_values};
ghost use Rattle.jp_table.specs.Parts.{value_of_part};

use crate::part::{Part, part_of};
use crate::{Table, TableError};
use jp_base::{Cell, Memory};
use jp_catalog::Key;
use std::alloc::Global;
use std::collections::HashMap;

/// The first refusal that the keys give for the rows, None where all of them hold.
pub(crate) fn refusal_of_keys(
    alloc: Global,
    keys: &[Key],
    table: &Table,
) -> Result<Option<TableError>, Memory>
    requires { All (HasColumns table.now) keys.now }
    ensures { IfOk result (λ refusal. refusal ≡ first_refusal (keys_hold keys.now) [] table.now) }
{
    let null = first_null(keys, table);
    let primary = first_repeat(alloc, keys, table, true)?;
    let other = first_repeat(alloc, keys, table, false)?;
    Ok(first_of(null, first_of(primary, other)))
}

/// The refusal of the earlier record; of two in one record, `a`.
fn first_of(a: Option<TableError>, b: Option<TableError>) -> Option<TableError>
    ensures { result ≡ sooner a b }
{
    match a {
        None => b,
        Some(first) => match b {
            None => Some(first),
            Some(second) => {
                if record_number(second) < record_number(first) {
                    Some(second)
                } else {
                    Some(first)
                }
            }
        },
    }
}

/// The record in which a refusal comes, 0 for one that names no record.
fn record_number(refusal: TableError) -> u64
    ensures { result ≡ record_of refusal }
{
    match refusal {
        TableError::Header => 0,
        TableError::FieldCount(record, _) => record,
        TableError::BadNumber(record, _) => record,
        TableError::BadBool(record, _) => record,
        TableError::NotUtf8(record, _) => record,
        TableError::NullInKey(record) => record,
        TableError::KeyRepeated(_, record) => record,
        TableError::Memory => 0,
    }
}

/// The first record with a NULL in a primary key.
fn first_null(keys: &[Key], table: &Table) -> Option<TableError>
    requires { All (HasColumns table.now) keys.now }
    ensures { result ≡ first_refusal (no_null keys.now) [] table.now }
{
    'rows: for row in 0..table.rows() {
        if lacks_primary(keys, table, row) {
            return Some(TableError::NullInKey(row + 1));
        }
    }
    None
}

/// Whether the row has a NULL in a primary key.
fn lacks_primary(keys: &[Key], table: &Table, row: u64) -> bool
    requires row_there { row < length table.now }
    requires columns_there { All (HasColumns table.now) keys.now }
    ensures { result ≡ list_any (has_null (slice_index_or table.now row [])) (filter is_primary keys.now) }
{
    'keys: for key in keys {
        if key.primary {
            if lacks_part(key, table, row) {
                return true;
            }
        }
    }
    false
}

/// Whether the row has a NULL in the key.
fn lacks_part(key: &Key, table: &Table, row: u64) -> bool
    requires row_there { row < length table.now }
    requires columns_there { HasColumns table.now key.now }
    ensures { result ≡ has_null (slice_index_or table.now row []) key.now }
{
    let columns = key.columns.as_slice();
    'columns: for i in 0..columns.len() {
        if let Cell::Null = table.cell(row, columns[i]) {
            return true;
        }
    }
    false
}

/// The first record that repeats one in a key that is primary, or in one that isn't.
fn first_repeat(
    alloc: Global,
    keys: &[Key],
    table: &Table,
    primary: bool,
) -> Result<Option<TableError>, Memory>
    requires { All (HasColumns table.now) keys.now }
    ensures { IfOk result (λ refusal. refusal ≡ first_refusal (no_repeat (filter (is_kind primary) keys.now)) [] table.now) }
{
    let mut first = None;
    'keys: for key in keys {
        if is_of_kind(key, primary) {
            let repeat = repeat_in_key(alloc, key, table)?;
            first = first_of(first, repeat);
        }
    }
    Ok(first)
}

fn is_of_kind(key: &Key, primary: bool) -> bool
    ensures { result ≡ is_kind primary key.now }
{
    if primary { key.primary } else { !key.primary }
}

/// The first record that repeats one in the key.
fn repeat_in_key(alloc: Global, key: &Key, table: &Table) -> Result<Option<TableError>, Memory>
    requires { HasColumns table.now key.now }
    ensures { IfOk result (λ refusal. refusal ≡ first_refusal (no_repeat (key.now ∷ [])) [] table.now) }
{
    let mut seen: HashMap<Vec<Part<'_>>, u64> = HashMap::new(alloc);
    'rows: for row in 0..table.rows() {
        match parts_of(alloc, key, table, row)? {
            None => {}
            Some(parts) => match seen.insert(parts, row) {
                Ok(None) => {}
                Ok(Some(earlier)) => return Ok(Some(TableError::KeyRepeated(earlier + 1, row + 1))),
                Err(_) => return Err(Memory),
            },
        }
    }
    Ok(None)
}

/// The values of a row in the key, None where one is NULL.
fn parts_of<'t>(
    alloc: Global,
    key: &Key,
    table: &'t Table,
    row: u64,
) -> Result<Option<Vec<Part<'t>>>, Memory>
    requires row_there { row < length table.now }
    requires columns_there { HasColumns table.now key.now }
    ensures { IfOk result (λ found. MatchOption found
        (has_null (slice_index_or table.now row []) key.now ≡ true)
        (λ parts. map value_of_part parts.items ≡ key_values key.now (slice_index_or table.now row []))) }
{
    let columns = key.columns.as_slice();
    let mut parts = Vec::with_capacity(alloc, columns.len())?;
    'columns: for i in 0..columns.len() {
        match part_of(table.cell(row, columns[i])) {
            None => return Ok(None),
            Some(part) => parts.push(part)?,
        }
    }
    Ok(Some(parts))
}
