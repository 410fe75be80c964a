ghost use Rattle.std.specs.Prelude.{◌≡◌, ◌≤◌, [], length, IfOk};
ghost use Rattle.std.specs.Option.{option_map};
ghost use Rattle.toml.specs.View.{view, items_view};
ghost use Rattle.jp_catalog.specs.Names.{value_of};
ghost use Rattle.jp_catalog.specs.Paths.{path_of};
ghost use Rattle.jp_catalog.specs.Reading.{Agrees, type_read, column_read, columns_after, entries_read, columns_read};

use crate::checks::{check_name, text_at, unknown_key};
use crate::level::Level;
use crate::place::{Place, text_of};
use crate::{CatalogError, Columns};
use indexmap::IndexMap;
use jp_base::{Txt, Ty};
use std::alloc::Global;
use toml::Value;

/// The most columns that a table may have.
const MOST_COLUMNS: usize = 64;

/// The columns of a table, of which there are 1 to 64.
pub(crate) fn read_columns(
    alloc: Global,
    table: &str,
    value: Option<&Value>,
) -> Result<Columns, CatalogError>
    ensures agrees { Agrees result (columns_read table.now (option_map (λ v. view v.now) value.entry)) }
    ensures few { IfOk result (λ columns. length columns ≤ 64) }
{
    let place = Place::Field(table, "columns");
    let Some(value) = value else {
        return Err(CatalogError::Missing(place.path(alloc)?));
    };
    let Some(entries) = value.as_array() else {
        return Err(CatalogError::BadType(place.path(alloc)?));
    };
    let columns = read_list(alloc, table, entries)?;
    Ok(columns)
}

/// The columns of a list of 1 to 64 entries.
#[tactic(auto, using(crate::proofs::Steps::count_of_items))]
fn read_list(alloc: Global, table: &str, entries: &[Value]) -> Result<Columns, CatalogError>
    ensures agrees { Agrees result (entries_read table.now (items_view entries.now)) }
    ensures few { IfOk result (λ columns. length columns ≤ 64) }
{
    let place = Place::Field(table, "columns");
    if entries.is_empty() {
        return Err(CatalogError::BadType(place.path(alloc)?));
    }
    if entries.len() > MOST_COLUMNS {
        return Err(CatalogError::TooManyColumns(place.path(alloc)?));
    }
    let columns = read_entries(alloc, table, entries)?;
    Ok(columns)
}

/// The columns of the entries, in their order.
fn read_entries(alloc: Global, table: &str, entries: &[Value]) -> Result<Columns, CatalogError>
    ensures agrees { Agrees result (columns_after table.now [] (items_view entries.now)) }
    ensures one_each { IfOk result (λ columns. length columns ≡ length entries.now) }
{
    let mut columns = IndexMap::new(alloc);
    for entry in entries {
        let (name, ty) = read_column(alloc, table, &columns, entry)?;
        match columns.insert(name, ty) {
            Ok(_) => {}
            Err(_) => return Err(CatalogError::Memory),
        }
    }
    Ok(Columns::from_map(columns))
}

/// The column of an entry, after those found.
fn read_column(
    alloc: Global,
    table: &str,
    found: &IndexMap<Txt, Ty>,
    entry: &Value,
) -> Result<(Txt, Ty), CatalogError>
    ensures agrees { Agrees result (column_read table.now found.now.entries (view entry.now)) }
    ensures new { IfOk result (λ column. value_of column.0 found.now.entries ≡ None) }
{
    let i = found.len();
    let Some(fields) = entry.as_table() else {
        return Err(CatalogError::BadType(Place::Column(table, i).path(alloc)?));
    };
    if let Some(key) = unknown_key(Level::Column, fields) {
        let place = Place::ColumnField(table, i, key);
        return Err(CatalogError::UnknownKey(place.path(alloc)?));
    }
    let place = Place::ColumnField(table, i, "name");
    let text = text_at(alloc, fields, "name", place)?;
    check_name(alloc, text, place)?;
    let name = text_of(alloc, text)?;
    if found.contains_key(&name) {
        return Err(CatalogError::DuplicateColumn(place.path(alloc)?));
    }
    let place = Place::ColumnField(table, i, "type");
    let word = text_at(alloc, fields, "type", place)?;
    let ty = read_type(alloc, word, place)?;
    Ok((name, ty))
}

/// The type that a word names.
fn read_type(alloc: Global, word: &str, place: Place<'_>) -> Result<Ty, CatalogError>
    ensures { Agrees result (type_read (path_of place.entry) word.now) }
{
    match word {
        "number" => Ok(Ty::Number),
        "boolean" => Ok(Ty::Boolean),
        "text" => Ok(Ty::Text),
        _ => Err(CatalogError::BadType(place.path(alloc)?)),
    }
}
