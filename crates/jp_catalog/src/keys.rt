ghost use Rattle.std.specs.Prelude.{◌≡◌, ◌≤◌, [], length};
ghost use Rattle.std.specs.Option.{option_map};
ghost use Rattle.toml.specs.View.{view, items_view, table_view};
ghost use Rattle.jp_catalog.specs.Paths.{path_of};
ghost use Rattle.jp_catalog.specs.Reading.{Agrees, place_read, key_column_read, places_after, names_read, key_read, primary_read, unique_from, unique_read, keys_read};

use crate::checks::value_at;
use crate::place::Place;
use crate::{CatalogError, Columns, Key};
use sqlite_items::Items;
use std::alloc::Global;
use toml::{Table, Value};

/// The keys of a table, the primary key first.
pub(crate) fn read_keys(
    alloc: Global,
    table: &str,
    columns: &Columns,
    fields: &Table,
) -> Result<Items<Key>, CatalogError>
    requires { length columns.now ≤ 64 }
    ensures { Agrees result (keys_read table.now columns.now (table_view fields.now)) }
{
    let mut keys = read_primary(alloc, table, columns, value_at(fields, "primary_key"))?;
    let unique = read_unique(alloc, table, columns, value_at(fields, "unique"))?;
    match keys.append(unique) {
        Ok(()) => Ok(keys),
        Err(_) => Err(CatalogError::Memory),
    }
}

/// The primary key, if the table has one.
fn read_primary(
    alloc: Global,
    table: &str,
    columns: &Columns,
    value: Option<&Value>,
) -> Result<Items<Key>, CatalogError>
    requires { length columns.now ≤ 64 }
    ensures { Agrees result (primary_read table.now columns.now (option_map (λ v. view v.now) value.entry)) }
{
    let mut keys = Items::new(alloc);
    if let Some(value) = value {
        let place = Place::Field(table, "primary_key");
        let key = read_key(alloc, columns, value, true, place)?;
        match keys.push(key) {
            Ok(()) => {}
            Err(_) => return Err(CatalogError::Memory),
        }
    }
    Ok(keys)
}

/// The other keys, in their order.
fn read_unique(
    alloc: Global,
    table: &str,
    columns: &Columns,
    value: Option<&Value>,
) -> Result<Items<Key>, CatalogError>
    requires { length columns.now ≤ 64 }
    ensures { Agrees result (unique_read table.now columns.now (option_map (λ v. view v.now) value.entry)) }
{
    let Some(value) = value else {
        return Ok(Items::new(alloc));
    };
    let Some(entries) = value.as_array() else {
        let place = Place::Field(table, "unique");
        return Err(CatalogError::BadType(place.path(alloc)?));
    };
    let keys = read_unique_entries(alloc, table, columns, entries)?;
    Ok(keys)
}

/// A key for each entry of `unique`.
fn read_unique_entries(
    alloc: Global,
    table: &str,
    columns: &Columns,
    entries: &[Value],
) -> Result<Items<Key>, CatalogError>
    requires { length columns.now ≤ 64 }
    ensures { Agrees result (unique_from table.now columns.now 0 (items_view entries.now)) }
{
    let mut keys = Items::new(alloc);
    for (i, entry) in entries.iter().enumerate() {
        let key = read_key(alloc, columns, entry, false, Place::Unique(table, i))?;
        match keys.push(key) {
            Ok(()) => {}
            Err(_) => return Err(CatalogError::Memory),
        }
    }
    Ok(keys)
}

/// The key that a list of names stands for.
fn read_key(
    alloc: Global,
    columns: &Columns,
    value: &Value,
    primary: bool,
    place: Place<'_>,
) -> Result<Key, CatalogError>
    requires { length columns.now ≤ 64 }
    ensures { Agrees result (key_read (path_of place.entry) columns.now primary (view value.now)) }
{
    let Some(names) = value.as_array() else {
        return Err(CatalogError::BadType(place.path(alloc)?));
    };
    let key = read_names(alloc, columns, names, primary, place)?;
    Ok(key)
}

/// The key of the names, of which there is one at least.
#[tactic(auto, using(crate::proofs::Steps::count_of_items))]
fn read_names(
    alloc: Global,
    columns: &Columns,
    names: &[Value],
    primary: bool,
    place: Place<'_>,
) -> Result<Key, CatalogError>
    requires { length columns.now ≤ 64 }
    ensures { Agrees result (names_read (path_of place.entry) columns.now primary (items_view names.now)) }
{
    if names.is_empty() {
        return Err(CatalogError::KeyColumn(place.path(alloc)?));
    }
    let columns = read_places(alloc, columns, names, place)?;
    Ok(Key { columns, primary })
}

/// The places of the columns that a key names.
fn read_places(
    alloc: Global,
    columns: &Columns,
    names: &[Value],
    place: Place<'_>,
) -> Result<Items<u32>, CatalogError>
    requires { length columns.now ≤ 64 }
    ensures { Agrees result (places_after (path_of place.entry) columns.now [] (items_view names.now)) }
{
    let mut places = Items::new(alloc);
    for name in names {
        let column = read_place(alloc, columns, places.as_slice(), name, place)?;
        match places.push(column) {
            Ok(()) => {}
            Err(_) => return Err(CatalogError::Memory),
        }
    }
    Ok(places)
}

/// The place of a column that a key names, which it hasn't named before.
fn read_place(
    alloc: Global,
    columns: &Columns,
    found: &[u32],
    value: &Value,
    place: Place<'_>,
) -> Result<u32, CatalogError>
    requires { length columns.now ≤ 64 }
    ensures { Agrees result (key_column_read (path_of place.entry) columns.now found.now (view value.now)) }
{
    let Some(name) = value.as_str() else {
        return Err(CatalogError::BadType(place.path(alloc)?));
    };
    let Some(column) = columns.position(name) else {
        return Err(CatalogError::KeyColumn(place.path(alloc)?));
    };
    let column = column as u32;
    if found.contains(&column) {
        return Err(CatalogError::KeyColumn(place.path(alloc)?));
    }
    Ok(column)
}
