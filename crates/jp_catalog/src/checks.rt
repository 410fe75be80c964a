//! The checks that serve for any table of the text.
ghost use Rattle.std.specs.Prelude.{◌≡◌};
ghost use Rattle.std.specs.Option.{option_map};
ghost use Rattle.toml.specs.Data.{get_member};
ghost use Rattle.toml.specs.View.{view, table_view};
ghost use Rattle.jp_catalog.specs.Paths.{path_of};
ghost use Rattle.jp_catalog.specs.Reading.{Agrees, name_fits, pointed_to, text_read, unknown_key};

use crate::CatalogError;
use crate::level::Level;
use crate::place::Place;
use std::alloc::Global;
use toml::{Table, Value};

/// The value at a key.
pub(crate) fn value_at<'a>(table: &'a Table, key: &str) -> Option<&'a Value>
    ensures { option_map (λ v. view v.now) result ≡ get_member key.now (table_view table.now) }
{
    table.get(key)
}

/// The first key that the format doesn't have there, in ascending order.
pub(crate) fn unknown_key(level: Level, table: &Table) -> Option<&str>
    ensures { option_map (λ key. key.now) result ≡ unknown_key level (table_view table.now) }
{
    for (key, _) in table.iter() {
        if !level.has_key(key.as_str()) {
            return Some(key.as_str());
        }
    }
    None
}

/// The text at a key that must be there.
pub(crate) fn text_at<'a>(
    alloc: Global,
    table: &'a Table,
    key: &str,
    place: Place<'_>,
) -> Result<&'a str, CatalogError>
    ensures { Agrees (pointed_to result) (text_read (path_of place.entry) (get_member key.now (table_view table.now))) }
{
    let Some(value) = value_at(table, key) else {
        return Err(CatalogError::Missing(place.path(alloc)?));
    };
    match value.as_str() {
        Some(text) => Ok(text),
        None => Err(CatalogError::BadType(place.path(alloc)?)),
    }
}

/// Refuses the name of a table or a column unless it has 1 to 63 bytes.
pub(crate) fn check_name(alloc: Global, name: &str, place: Place<'_>) -> Result<(), CatalogError>
    ensures { Agrees result (name_fits (path_of place.entry) name.now) }
{
    if name.is_empty() || name.len() > 63 {
        return Err(CatalogError::BadName(place.path(alloc)?));
    }
    Ok(())
}
