ghost use Rattle.std.specs.Prelude.{◌≡◌, Some, None, if◌then◌else◌, IfOk};
ghost use Rattle.std.specs.Option.{option_map};
ghost use Rattle.std.specs.Str.{is_utf8};
ghost use Rattle.toml.specs.View.{view, table_view};
ghost use Rattle.jp_catalog.specs.Names.{HasDistinctNames};
ghost use Rattle.jp_catalog.specs.Sound.{IsSound, AreOfSize};
ghost use Rattle.jp_catalog.specs.Reading.{Agrees, is_version, top_tables_read, document_read, catalogue_of};

use crate::checks::{unknown_key, value_at};
use crate::level::Level;
use crate::place::Place;
use crate::tables::read_tables;
use crate::{Catalog, CatalogError, TableDefs};
use std::alloc::Global;
use toml::{Table, Value};

/// The catalogue that a text says, or the first refusal in the order of checks: the text is TOML; `version`;
/// unknown keys at the top, ascending; `tables`; each table, ascending by name.
pub fn read_catalog(alloc: Global, bytes: &[u8]) -> Result<Catalog, CatalogError>
    ensures agrees { Agrees result (catalogue_of bytes.now) }
    ensures sound { IfOk result IsSound }
    ensures size { IfOk result AreOfSize }
{
    let Some(text) = as_text(bytes) else {
        return Err(CatalogError::NotToml);
    };
    match toml::table_from_str(alloc, text) {
        Ok(top) => {
            let catalog = read_document(alloc, &top)?;
            Ok(catalog)
        }
        Err(error) if error.is_memory() => Err(CatalogError::Memory),
        Err(_) => Err(CatalogError::NotToml),
    }
}

/// The bytes as a text, where they are UTF-8.
fn as_text(bytes: &[u8]) -> Option<&str>
    ensures { option_map (λ s. s.now) result ≡ (if is_utf8 bytes.now then Some bytes.now else None) }
{
    match std::str::from_utf8(bytes) {
        Ok(text) => Some(text),
        Err(_) => None,
    }
}

/// The catalogue of a TOML document.
fn read_document(alloc: Global, top: &Table) -> Result<Catalog, CatalogError>
    ensures agrees { Agrees result (document_read (Some (table_view top.now))) }
    ensures names { IfOk result (λ catalog. HasDistinctNames catalog.tables) }
{
    if !is_version(value_at(top, "version")) {
        return Err(CatalogError::Version);
    }
    if let Some(key) = unknown_key(Level::Top, top) {
        return Err(CatalogError::UnknownKey(Place::Top(key).path(alloc)?));
    }
    let tables = read_top_tables(alloc, value_at(top, "tables"))?;
    Ok(Catalog { tables })
}

/// Whether the value is the version of the format.
fn is_version(value: Option<&Value>) -> bool
    ensures { result ≡ is_version (option_map (λ v. view v.now) value.entry) }
{
    match value {
        Some(value) => value.as_integer() == Some(1),
        None => false,
    }
}

/// The tables of the document.
fn read_top_tables(alloc: Global, value: Option<&Value>) -> Result<TableDefs, CatalogError>
    ensures agrees { Agrees result (top_tables_read (option_map (λ v. view v.now) value.entry)) }
    ensures names { IfOk result HasDistinctNames }
{
    let place = Place::Top("tables");
    let Some(value) = value else {
        return Err(CatalogError::Missing(place.path(alloc)?));
    };
    let Some(tables) = value.as_table() else {
        return Err(CatalogError::BadType(place.path(alloc)?));
    };
    let defs = read_tables(alloc, tables)?;
    Ok(defs)
}
