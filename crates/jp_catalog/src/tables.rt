ghost use Rattle.std.specs.Prelude.{◌≡◌, OnOk, IfOk, IfErr};
ghost use Rattle.std.specs.Option.{option_map};
ghost use Rattle.std.specs.Str.{bytes_eq};
ghost use Rattle.indexmap.specs.IndexMap.{insert_entry};
ghost use Rattle.toml.specs.View.{view, table_view};
ghost use Rattle.jp_catalog.specs.Names.{HasDistinctNames};
ghost use Rattle.jp_catalog.specs.Paths.{path_of};
ghost use Rattle.jp_catalog.specs.Reading.{Agrees, rows_read, table_read, tables_read};

use crate::checks::{check_name, text_at, unknown_key, value_at};
use crate::columns::read_columns;
use crate::keys::read_keys;
use crate::level::Level;
use crate::place::{Place, text_of};
use crate::{CatalogError, TableDef, TableDefs};
use indexmap::IndexMap;
use jp_base::Txt;
use std::alloc::Global;
use toml::{Table, Value};

/// The tables, ascending by name.
pub(crate) fn read_tables(alloc: Global, tables: &Table) -> Result<TableDefs, CatalogError>
    ensures agrees { Agrees result (tables_read (table_view tables.now)) }
    ensures names { IfOk result HasDistinctNames }
{
    let mut defs = IndexMap::new(alloc);
    for (name, value) in tables.iter() {
        let def = read_table(alloc, name.as_str(), value)?;
        let name = text_of(alloc, name.as_str())?;
        put(&mut defs, name, def)?;
    }
    Ok(TableDefs::from_map(defs))
}

/// Puts a table in.
fn put(defs: &mut IndexMap<Txt, TableDef>, name: Txt, def: TableDef) -> Result<(), CatalogError>
    ensures put { OnOk result (defs.new.entries ≡ insert_entry bytes_eq defs.old.entries name def) }
    ensures memory { IfErr result (λ e. e ≡ CatalogError.Memory) }
{
    match defs.insert(name, def) {
        Ok(_) => Ok(()),
        Err(_) => Err(CatalogError::Memory),
    }
}

/// One table.
fn read_table(alloc: Global, name: &str, value: &Value) -> Result<TableDef, CatalogError>
    ensures { Agrees result (table_read name.now (view value.now)) }
{
    check_name(alloc, name, Place::Table(name))?;
    let Some(fields) = value.as_table() else {
        return Err(CatalogError::BadType(Place::Table(name).path(alloc)?));
    };
    if let Some(key) = unknown_key(Level::Table, fields) {
        return Err(CatalogError::UnknownKey(Place::Field(name, key).path(alloc)?));
    }
    let file = text_at(alloc, fields, "file", Place::Field(name, "file"))?;
    let file = text_of(alloc, file)?;
    let rows = read_rows(alloc, value_at(fields, "rows"), Place::Field(name, "rows"))?;
    let columns = read_columns(alloc, name, value_at(fields, "columns"))?;
    let keys = read_keys(alloc, name, &columns, fields)?;
    Ok(TableDef {
        file,
        rows,
        columns,
        keys,
    })
}

/// Stated rows, from 1 to 4294967295.
fn read_rows(alloc: Global, value: Option<&Value>, place: Place<'_>) -> Result<u32, CatalogError>
    ensures { Agrees result (rows_read (path_of place.entry) (option_map (λ v. view v.now) value.entry)) }
{
    let Some(value) = value else {
        return Err(CatalogError::Missing(place.path(alloc)?));
    };
    let Some(number) = value.as_integer() else {
        return Err(CatalogError::BadType(place.path(alloc)?));
    };
    match u32::try_from(number) {
        Ok(rows) if rows > 0 => Ok(rows),
        _ => Err(CatalogError::RowsOutOfRange(place.path(alloc)?)),
    }
}
