ghost use Rattle.jp_catalog.specs.Paths.{path_of};
ghost use Rattle.jp_catalog.specs.Reading.{Agrees};

use crate::CatalogError;
use jp_base::Txt;
use std::alloc::Global;

/// A place in a catalogue. Entries of `columns` and of `unique` are counted from 0.
#[derive(Clone, Copy)]
pub(crate) enum Place<'a> {
    /// A key at the top.
    Top(&'a str),
    /// A table.
    Table(&'a str),
    /// A key of a table.
    Field(&'a str, &'a str),
    /// An entry of a table's `columns`.
    Column(&'a str, usize),
    /// A key of an entry of a table's `columns`.
    ColumnField(&'a str, usize, &'a str),
    /// An entry of a table's `unique`.
    Unique(&'a str, usize),
}

impl Place<'_> {
    /// The path that names the place, as `tables.a.columns[1].type`.
    pub(crate) fn path(self, alloc: Global) -> Result<Txt, CatalogError>
        ensures { Agrees result (Ok (path_of self.entry)) }
    {
        let text = match self {
            Place::Top(key) => format!(in alloc; "{key}"),
            Place::Table(table) => format!(in alloc; "tables.{table}"),
            Place::Field(table, key) => format!(in alloc; "tables.{table}.{key}"),
            Place::Column(table, i) => format!(in alloc; "tables.{table}.columns[{i}]"),
            Place::ColumnField(table, i, key) => {
                format!(in alloc; "tables.{table}.columns[{i}].{key}")
            }
            Place::Unique(table, i) => format!(in alloc; "tables.{table}.unique[{i}]"),
        };
        match text {
            Ok(text) => {
                let path = text_of(alloc, text.as_str())?;
                Ok(path)
            }
            Err(_) => Err(CatalogError::Memory),
        }
    }
}

/// The same bytes, in memory of its own.
pub(crate) fn text_of(alloc: Global, text: &str) -> Result<Txt, CatalogError>
    ensures { Agrees result (Ok text.now) }
{
    match Txt::new(alloc, text) {
        Ok(text) => Ok(text),
        Err(_) => Err(CatalogError::Memory),
    }
}
