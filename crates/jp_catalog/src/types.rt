use crate::Named;
use jp_base::{Txt, Ty};
use sqlite_items::Items;

/// The tables of a catalogue by their names, ascending.
pub type TableDefs = Named<TableDef>;

/// The columns of a table by their names, in the order of the file.
pub type Columns = Named<Ty>;

/// What is said of a set of tables.
#[derive(Drop)]
pub struct Catalog {
    pub tables: TableDefs,
}

/// What is said of one table.
#[derive(Drop)]
pub struct TableDef {
    /// The name of the CSV file.
    pub file: Txt,
    /// The stated number of rows, from 1 to 4294967295. It feeds the estimates and isn't compared with the file.
    pub rows: u32,
    /// The columns; a catalogue that is read gives from 1 to 64.
    pub columns: Columns,
    /// The keys, of which a read catalogue gives the primary key first.
    pub keys: Items<Key>,
}

/// Columns in which no two rows of a table agree without a NULL.
#[derive(Drop)]
pub struct Key {
    /// The places of the columns in the table, counted from 0, in the order in which the key names them.
    pub columns: Items<u32>,
    /// Whether NULL is refused too.
    pub primary: bool,
}
