ghost use Rattle.std.specs.Prelude.{◌≡◌, ◌<◌, [], IfOk, Some, length};
ghost use Rattle.std.specs.List.{slice_index_or};
ghost use Rattle.jp_base.specs.Cells.{value_of_cell};
ghost use Rattle.jp_base.specs.declared.values.Value.{Value as Datum};
ghost use Rattle.jp_indexes.specs.Indexes.{IsIndex, has_cell};
ghost use Rattle.jp_joins.specs.Keys.{places_where, table_at};
ghost use Rattle.jp_query.specs.Meaning.{cell_in};
ghost use Rattle.jp_query.specs.Tables.{rows_of_tables};

use jp_base::{Cell, Memory};
use jp_joins::{Key, Listed, add_by_key, key_of, list_by_key};
use jp_table::{Table, Tables};
use std::alloc::Global;
use std::collections::HashMap;

/// The numbers of a table's rows, from 0 in the order of the file, by the value of one of its columns. The table is given
/// by its place in the catalogue, and the column by its place in the table, both from 0.
#[derive(Drop)]
pub struct Index<'k> {
    pub table: u32,
    pub col: u32,
    numbers: HashMap<Key<'k>, Listed<u64>>,
}

impl<'k> Index<'k> {
    /// The index of a column. A table that isn't loaded has no rows, and a column that isn't there is NULL in each row.
    /// The one error is want of memory.
    pub fn new(alloc: Global, tables: &'k Tables, table: u32, col: u32) -> Result<Index<'k>, Memory>
        ensures table { IfOk result (λ index. index.table ≡ table) }
        ensures col { IfOk result (λ index. index.col ≡ col) }
        ensures index { IfOk result (IsIndex tables.now.list) }
    {
        let numbers = match tables.list.get(table as usize) {
            Some(Some(stored)) => numbers_by_value(alloc, stored, col)?,
            _ => HashMap::new(alloc),
        };
        Ok(Index {
            table,
            col,
            numbers,
        })
    }

    /// The numbers of the rows whose cell is equal to this one, in their order; none for NULL.
    pub fn numbers(&self, cell: Cell<'k>) -> &[u64]
        ensures { result.now ≡ table_at self.now.numbers (value_of_cell cell.entry) }
    {
        list_by_key(&self.numbers, &key_of(cell))
    }
}

/// The numbers of the table's rows by the value of the column.
fn numbers_by_value<'k>(
    alloc: Global,
    table: &'k Table,
    col: u32,
) -> Result<HashMap<Key<'k>, Listed<u64>>, Memory>
    ensures { IfOk result (λ numbers. (v : Datum) → table_at numbers v ≡ places_where (has_cell col v) 0 table.now) }
{
    let mut numbers = HashMap::with_capacity(alloc, table.rows() as usize)?;
    'rows: for row in 0..table.rows() {
        let key = key_of(cell_of(table, row, col));
        add_by_key(alloc, &mut numbers, key, row)?;
    }
    Ok(numbers)
}

/// The cell of a row, NULL where there is no such column.
fn cell_of(table: &Table, row: u64, col: u32) -> Cell<'_>
    requires { row < length table.now }
    ensures { value_of_cell result ≡ cell_in (Some (slice_index_or table.now row [])) col }
{
    if (col as usize) < table.width() {
        table.cell(row, col)
    } else {
        Cell::Null
    }
}
