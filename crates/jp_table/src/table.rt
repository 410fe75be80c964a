ghost use Rattle.std.specs.Prelude.{◌≡◌, ◌<◌, [], All, length};
ghost use Rattle.std.specs.List.{slice_index_or};
ghost use Rattle.jp_base.specs.Cells.{value_of_cell};
ghost use Rattle.jp_table.specs.Storage.{cell_at};

use crate::column::Column;
use jp_base::Cell;
use sqlite_items::Items;
use std::marker::Model;

/// A data file in memory, column by column. Contracts see the list of its rows, each the list of its values.
#[derive(Drop)]
pub struct Table {
    pub(crate) columns: Vec<Column>,
    pub(crate) rows: u64,
}

impl Model for Table {
    ghost use Rattle.std.specs.Prelude.{List};
    ghost use Rattle.jp_base.specs.declared.values.Value.{Value as Datum};
    ghost use Rattle.jp_table.specs.Storage.{HaveRows, rows_of};

    ghost Value = { List (List Datum) };

    ghost view = { λ t. rows_of t.columns.items t.rows };

    ghost invariant = { λ t. HaveRows t.rows t.columns.items };
}

impl Table {
    /// How many rows there are.
    pub fn rows(&self) -> u64
        ensures { result ≡ length self.now }
    {
        self.rows
    }

    /// How many columns each row has.
    pub fn width(&self) -> usize
        ensures { All (λ row. length row ≡ result) self.now }
    {
        self.columns.len()
    }

    /// The cell of a row and a column, both counted from 0 in the order of the file.
    pub fn cell(&self, row: u64, col: u32) -> Cell<'_>
        requires row_there { row < length self.now }
        requires col_there { col < length (slice_index_or self.now row []) }
        ensures { value_of_cell result ≡ cell_at self.now row col }
    {
        self.columns[col as usize].cell(row as usize)
    }
}

/// The tables of a catalogue, a place for each in its order. A place is None where the table isn't loaded.
#[derive(Drop)]
pub struct Tables {
    pub list: Items<Option<Table>>,
}
