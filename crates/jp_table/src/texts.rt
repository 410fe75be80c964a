ghost use Rattle.std.specs.Prelude.{◌≡◌, ◌<◌, ◌++◌, ◌∷◌, [], OnOk, length};
ghost use Rattle.std.specs.List.{slice_index_or};
ghost use Rattle.jp_base.specs.Cells.{value_of_cell};
ghost use Rattle.jp_base.specs.declared.values.Value.TheVariants as value;

use jp_base::{Cell, Memory};
use std::alloc::Global;
use std::marker::Model;

/// The texts of a column, one after the other in one buffer. Contracts see the list of values.
#[derive(Drop)]
pub(crate) struct Texts {
    buffer: String,
    /// Where each text begins and ends in the buffer. None is NULL.
    places: Vec<Option<(usize, usize)>>,
}

impl Model for Texts {
    ghost use Rattle.std.specs.Prelude.{All, List, map, string_bytes};
    ghost use Rattle.jp_base.specs.declared.values.Value.{Value as Datum};
    ghost use Rattle.jp_table.specs.Texts.{IsPlace, text_at};

    ghost Value = { List Datum };

    ghost view = { λ t. map (text_at (string_bytes t.buffer)) t.places.items };

    ghost invariant = { λ t. All (IsPlace (string_bytes t.buffer)) t.places.items };
}

impl Texts {
    /// No texts yet.
    pub(crate) fn new(alloc: Global) -> Texts
        ensures { result ≡ [] }
    {
        Texts {
            buffer: String::new(alloc),
            places: Vec::new(alloc),
        }
    }

    /// Puts a text at the end.
    pub(crate) fn push(&mut self, text: &str) -> Result<(), Memory>
        ensures { OnOk result (self.new ≡ self.old ++ value.Text text.now ∷ []) }
    {
        let start = self.buffer.len();
        match self.buffer.push_str(text) {
            Ok(()) => {}
            Err(_) => return Err(Memory),
        }
        let end = self.buffer.len();
        match self.places.push(Some((start, end))) {
            Ok(()) => Ok(()),
            Err(_) => Err(Memory),
        }
    }

    /// Puts a NULL at the end.
    pub(crate) fn push_null(&mut self) -> Result<(), Memory>
        ensures { OnOk result (self.new ≡ self.old ++ value.Null ∷ []) }
    {
        self.places.push(None)?;
        Ok(())
    }

    /// The cell of a row.
    pub(crate) fn cell(&self, row: usize) -> Cell<'_>
        requires { row < length self.now }
        ensures { value_of_cell result ≡ slice_index_or self.now row value.Null }
    {
        match self.places[row] {
            Some((start, end)) => Cell::Text(&self.buffer.as_str()[start..end]),
            None => Cell::Null,
        }
    }
}
