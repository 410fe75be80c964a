ghost use Rattle.std.specs.Prelude.{◌≡◌, MatchOption};
ghost use Rattle.jp_base.specs.Cells.{value_of_cell};
ghost use Rattle.jp_base.specs.declared.values.Value.TheVariants as value;
ghost use Rattle.jp_table.specs.Parts.{value_of_part};

use jp_base::Cell;

/// The value of a row in a column of a key, which isn't NULL. A text is lent by the table.
#[derive(Clone, Copy, PartialEq, Eq, Hash)]
pub(crate) enum Part<'t> {
    Number(i128),
    Boolean(bool),
    Text(&'t str),
}

/// What a cell gives to a key, None where it is NULL.
pub(crate) fn part_of(cell: Cell<'_>) -> Option<Part<'_>>
    ensures { MatchOption result (value_of_cell cell.entry ≡ value.Null) (λ found. value_of_part found ≡ value_of_cell cell.entry) }
{
    match cell {
        Cell::Null => None,
        Cell::Num(number) => Some(Part::Number(number)),
        Cell::Bool(truth) => Some(Part::Boolean(truth)),
        Cell::Text(text) => Some(Part::Text(text)),
    }
}
