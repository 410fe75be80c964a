ghost use Rattle.std.specs.Prelude.{◌≡◌, All, IfOk, OnOk};
ghost use Rattle.jp_items.specs.Sights.{sight_env};
ghost use Rattle.jp_joins.specs.Tuples.{map_of};
ghost use Rattle.jp_exec.specs.Cells.{AddsCell, IsGivenCell, IsHandedIn};
ghost use Rattle.jp_exec.specs.Interiors.{inside_env};

use crate::interior::Interior;
use jp_base::{Memory, RelNo, Value};
use jp_items::{Around, Params, Sight};
use jp_joins::Tuple;
use jp_table::Tables;
use std::alloc::Global;
use std::collections::BTreeMap;

/// What a block is run in at a tuple: the cells of these columns there, and which relations have a row.
pub fn handed_in<'e>(
    alloc: Global,
    tables: &'e Tables,
    around: &Around<'e>,
    interior: &'e Interior,
    tuple: Tuple<'_>,
    columns: &[(RelNo, u32)],
) -> Result<Params, Memory>
    ensures { IfOk result (λ p. IsHandedIn columns.now (inside_env tables.now.list around.now interior.now (map_of tuple.entry)) p) }
{
    let sight = sight_in(tables, around, interior);
    let cells = cells_at(alloc, &sight, tuple, columns)?;
    let present = sight.present(tuple);
    Ok(Params { cells, present })
}

/// What tuples stand for inside a block.
fn sight_in<'e>(tables: &'e Tables, around: &Around<'e>, interior: &'e Interior) -> Sight<'e>
    ensures tables { result.tables.now ≡ tables.now }
    ensures around { result.around ≡ around.now }
    ensures sources { result.sources.now ≡ interior.now.sources.items }
    ensures layout { result.layout.now ≡ interior.now.layout }
{
    Sight {
        tables,
        around: Around {
            cells: around.cells,
            present: around.present,
        },
        sources: interior.sources.as_slice(),
        layout: &interior.layout,
    }
}

/// The cells of the columns at a tuple.
fn cells_at(
    alloc: Global,
    sight: &Sight<'_>,
    tuple: Tuple<'_>,
    columns: &[(RelNo, u32)],
) -> Result<BTreeMap<(RelNo, u32), Value>, Memory>
    ensures { IfOk result (λ cells. All (IsGivenCell (sight_env sight.now (map_of tuple.entry)) cells) columns.now) }
{
    let mut cells = BTreeMap::new(alloc);
    'columns: for (rel, col) in columns {
        let value = sight.cell(tuple, *rel, *col).to_value(alloc)?;
        add_cell(&mut cells, *rel, *col, value)?;
    }
    Ok(cells)
}

/// Puts the cell of a column in.
fn add_cell(
    cells: &mut BTreeMap<(RelNo, u32), Value>,
    rel: RelNo,
    col: u32,
    value: Value,
) -> Result<(), Memory>
    ensures { OnOk result (AddsCell cells.old cells.new rel col value) }
{
    cells.insert((rel, col), value)?;
    Ok(())
}
