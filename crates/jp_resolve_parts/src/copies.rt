ghost use Rattle.std.specs.Prelude.{◌≡◌, ◌∷◌, drop, Ok};
ghost use Rattle.jp_resolution.specs.Answers.{Gives};

use crate::sources::copy_of;
use jp_resolution::{Column, Entry, ResolveError};
use sqlite_items::Items;
use std::alloc::Global;

/// The levels that are visible inside a select or an ON: its own entries, then the outer levels, in memory of their own.
pub fn inner_levels(
    alloc: Global,
    own: &[Entry],
    outer: &[Items<Entry>],
) -> Result<Items<Items<Entry>>, ResolveError>
    ensures { Gives (Ok (own.now ∷ outer.now)) result }
{
    let mut levels = Items::new(alloc);
    let own = copy_entries(alloc, own)?;
    levels.push(own)?;
    'levels: for level in outer {
        let level = copy_entries(alloc, level.as_slice())?;
        levels.push(level)?;
    }
    Ok(levels)
}

/// Equal entries.
fn copy_entries(alloc: Global, entries: &[Entry]) -> Result<Items<Entry>, ResolveError>
    ensures { Gives (Ok entries.now) result }
{
    let mut copies = Items::new(alloc);
    'entries: for entry in entries {
        let name = copy_of(alloc, &entry.name)?;
        let columns = copy_columns(alloc, entry.columns.as_slice())?;
        copies.push(Entry {
            name,
            relation: entry.relation,
            columns,
        })?;
    }
    Ok(copies)
}

/// Equal columns.
fn copy_columns(alloc: Global, columns: &[Column]) -> Result<Items<Column>, ResolveError>
    ensures { Gives (Ok columns.now) result }
{
    let mut copies = Items::new(alloc);
    'columns: for column in columns {
        let name = column.name.copy(alloc)?;
        copies.push(Column {
            name,
            ty: column.ty,
            bound: column.bound,
        })?;
    }
    Ok(copies)
}

/// The entries behind the first few.
pub fn behind(entries: &[Entry], few: usize) -> &[Entry]
    ensures { result.now ≡ drop few entries.now }
{
    match entries.get(few..) {
        Some(more) => more,
        None => &[],
    }
}
