ghost use Rattle.std.specs.Prelude.{◌≡◌, ◌<◌, ℕ, All, IfErr, IfOk, OnOk, length};
ghost use Rattle.jp_catalog.specs.Sound.{AreOfSize, IsSound};
ghost use Rattle.jp_io.specs.Files.{NoneFalls, StaysSound};
ghost use Rattle.jp_query.specs.Parts.{tables_in};
ghost use Rattle.jp_query.specs.Tables.{AllLoaded, Belong, IsLoaded};
ghost use Rattle.jp_resolution.specs.Schemas.{schema_of};
ghost use Rattle.joinplan.specs.Answers.{none_loaded, tables_read, with_table};
ghost use Rattle.joinplan.specs.Faults.{IsExplained, IsTableFile};
ghost use Rattle.joinplan.specs.Loaded.{KeysKept};
ghost use Rattle.joinplan.specs.Readings.{AgreesTold, fold_in};

use crate::reading::read_table;
use crate::refusal::Refusal;
use jp_base::Memory;
use jp_catalog::Catalog;
use jp_io::Files;
use jp_mentions::mentioned_tables;
use jp_query::Query;
use jp_table::Tables;
use sqlite_items::Items;
use std::alloc::Global;

/// Reads and loads the tables that a query names at every depth, in the order in which its text first mentions them, each once.
pub fn read_tables<F: Files>(
    alloc: Global,
    files: &mut F,
    catalog: &Catalog,
    query: &Query,
) -> Result<Tables, Refusal>
    requires sound { IsSound catalog.now }
    requires size { AreOfSize catalog.now }
    requires listed { All (λ place. place < length catalog.now.tables) (tables_in query.now) }
    ensures same { F.contents files.new ≡ F.contents files.old }
    ensures kept { NoneFalls (F.faults files.old) (F.faults files.new) }
    ensures sound { StaysSound (F.is_sound files.old) (F.is_sound files.new) (F.faults files.old) (F.faults files.new) }
    ensures told { AgreesTold (λ t. t.list) result (F.contents files.old) (λ held. tables_read held catalog.now query.now) }
    ensures explained { IfErr result (IsExplained (IsTableFile catalog.now) (F.faults files.old) (F.faults files.new)) }
    ensures belong { IfOk result (λ t. Belong (schema_of catalog.now) t.list) }
    ensures keys { IfOk result (λ t. KeysKept catalog.now.tables t.list) }
    ensures loaded { IfOk result (λ t. AllLoaded t.list query.now) }
{
    let places = mentioned_tables(alloc, query)?;
    let mut tables = no_tables(alloc, catalog)?;
    read_places(alloc, files, catalog, places.as_slice(), &mut tables)?;
    Ok(tables)
}

/// A place for each table of the catalogue, none of them loaded.
fn no_tables(alloc: Global, catalog: &Catalog) -> Result<Tables, Memory>
    ensures { IfOk result (λ t. t.list ≡ none_loaded catalog.now) }
{
    let mut list = Items::new(alloc);
    for _ in 0..catalog.tables.len() {
        list.push(None)?;
    }
    Ok(Tables { list })
}

/// Reads and loads the tables of these places of the catalogue.
fn read_places<F: Files>(
    alloc: Global,
    files: &mut F,
    catalog: &Catalog,
    places: &[u32],
    tables: &mut Tables,
) -> Result<(), Refusal>
    requires sound { IsSound catalog.now }
    requires size { AreOfSize catalog.now }
    requires belong { Belong (schema_of catalog.now) tables.old.list }
    requires keys { KeysKept catalog.now.tables tables.old.list }
    requires listed { All (λ place. place < length catalog.now.tables) places.now }
    ensures same { F.contents files.new ≡ F.contents files.old }
    ensures kept { NoneFalls (F.faults files.old) (F.faults files.new) }
    ensures sound { StaysSound (F.is_sound files.old) (F.is_sound files.new) (F.faults files.old) (F.faults files.new) }
    ensures told { AgreesTold (λ _. tables.new.list) result (F.contents files.old) (λ held. fold_in (with_table held catalog.now) tables.old.list places.now) }
    ensures explained { IfErr result (IsExplained (IsTableFile catalog.now) (F.faults files.old) (F.faults files.new)) }
    ensures belong { OnOk result (Belong (schema_of catalog.now) tables.new.list) }
    ensures keys { OnOk result (KeysKept catalog.now.tables tables.new.list) }
    ensures loaded { OnOk result (All (IsLoaded tables.new.list) places.now) }
{
    for place in places {
        read_place(alloc, files, catalog, *place, tables)?;
    }
    Ok(())
}

/// Reads and loads the table of a place.
fn read_place<F: Files>(
    alloc: Global,
    files: &mut F,
    catalog: &Catalog,
    place: u32,
    tables: &mut Tables,
) -> Result<(), Refusal>
    requires sound { IsSound catalog.now }
    requires size { AreOfSize catalog.now }
    requires belong { Belong (schema_of catalog.now) tables.old.list }
    requires keys { KeysKept catalog.now.tables tables.old.list }
    requires listed { place < length catalog.now.tables }
    ensures same { F.contents files.new ≡ F.contents files.old }
    ensures kept { NoneFalls (F.faults files.old) (F.faults files.new) }
    ensures sound { StaysSound (F.is_sound files.old) (F.is_sound files.new) (F.faults files.old) (F.faults files.new) }
    ensures told { AgreesTold (λ _. tables.new.list) result (F.contents files.old) (λ held. with_table held catalog.now tables.old.list place) }
    ensures explained { IfErr result (IsExplained (IsTableFile catalog.now) (F.faults files.old) (F.faults files.new)) }
    ensures belong { OnOk result (Belong (schema_of catalog.now) tables.new.list) }
    ensures keys { OnOk result (KeysKept catalog.now.tables tables.new.list) }
    ensures loaded { OnOk result (IsLoaded tables.new.list place) }
    ensures others { OnOk result ((other : ℕ) → IsLoaded tables.old.list other → IsLoaded tables.new.list other) }
{
    let place = place as usize;
    let Some((name, def)) = catalog.tables.get_index(place) else {
        unreachable!()
    };
    let table = read_table(alloc, files, name.as_str(), def)?;
    tables.list.set(place, Some(table));
    Ok(())
}
