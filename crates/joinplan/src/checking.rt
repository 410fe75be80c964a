ghost use Rattle.std.specs.Prelude.{◌≡◌, ◌<◌, ◌++◌, IfErr, IfSome, OnOk, length, slice_get};
ghost use Rattle.jp_catalog.specs.Sound.{AreOfSize, IsOfSize, IsSound, IsSoundTable};
ghost use Rattle.jp_io.specs.Files.{NoneFalls, StaysSound};
ghost use Rattle.joinplan.specs.Answers.{counted, counts_in, with_count};
ghost use Rattle.joinplan.specs.Faults.{IsExplained, IsTableFile};
ghost use Rattle.joinplan.specs.Readings.{AgreesTold};

use crate::reading::read_table;
use crate::refusal::Refusal;
use itoa::Buffer;
use jp_base::Memory;
use jp_catalog::{Catalog, TableDef};
use jp_io::Files;
use std::alloc::Global;

/// Reads and loads each table of the catalogue, in its order, and gives a line for each with the number of its rows.
pub fn count_rows<F: Files>(
    alloc: Global,
    files: &mut F,
    catalog: &Catalog,
) -> Result<Vec<u8>, Refusal>
    requires sound { IsSound catalog.now }
    requires size { AreOfSize catalog.now }
    ensures same { F.contents files.new ≡ F.contents files.old }
    ensures kept { NoneFalls (F.faults files.old) (F.faults files.new) }
    ensures sound { StaysSound (F.is_sound files.old) (F.is_sound files.new) (F.faults files.old) (F.faults files.new) }
    ensures told { AgreesTold (λ v. v.items) result (F.contents files.old) (λ held. counts_in held catalog.now) }
    ensures explained { IfErr result (IsExplained (IsTableFile catalog.now) (F.faults files.old) (F.faults files.new)) }
{
    let mut text = Vec::new(alloc);
    for i in 0..catalog.tables.len() {
        count_place(alloc, files, catalog, i, &mut text)?;
    }
    Ok(text)
}

/// Reads and loads the table at a place of the catalogue, and puts its line at the end.
fn count_place<F: Files>(
    alloc: Global,
    files: &mut F,
    catalog: &Catalog,
    place: usize,
    text: &mut Vec<u8>,
) -> Result<(), Refusal>
    requires sound { IsSound catalog.now }
    requires size { AreOfSize catalog.now }
    requires listed { place < length catalog.now.tables }
    ensures same { F.contents files.new ≡ F.contents files.old }
    ensures kept { NoneFalls (F.faults files.old) (F.faults files.new) }
    ensures sound { StaysSound (F.is_sound files.old) (F.is_sound files.new) (F.faults files.old) (F.faults files.new) }
    ensures told { IfSome (slice_get catalog.now.tables place) (λ table. AgreesTold (λ _. text.new.items) result (F.contents files.old) (λ held. with_count held text.old.items table)) }
    ensures explained { IfErr result (IsExplained (IsTableFile catalog.now) (F.faults files.old) (F.faults files.new)) }
{
    match catalog.tables.get_index(place) {
        Some((name, def)) => count_table(alloc, files, name.as_str(), def, text),
        None => unreachable!(),
    }
}

/// Reads and loads a table, and puts its line at the end.
fn count_table<F: Files>(
    alloc: Global,
    files: &mut F,
    name: &str,
    def: &TableDef,
    text: &mut Vec<u8>,
) -> Result<(), Refusal>
    requires sound { IsSoundTable def.now }
    requires size { IsOfSize def.now }
    ensures same { F.contents files.new ≡ F.contents files.old }
    ensures kept { NoneFalls (F.faults files.old) (F.faults files.new) }
    ensures sound { StaysSound (F.is_sound files.old) (F.is_sound files.new) (F.faults files.old) (F.faults files.new) }
    ensures told { AgreesTold (λ _. text.new.items) result (F.contents files.old) (λ held. with_count held text.old.items (name.now, def.now)) }
    ensures explained { IfErr result (IsExplained (λ n. n ≡ def.now.file) (F.faults files.old) (F.faults files.new)) }
{
    let table = read_table(alloc, files, name, def)?;
    push_count(text, name, table.rows())?;
    Ok(())
}

fn push_count(text: &mut Vec<u8>, name: &str, rows: u64) -> Result<(), Memory>
    ensures { OnOk result (text.new.items ≡ text.old.items ++ counted name.now rows) }
{
    let mut buffer = Buffer::new();
    push_bytes(text, name.as_bytes())?;
    push_bytes(text, b": ")?;
    push_bytes(text, buffer.format(rows).as_bytes())?;
    push_bytes(text, b" rows\n")?;
    Ok(())
}

fn push_bytes(text: &mut Vec<u8>, bytes: &[u8]) -> Result<(), Memory>
    ensures { OnOk result (text.new.items ≡ text.old.items ++ bytes.now) }
{
    text.extend_from_slice(bytes)?;
    Ok(())
}
