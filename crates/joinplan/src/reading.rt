ghost use Rattle.std.specs.Prelude.{◌≡◌, ◌≤◌, ℕ, List, All, IfErr, IfOk, Ok, length, true};
ghost use Rattle.jp_catalog.specs.Reading.{catalogue_of};
ghost use Rattle.jp_catalog.specs.Sound.{AreOfSize, IsOfSize, IsSound, IsSoundTable};
ghost use Rattle.jp_io.specs.Files.{NoneFalls, StaysSound};
ghost use Rattle.jp_statements.specs.Whole.{is_whole};
ghost use Rattle.jp_table.specs.Keys.{KeysHold};
ghost use Rattle.jp_table.specs.Loading.{column_types};
ghost use Rattle.jp_table.specs.Rows.{IsRowOf};
ghost use Rattle.joinplan.specs.Answers.{catalogue_in, source_in, statement_in, table_in, text_in};
ghost use Rattle.joinplan.specs.Faults.{IsExplained};
ghost use Rattle.joinplan.specs.Readings.{AgreesTold};
ghost use Rattle.joinplan.specs.Refusals.{IsNamed};
ghost use Rattle.joinplan.specs.declared.refusal.Refusal.TheVariants as refusal;

use crate::refusal::Refusal;
use crate::statement::statement_of;
use jp_ast::Stmt;
use jp_base::{Memory, Txt};
use jp_catalog::{Catalog, CatalogError, TableDef, read_catalog};
use jp_io::{FileError, Files, read_file};
use jp_table::{Table, TableError, load};
use std::alloc::Global;

/// How many bytes a file may have that isn't a statement.
const FILE_LIMIT: u64 = 67108864;

/// How many bytes a statement may have.
const STATEMENT_LIMIT: u64 = 65536;

/// Reads a file that isn't a statement.
fn read_text<F: Files>(alloc: Global, files: &mut F, name: &str) -> Result<Vec<u8>, Refusal>
    ensures same { F.contents files.new ≡ F.contents files.old }
    ensures kept { NoneFalls (F.faults files.old) (F.faults files.new) }
    ensures sound { StaysSound (F.is_sound files.old) (F.is_sound files.new) (F.faults files.old) (F.faults files.new) }
    ensures told { AgreesTold (λ v. v.items) result (F.contents files.old) (λ held. text_in held name.now) }
    ensures explained { IfErr result (IsExplained (λ n. n ≡ name.now) (F.faults files.old) (F.faults files.new)) }
{
    match read_file(alloc, files, name, FILE_LIMIT) {
        Ok(bytes) => Ok(bytes),
        Err(FileError::Failed) => Err(read_fault(alloc, name)),
        Err(FileError::TooLarge) => Err(too_large(alloc, name)),
        Err(FileError::Memory) => Err(Refusal::Memory),
    }
}

/// Reads a statement's text.
fn read_source<F: Files>(alloc: Global, files: &mut F, name: &str) -> Result<Vec<u8>, Refusal>
    ensures same { F.contents files.new ≡ F.contents files.old }
    ensures kept { NoneFalls (F.faults files.old) (F.faults files.new) }
    ensures sound { StaysSound (F.is_sound files.old) (F.is_sound files.new) (F.faults files.old) (F.faults files.new) }
    ensures told { AgreesTold (λ v. v.items) result (F.contents files.old) (λ held. source_in held name.now) }
    ensures explained { IfErr result (IsExplained (λ n. n ≡ name.now) (F.faults files.old) (F.faults files.new)) }
    ensures short { IfOk result (λ v. length v.items ≤ 65536) }
{
    match read_file(alloc, files, name, STATEMENT_LIMIT) {
        Ok(bytes) => Ok(bytes),
        Err(FileError::Failed) => Err(read_fault(alloc, name)),
        Err(FileError::TooLarge) => Err(Refusal::StatementTooLarge),
        Err(FileError::Memory) => Err(Refusal::Memory),
    }
}

fn read_fault(alloc: Global, name: &str) -> Refusal
    ensures { IsNamed refusal.ReadFault name.now result }
{
    match Txt::new(alloc, name) {
        Ok(name) => Refusal::ReadFault(name),
        Err(Memory) => Refusal::Memory,
    }
}

fn too_large(alloc: Global, name: &str) -> Refusal
    ensures { IsNamed refusal.FileTooLarge name.now result }
{
    match Txt::new(alloc, name) {
        Ok(name) => Refusal::FileTooLarge(name),
        Err(Memory) => Refusal::Memory,
    }
}

fn data_refused(alloc: Global, table: &str, error: TableError) -> Refusal
    ensures { IsNamed (λ name. refusal.Data name error) table.now result }
{
    match Txt::new(alloc, table) {
        Ok(table) => Refusal::Data(table, error),
        Err(Memory) => Refusal::Memory,
    }
}

/// Reads the catalogue.
pub fn read_catalogue<F: Files>(
    alloc: Global,
    files: &mut F,
    name: &str,
) -> Result<Catalog, Refusal>
    ensures same { F.contents files.new ≡ F.contents files.old }
    ensures kept { NoneFalls (F.faults files.old) (F.faults files.new) }
    ensures sound { StaysSound (F.is_sound files.old) (F.is_sound files.new) (F.faults files.old) (F.faults files.new) }
    ensures told { AgreesTold (λ c. c) result (F.contents files.old) (λ held. catalogue_in held name.now) }
    ensures explained { IfErr result (IsExplained (λ n. n ≡ name.now) (F.faults files.old) (F.faults files.new)) }
    ensures good { IfOk result IsSound }
    ensures size { IfOk result AreOfSize }
    ensures read { IfOk result (λ c. (bytes : List ℕ) × (catalogue_of bytes ≡ Ok c)) }
{
    let bytes = read_text(alloc, files, name)?;
    match read_catalog(alloc, bytes.as_slice()) {
        Ok(catalog) => Ok(catalog),
        Err(CatalogError::Memory) => Err(Refusal::Memory),
        Err(error) => Err(Refusal::Catalogue(error)),
    }
}

/// Reads the statement.
pub fn read_statement<F: Files>(alloc: Global, files: &mut F, name: &str) -> Result<Stmt, Refusal>
    ensures same { F.contents files.new ≡ F.contents files.old }
    ensures kept { NoneFalls (F.faults files.old) (F.faults files.new) }
    ensures sound { StaysSound (F.is_sound files.old) (F.is_sound files.new) (F.faults files.old) (F.faults files.new) }
    ensures told { AgreesTold (λ s. s) result (F.contents files.old) (λ held. statement_in held name.now) }
    ensures explained { IfErr result (IsExplained (λ n. n ≡ name.now) (F.faults files.old) (F.faults files.new)) }
    ensures whole { IfOk result (λ s. is_whole s ≡ true) }
{
    let source = read_source(alloc, files, name)?;
    let stmt = statement_of(alloc, source.as_slice())?;
    Ok(stmt)
}

/// Reads and loads a table. Its rows fit its columns, and its keys hold.
pub fn read_table<F: Files>(
    alloc: Global,
    files: &mut F,
    name: &str,
    def: &TableDef,
) -> Result<Table, Refusal>
    requires sound { IsSoundTable def.now }
    requires size { IsOfSize def.now }
    ensures same { F.contents files.new ≡ F.contents files.old }
    ensures kept { NoneFalls (F.faults files.old) (F.faults files.new) }
    ensures sound { StaysSound (F.is_sound files.old) (F.is_sound files.new) (F.faults files.old) (F.faults files.new) }
    ensures told { AgreesTold (λ t. t) result (F.contents files.old) (λ held. table_in held (name.now, def.now)) }
    ensures explained { IfErr result (IsExplained (λ n. n ≡ def.now.file) (F.faults files.old) (F.faults files.new)) }
    ensures fits { IfOk result (λ t. All (IsRowOf (column_types def.now)) t) }
    ensures keys { IfOk result (KeysHold def.now) }
{
    let bytes = read_text(alloc, files, def.file.as_str())?;
    match load(alloc, def, bytes.as_slice()) {
        Ok(table) => Ok(table),
        Err(TableError::Memory) => Err(Refusal::Memory),
        Err(error) => Err(data_refused(alloc, name, error)),
    }
}
