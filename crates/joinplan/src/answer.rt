ghost use Rattle.std.specs.Prelude.{◌≡◌, ◌≢◌, ◌⊎◌, [], Err, IfErr, IfOk, None, Some, map, string_bytes};
ghost use Rattle.jp_catalog.specs.Sound.{AreOfSize, IsSound};
ghost use Rattle.jp_io.specs.Files.{NoneFalls, StaysSound};
ghost use Rattle.jp_query.specs.Tables.{Belong};
ghost use Rattle.jp_query.specs.Conditions.{IsBounded, IsTyped};
ghost use Rattle.jp_query.specs.Freshness.{IsFresh};
ghost use Rattle.jp_resolution.specs.Schemas.{schema_of};
ghost use Rattle.joinplan.specs.Answers.{HasBytes, PlanOf, PrintsTold, RowsOf, answer_of, check_in, command_in, explain_in, output_in, plan_in, query_in, run_in};
ghost use Rattle.joinplan.specs.Faults.{IsExplained, IsTableFile, MayBeRead};
ghost use Rattle.joinplan.specs.Readings.{AgreesTold};
ghost use Rattle.joinplan.specs.declared.refusal.Refusal.TheVariants as refusal;
ghost use Rattle.joinplan.specs.Views.{command_view};
ghost use Rattle.joinplan.specs.Words as spec;
ghost use Rattle.joinplan.specs.Words.{command_of};

use crate::checking::count_rows;
use crate::reading::{read_catalogue, read_statement};
use crate::refusal::Refusal;
use crate::statement::query_of;
use crate::tables::read_tables;
use crate::words::{Command, command_of};
use jp_base::Memory;
use jp_catalog::Catalog;
use jp_io::Files;
use jp_listed::plans_list_what_the_statement_means;
use jp_query::Query;
use jp_session::{explain_query, output_text, prepare, run_query};
use jp_table::Tables;
use std::alloc::Global;

/// All of the output, made before any of it is written.
pub fn answer<F: Files>(alloc: Global, words: &[String], files: &mut F) -> Result<Vec<u8>, Refusal>
    ensures same { F.contents files.new ≡ F.contents files.old }
    ensures kept { NoneFalls (F.faults files.old) (F.faults files.new) }
    ensures sound { StaysSound (F.is_sound files.old) (F.is_sound files.new) (F.faults files.old) (F.faults files.new) }
    ensures told { PrintsTold result (F.contents files.old) (answer_of (map string_bytes words.now)) }
    ensures explained { command_of (map string_bytes words.now) ≢ None → IfErr result (IsExplained (MayBeRead (command_of (map string_bytes words.now))) (F.faults files.old) (F.faults files.new)) }
    ensures usage { command_of (map string_bytes words.now) ≡ None → result ≡ Err refusal.Usage }
{
    match command_of(words) {
        Some(command) => answer_command(alloc, command, files),
        None => Err(Refusal::Usage),
    }
}

fn answer_command<F: Files>(
    alloc: Global,
    command: Command<'_>,
    files: &mut F,
) -> Result<Vec<u8>, Refusal>
    ensures same { F.contents files.new ≡ F.contents files.old }
    ensures kept { NoneFalls (F.faults files.old) (F.faults files.new) }
    ensures sound { StaysSound (F.is_sound files.old) (F.is_sound files.new) (F.faults files.old) (F.faults files.new) }
    ensures told { PrintsTold result (F.contents files.old) (command_in (command_view command.entry)) }
    ensures explained { IfErr result (IsExplained (MayBeRead (Some (command_view command.entry))) (F.faults files.old) (F.faults files.new)) }
{
    match command {
        Command::Run {
            catalogue,
            statement,
        } => answer_run(alloc, catalogue, statement, files),
        Command::Explain {
            catalogue,
            statement,
        } => answer_explain(alloc, catalogue, statement, files),
        Command::Check { catalogue } => answer_check(alloc, catalogue, files),
    }
}

/// The output of `run CATALOG STATEMENT`.
fn answer_run<F: Files>(
    alloc: Global,
    catalogue: &str,
    statement: &str,
    files: &mut F,
) -> Result<Vec<u8>, Refusal>
    ensures same { F.contents files.new ≡ F.contents files.old }
    ensures kept { NoneFalls (F.faults files.old) (F.faults files.new) }
    ensures sound { StaysSound (F.is_sound files.old) (F.is_sound files.new) (F.faults files.old) (F.faults files.new) }
    ensures told { PrintsTold result (F.contents files.old) (run_in catalogue.now statement.now) }
    ensures explained { IfErr result (IsExplained (MayBeRead (Some (spec.Run catalogue.now statement.now))) (F.faults files.old) (F.faults files.new)) }
{
    let catalog = read_catalogue(alloc, files, catalogue)?;
    answer_query(alloc, &catalog, statement, files)
}

/// The output of `explain CATALOG STATEMENT`.
fn answer_explain<F: Files>(
    alloc: Global,
    catalogue: &str,
    statement: &str,
    files: &mut F,
) -> Result<Vec<u8>, Refusal>
    ensures same { F.contents files.new ≡ F.contents files.old }
    ensures kept { NoneFalls (F.faults files.old) (F.faults files.new) }
    ensures sound { StaysSound (F.is_sound files.old) (F.is_sound files.new) (F.faults files.old) (F.faults files.new) }
    ensures told { PrintsTold result (F.contents files.old) (explain_in catalogue.now statement.now) }
    ensures explained { IfErr result (IsExplained (MayBeRead (Some (spec.Explain catalogue.now statement.now))) (F.faults files.old) (F.faults files.new)) }
{
    let catalog = read_catalogue(alloc, files, catalogue)?;
    plan_statement(alloc, &catalog, statement, files)
}

/// The text of the plan of the statement in a file.
fn plan_statement<F: Files>(
    alloc: Global,
    catalog: &Catalog,
    statement: &str,
    files: &mut F,
) -> Result<Vec<u8>, Refusal>
    requires sound { IsSound catalog.now }
    ensures same { F.contents files.new ≡ F.contents files.old }
    ensures kept { NoneFalls (F.faults files.old) (F.faults files.new) }
    ensures sound { StaysSound (F.is_sound files.old) (F.is_sound files.new) (F.faults files.old) (F.faults files.new) }
    ensures told { PrintsTold result (F.contents files.old) (λ held. plan_in held statement.now catalog.now) }
    ensures explained { IfErr result (IsExplained (λ n. n ≡ statement.now) (F.faults files.old) (F.faults files.new)) }
{
    let stmt = read_statement(alloc, files, statement)?;
    let query = query_of(alloc, catalog, &stmt)?;
    let bytes = print_plan(alloc, catalog, query)?;
    Ok(bytes)
}

/// The plan of a query, printed.
fn print_plan(alloc: Global, catalog: &Catalog, query: Query) -> Result<Vec<u8>, Memory>
    requires sound { IsSound catalog.now }
    requires typed { IsTyped (schema_of catalog.now) [] query }
    requires bounded { IsBounded (schema_of catalog.now) [] query }
    requires fresh { IsFresh query }
    ensures { IfOk result (λ v. HasBytes (PlanOf catalog.now query) v.items) }
{
    let prepared = prepare(alloc, catalog, query)?;
    let text = explain_query(alloc, &prepared, false)?;
    Ok(text.into_bytes())
}

/// The output of `check CATALOG`.
fn answer_check<F: Files>(alloc: Global, catalogue: &str, files: &mut F) -> Result<Vec<u8>, Refusal>
    ensures same { F.contents files.new ≡ F.contents files.old }
    ensures kept { NoneFalls (F.faults files.old) (F.faults files.new) }
    ensures sound { StaysSound (F.is_sound files.old) (F.is_sound files.new) (F.faults files.old) (F.faults files.new) }
    ensures told { AgreesTold (λ v. v.items) result (F.contents files.old) (check_in catalogue.now) }
    ensures explained { IfErr result (IsExplained (MayBeRead (Some (spec.Check catalogue.now))) (F.faults files.old) (F.faults files.new)) }
{
    let catalog = read_catalogue(alloc, files, catalogue)?;
    count_rows(alloc, files, &catalog)
}

/// The output of the statement in a file, over the tables of the catalogue.
fn answer_query<F: Files>(
    alloc: Global,
    catalog: &Catalog,
    statement: &str,
    files: &mut F,
) -> Result<Vec<u8>, Refusal>
    requires sound { IsSound catalog.now }
    requires size { AreOfSize catalog.now }
    ensures same { F.contents files.new ≡ F.contents files.old }
    ensures kept { NoneFalls (F.faults files.old) (F.faults files.new) }
    ensures sound { StaysSound (F.is_sound files.old) (F.is_sound files.new) (F.faults files.old) (F.faults files.new) }
    ensures told { PrintsTold result (F.contents files.old) (λ held. query_in held statement.now catalog.now) }
    ensures explained { IfErr result (IsExplained (λ n. (n ≡ statement.now) ⊎ IsTableFile catalog.now n) (F.faults files.old) (F.faults files.new)) }
{
    let stmt = read_statement(alloc, files, statement)?;
    let query = query_of(alloc, catalog, &stmt)?;
    answer_resolved(alloc, catalog, &query, files)
}

/// The output of a query.
fn answer_resolved<F: Files>(
    alloc: Global,
    catalog: &Catalog,
    query: &Query,
    files: &mut F,
) -> Result<Vec<u8>, Refusal>
    requires sound { IsSound catalog.now }
    requires size { AreOfSize catalog.now }
    requires typed { IsTyped (schema_of catalog.now) [] query.now }
    requires bounded { IsBounded (schema_of catalog.now) [] query.now }
    requires fresh { IsFresh query.now }
    ensures same { F.contents files.new ≡ F.contents files.old }
    ensures kept { NoneFalls (F.faults files.old) (F.faults files.new) }
    ensures sound { StaysSound (F.is_sound files.old) (F.is_sound files.new) (F.faults files.old) (F.faults files.new) }
    ensures told { PrintsTold result (F.contents files.old) (λ held. output_in held catalog.now query.now) }
    ensures explained { IfErr result (IsExplained (IsTableFile catalog.now) (F.faults files.old) (F.faults files.new)) }
{
    let tables = read_tables(alloc, files, catalog, query)?;
    let bytes = print_rows(alloc, catalog, query, &tables)?;
    Ok(bytes)
}

/// The rows that the plan of a query lists over loaded tables, printed.
fn print_rows(
    alloc: Global,
    catalog: &Catalog,
    query: &Query,
    tables: &Tables,
) -> Result<Vec<u8>, Memory>
    requires sound { IsSound catalog.now }
    requires typed { IsTyped (schema_of catalog.now) [] query.now }
    requires bounded { IsBounded (schema_of catalog.now) [] query.now }
    requires fresh { IsFresh query.now }
    requires belong { Belong (schema_of catalog.now) tables.now.list }
    ensures { IfOk result (λ v. HasBytes (RowsOf catalog.now query.now tables.now.list) v.items) }
{
    plans_list_what_the_statement_means();
    let copy = query.copy(alloc)?;
    let prepared = prepare(alloc, catalog, copy)?;
    prepared.pool.has_children_before();
    let rows = run_query(alloc, &prepared, tables)?;
    let bytes = output_text(alloc, query.columns.as_slice(), rows.as_slice())?;
    Ok(bytes)
}
