#![tactic(auto, using(crate::proofs::FindLaws::find_laws))]

ghost use Rattle.std.specs.Prelude.{◌≡◌, [], ◌∷◌, Ok};
ghost use Rattle.std.specs.List.{find, list_any};
ghost use Rattle.std.specs.Option.{option_copied};
ghost use Rattle.jp_resolution.specs.Answers.{Gives};
ghost use Rattle.jp_resolution.specs.Names as spec;
ghost use Rattle.jp_resolution.specs.Resolving.{name_over, qualified_over, column_in};
ghost use Rattle.jp_resolve_parts.specs.Finds.{found_of, found_map, together, the_find};
ghost use Rattle.jp_resolve_parts.specs.Views.{shown, answer_map};

use crate::types::typed;
use jp_base::{RelNo, RelSet, Txt};
use jp_query::Expr;
use jp_resolution::{Column, Entry, ResolveError, TypedExpr};
use sqlite_items::Items;
use std::alloc::Global;

/// A column of a visible entry; `place` is its place there, from 0.
#[derive(Clone, Copy)]
pub struct LentColumn<'a> {
    pub relation: RelNo,
    pub place: usize,
    pub column: &'a Column,
}

/// What a search has found.
#[derive(Clone, Copy)]
pub enum Found<T> {
    Nothing,
    One(T),
    Several,
}

/// What was found first and what was found behind it.
fn together<'a>(first: Found<LentColumn<'a>>, more: Found<LentColumn<'a>>) -> Found<LentColumn<'a>>
    ensures { result ≡ together first.entry more.entry }
{
    match first {
        Found::Nothing => more,
        Found::One(column) => match more {
            Found::Nothing => Found::One(column),
            _ => Found::Several,
        },
        Found::Several => Found::Several,
    }
}

/// The column, if it has the name.
fn if_called<'a>(column: LentColumn<'a>, name: &str) -> Found<LentColumn<'a>>
    ensures { found_map shown result ≡ found_of (spec.called name.now (shown column.entry ∷ [])) }
{
    if name == column.column.name.as_str() {
        Found::One(column)
    } else {
        Found::Nothing
    }
}

/// The columns of a name that an entry has.
fn columns_of_entry<'a>(entry: &'a Entry, name: &str) -> Found<LentColumn<'a>>
    ensures { found_map shown result ≡ found_of (spec.called name.now (spec.entry_columns entry.now)) }
{
    let relation = entry.relation;
    let mut found = Found::Nothing;
    let mut place: usize = 0;
    'columns: for column in entry.columns.as_slice() {
        let column = LentColumn {
            relation,
            place,
            column,
        };
        found = together(found, if_called(column, name));
        place += 1;
    }
    found
}

/// The columns of a name at one level.
fn columns_of_level<'a>(entries: &'a [Entry], name: &str) -> Found<LentColumn<'a>>
    ensures { found_map shown result ≡ found_of (spec.called name.now (spec.columns_of entries.now)) }
{
    let mut found = Found::Nothing;
    'entries: for entry in entries {
        found = together(found, columns_of_entry(entry, name));
    }
    found
}

/// The columns that an unqualified name takes: those of the innermost level that has one.
fn named_column<'a>(levels: &'a [Items<Entry>], name: &str) -> Found<LentColumn<'a>>
    ensures { found_map shown result ≡ found_of (spec.named_column name.now levels.now) }
{
    'levels: for level in levels {
        match columns_of_level(level.as_slice(), name) {
            Found::Nothing => {}
            found => return found,
        }
    }
    Found::Nothing
}

/// The only find.
fn the_only<'a>(at: u32, found: Found<LentColumn<'a>>) -> Result<LentColumn<'a>, ResolveError>
    ensures { answer_map shown result ≡ the_find at (found_map shown found.entry) }
{
    match found {
        Found::Nothing => Err(ResolveError::UnknownColumn(at)),
        Found::One(column) => Ok(column),
        Found::Several => Err(ResolveError::Ambiguous(at)),
    }
}

/// The column as an expression. Stars in sub-selects of sub-selects multiply columns, so its place may pass 32 bits, which
/// counts as want of memory.
#[tactic(auto, using(jp_query::proofs::SetWords::empty_is))]
pub fn column_expr(alloc: Global, column: LentColumn<'_>) -> Result<TypedExpr, ResolveError>
    ensures { Gives (Ok (spec.column_expr (shown column.entry))) result }
{
    if column.place > 4294967295 {
        return Err(ResolveError::Memory);
    }
    let ty = column.column.ty;
    let expr = Expr::Col {
        rel: column.relation,
        col: column.place as u32,
        ty,
        nulled: RelSet::empty(),
    };
    let node = typed(alloc, ty, expr, column.column.bound)?;
    Ok(node)
}

/// The expression of an unqualified name.
pub fn name_expr(
    alloc: Global,
    at: u32,
    name: &str,
    levels: &[Items<Entry>],
) -> Result<TypedExpr, ResolveError>
    ensures { Gives (name_over at name.now levels.now) result }
{
    let column = the_only(at, named_column(levels, name))?;
    let node = column_expr(alloc, column)?;
    Ok(node)
}

/// The first entry of a name.
fn named_entry<'a>(entries: &'a [Entry], name: &str) -> Option<&'a Entry>
    ensures { option_copied result ≡ find (spec.is_entry name.now) entries.now }
{
    'entries: for entry in entries {
        if has_name(entry, name) {
            return Some(entry);
        }
    }
    None
}

/// Whether an entry has a name; one without a name has none.
fn has_name(entry: &Entry, name: &str) -> bool
    ensures { result ≡ spec.is_entry name.now entry.now }
{
    match &entry.name {
        Some(other) => name == other.as_str(),
        None => false,
    }
}

/// Whether an entry's name is that of one of the entries.
pub fn repeats(name: &Option<Txt>, entries: &[Entry]) -> bool
    ensures { result ≡ spec.repeats name.now entries.now }
{
    match name {
        Some(name) => is_taken(name.as_str(), entries),
        None => false,
    }
}

/// Whether one of the entries has the name.
fn is_taken(name: &str, entries: &[Entry]) -> bool
    ensures { result ≡ list_any (spec.is_entry name.now) entries.now }
{
    'entries: for entry in entries {
        if has_name(entry, name) {
            return true;
        }
    }
    false
}

/// The entry that a qualifier takes: that of the innermost level that has one.
pub fn qualified_entry<'a>(
    at: u32,
    levels: &'a [Items<Entry>],
    qualifier: &str,
) -> Result<&'a Entry, ResolveError>
    ensures { answer_map (λ e. e.now) result ≡ spec.the_entry at (spec.qualified_entry qualifier.now levels.now) }
{
    'levels: for level in levels {
        if let Some(entry) = named_entry(level.as_slice(), qualifier) {
            return Ok(entry);
        }
    }
    Err(ResolveError::UnknownTable(at))
}

/// The expression of a qualified name.
pub fn qualified_expr(
    alloc: Global,
    at: u32,
    qualifier: &str,
    name: &str,
    levels: &[Items<Entry>],
) -> Result<TypedExpr, ResolveError>
    ensures { Gives (qualified_over at qualifier.now name.now levels.now) result }
{
    let entry = qualified_entry(at, levels, qualifier)?;
    let column = the_only(at, columns_of_entry(entry, name))?;
    let node = column_expr(alloc, column)?;
    Ok(node)
}
