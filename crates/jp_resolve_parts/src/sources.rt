ghost use Rattle.std.specs.Prelude.{◌≡◌, [], map, Ok};
ghost use Rattle.jp_resolution.specs.Answers.{Gives};
ghost use Rattle.jp_resolution.specs.Resolving as spec;
ghost use Rattle.jp_resolution.specs.Schemas.{bound_of};
ghost use Rattle.jp_resolution.specs.Counting.{next_relation};
ghost use Rattle.jp_catalog.specs.Names.{place_of};
ghost use Rattle.jp_resolve_parts.specs.Views.{beside_new, source_behind, table_seen};

use crate::counts::next_relation;
use crate::lookups::repeats;
use crate::types::boxed;
use jp_ast::JoinWord;
use jp_base::{RelNo, Txt, Ty};
use jp_catalog::{Catalog, Columns, TableDef};
use jp_query::{JoinKind, JoinTree, Query};
use jp_resolution::{Column, Counts, Entry, ResolveError, Selection};
use sqlite_items::{Boxed, Items};
use std::alloc::Global;

/// How a join puts its sides together. CROSS JOIN is an inner join without a condition.
pub fn kind_of(word: JoinWord) -> JoinKind
    ensures { result ≡ spec.kind_of word }
{
    match word {
        JoinWord::Cross => JoinKind::Inner,
        JoinWord::Inner => JoinKind::Inner,
        JoinWord::Left => JoinKind::Left,
        JoinWord::Right => JoinKind::Right,
        JoinWord::Full => JoinKind::Full,
    }
}

/// A table of the catalogue under its alias, else its own name: its leaf, and its entry behind the earlier ones.
pub fn table_source(
    alloc: Global,
    catalog: &Catalog,
    at: u32,
    name: &Txt,
    alias: &Option<Txt>,
    entries: &mut Items<Entry>,
    before: Counts,
) -> Result<Boxed<JoinTree>, ResolveError>
    ensures { Gives (source_behind entries.old (spec.table_from catalog.now at name.now alias.now [] entries.old before)) (beside_new result entries.new) }
{
    let (table, def) = known_table(catalog, at, name)?;
    let label = entry_name(name, alias);
    let own = Some(Txt::new(alloc, label)?);
    if repeats(&own, entries.as_slice()) {
        return Err(ResolveError::DuplicateAlias(at));
    }
    let relation = next_relation(before)?;
    let columns = table_columns(alloc, &def.columns)?;
    let name = Txt::new(alloc, label)?;
    entries.push(Entry {
        name: own,
        relation,
        columns,
    })?;
    let leaf = boxed(
        alloc,
        JoinTree::Base {
            rel: relation,
            name,
            table,
        },
    )?;
    Ok(leaf)
}

/// The table of a name, with its place in the catalogue.
fn known_table<'a>(
    catalog: &'a Catalog,
    at: u32,
    name: &Txt,
) -> Result<(u32, &'a TableDef), ResolveError>
    ensures { Gives (spec.known at (spec.table_at catalog.now (place_of name.now catalog.now.tables))) (table_seen result) }
{
    let Some(place) = catalog.tables.position(name.as_str()) else {
        return Err(ResolveError::UnknownTable(at));
    };
    let Some((_, def)) = catalog.tables.get_index(place) else {
        return Err(ResolveError::UnknownTable(at));
    };
    // No text of a catalogue is long enough for so many tables.
    if place > 4294967295 {
        return Err(ResolveError::Memory);
    }
    Ok((place as u32, def))
}

/// The alias, else the table's name.
fn entry_name<'a>(name: &'a Txt, alias: &'a Option<Txt>) -> &'a str
    ensures { result.now ≡ spec.entry_name name.now alias.now }
{
    match alias {
        Some(alias) => alias.as_str(),
        None => name.as_str(),
    }
}

/// The columns of a table's entry.
fn table_columns(alloc: Global, columns: &Columns) -> Result<Items<Column>, ResolveError>
    ensures { Gives (Ok (map spec.table_column columns.now)) result }
{
    let mut list = Items::new(alloc);
    for place in 0..columns.len() {
        let Some((name, ty)) = columns.get_index(place) else {
            return Ok(list);
        };
        let name = name.copy(alloc)?;
        list.push(Column {
            name,
            ty: *ty,
            bound: bound_of(*ty),
        })?;
    }
    Ok(list)
}

/// The greatest magnitude of a table's numbers, which have 64 bits.
fn bound_of(ty: Ty) -> u128
    ensures { result ≡ bound_of ty }
{
    match ty {
        Ty::Number => 9223372036854775808,
        _ => 0,
    }
}

/// A sub-select under its alias: its leaf, and its entry behind the earlier ones.
pub fn sub_source(
    alloc: Global,
    at: u32,
    alias: &Option<Txt>,
    selection: Selection,
    entries: &mut Items<Entry>,
    before: Counts,
) -> Result<Boxed<JoinTree>, ResolveError>
    ensures { Gives (source_behind entries.old (spec.new_source at alias.now entries.old (spec.sub_source (next_relation before) alias.now selection))) (beside_new result entries.new) }
{
    if repeats(alias, entries.as_slice()) {
        return Err(ResolveError::DuplicateAlias(at));
    }
    let relation = next_relation(before)?;
    let name = leaf_name(alloc, relation, alias)?;
    let own = copy_of(alloc, alias)?;
    let Selection {
        entries: _,
        outputs,
        columns,
        distinct,
        tree,
        conds,
    } = selection;
    let query = boxed(
        alloc,
        Query {
            columns: outputs,
            distinct,
            tree: tree.into_inner(),
            conds,
            order: Items::new(alloc),
        },
    )?;
    entries.push(Entry {
        name: own,
        relation,
        columns,
    })?;
    let leaf = boxed(
        alloc,
        JoinTree::Sub {
            rel: relation,
            name,
            query,
        },
    )?;
    Ok(leaf)
}

/// The name under which a sub-select's leaf is printed: its alias, else `sub` and its number.
fn leaf_name(alloc: Global, relation: RelNo, alias: &Option<Txt>) -> Result<Txt, ResolveError>
    ensures { Gives (Ok (spec.leaf_name relation alias.now)) result }
{
    match alias {
        Some(alias) => {
            let name = alias.copy(alloc)?;
            Ok(name)
        }
        None => {
            let text = format!(in alloc; "sub{relation}")?;
            let name = Txt::new(alloc, text.as_str())?;
            Ok(name)
        }
    }
}

/// The name, in memory of its own.
pub fn copy_of(alloc: Global, name: &Option<Txt>) -> Result<Option<Txt>, ResolveError>
    ensures { Gives (Ok name.now) result }
{
    match name {
        Some(name) => {
            let copy = name.copy(alloc)?;
            Ok(Some(copy))
        }
        None => Ok(None),
    }
}
