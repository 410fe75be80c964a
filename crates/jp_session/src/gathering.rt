ghost use Rattle.std.specs.Prelude.{◌≡◌, ◌∷◌, [], IfOk, List, OnOk};
ghost use Rattle.jp_session.specs.Parts.{item_part};
ghost use Rattle.jp_session.specs.Visits.{IsPut, Leads, is_listed, is_of_sublink};
ghost use Rattle.jp_session.specs.declared.sources.Part.{Part as APart};

use crate::sources::{Part, parts_of};
use jp_base::{Memory, SubNo};
use jp_query::Query;
use sqlite_items::{Boxed, Items};
use std::alloc::Global;

/// A part of which a block is made.
#[derive(Drop)]
pub struct Entry {
    pub part: Part,
    /// The places in the list of the blocks of its items, in order: one for a sub-select, two for a Full join.
    pub inner: Items<usize>,
}

/// The blocks of a query, each behind all that it uses, the query's own one last. Copies of a sublink have one block.
pub fn gathered(alloc: Global, query: Boxed<Query>) -> Result<Vec<Entry>, Memory>
    ensures { IfOk result (λ entries. IsPut [] (item_part query) entries.items) }
{
    let mut entries = Vec::new(alloc);
    let part = Part { query, sub: None };
    visit(alloc, part, &mut entries)?;
    Ok(entries)
}

/// Lists a part behind all that its block uses.
#[cycle(visits)]
fn visit(alloc: Global, part: Part, entries: &mut Vec<Entry>) -> Result<(), Memory>
    ensures { OnOk result (IsPut entries.old.items part entries.new.items) }
{
    let mut inner = Items::new(alloc);
    let mut parts = parts_of(alloc, part.query.get())?;
    'parts: while let Some(next) = parts.pop_front() {
        visit_next(alloc, next, entries, &mut inner)?;
    }
    entries.push(Entry { part, inner })?;
    Ok(())
}

/// Lists a part that a block uses, unless it is a sublink that is listed, and keeps the place of one that isn't a sublink.
#[cycle(visits)]
fn visit_next(
    alloc: Global,
    part: Part,
    entries: &mut Vec<Entry>,
    places: &mut Items<usize>,
) -> Result<(), Memory>
    ensures { OnOk result ((rest : List APart) → Leads entries.old.items places.old (part ∷ rest) entries.new.items places.new rest) }
{
    match part.sub {
        None => {
            visit(alloc, part, entries)?;
            places.push(entries.len() - 1)?;
            Ok(())
        }
        Some(number) => {
            if !is_listed(entries.as_slice(), number) {
                visit(alloc, part, entries)?;
            }
            Ok(())
        }
    }
}

fn is_listed(entries: &[Entry], number: SubNo) -> bool
    ensures { result ≡ is_listed entries.now number }
{
    entries.iter().any(|entry| is_of_sublink(entry, number))
}

fn is_of_sublink(entry: &Entry, number: SubNo) -> bool
    ensures { result ≡ is_of_sublink number entry.now }
{
    match entry.part.sub {
        Some(other) => other == number,
        None => false,
    }
}
