ghost use Rattle.std.specs.Prelude.{◌≡◌, ◌↔◌, ◌∷◌, [], All, IfOk, if◌then◌else◌};
ghost use Rattle.jp_query.specs.declared.JoinKind.TheVariants as join;
ghost use Rattle.jp_problem.specs.declared.types.Step.TheVariants as step;
ghost use Rattle.jp_joins.specs.Meant.{GivesRows};
ghost use Rattle.jp_joins.specs.Tuples.{map_of};
ghost use Rattle.jp_joins_tests.specs.Relations.{IsLeft, IsRight, IsSmall, IsStep, meant_of, one_if_same, same_rows};

use crate::conditions::{column, filter_list, on_list};
use crate::relations::{Relations, numbers, row_in};
use bumpalo::Bump;
use jp_base::{Memory, Row, SubNo};
use jp_joins::{Tuple, hash, hash_right, merge, nest};
use jp_problem::{Method, Step};
use jp_query::JoinKind;
use sqlite_items::Items;
use std::alloc::Global;

/// What is asked of a step: its method and its kind, whether a sublink stands in the ON list, and whether the right column
/// has to be NULL afterwards. HashRight is for left joins alone; the others are run by Hash.
#[derive(Clone, Copy, Debug)]
pub struct Asked {
    pub method: Method,
    pub kind: JoinKind,
    pub sublink: bool,
    pub filtered: bool,
}

/// The row numbers of the tuples of a step, those of the left relation first.
pub fn joined(
    alloc: Global,
    asked: Asked,
    left: &[Option<u32>],
    right: &[Option<u32>],
) -> Result<Vec<(Option<u64>, Option<u64>)>, Memory> {
    let left = numbers(alloc, left)?;
    let right = numbers(alloc, right)?;
    joined_columns(alloc, asked, left.as_slice(), right.as_slice())
}

fn joined_columns(
    alloc: Global,
    asked: Asked,
    left: &[Option<u64>],
    right: &[Option<u64>],
) -> Result<Vec<(Option<u64>, Option<u64>)>, Memory>
    requires left { All IsSmall left.now }
    requires right { All IsSmall right.now }
{
    let step = step_of(alloc, asked, left, right)?;
    let arena = Bump::new(alloc);
    pairs_by(alloc, asked.method, &step, &arena)
}

fn pairs_by(
    alloc: Global,
    method: Method,
    step: &Relations<'_>,
    arena: &Bump<Global>,
) -> Result<Vec<(Option<u64>, Option<u64>)>, Memory>
    requires { IsStep step.now }
{
    let lefts = rows_of_left(alloc, arena, step.left.len())?;
    let rights = rows_of_right(alloc, arena, step.right.len())?;
    let found = step_by(
        alloc,
        method,
        step,
        lefts.as_slice(),
        rights.as_slice(),
        arena,
    )?;
    pairs_of(alloc, found.as_slice())
}

/// The step between two columns.
pub fn step_of<'c>(
    alloc: Global,
    asked: Asked,
    left: &'c [Option<u64>],
    right: &'c [Option<u64>],
) -> Result<Relations<'c>, Memory>
    requires left { All IsSmall left.now }
    requires right { All IsSmall right.now }
    ensures { IfOk result IsStep }
{
    let on = on_list(alloc, asked.sublink)?;
    let filters = filter_list(alloc, asked.filtered)?;
    Ok(Relations {
        left,
        right,
        kind: asked.kind,
        first: column(0),
        second: column(1),
        on,
        filters,
    })
}

/// A tuple for each of so many rows of the left relation.
pub fn rows_of_left<'t>(
    alloc: Global,
    arena: &'t Bump<Global>,
    count: usize,
) -> Result<Vec<Tuple<'t>>, Memory>
    ensures { IfOk result (λ v. All (λ t. IsLeft (map_of t)) v.items) }
{
    let mut list = Vec::new(alloc);
    'rows: for row in 0..count {
        list.push(left_row(arena, row as u64)?)?;
    }
    Ok(list)
}

fn left_row<'t>(arena: &'t Bump<Global>, row: u64) -> Result<Tuple<'t>, Memory>
    ensures { IfOk result (λ t. IsLeft (map_of t)) }
{
    match arena.try_alloc_slice_copy(&[Some(row), None]) {
        Ok(rows) => Ok(Tuple { rows }),
        Err(_) => Err(Memory),
    }
}

/// A tuple for each of so many rows of the right relation.
pub fn rows_of_right<'t>(
    alloc: Global,
    arena: &'t Bump<Global>,
    count: usize,
) -> Result<Vec<Tuple<'t>>, Memory>
    ensures { IfOk result (λ v. All (λ t. IsRight (map_of t)) v.items) }
{
    let mut list = Vec::new(alloc);
    'rows: for row in 0..count {
        list.push(right_row(arena, row as u64)?)?;
    }
    Ok(list)
}

fn right_row<'t>(arena: &'t Bump<Global>, row: u64) -> Result<Tuple<'t>, Memory>
    ensures { IfOk result (λ t. IsRight (map_of t)) }
{
    match arena.try_alloc_slice_copy(&[None, Some(row)]) {
        Ok(rows) => Ok(Tuple { rows }),
        Err(_) => Err(Memory),
    }
}

/// The tuples that a method gives to the step.
pub fn step_by<'t>(
    alloc: Global,
    method: Method,
    step: &Relations<'_>,
    lefts: &[Tuple<'t>],
    rights: &[Tuple<'t>],
    arena: &'t Bump<Global>,
) -> Result<Vec<Tuple<'t>>, Memory>
    requires step { IsStep step.now }
    requires lefts { All (λ t. IsLeft (map_of t)) lefts.now }
    requires rights { All (λ t. IsRight (map_of t)) rights.now }
{
    let subs = |tuple: Tuple<'_>, sub: SubNo| same_rows(alloc, tuple, sub);
    run(alloc, &subs, method, step, lefts, rights, arena)
}

/// The same, where `subs` gives the rows of the sublink.
fn run<'t, S: Fn(Tuple<'t>, SubNo) -> Result<Vec<Row>, Memory>>(
    alloc: Global,
    subs: &S,
    method: Method,
    step: &Relations<'_>,
    lefts: &[Tuple<'t>],
    rights: &[Tuple<'t>],
    arena: &'t Bump<Global>,
) -> Result<Vec<Tuple<'t>>, Memory>
    requires can { S.IsAlwaysCallable subs.now }
    requires gives { GivesRows (meant_of step.now) (S.post subs.now) }
    requires step { IsStep step.now }
    requires lefts { All (λ t. IsLeft (map_of t)) lefts.now }
    requires rights { All (λ t. IsRight (map_of t)) rights.now }
{
    let kind = kind_of(step.kind);
    match method {
        Method::Nest => nest(alloc, step, subs, kind, lefts, rights, arena),
        Method::Hash => hash(alloc, step, subs, kind, lefts, rights, arena),
        Method::HashRight => match step.kind {
            JoinKind::Left => hash_right(alloc, step, subs, kind, lefts, rights, arena),
            _ => hash(alloc, step, subs, kind, lefts, rights, arena),
        },
        Method::Merge => merge(alloc, step, subs, kind, lefts, rights, arena),
    }
}

fn kind_of(kind: JoinKind) -> Step
    ensures { (kind ≡ join.Inner) ↔ (result ≡ step.Inner) }
{
    match kind {
        JoinKind::Inner => Step::Inner,
        _ => Step::By(0),
    }
}

/// The rows of the sublink: one where both sides have the same row number.
fn same_rows(alloc: Global, tuple: Tuple<'_>, _sub: SubNo) -> Result<Vec<Row>, Memory>
    ensures { IfOk result (λ v. v.items ≡ same_rows (map_of tuple.entry) _sub) }
{
    let mut rows = Vec::new(alloc);
    if is_same(row_in(tuple, 0), row_in(tuple, 1)) {
        rows.push(Items::new(alloc))?;
    }
    Ok(rows)
}

fn is_same(left: Option<u64>, right: Option<u64>) -> bool
    ensures { one_if_same left right ≡ (if result then [] ∷ [] else []) }
{
    match (left, right) {
        (Some(left), Some(right)) => left == right,
        _ => false,
    }
}

/// The row numbers of tuples of both relations.
pub fn pairs_of(
    alloc: Global,
    tuples: &[Tuple<'_>],
) -> Result<Vec<(Option<u64>, Option<u64>)>, Memory> {
    let mut pairs = Vec::new(alloc);
    'tuples: for tuple in tuples {
        pairs.push((row_in(*tuple, 0), row_in(*tuple, 1)))?;
    }
    Ok(pairs)
}
