ghost use Rattle.std.specs.Prelude.{All, IfOk, ◌<◌, ◌≤◌, ◌^◌};
ghost use Rattle.jp_joins.specs.Tuples.{map_of};
ghost use Rattle.jp_joins_tests.specs.Relations.{IsLeft, IsRight, IsSmall, IsStep};

use crate::plain::{pair, plainly_joined};
use crate::relations::Relations;
use crate::steps::{Asked, rows_of_left, rows_of_right, step_by, step_of};
use bumpalo::Bump;
use jp_base::Memory;
use jp_joins::Tuple;
use jp_problem::Method;
use jp_query::JoinKind;
use std::alloc::Global;

/// What is timed: the making of the tuples alone, with a pair in the arena for each, the plain loop, or a method.
#[derive(Clone, Copy, Debug)]
pub enum Work {
    Tuples,
    Arena,
    Plain,
    Step(Method),
}

/// Does the work with two columns of so many numbers, each of which stands once in each. Gives how many tuples came out.
pub fn worked(alloc: Global, work: Work, count: u32) -> Result<usize, Memory> {
    let left = column(alloc, count, false)?;
    let right = column(alloc, count, true)?;
    worked_on(alloc, work, left.as_slice(), right.as_slice())
}

fn column(alloc: Global, count: u32, scattered: bool) -> Result<Vec<Option<u64>>, Memory>
    ensures { IfOk result (λ v. All IsSmall v.items) }
{
    let mut list = Vec::new(alloc);
    'rows: for row in 0..count {
        list.push(Some(number_of(row, count, scattered)))?;
    }
    Ok(list)
}

/// A step of 7,919 goes through all numbers below a count that it doesn't divide.
fn number_of(row: u32, count: u32, scattered: bool) -> u64
    requires { row < count }
    ensures { result ≤ 2 ^ 32 }
{
    if scattered {
        (row as u64 * 7919) % (count as u64)
    } else {
        row as u64
    }
}

fn worked_on(
    alloc: Global,
    work: Work,
    left: &[Option<u64>],
    right: &[Option<u64>],
) -> Result<usize, Memory>
    requires left { All IsSmall left.now }
    requires right { All IsSmall right.now }
{
    let asked = Asked {
        method: Method::Hash,
        kind: JoinKind::Inner,
        sublink: false,
        filtered: false,
    };
    let step = step_of(alloc, asked, left, right)?;
    let arena = Bump::new(alloc);
    counted(alloc, work, &step, &arena)
}

fn counted(
    alloc: Global,
    work: Work,
    step: &Relations<'_>,
    arena: &Bump<Global>,
) -> Result<usize, Memory>
    requires { IsStep step.now }
{
    let lefts = rows_of_left(alloc, arena, step.left.len())?;
    let rights = rows_of_right(alloc, arena, step.right.len())?;
    counted_by(
        alloc,
        work,
        step,
        lefts.as_slice(),
        rights.as_slice(),
        arena,
    )
}

fn counted_by<'t>(
    alloc: Global,
    work: Work,
    step: &Relations<'_>,
    lefts: &[Tuple<'t>],
    rights: &[Tuple<'t>],
    arena: &'t Bump<Global>,
) -> Result<usize, Memory>
    requires step { IsStep step.now }
    requires lefts { All (λ t. IsLeft (map_of t)) lefts.now }
    requires rights { All (λ t. IsRight (map_of t)) rights.now }
{
    match work {
        Work::Tuples => Ok(lefts.len()),
        Work::Arena => {
            let pairs = pairs_in(alloc, lefts, arena)?;
            Ok(pairs.len())
        }
        Work::Plain => {
            let found = plainly_joined(alloc, step.left, step.right, lefts, rights, arena)?;
            Ok(found.len())
        }
        Work::Step(method) => {
            let found = step_by(alloc, method, step, lefts, rights, arena)?;
            Ok(found.len())
        }
    }
}

/// As many pairs in the arena.
fn pairs_in<'t>(
    alloc: Global,
    lefts: &[Tuple<'t>],
    arena: &'t Bump<Global>,
) -> Result<Vec<Tuple<'t>>, Memory> {
    let mut pairs = Vec::new(alloc);
    'lefts: for left in lefts {
        pairs.push(pair(*left, *left, arena)?)?;
    }
    Ok(pairs)
}
