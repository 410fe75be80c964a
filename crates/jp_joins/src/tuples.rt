ghost use Rattle.std.specs.Prelude.{◌≡◌, IfOk, OnOk, length};
ghost use Rattle.std.specs.Option.{option_map};
ghost use Rattle.jp_base.specs.Cells.{value_of_cell};
ghost use Rattle.jp_query.specs.Meaning.{cell_in};
ghost use Rattle.jp_placeholder.specs.Present.{IsPresentSet};
ghost use Rattle.jp_frame.specs.Maps.{both, either_row};
ghost use Rattle.jp_joins.specs.Meant.{Meant};
ghost use Rattle.jp_joins.specs.Tuples.{map_of};

use bumpalo::Bump;
use jp_base::{Cell, Memory, RelNo, RelSet};
use jp_query::{Expr, JoinKind};
use std::alloc::Global;

/// A row number, or none, for each item of a block. Equal row numbers stand for equal cells.
#[derive(Clone, Copy)]
pub struct Tuple<'t> {
    pub rows: &'t [Option<u64>],
}

/// What the tuples of a step stand for, and what the step is. An implementation lends what it has; it evaluates no
/// expression.
pub trait TupleEnv {
    /// The rows of the relations at each tuple, the rows of each kept sublink there, which no call of this trait gives, and
    /// what the calls for the step tell.
    ghost meant: { Self → Meant };

    /// Inner, Left, Semi or Anti.
    fn join_kind(&self) -> JoinKind
        ensures { result ≡ (meant self.now).kind };

    /// The value of a column. It is NULL where the relation is absent.
    fn cell(&self, tuple: Tuple<'_>, rel: RelNo, col: u32) -> Cell<'_>
        ensures { value_of_cell result ≡ cell_in ((meant self.now).environment (map_of tuple.entry) rel) col };

    /// The relations that have a row.
    fn present(&self, tuple: Tuple<'_>) -> RelSet
        ensures { IsPresentSet result ((meant self.now).environment (map_of tuple.entry)) };

    /// The sides of the equality by which tuples are looked up, the left side first.
    fn key(&self) -> Option<(&Expr, &Expr)>
        ensures { option_map (λ sides. (sides.0.now, sides.1.now)) result ≡ (meant self.now).key };

    /// What a match makes true: the step clauses of an inner step, else the ON list of its join.
    fn on(&self) -> &[Expr]
        ensures { result.now ≡ (meant self.now).on };

    /// What the tuples of a step by a join have to make true afterwards: the step clauses.
    fn filters(&self) -> &[Expr]
        ensures { result.now ≡ (meant self.now).filters };
}

/// The rows of both tuples, written over what the list holds.
pub fn put_pair(
    pair: &mut Vec<Option<u64>>,
    left: Tuple<'_>,
    right: Tuple<'_>,
) -> Result<(), Memory>
    requires { length (map_of left) ≡ length (map_of right) }
    ensures { OnOk result (pair.new.items ≡ both (map_of left.entry) (map_of right.entry)) }
{
    let left = left.rows;
    let right = right.rows;
    pair.clear();
    'places: for at in 0..left.len() {
        pair.push(either(left[at], right[at]))?;
    }
    Ok(())
}

fn either(left: Option<u64>, right: Option<u64>) -> Option<u64>
    ensures { result ≡ either_row left right }
{
    match left {
        Some(_) => left,
        None => right,
    }
}

/// The tuple of these rows, in the arena.
pub fn placed<'t>(arena: &'t Bump<Global>, rows: &[Option<u64>]) -> Result<Tuple<'t>, Memory>
    ensures { IfOk result (λ t. map_of t ≡ rows.now) }
{
    match arena.try_alloc_slice_copy(rows) {
        Ok(rows) => Ok(Tuple { rows }),
        Err(_) => Err(Memory),
    }
}
