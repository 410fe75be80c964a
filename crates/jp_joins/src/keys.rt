ghost use Rattle.std.specs.Prelude.{◌≡◌, ◌<◌, [], All, IfOk, length, slice_index_or};
ghost use Rattle.std.specs.Prelude.{false};
ghost use Rattle.jp_base.specs.Cells.{value_of_cell};
ghost use Rattle.jp_problem.specs.Equalities.{has_sublink};
ghost use Rattle.jp_joins.specs.Conditions.{CanEvaluateAt};
ghost use Rattle.jp_joins.specs.Keys.{AreMade, value_of_some, values_at};
ghost use Rattle.jp_joins.specs.Meant.{value_at};
ghost use Rattle.jp_joins.specs.Tuples.{map_of, maps_of};

use crate::at::At;
use crate::{Tuple, TupleEnv};
use jp_base::{Cell, Memory, Value};
use jp_eval::eval;
use jp_query::Expr;
use std::alloc::Global;

/// A value by which tuples are looked up; a text is lent.
#[derive(Clone, Copy, PartialEq, Eq, Hash)]
pub enum Key<'k> {
    Number(i128),
    Boolean(bool),
    Text(&'k str),
}

/// The values of the sides of the key at the left and at the right tuples; of a side that is a column none are made.
#[derive(Drop)]
pub struct Made {
    pub left: Vec<Value>,
    pub right: Vec<Value>,
}

/// The key of a cell. NULL has none, since it is equal to nothing.
pub fn key_of(cell: Cell<'_>) -> Option<Key<'_>>
    ensures { value_of_some result ≡ value_of_cell cell.entry }
{
    match cell {
        Cell::Null => None,
        Cell::Num(number) => Some(Key::Number(number)),
        Cell::Bool(truth) => Some(Key::Boolean(truth)),
        Cell::Text(text) => Some(Key::Text(text)),
    }
}

/// The values of a side of the key at the tuples, unless it is a column: its cells are lent.
pub fn made_keys<E: TupleEnv>(
    alloc: Global,
    env: &E,
    side: &Expr,
    tuples: &[Tuple<'_>],
) -> Result<Vec<Value>, Memory>
    requires plain { has_sublink side.now ≡ false }
    requires evaluable { All (λ t. CanEvaluateAt (E.meant env.now) (map_of t) side.now) tuples.now }
    ensures { IfOk result (λ v. AreMade (E.meant env.now) side.now (maps_of tuples.now) v.items) }
{
    match side {
        Expr::Col { .. } => Ok(Vec::new(alloc)),
        _ => {
            let values = made_values(alloc, env, side, tuples)?;
            Ok(values)
        }
    }
}

/// The values of a side of the key at the tuples.
fn made_values<E: TupleEnv>(
    alloc: Global,
    env: &E,
    side: &Expr,
    tuples: &[Tuple<'_>],
) -> Result<Vec<Value>, Memory>
    requires plain { has_sublink side.now ≡ false }
    requires evaluable { All (λ t. CanEvaluateAt (E.meant env.now) (map_of t) side.now) tuples.now }
    ensures { IfOk result (λ v. v.items ≡ values_at (E.meant env.now) side.now (maps_of tuples.now)) }
{
    let mut values = Vec::new(alloc);
    'tuples: for tuple in tuples {
        let value = made_value(alloc, env, side, *tuple)?;
        values.push(value)?;
    }
    Ok(values)
}

/// The value of an expression without sublinks at a tuple.
fn made_value<E: TupleEnv>(
    alloc: Global,
    env: &E,
    side: &Expr,
    tuple: Tuple<'_>,
) -> Result<Value, Memory>
    requires plain { has_sublink side.now ≡ false }
    requires evaluable { CanEvaluateAt (E.meant env.now) (map_of tuple) side.now }
    ensures { IfOk result (λ v. v ≡ value_at (E.meant env.now) (map_of tuple.entry) side.now) }
{
    let at = At {
        env,
        tuple,
        lent: &[],
    };
    let value = eval(alloc, side, &at)?;
    Ok(value)
}

/// The value of a side of the key at one of the tuples.
pub fn key_cell<'k, E: TupleEnv>(
    env: &'k E,
    side: &Expr,
    tuples: &[Tuple<'_>],
    made: &'k [Value],
    at: usize,
) -> Cell<'k>
    requires there { at < length tuples.now }
    requires made { AreMade (E.meant env.now) side.now (maps_of tuples.now) made.now }
    ensures { value_of_cell result ≡ value_at (E.meant env.now) (slice_index_or (maps_of tuples.now) at []) side.now }
{
    match side {
        Expr::Col { rel, col, .. } => env.cell(tuples[at], *rel, *col),
        _ => made[at].cell(),
    }
}
