ghost use Rattle.std.specs.Prelude.{◌≡◌, All, IfOk, map};
ghost use Rattle.jp_base.specs.Cells.{value_of_cell};
ghost use Rattle.jp_query.specs.Ordering.{key_order};
ghost use Rattle.jp_frame.specs.Methods.{sorted_by};
ghost use Rattle.std.specs.List.Sorted.{IsPermutation, IsSortedBy, IsStableBy};
ghost use Rattle.jp_joins.specs.Keys.{AreMade};
ghost use Rattle.jp_joins.specs.Sorting.{IsKeyed, ascending, keyed_before, map_of_keyed, stands_before, tuple_of_keyed};
ghost use Rattle.jp_joins.specs.Tuples.{maps_of};

use crate::keys::key_cell;
use crate::{Tuple, TupleEnv};
use jp_base::{Cell, Memory, Value, total_order};
use jp_query::Expr;
use std::alloc::Global;
use std::cmp::Ordering;

/// A tuple with the value of a side of the key.
#[derive(Clone, Copy)]
pub struct Keyed<'k, 't> {
    pub key: Cell<'k>,
    pub tuple: Tuple<'t>,
}

/// The tuples with a side of the key, stably sorted by it, ascending, NULL last.
pub fn in_key_order<'k, 't, E: TupleEnv>(
    alloc: Global,
    env: &'k E,
    side: &Expr,
    tuples: &[Tuple<'t>],
    made: &'k [Value],
) -> Result<Vec<Keyed<'k, 't>>, Memory>
    requires { AreMade (E.meant env.now) side.now (maps_of tuples.now) made.now }
    ensures tuples { IfOk result (λ v. map map_of_keyed v.items ≡ sorted_by (stands_before (E.meant env.now) side.now) (maps_of tuples.now)) }
    ensures keys { IfOk result (λ v. All (IsKeyed (E.meant env.now) side.now) v.items) }
    ensures sorted { IfOk result (λ v. IsSortedBy keyed_before v.items) }
{
    let keyed = with_keys(alloc, env, side, tuples, made)?;
    let keyed = in_order(keyed)?;
    Ok(keyed)
}

/// Each tuple with its key.
fn with_keys<'k, 't, E: TupleEnv>(
    alloc: Global,
    env: &'k E,
    side: &Expr,
    tuples: &[Tuple<'t>],
    made: &'k [Value],
) -> Result<Vec<Keyed<'k, 't>>, Memory>
    requires { AreMade (E.meant env.now) side.now (maps_of tuples.now) made.now }
    ensures tuples { IfOk result (λ v. map map_of_keyed v.items ≡ maps_of tuples.now) }
    ensures keys { IfOk result (λ v. All (IsKeyed (E.meant env.now) side.now) v.items) }
{
    let mut list = Vec::new(alloc);
    'tuples: for at in 0..tuples.len() {
        let key = key_cell(env, side, tuples, made, at);
        let tuple = tuples[at];
        list.push(Keyed { key, tuple })?;
    }
    Ok(list)
}

/// The list, sorted.
fn in_order<'k, 't>(list: Vec<Keyed<'k, 't>>) -> Result<Vec<Keyed<'k, 't>>, Memory>
    ensures permutation { IfOk result (λ v. IsPermutation list.entry.items v.items) }
    ensures sorted { IfOk result (λ v. IsSortedBy keyed_before v.items) }
    ensures stable { IfOk result (λ v. IsStableBy keyed_before list.entry.items v.items) }
{
    let mut list = list;
    match list.sort_by(|a, b| key_order(a.key, b.key)) {
        Ok(()) => Ok(list),
        Err(_) => Err(Memory),
    }
}

/// How two keys stand to each other: ascending, NULL last.
pub fn key_order(left: Cell<'_>, right: Cell<'_>) -> Ordering
    ensures { result ≡ key_order ascending (value_of_cell left.entry) (value_of_cell right.entry) }
{
    match (left, right) {
        (Cell::Null, Cell::Null) => Ordering::Equal,
        (Cell::Null, _) => Ordering::Greater,
        (_, Cell::Null) => Ordering::Less,
        _ => total_order(left, right),
    }
}

/// The tuples, without their keys.
pub fn tuples_of<'t>(alloc: Global, list: &[Keyed<'_, 't>]) -> Result<Vec<Tuple<'t>>, Memory>
    ensures { IfOk result (λ v. v.items ≡ map tuple_of_keyed list.now) }
{
    let mut tuples = Vec::new(alloc);
    'list: for keyed in list {
        tuples.push(keyed.tuple)?;
    }
    Ok(tuples)
}
