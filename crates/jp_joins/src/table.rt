ghost use Rattle.std.specs.Prelude.{◌≡◌, ◌++◌, IfOk, OnOk, filter, map};
ghost use Rattle.std.specs.Mem.{FitsInMemory};
ghost use Rattle.jp_base.specs.declared.values.Value.{Value as Datum};
ghost use Rattle.jp_joins.specs.Keys.{AreMade, has_key, has_value, lists_of, once_if, places_where, table_at, tuple_has, value_of_key, value_of_some, values_at};
ghost use Rattle.jp_base.specs.Values.{are_equal};
ghost use Rattle.jp_joins.specs.Tuples.{maps_of};

use crate::keys::{Key, key_cell, key_of};
use crate::listed::{Listed, list, listed_in};
use crate::{Tuple, TupleEnv};
use jp_base::{Memory, Value};
use jp_query::Expr;
use std::alloc::Global;
use std::collections::HashMap;

/// The tuples with each key, in their order. Those whose key is NULL are left out.
pub fn table_of<'k, 't, E: TupleEnv>(
    alloc: Global,
    env: &'k E,
    side: &Expr,
    tuples: &[Tuple<'t>],
    made: &'k [Value],
) -> Result<HashMap<Key<'k>, Listed<Tuple<'t>>>, Memory>
    requires { AreMade (E.meant env.now) side.now (maps_of tuples.now) made.now }
    ensures { IfOk result (λ table. (v : Datum) → table_at table v ≡ filter (tuple_has (E.meant env.now) side.now v) tuples.now) }
{
    let mut table = HashMap::with_capacity(alloc, tuples.len())?;
    'tuples: for at in 0..tuples.len() {
        let key = key_of(key_cell(env, side, tuples, made, at));
        add_by_key(alloc, &mut table, key, tuples[at])?;
    }
    Ok(table)
}

/// The places of the tuples with each key, in their order. Those whose key is NULL are left out.
pub fn places_of<'k, E: TupleEnv>(
    alloc: Global,
    env: &'k E,
    side: &Expr,
    tuples: &[Tuple<'_>],
    made: &'k [Value],
) -> Result<HashMap<Key<'k>, Listed<usize>>, Memory>
    requires { AreMade (E.meant env.now) side.now (maps_of tuples.now) made.now }
    ensures { IfOk result (λ table. (v : Datum) → table_at table v ≡ places_where (has_value (E.meant env.now) side.now v) 0 (maps_of tuples.now)) }
{
    let mut table = HashMap::with_capacity(alloc, tuples.len())?;
    'tuples: for at in 0..tuples.len() {
        let key = key_of(key_cell(env, side, tuples, made, at));
        add_by_key(alloc, &mut table, key, at)?;
    }
    Ok(table)
}

/// Puts the value behind those with the key; NULL has none, so nothing is listed for it. The one error is want of memory.
pub fn add_by_key<'k, T: Copy>(
    alloc: Global,
    table: &mut HashMap<Key<'k>, Listed<T>>,
    key: Option<Key<'k>>,
    value: T,
) -> Result<(), Memory>
    ensures { OnOk result ((v : Datum) → table_at table.new v ≡ table_at table.old v ++ once_if (are_equal v (value_of_some key.entry)) value) }
{
    match key {
        Some(key) => {
            add_at(alloc, table, key, value)?;
            Ok(())
        }
        None => Ok(()),
    }
}

/// Puts the value behind those with the key.
fn add_at<'k, T: Copy>(
    alloc: Global,
    table: &mut HashMap<Key<'k>, Listed<T>>,
    key: Key<'k>,
    value: T,
) -> Result<(), Memory>
    ensures { OnOk result ((v : Datum) → table_at table.new v ≡ table_at table.old v ++ once_if (has_key v key.entry) value) }
{
    match table.get_mut(&key) {
        Some(listed) => {
            list(alloc, listed, value)?;
            Ok(())
        }
        None => {
            table.insert(key, Listed::One(value))?;
            Ok(())
        }
    }
}

/// What the table lists at the key of each tuple. Look-ups stand in a loop of their own, which does little else, so that a
/// processor begins the next ones while it waits for the memory of one.
pub fn lists_at<'k, 'x, E: TupleEnv, T>(
    alloc: Global,
    env: &'k E,
    side: &Expr,
    tuples: &[Tuple<'_>],
    made: &'k [Value],
    table: &'x HashMap<Key<'k>, Listed<T>>,
) -> Result<Vec<&'x [T]>, Memory>
    requires fits { FitsInMemory T.row }
    requires made { AreMade (E.meant env.now) side.now (maps_of tuples.now) made.now }
    ensures { IfOk result (λ v. lists_of v.items ≡ map (table_at table.now) (values_at (E.meant env.now) side.now (maps_of tuples.now))) }
{
    let mut lists = Vec::with_capacity(alloc, tuples.len())?;
    'tuples: for at in 0..tuples.len() {
        let key = key_of(key_cell(env, side, tuples, made, at));
        lists.push(list_by_key(table, &key))?;
    }
    Ok(lists)
}

/// What the table lists at the key, in the order in which it came; NULL has none.
pub fn list_by_key<'k, 'x, T>(
    table: &'x HashMap<Key<'k>, Listed<T>>,
    key: &Option<Key<'k>>,
) -> &'x [T]
    requires { FitsInMemory T.row }
    ensures { result.now ≡ table_at table.now (value_of_some key.now) }
{
    match key {
        Some(key) => list_of(table, key),
        None => &[],
    }
}

fn list_of<'k, 'x, T>(table: &'x HashMap<Key<'k>, Listed<T>>, key: &Key<'k>) -> &'x [T]
    requires { FitsInMemory T.row }
    ensures { result.now ≡ table_at table.now (value_of_key key.now) }
{
    match table.get(key) {
        Some(listed) => listed_in(listed),
        None => &[],
    }
}
