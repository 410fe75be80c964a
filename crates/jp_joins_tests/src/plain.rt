use crate::relations::row_in;
use bumpalo::Bump;
use jp_base::Memory;
use jp_joins::Tuple;
use std::alloc::Global;
use std::collections::HashMap;

/// The matches of two columns by a plain loop over a map: what a step by Hash is timed beside.
pub fn plainly_joined<'t>(
    alloc: Global,
    left: &[Option<u64>],
    right: &[Option<u64>],
    lefts: &[Tuple<'t>],
    rights: &[Tuple<'t>],
    arena: &'t Bump<Global>,
) -> Result<Vec<Tuple<'t>>, Memory> {
    let mut table = HashMap::new(alloc);
    'rights: for tuple in rights {
        match number_at(right, row_in(*tuple, 1)) {
            Some(number) => put(alloc, &mut table, number, *tuple)?,
            None => {}
        }
    }
    let mut found = Vec::new(alloc);
    'lefts: for tuple in lefts {
        match number_at(left, row_in(*tuple, 0)) {
            Some(number) => add_pairs(&table, number, *tuple, arena, &mut found)?,
            None => {}
        }
    }
    Ok(found)
}

fn number_at(numbers: &[Option<u64>], row: Option<u64>) -> Option<u64> {
    match row {
        Some(row) => {
            let row = row as usize;
            if row < numbers.len() {
                numbers[row]
            } else {
                None
            }
        }
        None => None,
    }
}

fn put<'t>(
    alloc: Global,
    table: &mut HashMap<u64, Vec<Tuple<'t>>>,
    number: u64,
    tuple: Tuple<'t>,
) -> Result<(), Memory> {
    match table.get_mut(&number) {
        Some(tuples) => {
            tuples.push(tuple)?;
            Ok(())
        }
        None => {
            let mut tuples = Vec::new(alloc);
            tuples.push(tuple)?;
            table.insert(number, tuples)?;
            Ok(())
        }
    }
}

fn add_pairs<'t>(
    table: &HashMap<u64, Vec<Tuple<'t>>>,
    number: u64,
    left: Tuple<'t>,
    arena: &'t Bump<Global>,
    found: &mut Vec<Tuple<'t>>,
) -> Result<(), Memory> {
    match table.get(&number) {
        Some(rights) => {
            'rights: for right in rights.as_slice() {
                found.push(pair(left, *right, arena)?)?;
            }
            Ok(())
        }
        None => Ok(()),
    }
}

/// The tuple of both, in the arena.
pub fn pair<'t>(
    left: Tuple<'t>,
    right: Tuple<'t>,
    arena: &'t Bump<Global>,
) -> Result<Tuple<'t>, Memory> {
    match arena.try_alloc_slice_copy(&[row_in(left, 0), row_in(right, 1)]) {
        Ok(rows) => Ok(Tuple { rows }),
        Err(_) => Err(Memory),
    }
}
