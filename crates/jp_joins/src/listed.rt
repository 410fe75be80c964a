ghost use Rattle.std.specs.Prelude.{◌≡◌, ◌++◌, ◌∷◌, [], IfOk, OnOk};
ghost use Rattle.std.specs.Mem.{FitsInMemory};
ghost use Rattle.jp_joins.specs.Keys.{items_of};

use jp_base::Memory;
use std::alloc::Global;
use std::slice;

/// What a table lists at a key, in the order in which it came. Most keys have one value, which then needs no list.
#[derive(Drop)]
pub enum Listed<T> {
    One(T),
    Many(Vec<T>),
}

/// Puts the value behind the others.
pub fn list<T: Copy>(alloc: Global, listed: &mut Listed<T>, value: T) -> Result<(), Memory>
    ensures { OnOk result (items_of listed.new ≡ items_of listed.old ++ value ∷ []) }
{
    match listed {
        Listed::One(first) => {
            let first = *first;
            let both = two(alloc, first, value)?;
            *listed = Listed::Many(both);
            Ok(())
        }
        Listed::Many(values) => {
            values.push(value)?;
            Ok(())
        }
    }
}

fn two<T: Copy>(alloc: Global, first: T, second: T) -> Result<Vec<T>, Memory>
    ensures { IfOk result (λ v. v.items ≡ first ∷ second ∷ []) }
{
    let mut both = Vec::new(alloc);
    both.push(first)?;
    both.push(second)?;
    Ok(both)
}

/// The values, in their order.
pub fn listed_in<T>(listed: &Listed<T>) -> &[T]
    requires { FitsInMemory T.row }
    ensures { result.now ≡ items_of listed.now }
{
    match listed {
        Listed::One(value) => slice::from_ref(value),
        Listed::Many(values) => values.as_slice(),
    }
}
