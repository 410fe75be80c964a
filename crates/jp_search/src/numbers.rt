//! Sets of items below 16 as numbers, and numbers as sets: bit i of the number says that i is a member.

ghost use Rattle.std.specs.Prelude.{◌≡◌, ◌^◌, ◌<◌};

use jp_base::RelSet;

/// The set as a number.
pub fn number(set: RelSet) -> usize
    requires { set < 2 ^ 16 }
    ensures { result ≡ set }
{
    let mut number = 0;
    'items: for i in 0..16 {
        if set.has(i) {
            number += 1 << i;
        }
    }
    number
}

/// The number as a set.
pub fn set_of(number: usize) -> RelSet
    requires { number < 2 ^ 16 }
    ensures { result ≡ number }
{
    let mut set = RelSet::empty();
    'items: for i in 0..16 {
        if number >> i & 1 == 1 {
            set = set.union(RelSet::one(i));
        }
    }
    set
}
