//! Operations on sets of items, as functions of their masks.

ghost use Rattle.std.specs.Prelude.{◌≡◌, ◌<◌, ◌^◌, bit_and, bit_or};
ghost use Rattle.jp_query.specs.Refs.{only};
ghost use Rattle.jp_problem.specs.Sets.{is_within, is_empty, meets, or_if_empty, set_if, without};

use jp_base::{ItemNo, RelSet};

pub fn is_within(a: RelSet, b: RelSet) -> bool
    ensures { result ≡ is_within a b }
{
    a.within(b)
}

pub fn is_empty(a: RelSet) -> bool
    ensures { result ≡ is_empty a }
{
    a.first().is_none()
}

pub fn meets(a: RelSet, b: RelSet) -> bool
    ensures { result ≡ meets a b }
{
    a.meets(b)
}

pub fn both(a: RelSet, b: RelSet) -> RelSet
    ensures is { result ≡ bit_or a b }
    ensures below { result < 2 ^ 64 }
{
    a.union(b)
}

pub fn without(a: RelSet, b: RelSet) -> RelSet
    ensures { result ≡ without a b }
{
    a.minus(b)
}

pub fn nothing() -> RelSet
    ensures { result ≡ 0 }
{
    RelSet::empty()
}

/// The members that both sets have.
pub fn common(a: RelSet, b: RelSet) -> RelSet
    ensures { result ≡ bit_and a b }
{
    a.minus(a.minus(b))
}

pub fn or_if_empty(set: RelSet, other: RelSet) -> RelSet
    ensures { result ≡ or_if_empty set other }
{
    if is_empty(set) { other } else { set }
}

pub fn set_if(test: bool, set: RelSet) -> RelSet
    ensures { result ≡ set_if test set }
{
    if test { set } else { nothing() }
}

/// The set of one item.
pub fn one(item: ItemNo) -> RelSet
    requires { item < 64 }
    ensures { result ≡ only item }
{
    RelSet::one(item)
}
