ghost use Rattle.std.specs.Prelude.{◌≡◌, ℕ, ◌^◌, ◌<◌, ◌≤◌, ◌↔◌, List, IsTrue, IsNone, IfSome, nat_eq, count_by};
ghost use Rattle.jp_base.specs.Sets.{Has, IsEmpty, IsOnly, IsUnion, IsDifference, Within, Meets, IsSameSet, IsLeastMember, IsGreatestBelow, IsWalk};

use std::marker::Model;

/// A set of numbers below 64, as of relations or items. Contracts see its mask, in which bit i says that i
/// is a member; `same_members` says that a set is no more than its members. Each call that makes a set says that its
/// mask lies below 2^64; `members_below` says that its members then lie below 64.
#[derive(Clone, Copy, Debug, PartialEq, Eq)]
pub struct RelSet {
    bits: u64,
}

impl Model for RelSet {
    ghost use Rattle.std.specs.Prelude.{ℕ};
    ghost use Rattle.std.specs.Coded.{coded_ℕ};

    ghost Value = { ℕ };

    ghost coded = { coded_ℕ };

    ghost view = { λ s. s.bits };

    ghost inverse = { λ n. record { bits = n } };
}

impl RelSet {
    /// The set without members.
    pub fn empty() -> RelSet
        ensures members { IsEmpty result }
        ensures below { result < 2 ^ 64 }
    {
        RelSet { bits: 0 }
    }

    /// The set of one number.
    pub fn one(i: u8) -> RelSet
        requires { i < 64 }
        ensures members { IsOnly i result }
        ensures below { result < 2 ^ 64 }
    {
        RelSet { bits: 1 << i }
    }

    pub fn union(self, o: RelSet) -> RelSet
        ensures members { IsUnion self o result }
        ensures below { result < 2 ^ 64 }
    {
        RelSet {
            bits: self.bits | o.bits,
        }
    }

    /// The members of `self` that `o` lacks.
    pub fn minus(self, o: RelSet) -> RelSet
        ensures members { IsDifference self o result }
        ensures below { result < 2 ^ 64 }
    {
        RelSet {
            bits: self.bits & !o.bits,
        }
    }

    /// Whether the two sets share a member.
    pub fn meets(self, o: RelSet) -> bool
        ensures members { IsTrue result ↔ Meets self o }
        ensures below { (self < 2 ^ 64) × (o < 2 ^ 64) }
    {
        self.bits & o.bits != 0
    }

    /// Whether each member of `self` is one of `o`.
    pub fn within(self, o: RelSet) -> bool
        ensures { IsTrue result ↔ Within self o }
    {
        self.bits & o.bits == self.bits
    }

    pub fn has(self, i: u8) -> bool
        requires { i < 64 }
        ensures { IsTrue result ↔ Has self i }
    {
        self.bits >> i & 1 == 1
    }

    /// The least member.
    pub fn first(self) -> Option<u8>
        ensures none { IsNone result ↔ IsEmpty self }
        ensures least { IfSome result (λ i. IsLeastMember self i) }
        ensures below { IfSome result (λ i. i < 64) }
    {
        if self.bits == 0 {
            None
        } else {
            Some(self.bits.trailing_zeros() as u8)
        }
    }

    /// The greatest subset of `self` that lies below `p` as a number, for each `p`, a subset or not. From
    /// `self` down to the empty set it meets each subset once (`each_part_once`).
    pub fn next_part(self, p: RelSet) -> Option<RelSet>
        ensures none { IsNone result ↔ IsEmpty p }
        ensures greatest { IfSome result (λ part. IsGreatestBelow self p part) }
        ensures below { IfSome result (λ part. part < 2 ^ 64) }
    {
        if p.bits == 0 {
            return None;
        }
        Some(RelSet {
            bits: greatest_part(self.bits, p.bits - 1),
        })
    }
}

/// The greatest subset of `set` that is at most `top`. Where `top` has members that `set` lacks, the
/// greatest of them is the first place where the answer falls below `top`, and from there on down it has
/// all members of `set`.
fn greatest_part(set: u64, top: u64) -> u64
    ensures within { Within result set }
    ensures below { result ≤ top }
    ensures greatest { (q : ℕ) → Within q set → q ≤ top → q ≤ result }
{
    let outside = top & !set;
    if outside == 0 {
        return top;
    }
    let place = 63 - outside.leading_zeros();
    let low = (1 << place) - 1;
    (top & set & !low) | (set & low)
}

/// A law: sets with the same members are equal.
pub fn same_members()
    ensures { (a b : ℕ) → IsSameSet a b → a ≡ b }
{}

/// A law: a mask lies below 2^64 where its members lie below 64, and only there.
pub fn members_below()
    ensures { (set : ℕ) → set < 2 ^ 64 ↔ ((i : ℕ) → Has set i → i < 64) }
{}

/// A law of `next_part`: whoever walks with it from a set down to the empty set meets each subset once.
pub fn each_part_once()
    ensures { (set : ℕ) (parts : List ℕ) → IsWalk set set parts →
        (q : ℕ) → Within q set → count_by (nat_eq q) parts ≡ 1 }
{}
