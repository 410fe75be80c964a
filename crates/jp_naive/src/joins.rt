ghost use Rattle.std.specs.Prelude.{◌≡◌, ◌<◌, ◌+◌, ◌++◌, ◌∷◌, [], ◌&&◌, Bool, true, not, IfOk, OnOk, length, map, vec_len, replicate, if◌then◌else◌};
ghost use Rattle.std.specs.List.{list_any, slice_index_or};
ghost use Rattle.jp_naive.specs.Joining.{absent, is_full, is_marked, joined_leaves, joined_width, pairs_of, pairs_or_left, part_of, struck};

use crate::frames::Leaf;
use crate::leaves::followed;
use crate::numbers::Numbers;
use jp_base::Memory;
use jp_query::JoinKind;
use std::alloc::Global;

/// Adds the tuples that a left tuple gives to a join, by which right tuples match it. A Right join is a Left join with its
/// sides exchanged.
pub fn push_part(
    kind: JoinKind,
    found: &mut Numbers,
    left: &[Option<u64>],
    right: &Numbers,
    missing: &[Option<u64>],
    marks: &[bool],
) -> Result<(), Memory>
    requires width { found.now.width ≡ joined_width kind right.now.width (length left.now) }
    requires missing { missing.now ≡ absent right.now.width }
    ensures width { found.new.width ≡ found.old.width }
    ensures more { OnOk result (found.new.list ≡ found.old.list ++ part_of kind right.now.width left.now right.now.list marks.now) }
{
    match kind {
        JoinKind::Inner => push_pairs(found, left, right, marks),
        JoinKind::Left => push_pairs_or_left(found, left, right, missing, marks),
        JoinKind::Right => push_pairs_or_left(found, left, right, missing, marks),
        JoinKind::Full => push_pairs_or_left(found, left, right, missing, marks),
        JoinKind::Semi => {
            if any_marked(marks) {
                found.push(left, &[])
            } else {
                Ok(())
            }
        }
        JoinKind::Anti => {
            if any_marked(marks) {
                Ok(())
            } else {
                found.push(left, &[])
            }
        }
    }
}

/// Adds the pairs of a left tuple with the right tuples that match it, or, if there are none, itself with the right
/// relations absent.
fn push_pairs_or_left(
    found: &mut Numbers,
    left: &[Option<u64>],
    right: &Numbers,
    missing: &[Option<u64>],
    marks: &[bool],
) -> Result<(), Memory>
    requires width { found.now.width ≡ right.now.width + length left.now }
    requires missing { missing.now ≡ absent right.now.width }
    ensures width { found.new.width ≡ found.old.width }
    ensures more { OnOk result (found.new.list ≡ found.old.list ++ pairs_or_left right.now.width left.now right.now.list marks.now) }
{
    if any_marked(marks) {
        push_pairs(found, left, right, marks)
    } else {
        found.push(missing, left)
    }
}

/// Adds the pairs of a left tuple with the right tuples that match it, in their order.
fn push_pairs(
    found: &mut Numbers,
    left: &[Option<u64>],
    right: &Numbers,
    marks: &[bool],
) -> Result<(), Memory>
    requires { found.now.width ≡ right.now.width + length left.now }
    ensures width { found.new.width ≡ found.old.width }
    ensures more { OnOk result (found.new.list ≡ found.old.list ++ pairs_of left.now right.now.list marks.now) }
{
    'rights: for at in 0..right.len().min(marks.len()) {
        if marks[at] {
            found.push(right.tuple(at), left)?;
        }
    }
    Ok(())
}

/// Adds the right tuples that are marked, with the left relations absent.
pub fn push_unmatched(
    found: &mut Numbers,
    missing: &[Option<u64>],
    right: &Numbers,
    marks: &[bool],
) -> Result<(), Memory>
    requires { found.now.width ≡ right.now.width + length missing.now }
    ensures width { found.new.width ≡ found.old.width }
    ensures more { OnOk result (found.new.list ≡ found.old.list ++ pairs_of missing.now right.now.list marks.now) }
{
    push_pairs(found, missing, right, marks)
}

/// Whether a mark is true.
fn any_marked(marks: &[bool]) -> bool
    ensures { result ≡ list_any is_marked marks.now }
{
    marks.iter().any(|mark| *mark)
}

/// The marks of the right tuples that still match no left one: of a Full join without those that match now.
pub fn still_unmatched(
    alloc: Global,
    kind: JoinKind,
    unmatched: Vec<bool>,
    marks: &[bool],
) -> Result<Vec<bool>, Memory>
    requires { vec_len unmatched ≡ length marks.now }
    ensures { IfOk result (λ v. v.items ≡ (if is_full kind then struck unmatched.items marks.now else unmatched.items)) }
{
    match kind {
        JoinKind::Full => without(alloc, unmatched.as_slice(), marks),
        JoinKind::Inner => Ok(unmatched),
        JoinKind::Left => Ok(unmatched),
        JoinKind::Right => Ok(unmatched),
        JoinKind::Semi => Ok(unmatched),
        JoinKind::Anti => Ok(unmatched),
    }
}

/// The marks without those that are marked in the second list.
fn without(alloc: Global, unmatched: &[bool], marks: &[bool]) -> Result<Vec<bool>, Memory>
    requires { length unmatched.now ≡ length marks.now }
    ensures { IfOk result (λ v. v.items ≡ struck unmatched.now marks.now) }
{
    let mut list = Vec::new(alloc);
    'marks: for at in 0..unmatched.len() {
        match list.push(unmatched[at] && !marks[at]) {
            Ok(()) => {}
            Err(_) => return Err(Memory),
        }
    }
    Ok(list)
}

/// So many marks, all true.
pub fn all_marked(alloc: Global, count: usize) -> Result<Vec<bool>, Memory>
    ensures { IfOk result (λ v. v.items ≡ replicate count true) }
{
    let mut list = Vec::new(alloc);
    'marks: for _ in 0..count {
        match list.push(true) {
            Ok(()) => {}
            Err(_) => return Err(Memory),
        }
    }
    Ok(list)
}

/// No row for so many leaves.
pub fn nowhere(alloc: Global, width: usize) -> Result<Vec<Option<u64>>, Memory>
    ensures { IfOk result (λ v. v.items ≡ absent width) }
{
    let mut list = Vec::new(alloc);
    'leaves: for _ in 0..width {
        match list.push(None) {
            Ok(()) => {}
            Err(_) => return Err(Memory),
        }
    }
    Ok(list)
}

/// For how many leaves the tuples of a join have numbers.
pub fn width_of(kind: JoinKind, left: &Numbers, right: &Numbers) -> Result<usize, Memory>
    ensures { IfOk result (λ width. width ≡ joined_width kind right.now.width left.now.width) }
{
    match kind {
        JoinKind::Semi => Ok(left.width()),
        JoinKind::Anti => Ok(left.width()),
        JoinKind::Inner => sum(right.width(), left.width()),
        JoinKind::Left => sum(right.width(), left.width()),
        JoinKind::Right => sum(right.width(), left.width()),
        JoinKind::Full => sum(right.width(), left.width()),
    }
}

fn sum(a: usize, b: usize) -> Result<usize, Memory>
    ensures { IfOk result (λ sum. sum ≡ a + b) }
{
    match a.checked_add(b) {
        Some(sum) => Ok(sum),
        None => Err(Memory),
    }
}

/// The leaves of the tuples of a join.
pub fn leaves_of(kind: JoinKind, left: Vec<Leaf>, right: Vec<Leaf>) -> Result<Vec<Leaf>, Memory>
    ensures { IfOk result (λ v. v.items ≡ joined_leaves kind left.items right.items) }
{
    match kind {
        JoinKind::Semi => Ok(left),
        JoinKind::Anti => Ok(left),
        JoinKind::Inner => followed(right, left),
        JoinKind::Left => followed(right, left),
        JoinKind::Right => followed(right, left),
        JoinKind::Full => followed(right, left),
    }
}
