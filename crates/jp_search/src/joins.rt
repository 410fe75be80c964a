//! Which joins are done in a set, by how many they are and by the sum of their places. A join is never done in two disjoint
//! sets, so at a step the numbers tell how many come to be done, and the sums at which place.

ghost use Rattle.std.specs.Prelude.{◌≡◌, ◌<◌, ◌≤◌, ◌*◌, ◌^◌, length, true, count_by, bit_or, slice_get, All, if◌then◌else◌};
ghost use Rattle.std.specs.Option.{option_copied};
ghost use Rattle.jp_problem.specs.Legal.{Apart};
ghost use Rattle.jp_problem.specs.LegalTests.{is_joinable, step_of};
ghost use Rattle.jp_problem.specs.Made.{HasApartSets};
ghost use Rattle.jp_problem.specs.StepClauses.{is_done};
ghost use Rattle.jp_search.specs.Joins.{facts_of, places_of, by_join};

use jp_base::RelSet;
use jp_problem::sets::is_within;
use jp_problem::{Problem, Special, Step, is_done};

/// What a set says of the special joins: whether it can be joined by itself, how many joins are done in it, and the sum of
/// their places.
#[derive(Clone, Copy)]
pub struct Facts {
    pub joinable: bool,
    pub done: usize,
    pub places: u128,
}

pub fn facts_of(problem: &Problem, set: RelSet) -> Facts
    ensures { result ≡ facts_of problem.now.joins set }
{
    let joins = problem.joins.as_slice();
    Facts {
        joinable: is_joinable(problem, set),
        done: done_count(joins, set),
        places: done_places(joins, set),
    }
}

fn is_joinable(problem: &Problem, set: RelSet) -> bool
    ensures { result ≡ is_joinable problem.now.joins set }
{
    jp_problem::is_joinable(problem, set)
}

fn done_count(joins: &[Special], set: RelSet) -> usize
    ensures { result ≡ count_by (is_done set) joins.now }
{
    joins.iter().filter(|join| is_done(set, join)).count()
}

fn done_places(joins: &[Special], set: RelSet) -> u128
    ensures { result ≡ places_of (is_done set) 0 joins.now }
{
    let mut places = 0;
    'joins: for (place, join) in joins.iter().enumerate() {
        places += place_if_done(set, join, place);
    }
    places
}

fn place_if_done(set: RelSet, join: &Special, place: usize) -> u128
    ensures is { result ≡ (if is_done set join.now then place else 0) }
    ensures fits { result < 2 ^ 64 }
    ensures place_fits { place < 2 ^ 64 }
{
    if is_done(set, join) { place as u128 } else { 0 }
}

/// The kind of the step of two disjoint sets, by what they and their union, which is joinable, say of the joins; none where
/// the step isn't legal.
pub fn kind_of(
    problem: &Problem,
    left: RelSet,
    right: RelSet,
    of_left: &Facts,
    of_right: &Facts,
    of_both: &Facts,
) -> Option<Step>
    requires sets { All HasApartSets problem.now.joins }
    requires apart { Apart left right }
    requires left { of_left.now ≡ facts_of problem.now.joins left }
    requires right { of_right.now ≡ facts_of problem.now.joins right }
    requires both { of_both.now ≡ facts_of problem.now.joins (bit_or left right) }
    requires joinable { of_both.now.joinable ≡ true }
    ensures { result ≡ step_of problem.now.joins left right }
{
    if !of_left.joinable || !of_right.joinable {
        return None;
    }
    let new = of_both.done - of_left.done - of_right.done;
    if new == 0 {
        return Some(Step::Inner);
    }
    if new > 1 {
        return None;
    }
    let place = of_both.places - of_left.places - of_right.places;
    let join = join_at(problem.joins.as_slice(), place)?;
    by_join(join, left, right)
}

fn join_at(joins: &[Special], place: u128) -> Option<&Special>
    ensures { option_copied result ≡ slice_get joins.now place }
{
    if place < joins.len() as u128 {
        Some(&joins[place as usize])
    } else {
        None
    }
}

/// A step by a join whose sides lie in the two parts.
fn by_join(join: &Special, left: RelSet, right: RelSet) -> Option<Step>
    ensures { result ≡ by_join join.now left right }
{
    if is_within(join.min_left, left) && is_within(join.min_right, right) {
        Some(Step::By(join.no))
    } else {
        None
    }
}
