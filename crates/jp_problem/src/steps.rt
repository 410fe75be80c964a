ghost use Rattle.std.specs.Prelude.{◌≡◌, ◌↔◌, Some, find, count_by};
ghost use Rattle.std.specs.Option.{option_copied};
ghost use Rattle.jp_problem.specs.declared.types.Step.{Step as Kind};
ghost use Rattle.jp_problem.specs.Legal.{IsLegalStep};
ghost use Rattle.jp_problem.specs.LegalTests.{is_new, is_between, kind_of, are_joinable, step_of};

use crate::joinable::{all_stand, is_done};
use crate::sets::{both, is_within, meets};
use crate::{Problem, Special, Step};
use jp_base::RelSet;

/// The kind of the step that joins the items of `s1` as the left part and those of `s2` as the right one; none exactly
/// where the step isn't legal. It takes no memory.
pub fn step_kind(problem: &Problem, s1: RelSet, s2: RelSet) -> Option<Step>
    ensures { (kind : Kind) → (result ≡ Some kind) ↔ IsLegalStep problem.now s1 s2 kind }
{
    step_of(problem.joins.as_slice(), s1, s2)
}

#[tactic(auto, unfolding(crate::specs::LegalTests::step_of))]
fn step_of(joins: &[Special], s1: RelSet, s2: RelSet) -> Option<Step>
    ensures { result ≡ step_of joins.now s1 s2 }
{
    if are_joinable(joins, s1, s2) {
        kind_of(joins, s1, s2)
    } else {
        None
    }
}

/// Whether the parts are disjoint and joinable, and so is their union.
#[tactic(auto, unfolding(crate::specs::LegalTests::are_joinable))]
fn are_joinable(joins: &[Special], s1: RelSet, s2: RelSet) -> bool
    ensures { result ≡ are_joinable joins.now s1 s2 }
{
    !meets(s1, s2) && all_stand(joins, s1) && all_stand(joins, s2) && all_stand(joins, both(s1, s2))
}

/// What comes to be done: no join, or exactly one, and the parts have its sides.
#[tactic(auto, unfolding(crate::specs::LegalTests::kind_of))]
fn kind_of(joins: &[Special], s1: RelSet, s2: RelSet) -> Option<Step>
    ensures { result ≡ kind_of joins.now s1 s2 }
{
    let count = count_new(joins, s1, s2);
    match first_new(joins, s1, s2) {
        None => Some(Step::Inner),
        Some(s) => {
            if count == 1 && is_between(s1, s2, s) {
                Some(Step::By(s.no))
            } else {
                None
            }
        }
    }
}

fn count_new(joins: &[Special], s1: RelSet, s2: RelSet) -> usize
    ensures { result ≡ count_by (is_new s1 s2) joins.now }
{
    joins.iter().filter(|s| is_new(s1, s2, s)).count()
}

fn first_new(joins: &[Special], s1: RelSet, s2: RelSet) -> Option<&Special>
    ensures { option_copied result ≡ find (is_new s1 s2) joins.now }
{
    joins.iter().find(|s| is_new(s1, s2, s))
}

/// Whether the join is done in the union and in neither part.
#[tactic(auto, unfolding(crate::specs::LegalTests::is_new))]
fn is_new(s1: RelSet, s2: RelSet, s: &Special) -> bool
    ensures { result ≡ is_new s1 s2 s.now }
{
    is_done(both(s1, s2), s) && !is_done(s1, s) && !is_done(s2, s)
}

/// Whether the left set of the join lies in the left part and its right set in the right part.
#[tactic(auto, unfolding(crate::specs::LegalTests::is_between))]
fn is_between(s1: RelSet, s2: RelSet, s: &Special) -> bool
    ensures { result ≡ is_between s1 s2 s.now }
{
    is_within(s.min_left, s1) && is_within(s.min_right, s2)
}
