ghost use Rattle.std.specs.Prelude.{◌≡◌, ◌↔◌, IsTrue};
ghost use Rattle.std.specs.List.{list_all};
ghost use Rattle.jp_query.specs.Refs.{union};
ghost use Rattle.jp_problem.specs.Legal.{IsJoinable};
ghost use Rattle.jp_problem.specs.LegalTests.{is_inside, hangs_by, hanging, others_hang, stands};
ghost use Rattle.jp_problem.specs.LegalTests.{is_joinable as joinable};
ghost use Rattle.jp_problem.specs.MinimumSets.{is_left};
ghost use Rattle.jp_problem.specs.StepClauses.{is_done};

use crate::sets::{both, is_empty, is_within, meets, nothing, without};
use crate::{Problem, Special};
use jp_base::RelSet;
use jp_query::JoinKind;

/// Whether the items of the set can be joined by themselves, without those outside it. It takes no memory, and a few
/// operations on sets for each pair of joins.
pub fn is_joinable(problem: &Problem, set: RelSet) -> bool
    ensures { IsTrue result ↔ IsJoinable problem.now set }
{
    all_stand(problem.joins.as_slice(), set)
}

/// Whether the set isn't empty and stands to each join as a joinable one does.
#[tactic(auto, unfolding(crate::specs::LegalTests::is_joinable))]
pub(crate) fn all_stand(joins: &[Special], set: RelSet) -> bool
    ensures { result ≡ joinable joins.now set }
{
    !is_empty(set) && each_stands(joins, set)
}

fn each_stands(joins: &[Special], set: RelSet) -> bool
    ensures { result ≡ list_all (stands joins.now set) joins.now }
{
    joins.iter().all(|s| stands(joins, set, s))
}

#[tactic(auto, unfolding(crate::specs::LegalTests::stands))]
fn stands(joins: &[Special], set: RelSet, s: &Special) -> bool
    ensures { result ≡ stands joins.now set s.now }
{
    !meets(set, s.min_right)
        || is_within(set, s.min_right)
        || is_done(set, s)
        || others_hang(joins, set, s)
}

/// Whether the set misses the left set of the Left join `s`, and its items outside the right set hang there by others.
#[tactic(auto, unfolding(crate::specs::LegalTests::others_hang))]
fn others_hang(joins: &[Special], set: RelSet, s: &Special) -> bool
    ensures { result ≡ others_hang joins.now set s.now }
{
    is_left(s.kind)
        && !meets(set, s.min_left)
        && is_within(without(set, s.min_right), hanging(joins, set, s))
}

/// The items in the right sets of Left joins that are done in the set and not inside `s`.
#[tactic(auto, unfolding(crate::specs::LegalTests::hanging))]
fn hanging(joins: &[Special], set: RelSet, s: &Special) -> RelSet
    ensures { result ≡ hanging joins.now set s.now }
{
    let mut items = nothing();
    'joins: for u in joins {
        if hangs_by(set, s, u) {
            items = both(items, u.min_right);
        }
    }
    items
}

#[tactic(auto, unfolding(crate::specs::LegalTests::hangs_by))]
fn hangs_by(set: RelSet, s: &Special, u: &Special) -> bool
    ensures { result ≡ hangs_by set s.now u.now }
{
    is_left(u.kind) && is_done(set, u) && !is_inside(u, s)
}

pub fn is_left(kind: JoinKind) -> bool
    ensures { result ≡ is_left kind }
{
    match kind {
        JoinKind::Left => true,
        _ => false,
    }
}

/// Whether all that the join needs lies in the set.
pub fn is_done(set: RelSet, s: &Special) -> bool
    ensures { result ≡ is_done set s.now }
{
    is_within(s.min_left, set) && is_within(s.min_right, set)
}

/// Whether all that `u` needs lies in the right set of `s`.
#[tactic(auto, unfolding(crate::specs::LegalTests::is_inside))]
fn is_inside(u: &Special, s: &Special) -> bool
    ensures { result ≡ is_inside u.now s.now }
{
    is_within(u.min_left, s.min_right) && is_within(u.min_right, s.min_right)
}
