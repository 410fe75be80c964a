ghost use Rattle.std.specs.Prelude.{◌≡◌};
ghost use Rattle.std.specs.Option.{option_copied};
ghost use Rattle.jp_problem.specs.Problems.{join_of};
ghost use Rattle.jp_problem.specs.StepClauses.{is_open};

use crate::Special;
use crate::joinable::is_done;
use jp_base::{JoinNo, RelSet};

/// Whether the region isn't done in the set; region 0 never is.
pub fn is_open(joins: &[Special], set: RelSet, region: JoinNo) -> bool
    ensures { result ≡ is_open joins.now set region }
{
    if region == 0 {
        return true;
    }
    match join_of(joins, region) {
        Some(join) => !is_done(set, join),
        None => true,
    }
}

/// The join of this number.
pub fn join_of(joins: &[Special], number: JoinNo) -> Option<&Special>
    ensures { option_copied result ≡ join_of joins.now number }
{
    'joins: for join in joins {
        if join.no == number {
            return Some(join);
        }
    }
    None
}
