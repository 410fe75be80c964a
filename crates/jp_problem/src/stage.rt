//! What comes up at a step or a scan.

ghost use Rattle.std.specs.Prelude.{◌≡◌, ◌<◌};
ghost use Rattle.jp_problem.specs.StepClauses.{comes_up, is_there, scan_stage, step_stage, was_there};

use crate::Stage;
use crate::sets::{both, is_within, one};
use jp_base::{ItemNo, RelSet};

/// The step of two sets.
pub fn step_stage(left: RelSet, right: RelSet) -> Stage
    ensures { result ≡ step_stage left right }
{
    Stage {
        whole: both(left, right),
        left: Some(left),
        right: Some(right),
    }
}

/// The scan of an item.
pub fn scan_stage(item: ItemNo) -> Stage
    requires { item < 64 }
    ensures { result ≡ scan_stage item }
{
    Stage {
        whole: one(item),
        left: None,
        right: None,
    }
}

/// Whether what is needed lies in the part, where there is one.
pub fn is_there(part: Option<RelSet>, needs: RelSet) -> bool
    ensures { result ≡ is_there part needs }
{
    match part {
        Some(part) => is_within(needs, part),
        None => false,
    }
}

/// Whether what is needed lay in a part before.
pub fn was_there(stage: &Stage, needs: RelSet) -> bool
    ensures { result ≡ was_there stage.now needs }
{
    is_there(stage.left, needs) || is_there(stage.right, needs)
}

/// Whether what is needed lies in the whole and lay in no part.
pub fn comes_up(stage: &Stage, needs: RelSet) -> bool
    ensures { result ≡ comes_up stage.now needs }
{
    is_within(needs, stage.whole) && !was_there(stage, needs)
}
