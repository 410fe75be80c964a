ghost use Rattle.jp_problem.specs.declared.types.Problem.{Problem};
ghost use Rattle.jp_problem.specs.Conditions.{MeetsConditions};
ghost use Rattle.jp_problem.specs.Made.{IsMade};
ghost use Rattle.jp_problem.specs.Problems.{problem_rels};
ghost use Rattle.jp_frame.specs.Frames.{IsFrame};
ghost use Rattle.jp_framed.specs.Environments.{Setting};
ghost use Rattle.jp_framed.specs.Framing.{AreApart, AreConditionsTyped, frame_of};

/// A law: a problem that meets the conditions, whose conditions are typed and whose items share no relation, is a frame,
/// whatever rows its items, its sublinks and the relations around it have. So is every problem that is made.
pub fn a_problem_is_a_frame()
    ensures conditions { (problem : Problem) (setting : Setting) → MeetsConditions problem → AreConditionsTyped problem → AreApart (problem_rels problem) → IsFrame (frame_of problem setting) }
    ensures made { (problem : Problem) (setting : Setting) → IsMade problem → IsFrame (frame_of problem setting) }
{}

/// A law: the items of a made problem share no relation, and its ON lists and clauses are typed.
pub fn items_of_a_made_problem_are_apart()
    ensures apart { (problem : Problem) → IsMade problem → AreApart (problem_rels problem) }
    ensures typed { (problem : Problem) → IsMade problem → AreConditionsTyped problem }
{}
