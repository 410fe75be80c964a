ghost use Rattle.std.specs.Prelude.{All, ◌≤◌, ◌^◌, sum_by};
ghost use Rattle.std.specs.List.{flat_map};
ghost use Rattle.jp_query.specs.Typing.{IsTypedExpr};
ghost use Rattle.jp_problem.specs.declared.types.Problem.{Problem};
ghost use Rattle.jp_problem.specs.Made.{HasDistinct, HasStatedRows, IsEstimable, IsMade, IsSearchable, cost_of, exprs_of, item_exprs};

/// A law: a problem that is made has all that estimates and the search ask for but what its items say: that the ON lists of
/// Full joins are typed, the stated rows, the numbers of distinct values, and costs of which the sum fits.
pub fn a_made_problem_can_be_searched()
    ensures estimable { (problem : Problem) → IsMade problem → All IsTypedExpr (flat_map item_exprs problem.items) →
        All HasStatedRows problem.items → All (HasDistinct (exprs_of problem)) problem.items → IsEstimable problem }
    ensures searchable { (problem : Problem) → IsMade problem → IsEstimable problem → sum_by cost_of problem.items ≤ 2 ^ 125 → IsSearchable problem }
{}
