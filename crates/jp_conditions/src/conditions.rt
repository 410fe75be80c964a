ghost use Rattle.std.specs.Prelude.{List};
ghost use Rattle.jp_query.specs.declared.Query.{Query};
ghost use Rattle.jp_problem.specs.declared.types.Item.{Item};
ghost use Rattle.jp_problem.specs.declared.types.Problem.{Problem};
ghost use Rattle.jp_problem.specs.Classes.{derived};
ghost use Rattle.jp_problem.specs.Conditions.{MeetsConditions};
ghost use Rattle.jp_problem.specs.Made.{IsBlock, IsMade};
ghost use Rattle.jp_problem.specs.Problems.{AreItemsOf, problem_of};

/// A law: the problem of every block, with its own items, meets the conditions, before its classes are derived and with
/// them; so every problem that is made does.
pub fn a_block_meets_the_conditions()
    ensures plain { (query : Query) (items : List Item) → IsBlock query → AreItemsOf query items → MeetsConditions (problem_of items query) }
    ensures with_classes { (query : Query) (items : List Item) → IsBlock query → AreItemsOf query items → MeetsConditions (derived (problem_of items query)) }
    ensures made { (problem : Problem) → IsMade problem → MeetsConditions problem }
{}
