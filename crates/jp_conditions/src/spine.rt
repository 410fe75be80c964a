ghost use Rattle.std.specs.Prelude.{◌≡◌, List, Some};
ghost use Rattle.jp_query.specs.declared.Query.{Query};
ghost use Rattle.jp_problem.specs.declared.types.Item.{Item};
ghost use Rattle.jp_problem.specs.declared.types.Problem.{Problem};
ghost use Rattle.jp_problem.specs.Classes.{derived};
ghost use Rattle.jp_problem.specs.Made.{IsBlock, IsMade};
ghost use Rattle.jp_problem.specs.Problems.{AreItemsOf, problem_of};
ghost use Rattle.jp_problem.specs.Trees.{Tree, IsPlan, spine};

/// A law: every block has a spine, and it is a legal tree of all the block's items, before the problem's classes are
/// derived and with them; so every problem that is made has a legal tree.
pub fn the_spine_is_a_legal_tree()
    ensures plain { (query : Query) (items : List Item) → IsBlock query → AreItemsOf query items →
        (tree : Tree) × (spine query ≡ Some tree) × IsPlan (problem_of items query) tree }
    ensures with_classes { (query : Query) (items : List Item) → IsBlock query → AreItemsOf query items →
        (tree : Tree) × (spine query ≡ Some tree) × IsPlan (derived (problem_of items query)) tree }
    ensures made { (problem : Problem) → (made : IsMade problem) →
        (tree : Tree) × (spine made.query ≡ Some tree) × IsPlan problem tree }
{}
