ghost use Rattle.std.specs.Prelude.{◌≡◌, ℕ, List};
ghost use Rattle.jp_query.specs.declared.Query.{Query};
ghost use Rattle.jp_query.specs.Meaning.{Row, Env};
ghost use Rattle.jp_problem.specs.declared.types.Item.{Item};
ghost use Rattle.jp_problem.specs.Made.{IsBlock};
ghost use Rattle.jp_problem.specs.Problems.{AreItemsOf, problem_of};
ghost use Rattle.jp_problem.specs.Trees.{Tree, IsLegalTree};
ghost use Rattle.jp_frame.specs.Trees.{rows_of};
ghost use Rattle.jp_framed.specs.Environments.{Setting};
ghost use Rattle.jp_framed.specs.Framing.{frame_of};
ghost use Rattle.jp_framed.specs.Running.{run_of};
ghost use Rattle.jp_listed.specs.Plans.{run_in, key_orders, HaveTheirValues};
ghost use Rattle.jp_lists.specs.Steps.{tree_list};

/// A law: where at each map the conditions of a block's problem have the values that a setting gives them, a legal tree lists
/// what a run of it gives in the frame of the setting, by any methods. A merge sorts by the sides of its step's key.
pub fn a_plan_lists_what_its_run_gives()
    ensures { (query : Query) (items : List Item) (setting : Setting) (rows : Env → ℕ → List Row) (tree : Tree) → IsBlock query → AreItemsOf query items → HaveTheirValues (problem_of items query) setting rows →
        IsLegalTree (problem_of items query) tree →
        tree_list (run_in (problem_of items query) setting rows) (problem_of items query) tree ≡ rows_of (frame_of (problem_of items query) setting) (run_of (problem_of items query) setting (key_orders (run_in (problem_of items query) setting rows) (problem_of items query)) tree) }
{}
