ghost use Rattle.std.specs.Prelude.{◌≡◌, ℕ, List};
ghost use Rattle.std.specs.List.Sorted.{IsPermutation};
ghost use Rattle.jp_query.specs.declared.Query.{Query};
ghost use Rattle.jp_problem.specs.declared.types.Item.{Item};
ghost use Rattle.jp_problem.specs.declared.types.Problem.{Problem};
ghost use Rattle.jp_problem.specs.declared.types.Step.{Step};
ghost use Rattle.jp_problem.specs.Conditions.{MeetsConditions};
ghost use Rattle.jp_problem.specs.Legal.{IsLegalStep};
ghost use Rattle.jp_problem.specs.Made.{IsMade};
ghost use Rattle.jp_problem.specs.Problems.{problem_of};
ghost use Rattle.jp_problem.specs.Trees.{Tree, set_of, IsLegalTree};
ghost use Rattle.jp_frame.specs.Rows.{row_set};
ghost use Rattle.jp_frame.specs.Steps.{Step as RunStep, IsLegal, IsEnough};
ghost use Rattle.jp_frame.specs.Methods.{ListsOnce, IsEnoughAtScan};
ghost use Rattle.jp_frame.specs.Trees.{Tree as Run, set_of as run_set, IsLegalTree as IsLegalRun, rows_of};
ghost use Rattle.jp_framed.specs.Environments.{Setting};
ghost use Rattle.jp_framed.specs.Framing.{frame_of};
ghost use Rattle.jp_framed.specs.Running.{step_of, IsRunOf, tuples_of_run, step_clauses_hold, scan_clauses_hold, HasNoClasses, Orders, run_of};

/// A law: each legal step of a problem is a legal step of its frame, of the same kind.
pub fn legal_steps_are_legal_in_the_frame()
    ensures { (problem : Problem) (setting : Setting) (left : ℕ) (right : ℕ) (kind : Step) → MeetsConditions problem → IsLegalStep problem left right kind → IsLegal (frame_of problem setting) left right (step_of kind) }
{}

/// A law: a run of a legal tree is a legal tree of the frame, with the same items.
pub fn runs_of_legal_trees_are_legal()
    ensures legal { (problem : Problem) (setting : Setting) (tree : Tree) (run : Run) → MeetsConditions problem → IsLegalTree problem tree → IsRunOf (frame_of problem setting) tree run → IsLegalRun (frame_of problem setting) run }
    ensures items { (problem : Problem) (setting : Setting) (tree : Tree) (run : Run) → IsRunOf (frame_of problem setting) tree run → run_set run ≡ set_of tree }
{}

/// One bag: a run of a legal tree of a made problem lists each member of the row set of its items once. So all runs of all
/// legal trees of one set, with any methods that are allowed, give one bag of maps, and one bag of environments.
pub fn legal_trees_of_a_problem_give_one_bag()
    ensures rows { (problem : Problem) (setting : Setting) (tree : Tree) (run : Run) → IsMade problem → IsLegalTree problem tree → IsRunOf (frame_of problem setting) tree run →
        IsPermutation (rows_of (frame_of problem setting) run) (row_set (frame_of problem setting) (set_of tree)) }
    ensures once { (problem : Problem) (setting : Setting) (tree : Tree) (run : Run) → IsMade problem → IsLegalTree problem tree → IsRunOf (frame_of problem setting) tree run →
        ListsOnce (frame_of problem setting) (set_of tree) (rows_of (frame_of problem setting) run) }
    ensures maps { (problem : Problem) (setting : Setting) (tree : Tree) (other : Tree) (run : Run) (another : Run) → IsMade problem → IsLegalTree problem tree → IsLegalTree problem other → set_of tree ≡ set_of other →
        IsRunOf (frame_of problem setting) tree run → IsRunOf (frame_of problem setting) other another → IsPermutation (rows_of (frame_of problem setting) run) (rows_of (frame_of problem setting) another) }
    ensures tuples { (problem : Problem) (setting : Setting) (tree : Tree) (other : Tree) (run : Run) (another : Run) → IsMade problem → IsLegalTree problem tree → IsLegalTree problem other → set_of tree ≡ set_of other →
        IsRunOf (frame_of problem setting) tree run → IsRunOf (frame_of problem setting) other another → IsPermutation (tuples_of_run problem setting run) (tuples_of_run problem setting another) }
{}

/// A law: without classes, as in the problem of a block before they are derived, the clauses of a step and of a scan are
/// enough: they hold where all clauses that are due there do. So each tree is run by its own step clauses, with any orders
/// for Merge.
pub fn step_clauses_are_enough_without_classes()
    ensures step { (problem : Problem) (setting : Setting) (left : ℕ) (right : ℕ) (step : RunStep) → MeetsConditions problem → HasNoClasses problem →
        IsEnough (frame_of problem setting) left right step (step_clauses_hold problem setting left right) }
    ensures scan { (problem : Problem) (setting : Setting) (i : ℕ) → MeetsConditions problem → HasNoClasses problem →
        IsEnoughAtScan (frame_of problem setting) i (scan_clauses_hold problem setting i) }
    ensures run { (problem : Problem) (setting : Setting) (orders : Orders) (tree : Tree) → MeetsConditions problem → HasNoClasses problem → IsRunOf (frame_of problem setting) tree (run_of problem setting orders tree) }
    ensures plain { (items : List Item) (query : Query) → HasNoClasses (problem_of items query) }
{}
