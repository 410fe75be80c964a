ghost use Rattle.std.specs.Prelude.{◌≡◌, List, Some, map};
ghost use Rattle.std.specs.List.Sorted.{IsPermutation};
ghost use Rattle.jp_query.specs.declared.Query.{Query};
ghost use Rattle.jp_problem.specs.declared.types.Item.{Item};
ghost use Rattle.jp_problem.specs.Blocks.{top};
ghost use Rattle.jp_problem.specs.Made.{IsBlock};
ghost use Rattle.jp_problem.specs.Problems.{AreItemsOf, items_of, problem_of, problem_rels};
ghost use Rattle.jp_problem.specs.Shapes.{block_shape};
ghost use Rattle.jp_problem.specs.Trees.{Tree, IsPlan, spine};
ghost use Rattle.jp_frame.specs.Rows.{row_set};
ghost use Rattle.jp_frame.specs.Trees.{Tree as Run};
ghost use Rattle.jp_framed.specs.Environments.{Setting, env_of, HasNoOwnRows};
ghost use Rattle.jp_framed.specs.Framing.{frame_of};
ghost use Rattle.jp_framed.specs.Running.{IsRunOf, tuples_of_run};
ghost use Rattle.jp_spine.specs.Written.{written_tuples};

/// A law: the row set of all items of a block has, as a bag, the tuples of the block as it is written, and so has every run
/// of every legal tree of all its items, by any methods that are allowed. Around the block its own relations have no row;
/// the rows of its items and what gives its sublinks their rows are any. A run of the spine lists them in the order in which
/// they are written.
pub fn the_spine_gives_the_written_tuples()
    ensures rows { (query : Query) (items : List Item) (setting : Setting) → IsBlock query → AreItemsOf query items → HasNoOwnRows (problem_rels (problem_of items query)) setting.outer →
        IsPermutation (map (env_of (problem_rels (problem_of items query)) setting) (row_set (frame_of (problem_of items query) setting) (items_of (problem_of items query)))) (written_tuples (problem_rels (problem_of items query)) setting (block_shape query) top) }
    ensures every_order { (query : Query) (items : List Item) (setting : Setting) (tree : Tree) (run : Run) → IsBlock query → AreItemsOf query items → HasNoOwnRows (problem_rels (problem_of items query)) setting.outer →
        IsPlan (problem_of items query) tree → IsRunOf (frame_of (problem_of items query) setting) tree run →
        IsPermutation (tuples_of_run (problem_of items query) setting run) (written_tuples (problem_rels (problem_of items query)) setting (block_shape query) top) }
    ensures in_order { (query : Query) (items : List Item) (setting : Setting) (tree : Tree) (run : Run) → IsBlock query → AreItemsOf query items → HasNoOwnRows (problem_rels (problem_of items query)) setting.outer →
        spine query ≡ Some tree → IsRunOf (frame_of (problem_of items query) setting) tree run →
        tuples_of_run (problem_of items query) setting run ≡ written_tuples (problem_rels (problem_of items query)) setting (block_shape query) top }
{}
