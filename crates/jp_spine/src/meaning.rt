ghost use Rattle.std.specs.Prelude.{ℕ, List, map};
ghost use Rattle.std.specs.List.Sorted.{IsPermutation};
ghost use Rattle.jp_query.specs.declared.Query.{Query};
ghost use Rattle.jp_query.specs.InOrder.{IsInOrder, passing_tuples};
ghost use Rattle.jp_laws.specs.Bags.{lines_at, rows_from};
ghost use Rattle.jp_query.specs.Meaning.{Row, Env, meaning};
ghost use Rattle.jp_problem.specs.declared.types.Item.{Item};
ghost use Rattle.jp_problem.specs.Made.{IsBlock};
ghost use Rattle.jp_problem.specs.Problems.{AreItemsOf, items_of, problem_of, problem_rels};
ghost use Rattle.jp_problem.specs.Trees.{Tree, IsPlan};
ghost use Rattle.jp_frame.specs.Rows.{row_set};
ghost use Rattle.jp_frame.specs.Trees.{Tree as Run};
ghost use Rattle.jp_framed.specs.Environments.{env_of, HasNoOwnRows};
ghost use Rattle.jp_framed.specs.Framing.{frame_of};
ghost use Rattle.jp_framed.specs.Running.{IsRunOf, tuples_of_run};
ghost use Rattle.jp_spine.specs.ItemTuples.{in_place_over, HoldItems};

/// A law: where the rows of each item are the tuples of its tree, and around the block its own relations have no row, the
/// row set of all items has, as a bag, the tuples that the block's tree means, after the block's conditions. So has every run
/// of every legal tree of all its items, by any methods that are allowed.
pub fn every_legal_tree_gives_the_tuples_of_the_block()
    ensures rows { (tables : ℕ → List Row) (query : Query) (items : List Item) (sources : List (List Env)) (outer : Env) → IsBlock query → AreItemsOf query items → HasNoOwnRows (problem_rels (problem_of items query)) outer → HoldItems tables query sources outer →
        IsPermutation (map (env_of (problem_rels (problem_of items query)) (in_place_over tables sources outer)) (row_set (frame_of (problem_of items query) (in_place_over tables sources outer)) (items_of (problem_of items query)))) (passing_tuples tables query outer) }
    ensures every_order { (tables : ℕ → List Row) (query : Query) (items : List Item) (sources : List (List Env)) (outer : Env) (tree : Tree) (run : Run) → IsBlock query → AreItemsOf query items → HasNoOwnRows (problem_rels (problem_of items query)) outer → HoldItems tables query sources outer →
        IsPlan (problem_of items query) tree → IsRunOf (frame_of (problem_of items query) (in_place_over tables sources outer)) tree run →
        IsPermutation (tuples_of_run (problem_of items query) (in_place_over tables sources outer) run) (passing_tuples tables query outer) }
{}

/// A law: so the rows that the query makes of the tuples of such a run, by its outputs, DISTINCT and ORDER BY, are as a bag
/// those that it means, and in its order.
pub fn every_legal_tree_gives_the_rows_of_the_query()
    ensures rows { (tables : ℕ → List Row) (query : Query) (items : List Item) (sources : List (List Env)) (outer : Env) (tree : Tree) (run : Run) → IsBlock query → AreItemsOf query items → HasNoOwnRows (problem_rels (problem_of items query)) outer → HoldItems tables query sources outer →
        IsPlan (problem_of items query) tree → IsRunOf (frame_of (problem_of items query) (in_place_over tables sources outer)) tree run →
        IsPermutation (meaning tables query outer) (rows_from query (lines_at tables query (tuples_of_run (problem_of items query) (in_place_over tables sources outer) run))) }
    ensures in_order { (tables : ℕ → List Row) (query : Query) (items : List Item) (sources : List (List Env)) (outer : Env) (tree : Tree) (run : Run) → IsBlock query → AreItemsOf query items → HasNoOwnRows (problem_rels (problem_of items query)) outer → HoldItems tables query sources outer →
        IsPlan (problem_of items query) tree → IsRunOf (frame_of (problem_of items query) (in_place_over tables sources outer)) tree run →
        IsInOrder tables query outer (rows_from query (lines_at tables query (tuples_of_run (problem_of items query) (in_place_over tables sources outer) run))) }
{}
