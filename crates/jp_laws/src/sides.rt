ghost use Rattle.std.specs.Prelude.{◌≡◌, ◌++◌, ℕ, List, Contains};
ghost use Rattle.std.specs.List.Sorted.{IsPermutation};
ghost use Rattle.jp_base.specs.Sets.{Has};
ghost use Rattle.jp_query.specs.declared.Expr.{Expr};
ghost use Rattle.jp_query.specs.declared.JoinTree.{JoinTree};
ghost use Rattle.jp_query.specs.declared.JoinTree.TheVariants as tree;
ghost use Rattle.jp_query.specs.declared.JoinKind.TheVariants as join;
ghost use Rattle.jp_query.specs.Meaning.{Row, Env, tuples_of};

/// A law: each left tuple stands at least once among the tuples of a Left join, with the same rows for all relations but
/// those of the right side.
pub fn left_join_keeps_each_left_tuple()
    ensures { (tables : ℕ → List Row) (left : JoinTree) (right : JoinTree) (on : List Expr) (env : Env) (tuple : Env) → Contains ((tuples_of tables left).tuples env) tuple → (joined : Env) × Contains ((tuples_of tables (tree.Join join.Left left right on)).tuples env) joined × ((i : ℕ) → ¬ Has (tuples_of tables right).rels i → joined i ≡ tuple i) }
{}

/// A law: a Semi join and an Anti join of the same sides split the left tuples: each goes to one of the two, as often as
/// it stands there.
pub fn semi_and_anti_split_the_left_tuples()
    ensures { (tables : ℕ → List Row) (left : JoinTree) (right : JoinTree) (on : List Expr) (env : Env) → IsPermutation ((tuples_of tables left).tuples env) ((tuples_of tables (tree.Join join.Semi left right on)).tuples env ++ (tuples_of tables (tree.Join join.Anti left right on)).tuples env) }
{}
