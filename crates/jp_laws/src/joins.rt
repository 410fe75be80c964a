ghost use Rattle.std.specs.Prelude.{◌≡◌, ℕ, List};
ghost use Rattle.jp_query.specs.declared.Expr.{Expr};
ghost use Rattle.jp_query.specs.declared.JoinTree.{JoinTree};
ghost use Rattle.jp_query.specs.declared.JoinTree.TheVariants as tree;
ghost use Rattle.jp_query.specs.declared.JoinKind.TheVariants as join;
ghost use Rattle.jp_query.specs.Meaning.{Row, Env, tuples_of};

/// A law: a Right join has the relations and the list of tuples of the Left join with its sides exchanged.
pub fn right_is_left_exchanged()
    ensures tuples { (tables : ℕ → List Row) (left : JoinTree) (right : JoinTree) (on : List Expr) (env : Env) → (tuples_of tables (tree.Join join.Right left right on)).tuples env ≡ (tuples_of tables (tree.Join join.Left right left on)).tuples env }
    ensures rels { (tables : ℕ → List Row) (left : JoinTree) (right : JoinTree) (on : List Expr) → (tuples_of tables (tree.Join join.Right left right on)).rels ≡ (tuples_of tables (tree.Join join.Left right left on)).rels }
{}
