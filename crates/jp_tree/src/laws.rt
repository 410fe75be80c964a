ghost use Rattle.std.specs.Prelude.{◌≡◌, ℕ, List};
ghost use Rattle.jp_problem.specs.Trees.{Tree};
ghost use Rattle.jp_tree.specs.declared.pool.PlanNode.{PlanNode};
ghost use Rattle.jp_tree.specs.Pools.{IsPool, IsTreeOf};
ghost use Rattle.jp_tree.specs.PlanTrees.{tree_at};

/// A law: the tree of a number, as what follows the nodes finds it, is the one that the number names in the pool.
pub fn a_number_names_its_tree()
    ensures { (nodes : List PlanNode) → IsPool nodes → (id : ℕ) (tree : Tree) → IsTreeOf nodes id tree → tree_at nodes id ≡ tree }
{}
