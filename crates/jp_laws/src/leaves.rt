ghost use Rattle.std.specs.Prelude.{ℕ, Contains};
ghost use Rattle.jp_base.specs.Sets.{Has};
ghost use Rattle.jp_query.specs.declared.JoinTree.{JoinTree};
ghost use Rattle.jp_query.specs.declared.Query.{Query, out-Query};
ghost use Rattle.jp_query.specs.OwnLeaves.{leaves_in_tree, own_leaves};
ghost use Rattle.jp_query.specs.Parts.{leaves_in, rels_of};

/// A law: a tree's own leaves are among its leaves at every depth, and so among the query's whose tree it is. Each relation
/// that the tree's tuples give rows to is an own leaf of it.
pub fn own_leaves_are_leaves()
    ensures tree { (tree : JoinTree) (rel : ℕ) → Contains (own_leaves tree) rel → Contains (leaves_in_tree tree) rel }
    ensures query { (query : Query) (rel : ℕ) → Contains (own_leaves (out-Query query).tree) rel → Contains (leaves_in query) rel }
    ensures rels { (tree : JoinTree) (rel : ℕ) → Has (rels_of tree) rel → Contains (own_leaves tree) rel }
{}
