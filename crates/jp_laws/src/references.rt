ghost use Rattle.std.specs.Prelude.{◌≡◌, ℕ, List, bit_or};
ghost use Rattle.jp_base.specs.Sets.{Within};
ghost use Rattle.jp_query.specs.declared.Expr.{Expr};
ghost use Rattle.jp_query.specs.declared.JoinTree.{JoinTree};
ghost use Rattle.jp_query.specs.declared.Query.{Query};
ghost use Rattle.jp_query.specs.Meaning.{Row, Env, value_of, tuples_of, meaning};
ghost use Rattle.jp_query.specs.Refs.{refs_of, refs_of_tree, refs_of_query};
ghost use Rattle.jp_induction.specs.Alike.{Alike};
ghost use Rattle.jp_laws.specs.Agreement.{Agree};

/// A law: values, tuples and rows depend only on the relations that are referred to, in sublinks and sub-selects too. In
/// two environments that agree on these an expression has one value, a query the same rows, and a tree as many tuples,
/// which agree, place by place, wherever the environments were known to, and on the relations of the tree.
pub fn meaning_depends_on_references_alone()
    ensures value { (tables : ℕ → List Row) (expr : Expr) (env : Env) (other : Env) → Agree (refs_of expr) env other → value_of tables expr env ≡ value_of tables expr other }
    ensures tuples { (tables : ℕ → List Row) (tree : JoinTree) (set : ℕ) (env : Env) (other : Env) → Within (refs_of_tree tree) set → Agree set env other → Alike (Agree (bit_or set (tuples_of tables tree).rels)) ((tuples_of tables tree).tuples env) ((tuples_of tables tree).tuples other) }
    ensures rows { (tables : ℕ → List Row) (query : Query) (env : Env) (other : Env) → Agree (refs_of_query query) env other → meaning tables query env ≡ meaning tables query other }
{}
