ghost use Rattle.std.specs.Prelude.{◌≡◌, ◌<◌, ℕ, List, Contains, Some, true};
ghost use Rattle.jp_base.specs.Sets.{Has};
ghost use Rattle.jp_query.specs.declared.JoinTree.{JoinTree};
ghost use Rattle.jp_query.specs.declared.Query.{Query, out-Query};
ghost use Rattle.jp_query.specs.Conditions.{IsTyped};
ghost use Rattle.jp_query.specs.Meaning.{Row, Env, tuples_of};
ghost use Rattle.jp_query.specs.Parts.{rels_of};
ghost use Rattle.jp_query.specs.Scopes.{Schema, Scope};
ghost use Rattle.jp_laws.specs.Rooted.{is_rooted};
ghost use Rattle.jp_laws.specs.TreesInside.{trees_inside};

/// A law: each tuple of a rooted tree has a row of some relation of the tree, whatever the environment. The sides of an
/// outer join must share no relation, since the absent side would take the other's rows away.
pub fn each_tuple_has_a_relation_present()
    ensures { (tables : ℕ → List Row) (tree : JoinTree) (env : Env) (tuple : Env) → is_rooted tree ≡ true → Contains ((tuples_of tables tree).tuples env) tuple → (i : ℕ) × Has (rels_of tree) i × (row : Row) × (tuple i ≡ Some row) }
{}

/// A law: each join tree in a typed query, those of sublinks and sub-selects included, is rooted. So each of its tuples has
/// a row of some relation of the tree, and that relation has a number below 64, as placeholders want it.
pub fn each_tuple_in_a_typed_query_has_a_relation_present()
    ensures own { (query : Query) → Contains (trees_inside query) (out-Query query).tree }
    ensures rooted { (schema : Schema) (outer : Scope) (query : Query) (tree : JoinTree) → IsTyped schema outer query → Contains (trees_inside query) tree → is_rooted tree ≡ true }
    ensures present { (tables : ℕ → List Row) (schema : Schema) (outer : Scope) (query : Query) (tree : JoinTree) (env : Env) (tuple : Env) →
        IsTyped schema outer query → Contains (trees_inside query) tree → Contains ((tuples_of tables tree).tuples env) tuple →
        (i : ℕ) × (i < 64) × Has (rels_of tree) i × (row : Row) × (tuple i ≡ Some row) }
{}
