ghost use Rattle.std.specs.Prelude.{◌≡◌, ℕ, List, All, true};
ghost use Rattle.jp_base.specs.Sets.{Has};
ghost use Rattle.jp_query.specs.declared.Expr.{Expr};
ghost use Rattle.jp_query.specs.declared.JoinTree.{JoinTree};
ghost use Rattle.jp_query.specs.declared.Query.{Query};
ghost use Rattle.jp_query.specs.Fitting.{columns_in_tree};
ghost use Rattle.jp_query.specs.Meaning.{Row, Env, value_of, tuples_of, meaning};
ghost use Rattle.jp_query.specs.Parts.{rels_of, columns_in, columns_in_query, placeholders_in_query};
ghost use Rattle.jp_query.specs.Refs.{refs_of, refs_of_query};
ghost use Rattle.jp_query.specs.Typing.{IsTypedExpr, typed_query};
ghost use Rattle.jp_laws.specs.Referred.{placeholders_in, placeholders_in_tree};
ghost use Rattle.jp_laws.specs.SameCells.{AreTwins, IsSameCell, IsSamePresence};
ghost use Rattle.jp_induction.specs.Alike.{Alike};

/// A law: values, tuples and rows depend on the environment only by the cells of columns and by which relations of
/// placeholders have a row, those of sublinks and sub-selects included. A tree has as many tuples in both environments;
/// place by place they have equal rows for its relations, and each has its own environment's rows for all others.
pub fn meaning_depends_on_cells_alone()
    ensures value { (tables : ℕ → List Row) (expr : Expr) (env : Env) (other : Env) →
        All (IsSameCell env other) (columns_in expr) → All (IsSamePresence env other) (placeholders_in expr) → value_of tables expr env ≡ value_of tables expr other }
    ensures tuples { (tables : ℕ → List Row) (tree : JoinTree) (env : Env) (other : Env) →
        All (IsSameCell env other) (columns_in_tree tree) → All (IsSamePresence env other) (placeholders_in_tree tree) →
        Alike (AreTwins (rels_of tree) env other) ((tuples_of tables tree).tuples env) ((tuples_of tables tree).tuples other) }
    ensures rows { (tables : ℕ → List Row) (query : Query) (env : Env) (other : Env) →
        All (IsSameCell env other) (columns_in_query query) → All (IsSamePresence env other) (placeholders_in_query query) → meaning tables query env ≡ meaning tables query other }
{}

/// A law: the value of a typed expression and the rows of a typed query depend on their references alone. They look at no
/// relation from 64 on, so nothing is asked of these.
pub fn typed_meaning_depends_on_references_alone()
    ensures value { (tables : ℕ → List Row) (expr : Expr) (env : Env) (other : Env) →
        IsTypedExpr expr → ((i : ℕ) → Has (refs_of expr) i → env i ≡ other i) → value_of tables expr env ≡ value_of tables expr other }
    ensures rows { (tables : ℕ → List Row) (query : Query) (env : Env) (other : Env) →
        (typed_query query).is_typed ≡ true → ((i : ℕ) → Has (refs_of_query query) i → env i ≡ other i) → meaning tables query env ≡ meaning tables query other }
{}
