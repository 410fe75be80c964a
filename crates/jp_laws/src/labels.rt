ghost use Rattle.std.specs.Prelude.{◌≡◌, ℕ, List};
ghost use Rattle.jp_query.specs.declared.Expr.{Expr};
ghost use Rattle.jp_query.specs.declared.JoinTree.{JoinTree};
ghost use Rattle.jp_query.specs.declared.Query.{Query};
ghost use Rattle.jp_query.specs.Meaning.{Row, value_of, value_given, tuples_of, meaning};
ghost use Rattle.jp_query.specs.Refs.{refs_of, refs_of_tree, refs_of_query};
ghost use Rattle.jp_laws.specs.Labels.{Relabelling, unlabelled, relabelled, relabelled_tree, relabelled_query};

/// A law: the labels of columns change no value, no tuple and no row, in no environment.
pub fn labels_change_no_value()
    ensures value { (tables : ℕ → List Row) (label : Relabelling) (expr : Expr) → value_of tables (relabelled label expr) ≡ value_of tables expr }
    ensures given { (rows : ℕ → List Row) (label : Relabelling) (expr : Expr) → value_given rows (relabelled label expr) ≡ value_given rows expr }
    ensures tuples { (tables : ℕ → List Row) (label : Relabelling) (tree : JoinTree) → tuples_of tables (relabelled_tree label tree) ≡ tuples_of tables tree }
    ensures rows { (tables : ℕ → List Row) (label : Relabelling) (query : Query) → meaning tables (relabelled_query label query) ≡ meaning tables query }
{}

/// A law: what is the same but for labels has the same values, tuples and rows.
pub fn same_but_for_labels_means_the_same()
    ensures value { (tables : ℕ → List Row) (a : Expr) (b : Expr) → relabelled unlabelled a ≡ relabelled unlabelled b → value_of tables a ≡ value_of tables b }
    ensures tuples { (tables : ℕ → List Row) (a : JoinTree) (b : JoinTree) → relabelled_tree unlabelled a ≡ relabelled_tree unlabelled b → tuples_of tables a ≡ tuples_of tables b }
    ensures rows { (tables : ℕ → List Row) (a : Query) (b : Query) → relabelled_query unlabelled a ≡ relabelled_query unlabelled b → meaning tables a ≡ meaning tables b }
{}

/// A law: the labels of columns change no reference.
pub fn labels_change_no_reference()
    ensures expr { (label : Relabelling) (expr : Expr) → refs_of (relabelled label expr) ≡ refs_of expr }
    ensures tree { (label : Relabelling) (tree : JoinTree) → refs_of_tree (relabelled_tree label tree) ≡ refs_of_tree tree }
    ensures query { (label : Relabelling) (query : Query) → refs_of_query (relabelled_query label query) ≡ refs_of_query query }
{}
