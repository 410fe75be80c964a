ghost use Rattle.std.specs.Prelude.{◌≡◌, ℕ, List, All};
ghost use Rattle.jp_base.specs.declared.values.Value.{Value};
ghost use Rattle.jp_base.specs.Values.{IsComparable};
ghost use Rattle.jp_query.specs.Operators.{among};
ghost use Rattle.jp_query.specs.InWords.{in_words};
ghost use Rattle.jp_query.specs.Layers.{JoinTree};
ghost use Rattle.jp_query.specs.Meaning.{Row, tuples_of};
ghost use Rattle.jp_query.specs.Parts.{rels_of};

/// A law: the tuples of a tree give rows to the tree's relations.
pub fn tuples_have_the_relations()
    ensures { (tables : ℕ → List Row) (tree : JoinTree) → (tuples_of tables tree).rels ≡ rels_of tree }
{}

/// A law: IN over values of one type, defined as the OR of the equalities, says what SQL says of IN over a select.
pub fn in_reads_as_said()
    ensures { (x : Value) (values : List Value) → All (IsComparable x) values → among x values ≡ in_words x values }
{}
