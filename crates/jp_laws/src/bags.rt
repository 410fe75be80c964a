ghost use Rattle.std.specs.Prelude.{◌≡◌, List, map};
ghost use Rattle.std.specs.List.Sorted.{IsPermutation};
ghost use Rattle.jp_base.specs.declared.values.Value.{Value};
ghost use Rattle.jp_query.specs.Operators.{among};
ghost use Rattle.jp_query.specs.Meaning.{Row, first_of, is_row};

/// A law: EXISTS and IN depend on the rows of their query only as a bag.
pub fn exists_and_in_see_rows_as_a_bag()
    ensures exists { (rows : List Row) (others : List Row) → IsPermutation rows others → is_row rows ≡ is_row others }
    ensures in_rows { (operand : Value) (rows : List Row) (others : List Row) → IsPermutation rows others → among operand (map first_of rows) ≡ among operand (map first_of others) }
{}
