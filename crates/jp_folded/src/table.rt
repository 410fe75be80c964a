ghost use Rattle.std.specs.Prelude.{true, false, [], ◌∷◌};
ghost use Rattle.jp_query.specs.declared.IsTest.TheVariants as is;
ghost use Rattle.jp_query.specs.declared.JoinKind.TheVariants as kind;
ghost use Rattle.jp_folding.specs.Examples.{number, null, truth, unknown, sum, product, and, or, is_in, coalesce, case_when, table, join, select, in_select};
ghost use Rattle.jp_folded.specs.Table.{x, y, p, q, text, no_text, negative, concat, equals, between, not, test, place, exists, is_null, never_true, never_false, any_value, IsRow, Stays};

/// Laws: columns, literals, placeholders and operators that are NULL where an operand is. `x` and `p` are columns of
/// relation 0, which is absent, `y` and `q` of relation 1, which isn't.
pub fn table_of_operators()
    ensures absent_column { Stays x is_null }
    ensures present_column { Stays y any_value }
    ensures null_literal { Stays unknown is_null }
    ensures false_literal { Stays (truth false) never_true }
    ensures true_literal { Stays (truth true) never_false }
    ensures number_literal { Stays (number 7) any_value }
    ensures absent_placeholder { IsRow (place (sum (number 1) (number 1)) 1) is_null (place (number 2) 1) }
    ensures placeholder_with_one_left { Stays (place y 3) any_value }
    ensures placeholder_of_a_null { Stays (place x 3) is_null }
    ensures sum_of_a_product { IsRow (sum (number 1) (product (number 2) (number 3))) any_value (number 7) }
    ensures sum_with_null { IsRow (sum y null) is_null null }
    ensures sum_with_absent { Stays (sum x (number 1)) is_null }
    ensures product_with_null { IsRow (product null y) is_null null }
    ensures negated_absent { Stays (negative x) is_null }
    ensures negated_null { IsRow (negative null) is_null null }
    ensures texts { IsRow (concat (text (97 ∷ [])) (text (98 ∷ []))) any_value (text (97 ∷ 98 ∷ [])) }
    ensures text_with_null { IsRow (concat (text []) no_text) is_null no_text }
{}

/// Laws: comparisons, BETWEEN and IN.
pub fn table_of_comparisons()
    ensures absent_side { Stays (equals x (number 1)) is_null }
    ensures null_side { IsRow (equals y null) is_null unknown }
    ensures equal_literals { IsRow (equals (number 1) (number 1)) any_value (truth true) }
    ensures absent_between { Stays (between x y (number 5)) is_null }
    ensures absent_bound { Stays (between (number 5) x y) never_true }
    ensures not_absent_bound { Stays (not (between (number 5) x y)) never_false }
    ensures in_list_with_null { IsRow (is_in (number 1) (number 1 ∷ null ∷ [])) any_value (truth true) }
    ensures missing_in_list_with_null { IsRow (is_in (number 2) (number 1 ∷ null ∷ [])) any_value unknown }
    ensures absent_in_list { Stays (is_in x (number 1 ∷ null ∷ [])) is_null }
    ensures absent_in_the_list { Stays (is_in y (x ∷ number 1 ∷ [])) any_value }
    ensures null_in_select { Stays (in_select null (select (table 2) [])) never_true }
    ensures absent_in_select { Stays (in_select x (select (table 2) [])) never_true }
    ensures exists_a_right_join { IsRow (exists (select (join kind.Right (table 2) (table 3) []) [])) any_value (exists (select (join kind.Left (table 3) (table 2) []) [])) }
{}

/// Laws: NOT, AND and OR.
pub fn table_of_connectives()
    ensures not_absent { Stays (not (equals x (number 1))) is_null }
    ensures not_not { Stays (not (not (test is.NotNull x))) never_true }
    ensures not_true { IsRow (not (truth true)) never_true (truth false) }
    ensures absent_and_null { Stays (and (p ∷ unknown ∷ [])) is_null }
    ensures present_and_null { Stays (and (q ∷ unknown ∷ [])) never_true }
    ensures null_and_false { IsRow (and (unknown ∷ truth false ∷ [])) never_true (truth false) }
    ensures present_and_true { IsRow (and (q ∷ truth true ∷ [])) any_value q }
    ensures and_in_and { IsRow (and (p ∷ and (q ∷ truth true ∷ []) ∷ [])) never_true (and (p ∷ q ∷ [])) }
    ensures present_or_false { IsRow (or (q ∷ truth false ∷ [])) any_value q }
    ensures present_or_true { IsRow (or (q ∷ truth true ∷ [])) never_false (truth true) }
    ensures absent_or_null { Stays (or (p ∷ unknown ∷ [])) is_null }
    ensures absent_or_present { Stays (or (equals x (number 1) ∷ equals y (number 1) ∷ [])) never_false }
{}

/// Laws: the tests of IS, COALESCE and CASE.
pub fn table_of_tests()
    ensures is_null { Stays (test is.Null x) any_value }
    ensures is_not_null { Stays (test is.NotNull x) never_true }
    ensures is_true { Stays (test is.True (equals x (number 1))) never_true }
    ensures is_false { Stays (test is.False (equals x (number 1))) never_true }
    ensures is_unknown { Stays (test is.Unknown (equals x (number 1))) any_value }
    ensures is_not_unknown { Stays (test is.NotUnknown (equals x (number 1))) never_true }
    ensures coalesce_of_literals { IsRow (coalesce (null ∷ number 1 ∷ [])) any_value (number 1) }
    ensures coalesce_of_a_column { Stays (coalesce (number 1 ∷ y ∷ [])) any_value }
    ensures coalesce_of_nothing { Stays (coalesce (x ∷ null ∷ [])) is_null }
    ensures case_of_literals { IsRow (case_when (truth false) (number 1) null) any_value null }
    ensures case_of_a_column { Stays (case_when (truth true) (number 1) y) any_value }
{}
