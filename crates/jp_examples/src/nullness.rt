ghost use Rattle.std.specs.Prelude.{◌≡◌, ◌-◌, ◌^◌, true, false, [], ◌∷◌, Some, None};
ghost use Rattle.jp_base.specs.declared.values.Value.TheVariants as value;
ghost use Rattle.jp_query.specs.declared.IsTest.TheVariants as is;
ghost use Rattle.jp_query.specs.Nullness.{surely_of, rejects, nonnull_items};
ghost use Rattle.jp_query.specs.Nullness.Gone.{relations, column};
ghost use Rattle.jp_query.specs.TreeExamples.{col, one, equals, test, product, sum, inner_select};
ghost use Rattle.jp_examples.specs.Trees.{not, or, between, in_list, in_query, truth, text, negative, concat, coalesce, when, case};

/// Laws: NOT, OR and the tests of IS where relations are absent. A condition that may be true there is never rejected.
pub fn absent_under_connectives()
    ensures under_not { rejects (relations 1) (not (equals (col 0 0) one) ∷ []) ≡ true }
    ensures is_null_under_not { rejects (relations 1) (not (test is.NotNull (col 0 0)) ∷ []) ≡ false }
    ensures one_side_of_or { rejects (relations 1) (or (equals (col 0 0) one) (equals (col 1 0) one) ∷ []) ≡ false }
    ensures both_sides_of_or { rejects (relations 3) (or (equals (col 0 0) one) (equals (col 1 0) one) ∷ []) ≡ true }
    ensures or_is_null { (surely_of (relations 3) (or (equals (col 0 0) one) (equals (col 1 0) one))).null ≡ true }
    ensures is_true { rejects (relations 1) (test is.True (equals (col 0 0) one) ∷ []) ≡ true }
    ensures is_true_is_known { (surely_of (relations 1) (test is.True (equals (col 0 0) one))).null ≡ false }
    ensures is_true_under_not { rejects (relations 1) (not (test is.True (equals (col 0 0) one)) ∷ []) ≡ false }
    ensures is_not_true { rejects (relations 1) (test is.NotTrue (equals (col 0 0) one) ∷ []) ≡ false }
    ensures is_false { rejects (relations 1) (test is.False (equals (col 0 0) one) ∷ []) ≡ true }
    ensures is_unknown { rejects (relations 1) (test is.Unknown (equals (col 0 0) one) ∷ []) ≡ false }
    ensures is_not_unknown { rejects (relations 1) (test is.NotUnknown (equals (col 0 0) one) ∷ []) ≡ true }
{}

/// Laws: BETWEEN and IN where relations are absent.
pub fn absent_in_lists()
    ensures operand { rejects (relations 1) (in_list (col 0 0) (one ∷ col 1 0 ∷ []) ∷ []) ≡ true }
    ensures member { rejects (relations 2) (in_list (col 0 0) (one ∷ col 1 0 ∷ []) ∷ []) ≡ false }
    ensures operand_under_not { rejects (relations 1) (not (in_list (col 0 0) (one ∷ [])) ∷ []) ≡ true }
    ensures operand_of_query { rejects (relations 1) (in_query 1 (col 0 0) inner_select ∷ []) ≡ true }
    ensures operand_of_query_under_not { rejects (relations 1) (not (in_query 1 (col 0 0) inner_select) ∷ []) ≡ false }
    ensures bound { rejects (relations 1) (between one (col 0 0) one ∷ []) ≡ true }
    ensures bound_under_not { rejects (relations 1) (not (between one (col 0 0) one) ∷ []) ≡ false }
    ensures operand_of_between_under_not { rejects (relations 1) (not (between (col 0 0) one one) ∷ []) ≡ true }
{}

/// Laws: arithmetic, texts and choices where relations are absent.
pub fn absent_under_operators()
    ensures sum { (surely_of (relations 1) (sum one (col 0 0))).null ≡ true }
    ensures product { (surely_of (relations 1) (product (col 0 0) one)).null ≡ true }
    ensures sign { (surely_of (relations 1) (negative (col 0 0))).null ≡ true }
    ensures concat { (surely_of (relations 1) (concat (text []) (col 0 0))).null ≡ true }
    ensures each_member { (surely_of (relations 3) (coalesce (col 0 0 ∷ col 1 0 ∷ []))).null ≡ true }
    ensures one_member { (surely_of (relations 1) (coalesce (col 0 0 ∷ col 1 0 ∷ []))).null ≡ false }
    ensures arm { (surely_of (relations 1) (case None (when (equals (col 0 0) one) one ∷ []) (Some (col 0 0)))).null ≡ false }
    ensures other_column { (surely_of (column 0 1) (col 0 0)).null ≡ false }
    ensures same_column { (surely_of (column 0 1) (col 0 1)).null ≡ true }
{}

/// Laws: the relations whose nulls a list rejects, each taken alone.
pub fn relations_rejected()
    ensures some { nonnull_items (equals (col 0 0) (col 1 1) ∷ test is.Null (col 2 0) ∷ or (equals (col 3 0) one) (equals (col 0 0) one) ∷ [])
        ≡ 3 }
    ensures none { nonnull_items [] ≡ 0 }
    ensures all { nonnull_items (truth (value.Bool false) ∷ []) ≡ 2 ^ 64 - 1 }
{}
