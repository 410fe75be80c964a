ghost use Rattle.std.specs.Prelude.{◌≡◌, true, false, [], ◌∷◌, Some, None};
ghost use Rattle.jp_base.specs.declared.values.Value.TheVariants as value;
ghost use Rattle.jp_query.specs.declared.CmpOp.TheVariants as cmp;
ghost use Rattle.jp_query.specs.declared.IsTest.TheVariants as is;
ghost use Rattle.jp_query.specs.TreeExamples.{test, product, sum, and};
ghost use Rattle.jp_examples.specs.Trees.{number, minus, null, num, nothing, text, yes, no, unknown, negative, less, concat, compare, not, or, between, in_list, in_query, coalesce, when, case};
ghost use Rattle.jp_examples.specs.Rows.{evaluated, key_at, null_in};

/// Laws: comparisons of three values, and choices.
pub fn choices()
    ensures between_lowest { evaluated (between (num 1) (num 1) (num 3)) ≡ value.Bool true }
    ensures between_highest { evaluated (between (num 3) (num 1) (num 3)) ≡ value.Bool true }
    ensures not_between { evaluated (between (num 4) (num 1) (num 3)) ≡ value.Bool false }
    ensures between_unknown { evaluated (between (num 2) (num 1) nothing) ≡ null }
    ensures below_unknown { evaluated (between (num 0) (num 1) nothing) ≡ value.Bool false }
    ensures between_turned { evaluated (between (num 2) (num 3) (num 1)) ≡ value.Bool false }
    ensures first_of_some { evaluated (coalesce (nothing ∷ num 2 ∷ num 3 ∷ [])) ≡ number 2 }
    ensures first_of_none { evaluated (coalesce (nothing ∷ nothing ∷ [])) ≡ null }
    ensures chosen_by_value { evaluated (case (Some (num 2)) (when (num 1) (num 10) ∷ when (num 3) (num 15) ∷ when (num 2) (num 20) ∷ []) (Some (num 30))) ≡ number 20 }
    ensures null_chooses_nothing { evaluated (case (Some nothing) (when nothing (num 10) ∷ []) (Some (num 30))) ≡ number 30 }
    ensures none_chosen { evaluated (case (Some (num 3)) (when (num 1) (num 10) ∷ []) None) ≡ null }
    ensures first_chosen { evaluated (case None (when yes (num 10) ∷ when yes (num 20) ∷ []) (Some (num 30))) ≡ number 10 }
    ensures chosen_by_truth { evaluated (case None (when unknown (num 10) ∷ when yes (num 20) ∷ []) (Some (num 30))) ≡ number 20 }
{}

/// Laws: arithmetic and texts.
pub fn arithmetic()
    ensures sign { evaluated (negative (num 3)) ≡ minus 3 }
    ensures two_signs { evaluated (negative (negative (num 3))) ≡ number 3 }
    ensures subtracted { evaluated (less (num 5) (num 3)) ≡ number 2 }
    ensures subtracted_below_zero { evaluated (less (num 3) (num 5)) ≡ minus 2 }
    ensures product { evaluated (product (num 2) (num 3)) ≡ number 6 }
    ensures negative_product { evaluated (product (negative (num 2)) (num 3)) ≡ minus 6 }
    ensures null_times_zero { evaluated (product nothing (num 0)) ≡ null }
    ensures null_added { evaluated (sum (num 1) nothing) ≡ null }
    ensures null_subtracted { evaluated (less (num 1) nothing) ≡ null }
    ensures null_sign { evaluated (negative nothing) ≡ null }
    ensures joined { evaluated (concat (text (97 ∷ [])) (text (98 ∷ 99 ∷ []))) ≡ value.Text (97 ∷ 98 ∷ 99 ∷ []) }
    ensures null_joined { evaluated (concat (text (97 ∷ [])) nothing) ≡ null }
{}

/// Laws: IN over no rows, over one row and over a list.
pub fn memberships()
    ensures null_in_no_rows { evaluated (null_in 99) ≡ value.Bool false }
    ensures null_in_one_row { evaluated (null_in 10) ≡ null }
    ensures in_rows { evaluated (in_query 1 (num 2) (key_at 20)) ≡ value.Bool true }
    ensures not_in_rows { evaluated (in_query 1 (num 1) (key_at 20)) ≡ value.Bool false }
    ensures null_in_list { evaluated (in_list nothing (num 1 ∷ [])) ≡ null }
{}

/// Laws: comparisons. Texts compare by bytes, false is below true.
pub fn comparisons()
    ensures equal { evaluated (compare cmp.Eq (num 1) (num 2)) ≡ value.Bool false }
    ensures unequal { evaluated (compare cmp.Ne (num 1) (num 2)) ≡ value.Bool true }
    ensures below { evaluated (compare cmp.Lt (num 1) (num 2)) ≡ value.Bool true }
    ensures not_below_itself { evaluated (compare cmp.Lt (num 1) (num 1)) ≡ value.Bool false }
    ensures at_most_itself { evaluated (compare cmp.Le (num 1) (num 1)) ≡ value.Bool true }
    ensures above { evaluated (compare cmp.Gt (num 2) (num 1)) ≡ value.Bool true }
    ensures not_above_itself { evaluated (compare cmp.Gt (num 1) (num 1)) ≡ value.Bool false }
    ensures at_least_itself { evaluated (compare cmp.Ge (num 1) (num 1)) ≡ value.Bool true }
    ensures not_at_least { evaluated (compare cmp.Ge (num 1) (num 2)) ≡ value.Bool false }
    ensures negative_below { evaluated (compare cmp.Lt (negative (num 2)) (negative (num 1))) ≡ value.Bool true }
    ensures false_below_true { evaluated (compare cmp.Lt no yes) ≡ value.Bool true }
    ensures text_below { evaluated (compare cmp.Lt (text (66 ∷ [])) (text (97 ∷ []))) ≡ value.Bool true }
    ensures prefix_below { evaluated (compare cmp.Lt (text (97 ∷ [])) (text (97 ∷ 98 ∷ []))) ≡ value.Bool true }
    ensures null_unequal { evaluated (compare cmp.Ne (num 1) nothing) ≡ null }
    ensures nulls_equal { evaluated (compare cmp.Eq nothing nothing) ≡ null }
{}

/// Laws: AND, OR and NOT of unknown.
pub fn connectives()
    ensures unknown_and_false { evaluated (and unknown no) ≡ value.Bool false }
    ensures unknown_and_true { evaluated (and unknown yes) ≡ null }
    ensures true_and_true { evaluated (and yes yes) ≡ value.Bool true }
    ensures unknown_or_false { evaluated (or unknown no) ≡ null }
    ensures unknown_or_true { evaluated (or unknown yes) ≡ value.Bool true }
    ensures false_or_false { evaluated (or no no) ≡ value.Bool false }
    ensures not_unknown { evaluated (not unknown) ≡ null }
    ensures not_true { evaluated (not yes) ≡ value.Bool false }
{}

/// Laws: the tests of IS, of true, false and unknown.
pub fn tests_of_is()
    ensures unknown_is_null { evaluated (test is.Null unknown) ≡ value.Bool true }
    ensures zero_is_not_null { evaluated (test is.NotNull (num 0)) ≡ value.Bool true }
    ensures unknown_is_true { evaluated (test is.True unknown) ≡ value.Bool false }
    ensures unknown_is_not_true { evaluated (test is.NotTrue unknown) ≡ value.Bool true }
    ensures true_is_not_true { evaluated (test is.NotTrue yes) ≡ value.Bool false }
    ensures false_is_false { evaluated (test is.False no) ≡ value.Bool true }
    ensures unknown_is_false { evaluated (test is.False unknown) ≡ value.Bool false }
    ensures unknown_is_not_false { evaluated (test is.NotFalse unknown) ≡ value.Bool true }
    ensures false_is_unknown { evaluated (test is.Unknown no) ≡ value.Bool false }
    ensures unknown_is_unknown { evaluated (test is.Unknown unknown) ≡ value.Bool true }
    ensures unknown_is_not_unknown { evaluated (test is.NotUnknown unknown) ≡ value.Bool false }
{}
