ghost use Rattle.std.specs.Prelude.{◌≡◌, [], ◌∷◌, Some, None, Ok, Err, codes};
ghost use Rattle.jp_base.specs.declared.values.Ty.TheVariants as ty;
ghost use Rattle.jp_resolution.specs.declared.error.ResolveError.TheVariants.{Ambiguous, BadPosition, DuplicateAlias, NotOneColumn, NumberTooWide, OrderNotSelected, TooManyTables, TypeMismatch, UnknownColumn, UnknownTable};
ghost use Rattle.jp_resolution.specs.Resolving.{resolved};
ghost use Rattle.jp_resolution.specs.Examples.{catalog, refusal_of, outputs_of, target_query, in_query, thirteen_entries, twelve_entries, target_before_entries, in_before_its_operand, where_before_targets, targets_before_order, on_before_later_entries, entry_before_on, table_before_its_name, inside_before_its_name, repeated_sub_select, operands_before_type, bound_before_next_operand, no_name_of_its_own, innermost_qualifier, name_of_outer_level, column_twice, star_of_columns_twice, column_of_two_entries, inner_level_first, on_sees_outer_levels, on_sees_two_sides, sibling_unseen, star_of_outer_entry, star_unknown, outer_star, sum_of_a_text, member_of_and, condition_of_when, condition_in_parentheses, sum_in_condition, coalesce_hands_nothing_down, signed_null_is_a_number, null_condition, null_target_of_in, null_operand_of_in, two_columns_of_in, unknown_inside_in, simple_case, results_of_case, null_is_a_text, is_null_of_a_text, is_true_of_a_text, product_by_zero, product_by_null, inner_product, bound_of_a_sub_select, two_products, one_product, greatest_of_case, output_by_name, no_name_in_an_expression, signed_name, equal_outputs, different_outputs, outputs_without_name, output_by_number, number_zero, number_beyond, number_with_plus, number_with_minus, text_as_position, null_as_position, two_signs, distinct_signed_column, distinct_qualified_column, distinct_other_column, distinct_turned_sum, distinct_sublink_again, distinct_sublink_by_name, names_of_outputs};

/// Laws: entries are counted at every depth, and entries and sublinks are numbered in the order of their first tokens.
#[tactic(auto, using(crate::proofs::TreeRules::runs))]
pub fn entries_and_sublinks()
    ensures thirteen_entries { resolved catalog thirteen_entries ≡ Err (TooManyTables 13) }
    ensures twelve_entries { refusal_of (resolved catalog twelve_entries) ≡ None }
    ensures target_before_entries { resolved catalog target_before_entries ≡ Ok target_query }
    ensures in_before_its_operand { resolved catalog in_before_its_operand ≡ Ok in_query }
{}

/// Laws: which refusal comes first.
#[tactic(auto, using(crate::proofs::TreeRules::runs))]
pub fn walked_in_order()
    ensures where_before_targets { resolved catalog where_before_targets ≡ Err (UnknownColumn 23) }
    ensures targets_before_order { resolved catalog targets_before_order ≡ Err (UnknownColumn 7) }
    ensures on_before_later_entries { resolved catalog on_before_later_entries ≡ Err (UnknownColumn 26) }
    ensures entry_before_on { resolved catalog entry_before_on ≡ Err (DuplicateAlias 21) }
    ensures table_before_its_name { resolved catalog table_before_its_name ≡ Err (UnknownTable 19) }
    ensures inside_before_its_name { resolved catalog inside_before_its_name ≡ Err (UnknownColumn 27) }
    ensures repeated_sub_select { resolved catalog repeated_sub_select ≡ Err (DuplicateAlias 19) }
    ensures operands_before_type { resolved catalog operands_before_type ≡ Err (UnknownColumn 28) }
    ensures bound_before_next_operand { resolved catalog bound_before_next_operand ≡ Err (NumberTooWide 7) }
{}

/// Laws: which columns and entries names take.
#[tactic(auto, using(crate::proofs::TreeRules::runs))]
pub fn names_taken()
    ensures no_name_of_its_own { resolved catalog no_name_of_its_own ≡ Err (UnknownTable 7) }
    ensures innermost_qualifier { resolved catalog innermost_qualifier ≡ Err (UnknownColumn 54) }
    ensures name_of_outer_level { refusal_of (resolved catalog name_of_outer_level) ≡ None }
    ensures column_twice { resolved catalog column_twice ≡ Err (Ambiguous 7) }
    ensures star_of_columns_twice { refusal_of (resolved catalog star_of_columns_twice) ≡ None }
    ensures column_of_two_entries { resolved catalog column_of_two_entries ≡ Err (Ambiguous 7) }
    ensures inner_level_first { refusal_of (resolved catalog inner_level_first) ≡ None }
    ensures on_sees_outer_levels { refusal_of (resolved catalog on_sees_outer_levels) ≡ None }
    ensures on_sees_two_sides { resolved catalog on_sees_two_sides ≡ Err (UnknownTable 29) }
    ensures sibling_unseen { resolved catalog sibling_unseen ≡ Err (UnknownTable 55) }
    ensures star_of_outer_entry { outputs_of (resolved catalog star_of_outer_entry) ≡ (codes "v", ty.Number) ∷ (codes "id", ty.Number) ∷ (codes "x", ty.Number) ∷ [] }
    ensures star_unknown { resolved catalog star_unknown ≡ Err (UnknownTable 7) }
    ensures outer_star { refusal_of (resolved catalog outer_star) ≡ None }
{}

/// Laws: which types operands take, and where a mismatch stands.
#[tactic(auto, using(crate::proofs::TreeRules::runs))]
pub fn types_judged()
    ensures sum_of_a_text { resolved catalog sum_of_a_text ≡ Err (TypeMismatch 14) }
    ensures member_of_and { resolved catalog member_of_and ≡ Err (TypeMismatch 22) }
    ensures condition_of_when { resolved catalog condition_of_when ≡ Err (TypeMismatch 7) }
    ensures condition_in_parentheses { resolved catalog condition_in_parentheses ≡ Err (TypeMismatch 23) }
    ensures sum_in_condition { resolved catalog sum_in_condition ≡ Err (TypeMismatch 22) }
    ensures coalesce_hands_nothing_down { resolved catalog coalesce_hands_nothing_down ≡ Err (TypeMismatch 7) }
    ensures signed_null_is_a_number { resolved catalog signed_null_is_a_number ≡ Err (TypeMismatch 7) }
    ensures null_condition { refusal_of (resolved catalog null_condition) ≡ None }
    ensures null_target_of_in { resolved catalog null_target_of_in ≡ Err (TypeMismatch 22) }
    ensures null_operand_of_in { refusal_of (resolved catalog null_operand_of_in) ≡ None }
    ensures two_columns_of_in { resolved catalog two_columns_of_in ≡ Err (NotOneColumn 22) }
    ensures unknown_inside_in { resolved catalog unknown_inside_in ≡ Err (UnknownColumn 37) }
    ensures simple_case { resolved catalog simple_case ≡ Err (TypeMismatch 7) }
    ensures results_of_case { resolved catalog results_of_case ≡ Err (TypeMismatch 7) }
    ensures null_is_a_text { outputs_of (resolved catalog null_is_a_text) ≡ (codes "n", ty.Text) ∷ (codes "?column?", ty.Number) ∷ [] }
    ensures is_null_of_a_text { refusal_of (resolved catalog is_null_of_a_text) ≡ None }
    ensures is_true_of_a_text { resolved catalog is_true_of_a_text ≡ Err (TypeMismatch 22) }
{}

/// Laws: which bounds pass.
#[tactic(auto, using(crate::proofs::TreeRules::runs))]
pub fn bounds_judged()
    ensures product_by_zero { refusal_of (resolved catalog product_by_zero) ≡ None }
    ensures product_by_null { refusal_of (resolved catalog product_by_null) ≡ None }
    ensures inner_product { resolved catalog inner_product ≡ Err (NumberTooWide 12) }
    ensures bound_of_a_sub_select { refusal_of (resolved catalog bound_of_a_sub_select) ≡ None }
    ensures two_products { resolved catalog two_products ≡ Err (NumberTooWide 7) }
    ensures one_product { refusal_of (resolved catalog one_product) ≡ None }
    ensures greatest_of_case { resolved catalog greatest_of_case ≡ Err (NumberTooWide 7) }
{}

/// Laws: what an ORDER BY item is.
#[tactic(auto, using(crate::proofs::TreeRules::runs))]
pub fn items_of_order()
    ensures output_by_name { refusal_of (resolved catalog output_by_name) ≡ None }
    ensures no_name_in_an_expression { resolved catalog no_name_in_an_expression ≡ Err (UnknownColumn 30) }
    ensures signed_name { resolved catalog signed_name ≡ Err (UnknownColumn 31) }
    ensures equal_outputs { refusal_of (resolved catalog equal_outputs) ≡ None }
    ensures different_outputs { resolved catalog different_outputs ≡ Err (Ambiguous 46) }
    ensures outputs_without_name { resolved catalog outputs_without_name ≡ Err (Ambiguous 28) }
    ensures output_by_number { refusal_of (resolved catalog output_by_number) ≡ None }
    ensures number_zero { resolved catalog number_zero ≡ Err (BadPosition 25) }
    ensures number_beyond { resolved catalog number_beyond ≡ Err (BadPosition 26) }
    ensures number_with_plus { resolved catalog number_with_plus ≡ Err (BadPosition 25) }
    ensures number_with_minus { resolved catalog number_with_minus ≡ Err (BadPosition 25) }
    ensures text_as_position { resolved catalog text_as_position ≡ Err (BadPosition 25) }
    ensures null_as_position { resolved catalog null_as_position ≡ Err (BadPosition 25) }
    ensures two_signs { refusal_of (resolved catalog two_signs) ≡ None }
    ensures distinct_signed_column { refusal_of (resolved catalog distinct_signed_column) ≡ None }
    ensures distinct_qualified_column { refusal_of (resolved catalog distinct_qualified_column) ≡ None }
    ensures distinct_other_column { resolved catalog distinct_other_column ≡ Err (OrderNotSelected 35) }
    ensures distinct_turned_sum { resolved catalog distinct_turned_sum ≡ Err (OrderNotSelected 38) }
    ensures distinct_sublink_again { resolved catalog distinct_sublink_again ≡ Err (OrderNotSelected 62) }
    ensures distinct_sublink_by_name { refusal_of (resolved catalog distinct_sublink_by_name) ≡ None }
    ensures names_of_outputs { outputs_of (resolved catalog names_of_outputs) ≡ (codes "id", ty.Number) ∷ (codes "?column?", ty.Number) ∷ (codes "k", ty.Number) ∷ [] }
{}
