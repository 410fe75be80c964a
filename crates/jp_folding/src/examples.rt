ghost use Rattle.std.specs.Prelude.{◌≡◌, true, false, [], ◌∷◌};
ghost use Rattle.jp_query.specs.declared.JoinKind.TheVariants as kind;
ghost use Rattle.jp_folding.specs.Folding.{folded_expr, folded_tree, folded, conditions_folded};
ghost use Rattle.jp_folding.specs.Examples.{number, null, truth, unknown, column, flag, sum, product, and, or, is_in, coalesce, case_when, placeholder, table, join, select, inner_select, in_select};

/// Laws: what small operators are folded to.
pub fn worked_operators()
    ensures sum_of_product { folded_expr (sum (number 1) (product (number 2) (number 3))) ≡ number 7 }
    ensures sum_with_column { folded_expr (sum column (product (number 2) (number 3))) ≡ sum column (number 6) }
    ensures sum_with_null { folded_expr (sum column (sum null (number 3))) ≡ null }
    ensures in_with_null { folded_expr (is_in (number 2) (number 1 ∷ null ∷ [])) ≡ unknown }
    ensures in_with_column { folded_expr (is_in column (number 1 ∷ null ∷ [])) ≡ is_in column (number 1 ∷ null ∷ []) }
    ensures coalesce_of_literals { folded_expr (coalesce (null ∷ number 1 ∷ [])) ≡ number 1 }
    ensures coalesce_of_a_column { folded_expr (coalesce (number 1 ∷ column ∷ [])) ≡ coalesce (number 1 ∷ column ∷ []) }
    ensures case_of_literals { folded_expr (case_when (truth false) (number 1) null) ≡ null }
    ensures case_of_a_column { folded_expr (case_when (truth true) (number 1) column) ≡ case_when (truth true) (number 1) column }
    ensures placeholder_stays { folded_expr (placeholder (sum (number 1) (number 1))) ≡ placeholder (number 2) }
    ensures sublink_stays { folded_expr (in_select null (select (table 0) (and (truth true ∷ flag 0 ∷ []) ∷ []))) ≡ in_select null (select (table 0) (flag 0 ∷ [])) }
{}

/// Laws: what small ANDs and ORs are folded to.
pub fn worked_connectives()
    ensures null_and_false { folded_expr (and (unknown ∷ truth false ∷ [])) ≡ truth false }
    ensures column_and_false { folded_expr (and (flag 0 ∷ unknown ∷ truth false ∷ [])) ≡ truth false }
    ensures null_stays { folded_expr (and (flag 0 ∷ unknown ∷ truth true ∷ [])) ≡ and (flag 0 ∷ unknown ∷ []) }
    ensures nested { folded_expr (and (flag 0 ∷ and (flag 1 ∷ truth true ∷ flag 2 ∷ []) ∷ [])) ≡ and (flag 0 ∷ flag 1 ∷ flag 2 ∷ []) }
    ensures one_left { folded_expr (and (truth true ∷ flag 0 ∷ [])) ≡ flag 0 }
    ensures or_with_true { folded_expr (or (flag 0 ∷ truth true ∷ [])) ≡ truth true }
    ensures or_with_false { folded_expr (or (flag 0 ∷ truth false ∷ or (flag 1 ∷ flag 2 ∷ []) ∷ [])) ≡ or (flag 0 ∷ flag 1 ∷ flag 2 ∷ []) }
{}

/// Laws: what small lists of conditions and joins are folded to.
pub fn worked_conditions()
    ensures no_conditions { conditions_folded [] ≡ [] }
    ensures true_goes { conditions_folded (truth true ∷ []) ≡ [] }
    ensures false_stays { conditions_folded (flag 0 ∷ truth false ∷ flag 1 ∷ []) ≡ truth false ∷ [] }
    ensures nulls_are_one { conditions_folded (unknown ∷ unknown ∷ []) ≡ unknown ∷ [] }
    ensures nested { conditions_folded (flag 0 ∷ and (flag 1 ∷ flag 2 ∷ []) ∷ []) ≡ flag 0 ∷ flag 1 ∷ flag 2 ∷ [] }
    ensures right_join { folded_tree (inner_select 2 (select (join kind.Right (table 0) (table 1) (flag 0 ∷ truth true ∷ [])) [])) ≡ inner_select 2 (select (join kind.Left (table 1) (table 0) (flag 0 ∷ [])) []) }
    ensures inner_join { folded (select (join kind.Inner (table 0) (table 1) (truth true ∷ [])) (truth false ∷ [])) ≡ select (join kind.Inner (table 0) (table 1) []) (truth false ∷ []) }
{}
