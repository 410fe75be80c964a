ghost use Rattle.std.specs.Prelude.{◌≡◌, true, false, [], ◌∷◌};
ghost use Rattle.jp_base.specs.declared.values.Value.TheVariants as value;
ghost use Rattle.jp_query.specs.declared.JoinKind.TheVariants as join;
ghost use Rattle.jp_query.specs.Meaning.{no_outer_rows};
ghost use Rattle.jp_query.specs.Examples.{number, null, column, literal, equal, placeholder, in_list, not_in, case_when, by_kind, left_join_inside, combinations, aids, with_match, distinct_values, distinct_by_key, by_value, a_present, in_given};

/// Laws: the meaning of joins on small tables.
pub fn worked_joins()
    ensures inner { by_kind join.Inner ≡ (number 1 ∷ number 7 ∷ []) ∷ [] }
    ensures left { by_kind join.Left ≡ (number 1 ∷ number 7 ∷ []) ∷ (number 2 ∷ null ∷ []) ∷ [] }
    ensures right { by_kind join.Right ≡ (number 1 ∷ number 7 ∷ []) ∷ (null ∷ number 8 ∷ []) ∷ [] }
    ensures full { by_kind join.Full
        ≡ (number 1 ∷ number 7 ∷ []) ∷ (number 2 ∷ null ∷ []) ∷ (null ∷ number 8 ∷ []) ∷ [] }
    ensures semi { by_kind join.Semi ≡ (number 1 ∷ null ∷ []) ∷ [] }
    ensures anti { by_kind join.Anti ≡ (number 2 ∷ null ∷ []) ∷ [] }
    ensures outer_row_hidden { left_join_inside
        ≡ (number 1 ∷ number 7 ∷ []) ∷ (number 2 ∷ null ∷ []) ∷ [] }
    ensures combinations { combinations
        ≡ (number 1 ∷ number 7 ∷ []) ∷ (number 1 ∷ number 8 ∷ [])
        ∷ (number 2 ∷ number 7 ∷ []) ∷ (number 2 ∷ number 8 ∷ []) ∷ [] }
{}

/// Laws: the meaning of DISTINCT and ORDER BY on a small table.
pub fn worked_orders()
    ensures distinct { distinct_values ≡ (null ∷ []) ∷ (number 1 ∷ []) ∷ (number 2 ∷ []) ∷ [] }
    ensures distinct_by_another_key { distinct_by_key ≡ (null ∷ []) ∷ (number 2 ∷ []) ∷ (number 1 ∷ []) ∷ [] }
    ensures nulls_last { by_value false false
        ≡ (number 1 ∷ number 9 ∷ []) ∷ (number 1 ∷ number 1 ∷ []) ∷ (number 2 ∷ number 5 ∷ [])
        ∷ (null ∷ number 4 ∷ []) ∷ (null ∷ number 0 ∷ []) ∷ [] }
    ensures nulls_first { by_value false true
        ≡ (null ∷ number 4 ∷ []) ∷ (null ∷ number 0 ∷ [])
        ∷ (number 1 ∷ number 9 ∷ []) ∷ (number 1 ∷ number 1 ∷ []) ∷ (number 2 ∷ number 5 ∷ []) ∷ [] }
    ensures descending { by_value true true
        ≡ (null ∷ number 4 ∷ []) ∷ (null ∷ number 0 ∷ [])
        ∷ (number 2 ∷ number 5 ∷ []) ∷ (number 1 ∷ number 9 ∷ []) ∷ (number 1 ∷ number 1 ∷ []) ∷ [] }
{}

/// Laws: values that NULLs leave.
#[tactic(auto, unfolding(crate::specs::Meaning::any_present))]
pub fn worked_values()
    ensures not_in_over_null { not_in (literal (number 5)) aids no_outer_rows ≡ null }
    ensures not_in_found { not_in (literal (number 1)) aids no_outer_rows ≡ value.Bool false }
    ensures exists { with_match ≡ (number 1 ∷ []) ∷ [] }
    ensures case_without_else { case_when (equal (literal (number 1)) (literal (number 2))) (literal (number 3)) no_outer_rows
        ≡ null }
    ensures in_found { in_list (literal (number 1)) (literal (number 1) ∷ literal null ∷ []) no_outer_rows
        ≡ value.Bool true }
    ensures in_unknown { in_list (literal (number 2)) (literal (number 1) ∷ literal null ∷ []) no_outer_rows ≡ null }
    ensures placeholder_absent { placeholder (literal (number 1)) 1 no_outer_rows ≡ null }
    ensures placeholder_present { placeholder (literal (number 1)) 3 a_present ≡ number 1 }
    ensures column_absent { column 1 0 a_present ≡ null }
    ensures given_rows { in_given ((number 1 ∷ []) ∷ []) ≡ value.Bool true }
    ensures given_none { in_given [] ≡ value.Bool false }
{}
