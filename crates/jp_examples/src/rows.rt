ghost use Rattle.std.specs.Prelude.{◌≡◌, true, false, [], ◌∷◌};
ghost use Rattle.jp_base.specs.declared.values.Value.TheVariants as value;
ghost use Rattle.jp_query.specs.declared.JoinKind.TheVariants as join;
ghost use Rattle.jp_query.specs.Meaning.{meaning};
ghost use Rattle.jp_examples.specs.Trees.{number, null};
ghost use Rattle.jp_examples.specs.Rows.{tables, rows, outer_rows, both_columns, left_column, from_with_condition, from_sub_select, sublink_in_on, by_two_keys, whole, correlated_sub_select, by_sublink, placeholder_over_join};

/// Laws: joins in which a left row has two matches, a right row is matched by two left rows, and each side has a row
/// without a match.
pub fn joins_with_several_matches()
    ensures inner { rows (both_columns join.Inner)
        ≡ (number 10 ∷ number 100 ∷ []) ∷ (number 10 ∷ number 200 ∷ []) ∷ (number 20 ∷ number 300 ∷ []) ∷ (number 30 ∷ number 300 ∷ []) ∷ [] }
    ensures left { rows (both_columns join.Left)
        ≡ (number 10 ∷ number 100 ∷ []) ∷ (number 10 ∷ number 200 ∷ []) ∷ (number 20 ∷ number 300 ∷ []) ∷ (number 30 ∷ number 300 ∷ [])
        ∷ (number 40 ∷ null ∷ []) ∷ [] }
    ensures right { rows (both_columns join.Right)
        ≡ (number 10 ∷ number 100 ∷ []) ∷ (number 10 ∷ number 200 ∷ []) ∷ (number 20 ∷ number 300 ∷ []) ∷ (number 30 ∷ number 300 ∷ [])
        ∷ (null ∷ number 400 ∷ []) ∷ [] }
    ensures full { rows (both_columns join.Full)
        ≡ (number 10 ∷ number 100 ∷ []) ∷ (number 10 ∷ number 200 ∷ []) ∷ (number 20 ∷ number 300 ∷ []) ∷ (number 30 ∷ number 300 ∷ [])
        ∷ (number 40 ∷ null ∷ []) ∷ (null ∷ number 400 ∷ []) ∷ [] }
    ensures semi { rows (left_column join.Semi) ≡ (number 10 ∷ []) ∷ (number 20 ∷ []) ∷ (number 30 ∷ []) ∷ [] }
    ensures anti { rows (left_column join.Anti) ≡ (number 40 ∷ []) ∷ [] }
{}

/// Laws: a FROM with a condition, a sub-select as a leaf, and a sublink in ON that refers to both sides.
pub fn trees_of_other_parts()
    ensures from_with_condition { rows from_with_condition
        ≡ (number 10 ∷ number 100 ∷ []) ∷ (number 10 ∷ number 200 ∷ []) ∷ (number 20 ∷ number 300 ∷ []) ∷ (number 30 ∷ number 300 ∷ []) ∷ [] }
    ensures sub_select { rows from_sub_select ≡ (number 20 ∷ number 2 ∷ []) ∷ (number 30 ∷ number 2 ∷ []) ∷ [] }
    ensures sublink_in_on { rows sublink_in_on
        ≡ (number 10 ∷ number 100 ∷ []) ∷ (number 10 ∷ number 200 ∷ []) ∷ (number 20 ∷ number 300 ∷ []) ∷ (number 30 ∷ number 300 ∷ [])
        ∷ (number 40 ∷ null ∷ []) ∷ [] }
{}

/// Laws: two keys, of which the first descends with its NULLs last, and a query of all parts.
pub fn whole_queries()
    ensures by_two_keys { rows by_two_keys
        ≡ (number 2 ∷ number 5 ∷ []) ∷ (number 1 ∷ number 1 ∷ []) ∷ (number 1 ∷ number 9 ∷ []) ∷ (null ∷ number 0 ∷ [])
        ∷ (null ∷ number 4 ∷ []) ∷ [] }
    ensures all_parts { rows whole ≡ (number 2 ∷ number 3 ∷ []) ∷ (number 1 ∷ number 2 ∷ []) ∷ [] }
{}

/// Laws: joins in an environment that gives their relations rows. An absent side hides them; a Semi join takes its left
/// tuples as they are.
pub fn joins_in_another_environment()
    ensures full { meaning tables (both_columns join.Full) outer_rows
        ≡ (number 10 ∷ number 100 ∷ []) ∷ (number 10 ∷ number 200 ∷ []) ∷ (number 20 ∷ number 300 ∷ []) ∷ (number 30 ∷ number 300 ∷ [])
        ∷ (number 40 ∷ null ∷ []) ∷ (null ∷ number 400 ∷ []) ∷ [] }
    ensures semi { meaning tables (both_columns join.Semi) outer_rows
        ≡ (number 10 ∷ number 99 ∷ []) ∷ (number 20 ∷ number 99 ∷ []) ∷ (number 30 ∷ number 99 ∷ []) ∷ [] }
{}

/// Laws: a reference out of a sub-select in a sublink, a sublink in outputs and ORDER BY, a placeholder over a Left join.
pub fn references_across_levels()
    ensures correlated_sub_select { rows correlated_sub_select ≡ (number 10 ∷ []) ∷ (number 20 ∷ []) ∷ (number 30 ∷ []) ∷ [] }
    ensures by_sublink { rows by_sublink
        ≡ (value.Bool false ∷ number 3 ∷ []) ∷ (value.Bool true ∷ number 2 ∷ []) ∷ (value.Bool true ∷ number 2 ∷ []) ∷ (value.Bool true ∷ number 1 ∷ []) ∷ [] }
    ensures placeholder_over_join { rows placeholder_over_join
        ≡ (number 10 ∷ number 7 ∷ []) ∷ (number 10 ∷ number 7 ∷ []) ∷ (number 20 ∷ number 7 ∷ []) ∷ (number 30 ∷ number 7 ∷ [])
        ∷ (number 40 ∷ null ∷ []) ∷ [] }
{}
