ghost use Rattle.std.specs.Prelude.{◌≡◌, ◌↔◌, false, [], ◌∷◌, Some, None};
ghost use Rattle.jp_base.specs.declared.values.Value.TheVariants as value;
ghost use Rattle.jp_query.specs.declared.JoinKind.TheVariants as join;
ghost use Rattle.jp_query.specs.Conditions.{IsTyped};
ghost use Rattle.jp_query.specs.declared.Query.{Query};
ghost use Rattle.jp_query.specs.Scopes.{Schema, Scope};
ghost use Rattle.jp_query.specs.TreeExamples.{schema, number_column, col, one, equals, placeholder, exists, exists_by, and, a, a_with_b, select, inner_select};
ghost use Rattle.jp_examples.specs.Trees.{literal, in_list, in_query, when, case, table, sub_select, from};
ghost use Rattle.jp_examples.specs.Tests.{typed_tests, all_typed, two_columns, leaves};

/// A law: a query is typed where it passes each of the eight tests.
pub fn typed_by_eight_tests()
    ensures { (s : Schema) (outer : Scope) (query : Query) → IsTyped s outer query ↔ (typed_tests s outer query ≡ all_typed) }
{}

/// Laws: queries that the test of expressions alone refuses, and one that none refuses.
pub fn refused_for_expressions()
    ensures typed { typed_tests schema [] (select (col 0 0) a (exists inner_select ∷ [])) ≡ all_typed }
    ensures other_type_stated { typed_tests schema [] (select (equals one one) a []) ≡ record all_typed { expressions = false } }
    ensures literal_of_another_type { typed_tests schema [] (select (literal (value.Bool false)) a []) ≡ record all_typed { expressions = false } }
    ensures condition_is_a_number { typed_tests schema [] (select one a (one ∷ [])) ≡ record all_typed { expressions = false } }
    ensures in_two_columns { typed_tests schema [] (select one a (in_query 1 one two_columns ∷ [])) ≡ record all_typed { expressions = false } }
    ensures results_of_two_types { typed_tests schema []
        (select (case None (when (equals one one) one ∷ []) (Some (equals one one))) a [])
        ≡ record all_typed { expressions = false } }
    ensures no_member { typed_tests schema [] (select one a (in_list one [] ∷ [])) ≡ record all_typed { expressions = false } }
    ensures column_of_64 { typed_tests schema (record { relation = 64; columns = number_column ∷ [] } ∷ []) (select (col 64 0) a []) ≡ record all_typed { expressions = false } }
    ensures column_of_63 { typed_tests schema (record { relation = 63; columns = number_column ∷ [] } ∷ []) (select (col 63 0) a []) ≡ all_typed }
    ensures leaf_64 { typed_tests schema [] (select one (table 64 0) []) ≡ record all_typed { expressions = false } }
{}

/// Laws: queries that the test of columns or of placeholders alone refuses.
pub fn refused_for_columns()
    ensures relation_unseen { typed_tests schema [] (select (col 1 0) a []) ≡ record all_typed { columns = false } }
    ensures sub_select_sees_no_sibling { typed_tests schema [] (select (col 0 0) (from (a ∷ sub_select 3 inner_select ∷ []) []) []) ≡ record all_typed { columns = false } }
    ensures right_of_semi_unseen { typed_tests schema [] (select (col 1 0) (a_with_b join.Semi) []) ≡ record all_typed { columns = false } }
    ensures column_missing { typed_tests schema [] (select (col 0 2) a []) ≡ record all_typed { columns = false } }
    ensures placeholders { typed_tests schema [] (select (placeholder one 2) a []) ≡ record all_typed { placeholders = false } }
{}

/// Laws: queries that one of the tests of numbers alone refuses. A number that is visible from outside may not come again;
/// within one query the test of leaves says so too.
pub fn refused_for_numbers()
    ensures distinct { typed_tests schema (record { relation = 0; columns = number_column ∷ [] } ∷ []) (select one a []) ≡ record all_typed { distinct = false } }
    ensures apart { typed_tests schema [] (select one a (and (exists_by 1 inner_select) (exists_by 2 inner_select) ∷ []))
        ≡ record all_typed { apart = false } }
    ensures tables { typed_tests schema [] (select one (table 0 2) []) ≡ record all_typed { tables = false } }
    ensures rooted { typed_tests schema [] (select one (from [] []) []) ≡ record all_typed { rooted = false } }
{}

/// Laws: seventeen base leaves are too many, sixteen aren't.
pub fn refused_for_many_leaves()
    ensures sixteen { typed_tests schema [] (select one (leaves 16) []) ≡ all_typed }
    ensures seventeen { typed_tests schema [] (select one (leaves 17) []) ≡ record all_typed { few = false } }
{}
