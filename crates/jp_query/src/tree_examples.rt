ghost use Rattle.std.specs.Prelude.{◌≡◌, map, true, false, [], ◌∷◌, Some, None};
ghost use Rattle.jp_base.specs.declared.values.Ty.TheVariants as ty;
ghost use Rattle.jp_query.specs.declared.IsTest.TheVariants as is;
ghost use Rattle.jp_query.specs.declared.JoinKind.TheVariants as join;
ghost use Rattle.jp_query.specs.Refs.{refs_of};
ghost use Rattle.jp_query.specs.Parts.{outer_references, rels_of, nodes_in_query};
ghost use Rattle.jp_query.specs.Typing.{type_of, typed_query};
ghost use Rattle.jp_query.specs.Conditions.{judged_query, knows_columns, knows_placeholders, tells_relations_apart, keeps_bounds, judged_leaves, has_leaves};
ghost use Rattle.jp_query.specs.Tables.{Belong};
ghost use Rattle.jp_query.specs.Freshness.{each_pair, may_stand, occurrences_in, sublinks_in};
ghost use Rattle.jp_query.specs.Nullness.{rejects_relation, surely_of, rejects, forced_null};
ghost use Rattle.jp_query.specs.Nullness.Gone.{relations};
ghost use Rattle.jp_query.specs.TreeExamples.{some_tables, number_of, ordered_by_itself, schema, col, one, equals, test, product, sum, coalesce, placeholder, exists, exists_by, and, a, b, all, a_with_b, select, inner_select};

/// Laws: the parts of small trees.
#[tactic(auto, using(crate::proofs::TreeRules::folds))]
pub fn worked_parts()
    ensures sublinks_included { refs_of (and (exists inner_select) (placeholder one 4)) ≡ 7 }
    ensures both_sides { rels_of (a_with_b join.Left) ≡ 3 }
    ensures left_side { rels_of (a_with_b join.Semi) ≡ 1 }
    ensures outer { outer_references inner_select ≡ record { relation = 0; column = 0; type = ty.Number } ∷ [] }
    ensures nodes { nodes_in_query (select (exists inner_select) a []) ≡ 5 }
{}

/// Laws: which small queries are typed and bounded.
#[tactic(auto, using(crate::proofs::TreeRules::folds))]
pub fn worked_conditions()
    ensures typed { (typed_query inner_select).is_typed ≡ true }
    ensures two_types { type_of (equals one (equals one one)) ≡ None }
    ensures boolean_output { (typed_query (select (equals one one) a [])).is_typed ≡ false }
    ensures column_unknown { (judged_query schema knows_columns inner_select).passes [] ≡ false }
    ensures column_of_outer_select { (judged_query schema knows_columns (select (col 0 0) a (exists inner_select ∷ []))).passes [] ≡ true }
    ensures placeholder_unknown { (judged_query schema knows_placeholders (select (placeholder one 2) a [])).passes [] ≡ false }
    ensures one_number_twice { (judged_query schema tells_relations_apart (select one (all (a ∷ a ∷ [])) [])).passes [] ≡ false }
    ensures too_wide { (judged_query schema keeps_bounds
        (select (sum (product (col 0 0) (col 1 0)) (product (col 0 0) (col 1 0))) (all (a ∷ b ∷ [])) [])).passes []
        ≡ false }
    ensures wide_enough { (judged_query schema keeps_bounds
        (select (sum (product (col 0 0) (col 1 0)) (col 0 0)) (all (a ∷ b ∷ [])) [])).passes []
        ≡ true }
    ensures leaf_twice { (judged_leaves (select one (all (a ∷ a ∷ [])) [])).apart ≡ false }
    ensures copies_of_a_sublink { (judged_leaves (select one a (exists inner_select ∷ exists inner_select ∷ []))).apart ≡ true }
    ensures no_leaf { has_leaves (select one (all []) []) ≡ false }
{}

/// Laws: what surely holds of small expressions where relations are absent.
#[tactic(auto, using(crate::proofs::TreeRules::folds))]
pub fn worked_nullness()
    ensures equality { rejects (relations 2) (equals (col 0 0) (col 1 1) ∷ []) ≡ true }
    ensures other_relation { rejects (relations 4) (equals (col 0 0) (col 1 1) ∷ []) ≡ false }
    ensures is_null { rejects (relations 2) (test is.Null (col 1 0) ∷ []) ≡ false }
    ensures is_not_null { rejects (relations 2) (test is.NotNull (col 1 0) ∷ []) ≡ true }
    ensures coalesce { rejects (relations 2) (equals (coalesce (col 1 0) one) (col 0 0) ∷ []) ≡ false }
    ensures placeholder { (surely_of (relations 6) (placeholder one 2)).null ≡ true }
    ensures placeholder_in_part { (surely_of (relations 2) (placeholder one 6)).null ≡ false }
    ensures relation_alone { rejects_relation (equals (col 0 0) (col 1 1) ∷ []) 1 ≡ true }
    ensures forced { forced_null (and (test is.Null (col 1 1)) (test is.NotNull (col 0 0)) ∷ []) ≡ (1, 1) ∷ [] }
{}

/// Laws: which small tables belong to a schema, and which small queries have their sublinks where a fresh one may.
#[tactic(auto, using(crate::proofs::TreeRules::folds))]
pub fn worked_freshness()
    ensures tables { Belong schema some_tables }
    ensures one_table_short { ¬ Belong schema (None ∷ []) }
    ensures sublinks { map number_of (sublinks_in (select (exists inner_select) a [])) ≡ 1 ∷ [] }
    ensures copy_in_order { each_pair may_stand (occurrences_in (ordered_by_itself (exists inner_select))) ≡ true }
    ensures copy_in_where { each_pair may_stand (occurrences_in (select one a (exists inner_select ∷ exists inner_select ∷ []))) ≡ false }
    ensures copy_in_copies { each_pair may_stand (occurrences_in
        (ordered_by_itself (exists (select one a (exists_by 2 inner_select ∷ []))))) ≡ true }
    ensures copy_in_one_sublink { each_pair may_stand (occurrences_in (ordered_by_itself
        (exists (select one a (exists_by 2 inner_select ∷ exists_by 2 inner_select ∷ []))))) ≡ false }
{}
