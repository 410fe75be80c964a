ghost use Rattle.std.specs.Prelude.{◌≡◌, ◌↔◌, false, [], ◌∷◌};
ghost use Rattle.jp_base.specs.declared.values.Ty.TheVariants as ty;
ghost use Rattle.jp_query.specs.Freshness.{IsFresh};
ghost use Rattle.jp_query.specs.declared.Query.{Query};
ghost use Rattle.jp_query.specs.TreeExamples.{one, placeholder, exists, exists_by, a, select, inner_select, ordered_by_itself};
ghost use Rattle.jp_examples.specs.Trees.{table};
ghost use Rattle.jp_examples.specs.Tests.{fresh_tests, all_fresh, AreCopies, two_sublinks};

/// A law: a query is fresh where it passes each of the four tests and its sublinks of one number are equal.
pub fn fresh_by_five_tests()
    ensures { (query : Query) → IsFresh query ↔ ((fresh_tests query ≡ all_fresh) × AreCopies query) }
{}

/// Laws: queries that the test of placeholders or of numbers alone refuses.
pub fn refused_for_words_of_rewritings()
    ensures placeholders { fresh_tests (select (placeholder one 1) a []) ≡ record all_fresh { placeholders = false } }
    ensures placeholders_copies { AreCopies (select (placeholder one 1) a []) }
    ensures sublink_0 { fresh_tests (select one a (exists_by 0 inner_select ∷ [])) ≡ record all_fresh { numbers = false } }
    ensures sublink_15 { fresh_tests (select one a (exists_by 15 inner_select ∷ [])) ≡ all_fresh }
    ensures sublink_16 { fresh_tests (select one a (exists_by 16 inner_select ∷ [])) ≡ record all_fresh { numbers = false } }
    ensures sublink_16_copies { AreCopies (select one a (exists_by 16 inner_select ∷ [])) }
    ensures leaf_31 { fresh_tests (select one (table 31 0) []) ≡ all_fresh }
    ensures leaf_32 { fresh_tests (select one (table 32 0) []) ≡ record all_fresh { leaves = false } }
    ensures leaf_46 { fresh_tests (select one (table 46 0) []) ≡ record all_fresh { leaves = false } }
    ensures leaf_47 { fresh_tests (select one (table 47 0) []) ≡ all_fresh }
    ensures leaf_copies { AreCopies (select one (table 32 0) []) }
{}

/// Laws: queries that a test of copies alone refuses. A sublink stands once in the outputs and once in ORDER BY.
pub fn refused_for_copies()
    ensures copied { fresh_tests (ordered_by_itself (exists inner_select)) ≡ all_fresh }
    ensures copied_copies { AreCopies (ordered_by_itself (exists inner_select)) }
    ensures equal { fresh_tests two_sublinks ≡ all_fresh }
    ensures equal_refuses { ¬ AreCopies two_sublinks }
    ensures placed { fresh_tests (select one a (exists inner_select ∷ exists inner_select ∷ [])) ≡ record all_fresh { placed = false } }
    ensures placed_copies { AreCopies (select one a (exists inner_select ∷ exists inner_select ∷ [])) }
{}
