//! Worked examples: what small queries, written out whole, mean, and which of them each test refuses.
//!
//! The expected values come from SQL. Each example is a clause of a function that does nothing.
#![tactic(auto)]

mod fresh;
mod nullness;
mod rows;
mod typed;
mod values;

pub use fresh::{fresh_by_five_tests, refused_for_copies, refused_for_words_of_rewritings};
pub use nullness::{
    absent_in_lists, absent_under_connectives, absent_under_operators, relations_rejected,
};
pub use rows::{
    joins_in_another_environment, joins_with_several_matches, references_across_levels,
    trees_of_other_parts, whole_queries,
};
pub use typed::{
    refused_for_columns, refused_for_expressions, refused_for_many_leaves, refused_for_numbers,
    typed_by_eight_tests,
};
pub use values::{arithmetic, choices, comparisons, connectives, memberships, tests_of_is};
