//! What folding leaves as it was, as laws with no code: a folded query is typed and bounded where it stands, and fresh.
//!
//! Each law is the contract of a function that does nothing.
#![tactic(auto)]

mod laws;
mod table;

pub use laws::{folding_keeps_fresh_queries, folding_keeps_typed_queries};
pub use table::{table_of_comparisons, table_of_connectives, table_of_operators, table_of_tests};
