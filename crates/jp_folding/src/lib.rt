//! Folding as a definition, worked examples of it, and its laws, with no code: literals are computed, AND and OR are made
//! shorter, and a Right join becomes a Left join with its sides exchanged.
//!
//! Each law is the contract of a function that does nothing.
#![tactic(auto)]

mod examples;
mod laws;

pub use examples::{worked_conditions, worked_connectives, worked_operators};
pub use laws::{folding_keeps_the_rows, folding_keeps_types, folding_leaves_no_right_join};
