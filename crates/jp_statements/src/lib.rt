//! Laws of the statements that tokens derive: what resolution may rely on.
//!
//! Each law is the contract of a function that does nothing.
#![tactic(auto)]

mod examples;
mod laws;

pub use examples::{worked_entries, worked_selects};
pub use laws::{each_derived_statement_is_whole, each_statement_of_a_source_is_whole};
