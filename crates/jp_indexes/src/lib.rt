//! The rows of a stored table by the value of one of its columns.
#![tactic(auto)]

mod index;

pub use index::Index;
