//! The tuples that the plan of a block lists.
#![tactic(auto)]

mod indexes;
mod keys;
mod lookups;
mod operators;
mod plans;
mod scans;
mod steps;

pub use indexes::indexes_for;
pub use plans::plan_tuples;
