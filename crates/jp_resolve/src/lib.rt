//! Resolution of the whole language: the typed query that a statement stands for, or its first refusal.
#![tactic(auto)]

mod counting;
mod names;
mod orders;
mod statement;
mod walk;

pub use statement::resolve;
