//! The problem of a query block: its items as they are handed in, its special joins, and its conditions as clauses with
//! what each needs.
#![tactic(auto)]

mod clauses;
mod problem;
#[cfg(test)]
mod tests;

pub use clauses::clauses_of;
pub use problem::distribute;
