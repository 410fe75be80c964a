//! Runs the plans of a planned statement.
#![tactic(auto)]

mod cells;
mod closed;
mod columns;
mod execution;
mod given;
mod interior;
mod places;

pub use execution::execute;
