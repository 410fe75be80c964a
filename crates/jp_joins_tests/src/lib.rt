//! Steps between two relations of one column of numbers each: tests of the methods over public calls alone.
#![tactic(auto)]

mod conditions;
mod plain;
mod relations;
mod steps;
#[cfg(test)]
mod tests;
mod timed;

pub use relations::Relations;
pub use steps::{Asked, joined};
pub use timed::{Work, worked};
