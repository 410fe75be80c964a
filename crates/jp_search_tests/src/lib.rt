//! Tests of the search over public calls alone: what it plans for small problems, ties among them.
#![tactic(auto)]

mod chain;
mod plain;
mod shapes;
#[cfg(test)]
mod tests;

pub use chain::chain_problem;
pub use plain::plain_problem;
pub use shapes::shape_of;
