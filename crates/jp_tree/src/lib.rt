//! Plan trees, kept in a pool, and planned statements.
#![tactic(auto)]

mod examples;
mod laws;
mod pool;
mod prepared;
#[cfg(test)]
mod tests;

pub use examples::worked_prepared;
pub use laws::a_number_names_its_tree;
pub use pool::{PlanId, PlanNode, Pool};
pub use prepared::{Block, Prepared, RelName};
