//! Estimates of rows, and costs of steps.
#![tactic(auto)]

mod conditions;
mod costs;
mod estimates;
#[cfg(test)]
mod tests;
mod values;

pub use costs::step_cost;
pub use estimates::estimate;
