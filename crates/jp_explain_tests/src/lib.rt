//! Tests of the text of planned statements, over public calls alone.
#![tactic(auto)]

mod examples;
mod scans;
#[cfg(test)]
mod tests;

pub use examples::{worked_conditions, worked_expressions, worked_layout};
pub use scans::one_scan;
