//! The search of the first legal tree of a join problem, by a table over all sets of items.
#![tactic(auto)]

mod joins;
mod laws;
mod methods;
mod numbers;
mod search;
mod splits;
mod steps;
mod table;

pub use laws::plans_are_ordered;
pub use search::best;
pub use steps::Steps;
