//! Laws that what the plans of a prepared statement list is what its query means: as a bag its rows, in the order of its
//! ORDER BY.
//!
//! Each law is the contract of a function that does nothing.
#![tactic(auto)]

mod statements;
mod trees;

pub use statements::plans_list_what_the_statement_means;
pub use trees::a_plan_lists_what_its_run_gives;
