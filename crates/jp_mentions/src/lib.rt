//! The tables that a query mentions, in the order in which its text first names them.
#![tactic(auto)]

mod firsts;
mod walk;

pub use firsts::mentioned_tables;
