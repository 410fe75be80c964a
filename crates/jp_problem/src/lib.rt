//! The join problem of a query block: its items, its special joins with the least sets of items that each needs, its
//! clauses and its classes of equal expressions; and which orders of its joins are legal.
#![tactic(auto)]

mod closing;
mod examples;
mod joinable;
mod keys;
mod regions;
pub mod sets;
mod stage;
mod step_clauses;
mod steps;
mod sublinks;
mod types;

pub use closing::{both_sets, closure, closures_are_least, requirement, stands_in, taken_by_right};
pub use examples::{worked_joinable_sets, worked_minimum_sets};
pub use joinable::{is_done, is_joinable, is_left};
pub use keys::has_key;
pub use regions::{is_open, join_of};
pub use step_clauses::{new_clauses, scan_clauses};
pub use steps::step_kind;
pub use sublinks::has_sublink;
pub use types::{
    Class, Clause, Item, ItemKind, Method, Outline, Place, Placed, Problem, Rule, Special, Stage,
    Step, StepClauses, Written,
};
