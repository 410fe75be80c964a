//! Tests of nullness: what surely holds of an expression where relations are absent, or where a column is NULL.
#![tactic(auto)]

mod absence;
mod nullness;
mod soundness;
#[cfg(test)]
mod tests;
mod walk;

pub use nullness::{forced_null, is_null, nonnull_items, rejects_column, rejects_null};
pub use soundness::{
    a_list_that_rejects_nulls_does_not_hold, forced_columns_are_null, nonnull_items_are_present,
    tests_of_nullness_are_sound,
};
