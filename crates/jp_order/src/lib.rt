//! Sorts and DISTINCT of rows that are computed: the stable sort by the keys of ORDER BY, and the first of each same row.
#![tactic(auto)]

mod distinct;
mod sorting;
#[cfg(test)]
mod tests;

pub use distinct::{distinct_lines, distinct_rows};
pub use sorting::sort_rows;
