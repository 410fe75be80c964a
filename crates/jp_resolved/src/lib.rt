//! Laws of resolution: the query that a whole statement stands for is typed and bounded over the schema of its catalogue,
//! fresh, and sorts under DISTINCT by what it selects.
//!
//! In `proofs/`, `Made` has what resolution makes over a span of numbers, `Walked` that a statement's parts are made, `Tops`
//! what its ORDER BY adds, and the files behind them what is true of all that is made. Each law is the contract of a function
//! that does nothing.
#![tactic(auto)]

mod laws;

pub use laws::{each_resolved_query_is_fresh, each_resolved_query_is_typed};
