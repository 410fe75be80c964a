//! Induction over the query tree, written once: what any law on all levels of a query is proved by.
//!
//! In `proofs/`, `Induction` is the induction by the parts of a level, `HandedDown` the same under a condition, `Rewriting` and
//! `RewritingUnder` the theorem on rewritings for any two folds, and `Between` what two readings of one level mean in two
//! environments. Each law is the contract of a function that does nothing.
#![tactic(auto)]

mod rewritings;

pub use rewritings::{
    steps_that_keep_each_level_keep_the_meaning, steps_that_keep_tested_levels_keep_the_meaning,
};
