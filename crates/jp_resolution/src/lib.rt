//! What resolution answers: the typed query that a statement stands for over a catalogue, or its first refusal.
//!
//! In `specs/`, `Resolving` is the whole of it, a fold over the statement's tree. `Names` says which column a name takes,
//! `Counting` how entries and sublinks are numbered, `Types` which operands a node takes, `Ordering` what an ORDER BY item
//! is, and `Answers` what a call that resolves must answer. `src/` has the words that code and definitions share.
#![tactic(auto)]

mod error;
mod examples;
mod words;

pub use error::ResolveError;
pub use examples::{
    bounds_judged, entries_and_sublinks, items_of_order, names_taken, types_judged, walked_in_order,
};
pub use words::{Column, Counts, Entry, Selection, TypedExpr};
