//! A planned statement as text.
#![tactic(auto)]

mod expressions;
mod lines;
mod names;
mod nodes;
mod pieces;
mod plans;
mod statements;
mod values;
mod weights;

pub use statements::explain_text;
pub use weights::{Weight, weight_of};
