//! The special joins of a query block, with the least sets of items that each needs to its left and to its right.
#![tactic(auto)]

mod block;
mod conditions;
mod kinds;
mod minimum;
mod outlines;
mod placeholders;
mod places;
mod relations;
mod right_side;
mod survey;
mod walk;

pub use block::specials;
pub use conditions::span;
pub use minimum::specials_in;
pub use outlines::outline;
