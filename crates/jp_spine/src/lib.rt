//! Laws that the spine of a block gives the rows of the block: each condition may be tested as early as the planner does, and
//! the tuples are those of the tree as it is written. So every legal tree of its items gives them.
//!
//! Each law is the contract of a function that does nothing.
#![tactic(auto)]

mod meaning;
mod sources;
mod spine;

pub use meaning::{
    every_legal_tree_gives_the_rows_of_the_query, every_legal_tree_gives_the_tuples_of_the_block,
};
pub use sources::tuples_of_items_hold_them;
pub use spine::the_spine_gives_the_written_tuples;
