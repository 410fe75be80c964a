//! What the prepared statement of a query is: its blocks by their numbers, their problems, items and plans, and the names of
//! its relations; and that it can be run and printed.
//!
//! Each law is the contract of a function that does nothing.
#![tactic(auto)]

mod blocks;
mod items;
mod parts;
mod prepared;

pub use blocks::blocks_can_be_searched;
pub use items::items_have_the_relations;
pub use parts::{
    a_block_makes_few_blocks, blocks_of_a_block_are_blocks, tables_of_items_are_there,
};
pub use prepared::a_prepared_statement_is_whole;
