//! The rows of a side of a Full join, and those of the join.
#![tactic(auto)]

mod apart;
mod fulls;
mod laws;
mod sides;

pub use fulls::{FullTuples, full_rows, full_tuples};
pub use laws::{
    a_side_has_the_tuples_that_its_block_lists, full_rows_are_those_of_a_full_join,
    the_sides_of_a_full_item_can_be_joined,
};
pub use sides::side_rows;
