//! Sets of relations, values and the cells that lend them, truth values and text: what every other crate speaks of.
#![tactic(auto)]

mod cells;
mod memory;
mod sets;
#[cfg(test)]
mod tests;
mod text;
mod truth;
mod values;

pub use cells::{Cell, compare, total_order, values_are_ordered};
pub use memory::Memory;
pub use sets::{RelSet, each_part_once, members_below, same_members};
pub use text::Txt;
pub use truth::Truth;
pub use values::{Row, Ty, Value};

/// The number of a FROM entry, counted from 0; below 64.
pub type RelNo = u8;

/// The number of an item of a join problem; below 64.
pub type ItemNo = u8;

/// The number of a special join of a join problem, from 1; 0 is the top region.
pub type JoinNo = u8;

/// The number of a sublink of a statement, counted from 1.
pub type SubNo = u8;
