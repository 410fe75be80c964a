//! The rows that a block makes of its tuples, and the sublinks and columns in its expressions.
#![tactic(auto)]

mod columns;
mod exprs;
mod rows;
mod sublinks;
mod values;
mod within;

pub use columns::columns_from;
pub use rows::block_rows;
pub use sublinks::sublinks_of;
pub use within::names_only;
