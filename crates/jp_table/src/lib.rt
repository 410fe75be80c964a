//! The tables of the data files: a file's bytes judged against its table's definition, and the cells of what was read.
#![tactic(auto)]

mod column;
mod error;
mod header;
mod keys;
mod loading;
mod part;
mod records;
mod table;
mod texts;

pub use error::TableError;
pub use loading::load;
pub use table::{Table, Tables};
