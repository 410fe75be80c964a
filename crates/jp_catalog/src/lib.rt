//! The catalogue: which tables there are, with their files, stated rows, columns and keys, read from a TOML text.
#![tactic(auto)]

mod checks;
mod columns;
mod error;
mod keys;
mod level;
mod named;
mod place;
mod read;
mod tables;
mod types;

pub use error::CatalogError;
pub use named::Named;
pub use read::read_catalog;
pub use types::{Catalog, Columns, Key, TableDef, TableDefs};
