//! Syntax trees of statements, and the grammar as a relation between tokens and trees.
#![tactic(auto)]

mod class;
mod errors;
mod tree;

pub use class::Class;
pub use errors::ParseError;
pub use tree::{Ast, CmpWord, FromItem, IsWord, JoinWord, OrderAst, Select, Stmt, Target};
