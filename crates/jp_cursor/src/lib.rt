//! What the rules of the grammar are made of: a cursor over tokens, lists of what one rule reads, nodes of the tree.
#![tactic(auto)]

mod classes;
mod content;
mod cursor;
mod lists;
mod nodes;
mod stop;

pub use classes::{class_of, is_comparison, is_name, is_sign};
pub use cursor::Cursor;
pub use lists::{Begin, followed, many, one, separated};
pub use nodes::{Chain, Joined, between_node, boxed, gathered, join_chain, negated_at, total};
pub use stop::Stop;
