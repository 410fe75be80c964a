//! The methods of a join step over tuples of row numbers in an arena.
#![tactic(auto)]

mod at;
mod hashing;
mod key_places;
mod keys;
mod laws;
mod lending;
mod listed;
mod merging;
mod nesting;
mod numbers;
mod right_hashing;
mod sorting;
mod table;
mod tuples;
mod work;

pub use at::At;
pub use hashing::hash;
pub use keys::{Key, key_of};
pub use laws::lists_are_those_of_frames;
pub use lending::{Lent, lent_for};
pub use listed::Listed;
pub use merging::merge;
pub use nesting::nest;
pub use numbers::{numbers_of, numbers_of_one};
pub use right_hashing::hash_right;
pub use table::{add_by_key, list_by_key};
pub use tuples::{Tuple, TupleEnv, placed};
