//! The rows of a block's items, what tuples of their numbers stand for, and the lines of a block.
#![tactic(auto)]

mod layout;
mod lines;
mod numbers;
mod params;
mod rows;
mod scene;
mod sight;

pub use layout::Layout;
pub use lines::Lines;
pub use numbers::Numbers;
pub use params::{Around, Params};
pub use rows::{ItemRows, RelRows, Source, has_relation};
pub use scene::{Scene, SceneStep, is_listed, lent_scene};
pub use sight::Sight;
