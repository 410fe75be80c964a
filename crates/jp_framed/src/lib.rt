//! Laws that the join problem of every query block is a frame: with rows for its items, each map stands for an environment,
//! and its ON lists and clauses are tests on maps. So what holds of frames holds of blocks: every legal tree gives one bag.
//!
//! Each law is the contract of a function that does nothing.
#![tactic(auto)]

mod environments;
mod frames;
mod joins;
mod trees;

pub use environments::a_map_gives_relations_their_rows;
pub use frames::{a_problem_is_a_frame, items_of_a_made_problem_are_apart};
pub use joins::{environments_follow_their_maps, joins_of_maps_are_joins_of_tuples};
pub use trees::{
    legal_steps_are_legal_in_the_frame, legal_trees_of_a_problem_give_one_bag,
    runs_of_legal_trees_are_legal, step_clauses_are_enough_without_classes,
};
