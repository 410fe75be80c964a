//! Laws on frames: the special joins and clauses of a block as sets of items and tests on maps, without tree,
//! expressions and tables. Every legal order of joins gives the same rows.
//!
//! Each law is the contract of a function that does nothing.
#![tactic(auto)]

mod examples;
mod legal;
mod rows;
mod steps;

pub use examples::{
    a_hanging_join_may_come_first, small_frames_are_frames, small_frames_have_their_rows,
};
pub use legal::{
    clauses_of_a_place_stand_in_its_region, hanging_joins_cover_the_rest,
    joinable_sets_begin_in_the_right_set, right_sets_are_joinable,
};
pub use rows::{
    conditions_look_at_the_sets_of_their_join, hanging_joins_are_none_with_the_right_set,
    members_at_a_place_are_members_of_the_right_set, row_sets_are_what_their_conditions_say,
};
pub use steps::{
    clauses_by_themselves_are_enough, legal_trees_give_one_bag, lookups_by_key_find_each_match,
    methods_give_the_plain_list_in_another_order, plain_lists_hold_each_member_once,
    scans_give_the_row_set_of_their_item, steps_give_the_row_set_of_the_union,
};
