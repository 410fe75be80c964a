//! What the plans of a prepared statement list, and laws on these lists.
//!
//! Each law is the contract of a function that does nothing.
#![tactic(auto)]

mod laws;

pub use laws::{
    a_block_gives_what_its_plan_lists, a_list_depends_on_what_its_block_sees,
    a_step_asks_for_the_rows_of_its_sublinks_alone,
    a_value_with_given_rows_depends_on_its_own_columns,
    an_expression_asks_for_the_rows_of_its_sublinks_alone, lists_fit, steps_of_a_plan_can_be_run,
    what_a_block_evaluates_fits, what_a_plan_tests_stands_in_its_block,
};
