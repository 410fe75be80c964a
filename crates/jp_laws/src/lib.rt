//! Laws of the meaning of queries: what later steps cite of values, references, labels, joins, DISTINCT and sorts.
//!
//! Each law is the contract of a function that does nothing.
#![tactic(auto)]

mod bags;
mod conjuncts;
mod distinct;
mod equality;
mod fits;
mod given_rows;
mod join_bags;
mod joins;
mod labels;
mod leaves;
mod mentions;
mod ordered_rows;
mod placeholders;
mod presence;
mod references;
mod referred;
mod row_bags;
mod same_cells;
mod sides;
mod sorts;
mod unique_sorts;

pub use bags::exists_and_in_see_rows_as_a_bag;
pub use conjuncts::conjuncts_hold_where_the_whole_does;
pub use distinct::{
    distinct_grows_by_new_outputs, distinct_keeps_the_first_of_each,
    distinct_sees_its_lines_as_a_bag, same_rows_are_equal,
};
pub use equality::{same_expressions_are_equal, what_a_query_lists_stands_in_it};
pub use fits::{
    a_typed_expression_has_a_value_of_its_type, a_typed_query_has_rows_of_its_outputs,
    a_typed_tree_has_tuples_of_its_entries, only_outer_references_are_visible_outside,
    rows_of_sublinks_fit_when_lent,
};
pub use given_rows::given_rows_give_the_value_in_place;
pub use join_bags::{
    a_from_sees_its_members_as_bags, a_join_sees_its_sides_as_bags, left_is_inner_and_anti,
};
pub use joins::right_is_left_exchanged;
pub use labels::{
    labels_change_no_reference, labels_change_no_value, same_but_for_labels_means_the_same,
};
pub use leaves::own_leaves_are_leaves;
pub use mentions::mentioned_tables_are_those_of_the_leaves;
pub use ordered_rows::rows_are_in_order;
pub use placeholders::{placeholder_has_its_value_where_present, placeholder_is_null_where_absent};
pub use presence::{
    each_tuple_has_a_relation_present, each_tuple_in_a_typed_query_has_a_relation_present,
};
pub use references::meaning_depends_on_references_alone;
pub use referred::typed_columns_are_among_the_references;
pub use row_bags::{
    a_query_sees_its_lines_as_a_bag, a_query_sees_its_tuples_as_a_bag,
    queries_of_the_same_lines_have_the_same_rows,
};
pub use same_cells::{meaning_depends_on_cells_alone, typed_meaning_depends_on_references_alone};
pub use sides::{left_join_keeps_each_left_tuple, semi_and_anti_split_the_left_tuples};
pub use sorts::{keys_order_all_lines, sort_is_stable_and_in_order};
pub use unique_sorts::sort_is_the_only_one;
