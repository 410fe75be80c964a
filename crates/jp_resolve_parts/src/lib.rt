//! What resolution is made of below its walk: lookups, numbers, types, bounds and nodes.
#![tactic(auto)]

mod bounds;
mod cases;
mod conditions;
mod copies;
mod counts;
mod lookups;
mod nodes;
mod orders;
mod outputs;
mod queries;
mod sources;
mod types;

pub use cases::{Arm, case_node};
pub use conditions::condition;
pub use copies::{behind, inner_levels};
pub use counts::{both, next_relation, next_sublink, no_counts, one_entry, one_sublink};
pub use lookups::{
    Found, LentColumn, column_expr, name_expr, qualified_entry, qualified_expr, repeats,
};
pub use nodes::{
    and_node, between_node, bool_literal, coalesce_node, compare_node, concat_node, in_list_node,
    is_node, not_node, null_literal, number_literal, or_node, product_node, sign_node, sum_node,
    text_literal,
};
pub use orders::{named_expr, position_expr, selected_expr};
pub use outputs::{Outputs, new_outputs, push_entry, push_level, push_typed};
pub use queries::{exists_node, in_select_node, query_of};
pub use sources::{kind_of, sub_source, table_source};
pub use types::{boxed, boxed_as, can_be, own_expr, own_type, truth, typed};
