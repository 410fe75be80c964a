//! Laws of the join problem of a query block: the least sets of items that its joins and clauses need meet the conditions
//! on which every legal order of the joins rests, and the order in which the block is written is a legal one.
//!
//! Each law is the contract of a function that does nothing.
#![tactic(auto)]

mod conditions;
mod few_items;
mod regions;
mod search;
mod spine;

pub use conditions::a_block_meets_the_conditions;
pub use few_items::a_block_has_few_items;
pub use regions::clauses_of_a_side_stand_in_it;
pub use search::a_made_problem_can_be_searched;
pub use spine::the_spine_is_a_legal_tree;
