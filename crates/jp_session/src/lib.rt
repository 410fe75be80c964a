//! What a session gives: the prepared statement of a query, the rows that it lists over tables, the text of its plan, and the
//! text of rows.
#![tactic(auto)]

mod blocks;
mod costs;
mod explaining;
mod gathering;
mod items;
mod names;
mod output;
mod preparing;
mod prices;
mod running;
mod sources;

pub use explaining::explain_query;
pub use output::output_text;
pub use preparing::prepare;
pub use running::run_query;
