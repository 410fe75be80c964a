use crate::{PlanId, Pool};
use jp_base::{RelNo, SubNo, Txt};
use jp_problem::Problem;
use jp_query::{Order, Output};
use sqlite_items::Items;

/// A planned statement. Its conditions, nine parts with a name each, are `IsWhole`.
#[derive(Drop)]
pub struct Prepared {
    /// Block 0 is the statement; a block has a lower number than each block that it uses.
    pub blocks: Items<Block>,
    /// The plans of all blocks.
    pub pool: Pool,
    pub names: Items<RelName>,
}

/// How a relation and its columns are printed.
#[derive(Drop)]
pub struct RelName {
    pub rel: RelNo,
    pub name: Txt,
    pub columns: Items<Txt>,
}

/// A query block with its plan: the statement, a sub-select, a side of a Full join, or the query of a sublink that stays.
#[derive(Drop)]
pub struct Block {
    pub problem: Problem,
    /// The number of its plan in the pool.
    pub plan: PlanId,
    pub columns: Items<Output>,
    pub distinct: bool,
    pub order: Items<Order>,
    /// The number of the sublink of which it is the query.
    pub sub: Option<SubNo>,
}
