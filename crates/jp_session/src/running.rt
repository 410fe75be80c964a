ghost use Rattle.std.specs.Prelude.{◌≡◌, IfOk};
ghost use Rattle.jp_items.specs.Params.{env_of_params};
ghost use Rattle.jp_lists.specs.Lists.{list_of};
ghost use Rattle.jp_query.specs.Meaning.{no_outer_rows};
ghost use Rattle.jp_query.specs.Tables.{rows_of_tables};
ghost use Rattle.jp_session.specs.Running.{CanRunStatement};

use jp_base::{Memory, RelSet, Row};
use jp_exec::execute;
use jp_items::Params;
use jp_table::Tables;
use jp_tree::Prepared;
use std::alloc::Global;
use std::collections::BTreeMap;

/// The rows of a prepared statement over tables: those that the plan of its block 0 lists, in their order. Memory is the only
/// error.
pub fn run_query(alloc: Global, prepared: &Prepared, tables: &Tables) -> Result<Vec<Row>, Memory>
    requires { CanRunStatement prepared.now tables.now.list }
    ensures { IfOk result (λ v. v.items ≡ list_of prepared.now (rows_of_tables tables.now.list) 0 no_outer_rows) }
{
    let params = nothing_outside(alloc);
    let rows = execute(alloc, prepared, 0, tables, &params)?;
    Ok(rows)
}

/// What a statement is run in: nothing around it.
fn nothing_outside(alloc: Global) -> Params
    ensures { env_of_params result ≡ no_outer_rows }
{
    Params {
        cells: BTreeMap::new(alloc),
        present: RelSet::empty(),
    }
}
