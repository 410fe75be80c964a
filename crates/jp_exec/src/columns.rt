ghost use Rattle.std.specs.Prelude.{◌≡◌, ◌<◌, IfOk, Some, length, map, slice_get};
ghost use Rattle.jp_exec.specs.Columns.{listed_columns, named_by};

use jp_base::{Memory, RelNo};
use jp_outputs::columns_from;
use jp_tree::Prepared;
use std::alloc::Global;

/// For each block the columns that it and the blocks behind it name.
pub fn columns_of_blocks(
    alloc: Global,
    prepared: &Prepared,
) -> Result<Vec<Vec<(RelNo, u32)>>, Memory>
    ensures { IfOk result (λ v. map listed_columns v.items ≡ named_by prepared.now (length prepared.now.blocks)) }
{
    let mut list = Vec::new(alloc);
    'blocks: for at in 0..prepared.blocks.as_slice().len() {
        let columns = columns_from(alloc, prepared, at)?;
        list.push(columns)?;
    }
    Ok(list)
}

/// The columns of the block of this number.
pub fn columns_at(columns: &[Vec<(RelNo, u32)>], number: usize) -> &[(RelNo, u32)]
    requires { number < length columns.now }
    ensures { slice_get (map listed_columns columns.now) number ≡ Some result.now }
{
    columns[number].as_slice()
}
