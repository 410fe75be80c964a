ghost use Rattle.std.specs.Prelude.{All, IfOk, OnOk};
ghost use Rattle.jp_indexes.specs.Indexes.{IsIndex};

use crate::lookups::{column_of, index_with};
use jp_base::{Memory, RelNo};
use jp_indexes::Index;
use jp_items::has_relation;
use jp_problem::{Item, ItemKind, scan_clauses};
use jp_query::{CmpOp, Expr};
use jp_table::Tables;
use jp_tree::{Block, Prepared};
use std::alloc::Global;

/// Indexes for the scans of all blocks: of each stored column that a scan clause sets equal to a column around the block.
/// A block that has such a clause is run at many tuples. The one error is want of memory.
pub fn indexes_for<'k>(
    alloc: Global,
    prepared: &Prepared,
    tables: &'k Tables,
) -> Result<Vec<Index<'k>>, Memory>
    ensures { IfOk result (λ v. All (IsIndex tables.now.list) v.items) }
{
    let mut indexes = Vec::new(alloc);
    'blocks: for block in prepared.blocks.as_slice() {
        add_for_block(alloc, block, tables, &mut indexes)?;
    }
    Ok(indexes)
}

/// Adds those for the scans of a block.
fn add_for_block<'k>(
    alloc: Global,
    block: &Block,
    tables: &'k Tables,
    indexes: &mut Vec<Index<'k>>,
) -> Result<(), Memory>
    requires { All (IsIndex tables.now.list) indexes.old.items }
    ensures { OnOk result (All (IsIndex tables.now.list) indexes.new.items) }
{
    let items = block.problem.items.as_slice();
    'items: for item in 0..items.len().min(64) {
        if let ItemKind::Base { rel, table } = &items[item].kind {
            let clauses = scan_clauses(alloc, &block.problem, item as u8)?;
            add_for_clauses(alloc, items, *rel, *table, clauses.items(), tables, indexes)?;
        }
    }
    Ok(())
}

/// Adds those for the scan clauses of a relation.
fn add_for_clauses<'k>(
    alloc: Global,
    items: &[Item],
    rel: RelNo,
    table: u32,
    clauses: &[Expr],
    tables: &'k Tables,
    indexes: &mut Vec<Index<'k>>,
) -> Result<(), Memory>
    requires { All (IsIndex tables.now.list) indexes.old.items }
    ensures { OnOk result (All (IsIndex tables.now.list) indexes.new.items) }
{
    'clauses: for clause in clauses {
        if let Some(col) = column_to_look_up(items, rel, clause) {
            add_index(alloc, tables, table, col, indexes)?;
        }
    }
    Ok(())
}

/// Adds the index of a table's column, unless it is there.
fn add_index<'k>(
    alloc: Global,
    tables: &'k Tables,
    table: u32,
    col: u32,
    indexes: &mut Vec<Index<'k>>,
) -> Result<(), Memory>
    requires { All (IsIndex tables.now.list) indexes.old.items }
    ensures { OnOk result (All (IsIndex tables.now.list) indexes.new.items) }
{
    if index_with(indexes.as_slice(), table, col).is_some() {
        return Ok(());
    }
    let index = Index::new(alloc, tables, table, col)?;
    indexes.push(index)?;
    Ok(())
}

/// The column of the relation that the clause sets equal to a column around the block.
fn column_to_look_up(items: &[Item], rel: RelNo, clause: &Expr) -> Option<u32> {
    match clause {
        Expr::Compare(CmpOp::Eq, first, second) => {
            let left = column_of(first.get())?;
            let right = column_of(second.get())?;
            if left.0 == rel && !is_inside(items, right.0) {
                return Some(left.1);
            }
            if right.0 == rel && !is_inside(items, left.0) {
                return Some(right.1);
            }
            None
        }
        _ => None,
    }
}

/// Whether one of the items has the relation.
fn is_inside(items: &[Item], rel: RelNo) -> bool {
    items.iter().any(|item| has_relation(item.rels, rel))
}
