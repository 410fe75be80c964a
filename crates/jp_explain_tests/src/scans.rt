ghost use Rattle.std.specs.Prelude.{◌≡◌, ◌∷◌, [], IfOk};
ghost use Rattle.jp_tree.specs.Examples.{a_block, a_column, a_item, a_name};
ghost use Rattle.jp_tree.specs.Prepared.{IsWhole};
ghost use Rattle.jp_explain_tests.specs.Scans.{IsScan};

use jp_base::{Memory, Txt, Ty};
use jp_problem::sets::{nothing, one};
use jp_problem::{Item, ItemKind, Problem};
use jp_query::{Expr, Output};
use jp_tree::{Block, PlanNode, Pool, Prepared, RelName};
use sqlite_items::Items;
use std::alloc::Global;

/// The planned statement SELECT a.0 FROM a, of a table of 10 rows; its names are empty.
pub fn one_scan(alloc: Global) -> Result<Prepared, Memory>
    ensures { IfOk result (λ prepared. IsWhole prepared) }
{
    let prepared = scan(alloc)?;
    Ok(prepared)
}

fn scan(alloc: Global) -> Result<Prepared, Memory>
    ensures { IfOk result (λ prepared. IsScan prepared) }
{
    let mut pool = Pool::new(alloc);
    pool.push(PlanNode::Scan(0))?;
    let blocks = only(alloc, block(alloc)?)?;
    let names = only(alloc, name(alloc)?)?;
    Ok(Prepared {
        blocks,
        pool,
        names,
    })
}

/// A list of one.
fn only<T: Drop>(alloc: Global, value: T) -> Result<Items<T>, Memory>
    ensures { IfOk result (λ list. list ≡ value ∷ []) }
{
    let mut list = Items::new(alloc);
    list.push(value)?;
    Ok(list)
}

fn block(alloc: Global) -> Result<Block, Memory>
    ensures { IfOk result (λ block. block ≡ a_block) }
{
    let items = only(alloc, item(alloc)?)?;
    let columns = only(alloc, column(alloc)?)?;
    Ok(Block {
        problem: Problem {
            items,
            joins: Items::new(alloc),
            clauses: Items::new(alloc),
            classes: Items::new(alloc),
        },
        plan: 0,
        columns,
        distinct: false,
        order: Items::new(alloc),
        sub: None,
    })
}

fn item(alloc: Global) -> Result<Item, Memory>
    ensures { IfOk result (λ item. item ≡ a_item) }
{
    let mut distinct = Items::new(alloc);
    distinct.push(10)?;
    distinct.push(10)?;
    Ok(Item {
        kind: ItemKind::Base { rel: 0, table: 0 },
        rels: one(0),
        rows: 10,
        cost: 10,
        distinct,
    })
}

fn column(alloc: Global) -> Result<Output, Memory>
    ensures { IfOk result (λ column. column ≡ a_column) }
{
    let name = Txt::new(alloc, "")?;
    Ok(Output {
        name,
        ty: Ty::Number,
        expr: Expr::Col {
            rel: 0,
            col: 0,
            ty: Ty::Number,
            nulled: nothing(),
        },
    })
}

fn name(alloc: Global) -> Result<RelName, Memory>
    ensures { IfOk result (λ name. name ≡ a_name) }
{
    let mut columns = Items::new(alloc);
    columns.push(Txt::new(alloc, "")?)?;
    columns.push(Txt::new(alloc, "")?)?;
    let name = Txt::new(alloc, "")?;
    Ok(RelName {
        rel: 0,
        name,
        columns,
    })
}
