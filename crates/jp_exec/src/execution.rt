ghost use Rattle.std.specs.Prelude.{◌≡◌, ◌≤◌, ℕ, IfOk, OnOk, Contains, None, map};
ghost use Rattle.jp_problem.specs.declared.types.ItemKind.TheVariants as kind;
ghost use Rattle.jp_query.specs.Tables.{rows_of_tables};
ghost use Rattle.jp_joins.specs.Tuples.{map_of};
ghost use Rattle.jp_lists.specs.Lists.{item_source, list_of};
ghost use Rattle.jp_lists.specs.Lists.{sources_of as sources_listed};
ghost use Rattle.jp_items.specs.Params.{env_of_params};
ghost use Rattle.jp_items.specs.Rows.{rows_meant};
ghost use Rattle.jp_items.specs.Sights.{env_around};
ghost use Rattle.jp_tree.specs.BlockParts.{sublinks_of as sublinks};
ghost use Rattle.jp_outputs.specs.Exprs.{sublink_number};
ghost use Rattle.jp_exec.specs.Given.{AreGiven};
ghost use Rattle.jp_exec.specs.Interiors.{CanRunSublinks, interior_rows};
ghost use Rattle.jp_exec.specs.Running.{CanExecute, CanRun, CanRunItems, given_by, side_of, tables_of};

use crate::cells::handed_in;
use crate::closed::is_closed;
use crate::columns::{columns_at, columns_of_blocks};
use crate::given::{copied, given_for};
use crate::interior::{
    Interior, full_inside, interior_of, interior_of_sides, rows_inside, tuples_inside,
};
use crate::places::{block_of_sublink, own_relations, present_around, relations_of};
use bumpalo::Bump;
use jp_base::{Memory, RelNo, Row, SubNo};
use jp_fulls::{full_rows as rows_of_full, side_rows};
use jp_indexes::Index;
use jp_items::{Around, ItemRows, Params, RelRows, Source, is_listed};
use jp_joins::{Lent, Tuple};
use jp_outputs::sublinks_of;
use jp_plans::indexes_for;
use jp_problem::{Item, ItemKind};
use jp_query::Expr;
use jp_table::Tables;
use jp_tree::{Block, Prepared};
use std::alloc::Global;

/// The rows that a block of a planned statement lists: those of its plan, in their order. `params` has the cells of the
/// block's outer references, and which relations of its placeholders have a row.
pub fn execute(
    alloc: Global,
    prepared: &Prepared,
    block: u32,
    tables: &Tables,
    params: &Params,
) -> Result<Vec<Row>, Memory>
    requires { CanExecute prepared.now tables.now.list block (env_of_params params.now) }
    ensures { IfOk result (λ v. v.items ≡ list_of prepared.now (rows_of_tables tables.now.list) block (env_of_params params.now)) }
{
    let columns = columns_of_blocks(alloc, prepared)?;
    let indexes = indexes_for(alloc, prepared, tables)?;
    let run = Execution {
        alloc,
        prepared,
        tables,
        columns: columns.as_slice(),
        indexes: indexes.as_slice(),
    };
    let present = params.present;
    let around = Around {
        cells: &params.cells,
        present,
    };
    let rows = rows_of_block(&run, block as usize, &around)?;
    Ok(rows)
}

/// A planned statement with its tables, for each block the columns that it and the blocks behind it name, and indexes for
/// the scans of blocks that are run at many tuples.
#[derive(Clone, Copy)]
pub struct Execution<'x> {
    pub alloc: Global,
    pub prepared: &'x Prepared,
    pub tables: &'x Tables,
    pub columns: &'x [Vec<(RelNo, u32)>],
    pub indexes: &'x [Index<'x>],
}

/// The rows that a block lists.
#[cycle(execution)]
fn rows_of_block(
    run: &Execution<'_>,
    number: usize,
    around: &Around<'_>,
) -> Result<Vec<Row>, Memory>
    requires { CanRun run.now number (env_around around.now) }
    ensures { IfOk result (λ v. v.items ≡ (given_by run.now number (env_around around.now)).rows) }
{
    let block = &run.prepared.blocks.as_slice()[number];
    let present = present_around(around.present, block);
    let inner = Around {
        cells: around.cells,
        present,
    };
    let lent = given_rows(run, number, block, &inner)?;
    let given = lent.as_slice();
    let sources = sources_of(run, number, block, &inner, given)?;
    let interior = interior_of(run.alloc, block, sources)?;
    let subs = |tuple: Tuple<'_>, sub: SubNo|
        requires runs { CanRunSublinks run.now number inner interior }
        requires given { AreGiven run.now given.now }
        ensures { IfOk result (λ v. v.items ≡ interior_rows run.entry.now inner.entry interior (map_of tuple.entry) sub) }
    { sub_rows(run, number, &inner, &interior, given, tuple, sub) };
    let arena = Bump::new(run.alloc);
    let tuples = tuples_inside(&*run, block, &inner, &interior, &subs, &arena)?;
    let rows = rows_inside(&*run, block, &inner, &interior, &subs, tuples.as_slice())?;
    Ok(rows)
}

/// The tuples of a block as rows of its relations.
#[cycle(execution)]
fn side_of_block(
    run: &Execution<'_>,
    number: usize,
    around: &Around<'_>,
) -> Result<ItemRows, Memory>
    requires { CanRun run.now number (env_around around.now) }
    ensures { IfOk result (λ r. rows_meant (tables_of run.now) r ≡ side_of run.now number (env_around around.now)) }
{
    let block = &run.prepared.blocks.as_slice()[number];
    let present = present_around(around.present, block);
    let inner = Around {
        cells: around.cells,
        present,
    };
    let lent = given_rows(run, number, block, &inner)?;
    let given = lent.as_slice();
    let sources = sources_of(run, number, block, &inner, given)?;
    let interior = interior_of(run.alloc, block, sources)?;
    let arena = Bump::new(run.alloc);
    let subs = |tuple: Tuple<'_>, sub: SubNo|
        requires runs { CanRunSublinks run.now number inner interior }
        requires given { AreGiven run.now given.now }
        ensures { IfOk result (λ v. v.items ≡ interior_rows run.entry.now inner.entry interior (map_of tuple.entry) sub) }
    { sub_rows(run, number, &inner, &interior, given, tuple, sub) };
    let tuples = tuples_inside(&*run, block, &inner, &interior, &subs, &arena)?;
    let Interior {
        sources,
        layout,
        ..
    } = interior;
    let rels = own_relations(block);
    let rows = side_rows(run.alloc, rels, sources, &layout, tuples.as_slice())?;
    Ok(rows)
}

/// The rows of a block's items.
#[cycle(execution)]
fn sources_of(
    run: &Execution<'_>,
    number: usize,
    block: &Block,
    around: &Around<'_>,
    given: &[Lent],
) -> Result<Vec<ItemRows>, Memory>
    requires runs { CanRunItems run.now number block.now (env_around around.now) }
    requires beyond { (rel : ℕ) → 64 ≤ rel → env_around around.now rel ≡ None }
    requires given { AreGiven run.now given.now }
    ensures { IfOk result (λ v. map (rows_meant (tables_of run.now)) v.items ≡ sources_listed run.now.prepared.now.blocks (rows_of_tables (tables_of run.now)) (given_by run.now) (env_around around.now) block.now.problem.items) }
{
    let mut sources = Vec::new(run.alloc);
    'items: for item in block.problem.items.as_slice() {
        let rows = item_rows(run, number, block, item, around, given)?;
        sources.push(rows)?;
    }
    Ok(sources)
}

/// The rows of an item.
#[cycle(execution)]
fn item_rows(
    run: &Execution<'_>,
    number: usize,
    block: &Block,
    item: &Item,
    around: &Around<'_>,
    given: &[Lent],
) -> Result<ItemRows, Memory>
    requires runs { CanRunItems run.now number block.now (env_around around.now) }
    requires beyond { (rel : ℕ) → 64 ≤ rel → env_around around.now rel ≡ None }
    requires given { AreGiven run.now given.now }
    requires there { Contains block.now.problem.items item.now }
    ensures { IfOk result (λ r. rows_meant (tables_of run.now) r ≡ item_source run.now.prepared.now.blocks (rows_of_tables (tables_of run.now)) (given_by run.now) (env_around around.now) item.now) }
{
    match &item.kind {
        ItemKind::Base { rel, table } => Ok(ItemRows::Single {
            rels: item.rels,
            part: RelRows {
                rel: *rel,
                source: Source::Stored(*table),
            },
        }),
        ItemKind::Sub { rel, block } => {
            let rows = rows_of_block(run, *block as usize, around)?;
            Ok(ItemRows::Single {
                rels: item.rels,
                part: RelRows {
                    rel: *rel,
                    source: Source::Made(rows),
                },
            })
        }
        ItemKind::Full { left, right, on } => {
            let left = *left as usize;
            let right = *right as usize;
            let on = on.as_slice();
            let rows = full_rows(run, number, block, item, left, right, on, around, given)?;
            Ok(rows)
        }
    }
}

/// The rows of a Full item of two blocks, with its ON list.
#[cycle(execution)]
fn full_rows(
    run: &Execution<'_>,
    number: usize,
    block: &Block,
    item: &Item,
    left: usize,
    right: usize,
    on: &[Expr],
    around: &Around<'_>,
    given: &[Lent],
) -> Result<ItemRows, Memory>
    requires runs { CanRunItems run.now number block.now (env_around around.now) }
    requires beyond { (rel : ℕ) → 64 ≤ rel → env_around around.now rel ≡ None }
    requires given { AreGiven run.now given.now }
    requires there { Contains block.now.problem.items item.now }
    requires kind { item.now.kind ≡ kind.Full left right on.now }
    ensures { IfOk result (λ r. rows_meant (tables_of run.now) r ≡ item_source run.now.prepared.now.blocks (rows_of_tables (tables_of run.now)) (given_by run.now) (env_around around.now) item.now) }
{
    let right_rows = side_of_block(run, right, around)?;
    let left_rows = side_of_block(run, left, around)?;
    let left_rels = relations_of(run.prepared, left);
    let interior = interior_of_sides(
        run.alloc,
        block,
        right_rows,
        relations_of(run.prepared, right),
        left_rows,
        left_rels,
    )?;
    let subs = |tuple: Tuple<'_>, sub: SubNo|
        requires runs { CanRunSublinks run.now number around.now interior }
        requires given { AreGiven run.now given.now }
        ensures { IfOk result (λ v. v.items ≡ interior_rows run.entry.now around.entry.now interior (map_of tuple.entry) sub) }
    { sub_rows(run, number, around, &interior, given, tuple, sub) };
    let arena = Bump::new(run.alloc);
    let tuples = full_inside(&*run, &*on, &*around, &interior, &subs, &arena)?;
    let Interior {
        sources,
        layout,
        ..
    } = interior;
    let rows = rows_of_full(run.alloc, item.rels, sources, &layout, left_rels, &tuples)?;
    Ok(rows)
}

/// The rows of the block's sublinks whose blocks see nothing of what stands around them: they have the same rows at every
/// tuple, and are run once.
#[cycle(execution)]
fn given_rows(
    run: &Execution<'_>,
    number: usize,
    block: &Block,
    around: &Around<'_>,
) -> Result<Vec<Lent>, Memory>
    requires { CanRunItems run.now number block.now (env_around around.now) }
    ensures { IfOk result (λ v. AreGiven run.now v.items) }
{
    let numbers = sublinks_of(run.alloc, block)?;
    let given = rows_of_sublinks(run, number, block, numbers.as_slice(), around)?;
    Ok(given)
}

/// Those of the sublinks of these numbers.
#[cycle(execution)]
fn rows_of_sublinks(
    run: &Execution<'_>,
    number: usize,
    block: &Block,
    numbers: &[SubNo],
    around: &Around<'_>,
) -> Result<Vec<Lent>, Memory>
    requires runs { CanRunItems run.now number block.now (env_around around.now) }
    requires own { numbers.now ≡ map sublink_number (sublinks block.now) }
    ensures { IfOk result (λ v. AreGiven run.now v.items) }
{
    let mut given = Vec::new(run.alloc);
    'sublinks: for sub in numbers {
        add_given(run, number, block, *sub, around, &mut given)?;
    }
    Ok(given)
}

/// Adds those of one sublink, if its block sees nothing of what stands around it and they aren't there yet.
#[cycle(execution)]
fn add_given(
    run: &Execution<'_>,
    number: usize,
    block: &Block,
    sub: SubNo,
    around: &Around<'_>,
    given: &mut Vec<Lent>,
) -> Result<(), Memory>
    requires runs { CanRunItems run.now number block.now (env_around around.now) }
    requires own { Contains (map sublink_number (sublinks block.now)) sub }
    ensures { OnOk result (AreGiven run.now given.old.items → AreGiven run.now given.new.items) }
{
    if given_for(given.as_slice(), sub).is_some() {
        return Ok(());
    }
    let inner = block_of_sublink(run.prepared.blocks.as_slice(), sub);
    let closed = is_closed(run.alloc, run.prepared, inner)?;
    if !closed {
        return Ok(());
    }
    let rows = rows_of_block(run, inner, around)?;
    given.push(Lent { number: sub, rows })?;
    Ok(())
}

/// The rows that a sublink has at a tuple: those that are given for it, or else those that its block lists there. None
/// where it isn't one of the interior's.
#[cycle(execution)]
fn sub_rows(
    run: &Execution<'_>,
    number: usize,
    around: &Around<'_>,
    interior: &Interior,
    given: &[Lent],
    tuple: Tuple<'_>,
    sub: SubNo,
) -> Result<Vec<Row>, Memory>
    requires runs { CanRunSublinks run.now number around.now interior.now }
    requires given { AreGiven run.now given.now }
    ensures { IfOk result (λ v. v.items ≡ interior_rows run.now around.now interior.now (map_of tuple.entry) sub) }
{
    if !is_listed(interior.sublinks.as_slice(), sub) {
        return Ok(Vec::new(run.alloc));
    }
    if let Some(rows) = given_for(given, sub) {
        let rows = copied(run.alloc, rows)?;
        return Ok(rows);
    }
    let inner = block_of_sublink(run.prepared.blocks.as_slice(), sub);
    let params = handed_in(
        run.alloc,
        run.tables,
        &*around,
        &*interior,
        tuple,
        columns_at(run.columns, inner),
    )?;
    let present = params.present;
    let handed = Around {
        cells: &params.cells,
        present,
    };
    let rows = rows_of_block(run, inner, &handed)?;
    Ok(rows)
}
