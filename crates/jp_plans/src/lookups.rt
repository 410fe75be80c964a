ghost use Rattle.std.specs.Prelude.{◌≡◌, All, Contains, IfSome, Some};
ghost use Rattle.jp_indexes.specs.Indexes.{IsIndex};
ghost use Rattle.jp_plans.specs.Lookups.{Finds, FindsRows, FindsStored, IsLookedUp, column_at};
ghost use Rattle.jp_query.specs.declared.Expr.{Expr as Given, out-Expr};

use jp_base::RelNo;
use jp_indexes::Index;
use jp_items::{ItemRows, Scene, Source, has_relation};
use jp_query::{CmpOp, Expr};

/// The numbers of rows of an item among which all are that make the clauses true, where an index has them: one of the
/// clauses is the equality of an indexed column of the item and of a column around the block.
pub fn numbers_to_test<'x>(
    scene: &'x Scene<'x>,
    indexes: &'x [Index<'x>],
    item: usize,
    clauses: &[Expr],
) -> Option<&'x [u64]>
    requires { All (IsIndex scene.now.sight.tables.now.list) indexes.now }
    ensures { IfSome result (λ numbers. (clause : Given) × Contains clauses.now clause × Finds scene.now item clause numbers.now) }
{
    'clauses: for clause in clauses {
        if let Some(numbers) = numbers_for(scene, indexes, item, clause) {
            return Some(numbers);
        }
    }
    None
}

/// Those for one clause.
fn numbers_for<'x>(
    scene: &'x Scene<'x>,
    indexes: &'x [Index<'x>],
    item: usize,
    clause: &Expr,
) -> Option<&'x [u64]>
    requires { All (IsIndex scene.now.sight.tables.now.list) indexes.now }
    ensures { IfSome result (λ numbers. Finds scene.now item clause.now numbers.now) }
{
    match clause {
        Expr::Compare(CmpOp::Eq, first, second) => {
            numbers_of_two(scene, indexes, item, first.get(), second.get())
        }
        _ => None,
    }
}

/// Those for an equality of two expressions.
fn numbers_of_two<'x>(
    scene: &'x Scene<'x>,
    indexes: &'x [Index<'x>],
    item: usize,
    first: &Expr,
    second: &Expr,
) -> Option<&'x [u64]>
    requires { All (IsIndex scene.now.sight.tables.now.list) indexes.now }
    ensures { IfSome result (λ numbers. FindsRows scene.now item first.now second.now numbers.now) }
{
    let Some(left) = column_of(first) else {
        return None;
    };
    let Some(right) = column_of(second) else {
        return None;
    };
    match looked_up(scene, indexes, item, left, right) {
        Some(numbers) => Some(numbers),
        None => looked_up(scene, indexes, item, right, left),
    }
}

/// The relation and the column, if the expression is a column.
pub fn column_of(expr: &Expr) -> Option<(RelNo, u32)>
    ensures { result ≡ column_at (out-Expr expr.now) }
{
    match expr {
        Expr::Col { rel, col, .. } => Some((*rel, *col)),
        _ => None,
    }
}

/// The numbers of the rows of an item whose cell of a column, the first, is equal to that of a column around the block.
fn looked_up<'x>(
    scene: &'x Scene<'x>,
    indexes: &'x [Index<'x>],
    item: usize,
    inner: (RelNo, u32),
    outer: (RelNo, u32),
) -> Option<&'x [u64]>
    requires { All (IsIndex scene.now.sight.tables.now.list) indexes.now }
    ensures { IfSome result (λ numbers. IsLookedUp scene.now item inner outer numbers.now) }
{
    let (rel, col) = inner;
    let (outer_rel, outer_col) = outer;
    if scene.sight.layout.place(outer_rel).is_some() {
        return None;
    }
    match scene.sight.layout.place(rel) {
        Some(place) => {
            if place != item {
                return None;
            }
        }
        None => return None,
    }
    match index_at(scene, indexes, item, rel, col) {
        Some(index) => Some(index.numbers(scene.sight.around.cell(outer_rel, outer_col))),
        None => None,
    }
}

/// The index of a relation's column, if the item is a table.
fn index_at<'x>(
    scene: &'x Scene<'x>,
    indexes: &'x [Index<'x>],
    item: usize,
    rel: RelNo,
    col: u32,
) -> Option<&'x Index<'x>>
    requires { All (IsIndex scene.now.sight.tables.now.list) indexes.now }
    ensures { IfSome result (λ index. FindsStored scene.now item rel col index.now) }
{
    match scene.sight.sources.get(item) {
        Some(ItemRows::Single { rels, part }) => {
            if part.rel != rel || !has_relation(*rels, rel) {
                return None;
            }
            match &part.source {
                Source::Stored(table) => index_with(indexes, *table, col),
                Source::Made(_) => None,
            }
        }
        _ => None,
    }
}

/// The index of a table's column.
pub fn index_with<'x, 'k>(indexes: &'x [Index<'k>], table: u32, col: u32) -> Option<&'x Index<'k>>
    ensures { IfSome result (λ index. Contains indexes.now index.now × (index.now.table ≡ table) × (index.now.col ≡ col)) }
{
    'indexes: for index in indexes {
        if index.table == table && index.col == col {
            return Some(index);
        }
    }
    None
}
