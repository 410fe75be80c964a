ghost use Rattle.std.specs.Prelude.{◌≡◌, ◌≤◌, not, max, find, map, slice_get};
ghost use Rattle.std.specs.List.{list_any};
ghost use Rattle.std.specs.Option.{option_copied};
ghost use Rattle.jp_query.specs.Refs.{refs_of};
ghost use Rattle.jp_problem.specs.Blocks.{items_with};
ghost use Rattle.jp_problem.specs.Problems.{rels_of_item};
ghost use Rattle.jp_problem.specs.Sets.{is_empty};
ghost use Rattle.jp_cost.specs.Estimates.{compare_divisor, column_values, divided, divisor, is_item_of, is_table_of, or_ten, test_divisor, values_of};
ghost use Rattle.jp_cost.specs.Items.{meets_rels};

use jp_base::{RelNo, RelSet};
use jp_problem::sets::meets;
use jp_problem::{Item, ItemKind, Problem};
use jp_query::{CmpOp, Expr, IsTest, refs};

/// Whole rows divided by a number, at least one.
pub fn divided(rows: u64, by: u64) -> u64
    ensures is { result ≡ divided rows by }
    ensures least { 1 ≤ result }
    ensures most { result ≤ max 1 rows }
{
    if by == 0 { 1 } else { (rows / by).max(1) }
}

/// How many distinct values an expression is said to have.
pub fn values_of(problem: &Problem, expr: &Expr) -> u64
    ensures { result ≡ values_of problem.now expr.now }
{
    let items = problem.items.as_slice();
    if !uses_items(items, expr) {
        return 1;
    }
    match expr {
        Expr::Col { rel, col, .. } => column_values(items, *rel, *col),
        _ => 10,
    }
}

fn uses_items(items: &[Item], expr: &Expr) -> bool
    ensures { result ≡ not (is_empty (items_with (map rels_of_item items.now) (refs_of expr.now))) }
{
    meets_some(items, refs(expr))
}

fn meets_some(items: &[Item], rels: RelSet) -> bool
    ensures { result ≡ list_any (meets_rels rels) items.now }
{
    items.iter().any(|item| meets(item.rels, rels))
}

fn column_values(items: &[Item], rel: RelNo, col: u32) -> u64
    ensures { result ≡ column_values items.now rel col }
{
    match table_item(items, rel) {
        Some(item) => values_at(item.distinct.as_slice(), col),
        None => 10,
    }
}

fn table_item(items: &[Item], rel: RelNo) -> Option<&Item>
    ensures { option_copied result ≡ find (is_item_of rel) items.now }
{
    items.iter().find(|item| is_table_of(&item.kind, rel))
}

fn is_table_of(kind: &ItemKind, rel: RelNo) -> bool
    ensures { result ≡ is_table_of rel kind.now }
{
    match kind {
        ItemKind::Base { rel: table, .. } => *table == rel,
        _ => false,
    }
}

fn values_at(distinct: &[u64], col: u32) -> u64
    ensures { result ≡ or_ten (slice_get distinct.now col) }
{
    match distinct.get(col as usize) {
        Some(values) => *values,
        None => 10,
    }
}

/// By what a condition divides the rows.
pub fn divisor(problem: &Problem, expr: &Expr) -> u64
    ensures { result ≡ divisor problem.now expr.now }
{
    match expr {
        Expr::Compare(op, left, right) => { compare_divisor(problem, *op, left.get(), right.get()) }
        Expr::Between(_, _, _) => 4,
        Expr::Test(test, _) => test_divisor(*test),
        Expr::InList(operand, list) => {
            divided(values_of(problem, operand.get()), list.len() as u64)
        }
        _ => 2,
    }
}

fn compare_divisor(problem: &Problem, op: CmpOp, left: &Expr, right: &Expr) -> u64
    ensures { result ≡ compare_divisor problem.now op left.now right.now }
{
    match op {
        CmpOp::Eq => values_of(problem, left).max(values_of(problem, right)),
        CmpOp::Ne => 2,
        CmpOp::Lt => 3,
        CmpOp::Le => 3,
        CmpOp::Gt => 3,
        CmpOp::Ge => 3,
    }
}

fn test_divisor(test: IsTest) -> u64
    ensures { result ≡ test_divisor test }
{
    match test {
        IsTest::Null => 10,
        _ => 2,
    }
}
