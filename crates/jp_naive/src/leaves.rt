ghost use Rattle.std.specs.Prelude.{◌≡◌, ◌<◌, ◌++◌, ◌∷◌, [], IfOk, OnOk, ◌+◌, ℕ, Option, Some, length, map, vec_len};
ghost use Rattle.std.specs.List.{flat_map, range_with_len, slice_index_or};
ghost use Rattle.jp_query.specs.Meaning.{Env, with_row};
ghost use Rattle.jp_query.specs.Refs.{only};
ghost use Rattle.jp_query.specs.Tables.{rows_of_tables, TableRows};
ghost use Rattle.jp_naive.specs.Frames.{envs_over, rels_of};
ghost use Rattle.jp_naive.specs.Joining.{pair_of, single};
ghost use Rattle.jp_naive.specs.Whole.{AreWhole};

use crate::frames::{Frame, Leaf, Source};
use crate::numbers::Numbers;
use jp_base::{Memory, RelNo, Row};
use jp_table::Tables;
use std::alloc::Global;

/// The tuples of a join tree: its leaves, and for each tuple the numbers of their rows.
#[derive(Drop)]
pub struct Tuples {
    pub leaves: Vec<Leaf>,
    pub numbers: Numbers,
}

impl Tuples {
    /// The tuples with the numbers, of a tree with the leaves.
    pub fn new(leaves: Vec<Leaf>, numbers: Numbers) -> Tuples
        requires { numbers.width ≡ vec_len leaves }
        ensures leaves { result.leaves ≡ leaves }
        ensures numbers { result.numbers ≡ numbers }
        ensures whole { AreWhole result }
    {
        let _width = numbers.width();
        Tuples { leaves, numbers }
    }

    /// How many tuples there are.
    pub fn len(&self) -> usize
        ensures { result ≡ length self.now.numbers.list }
    {
        self.numbers.len()
    }

    /// The tuple with the number, from 0.
    pub fn tuple(&self, at: usize) -> Frame<'_>
        requires { at < length self.now.numbers.list }
        ensures leaves { result.leaves.now ≡ self.now.leaves.items }
        ensures numbers { result.numbers.now ≡ slice_index_or self.now.numbers.list at [] }
        ensures whole { length result.numbers.now ≡ self.now.numbers.width }
    {
        Frame {
            leaves: self.leaves.as_slice(),
            numbers: self.numbers.tuple(at),
        }
    }
}

/// The rows of a table in turn, in file order, as tuples of one leaf.
pub fn base_tuples(alloc: Global, rel: RelNo, table: u32, tables: &Tables) -> Result<Tuples, Memory>
    ensures whole { IfOk result AreWhole }
    ensures rels { IfOk result (λ t. rels_of t.leaves.items ≡ only rel) }
    ensures tuples { (outer : Env) → IfOk result (λ t. envs_over tables.now.list t.leaves.items outer t.numbers.list ≡ map (with_row outer rel) (rows_of_tables tables.now.list table)) }
{
    let numbers = counted(alloc, row_count(tables, table))?;
    let source = Source::Table(table);
    let leaves = one_leaf(alloc, Leaf { rel, source })?;
    Ok(Tuples::new(leaves, numbers))
}

/// Rows in turn, as tuples of one leaf.
pub fn made_tuples(alloc: Global, rel: RelNo, rows: Vec<Row>) -> Result<Tuples, Memory>
    ensures whole { IfOk result AreWhole }
    ensures rels { IfOk result (λ t. rels_of t.leaves.items ≡ only rel) }
    ensures tuples { (tables : TableRows) (outer : Env) → IfOk result (λ t. envs_over tables t.leaves.items outer t.numbers.list ≡ map (with_row outer rel) rows.items) }
{
    let numbers = counted(alloc, rows.len() as u64)?;
    let source = Source::Made(rows);
    let leaves = one_leaf(alloc, Leaf { rel, source })?;
    Ok(Tuples::new(leaves, numbers))
}

/// The numbers from 0 on, so many, as tuples of one leaf.
fn counted(alloc: Global, count: u64) -> Result<Numbers, Memory>
    ensures width { IfOk result (λ n. n.width ≡ 1) }
    ensures numbers { IfOk result (λ n. n.list ≡ map single (range_with_len 0 count)) }
{
    let mut numbers = Numbers::new(alloc, 1);
    'rows: for row in 0..count {
        numbers.push(&[Some(row)], &[])?;
    }
    Ok(numbers)
}

fn one_leaf(alloc: Global, leaf: Leaf) -> Result<Vec<Leaf>, Memory>
    ensures { IfOk result (λ v. v.items ≡ leaf ∷ []) }
{
    let mut leaves = Vec::new(alloc);
    match leaves.push(leaf) {
        Ok(()) => Ok(leaves),
        Err(_) => Err(Memory),
    }
}

/// How many rows a table has: none where it isn't there.
fn row_count(tables: &Tables, table: u32) -> u64
    ensures { result ≡ length (rows_of_tables tables.now.list table) }
{
    match tables.list.get(table as usize) {
        Some(Some(table)) => table.rows(),
        _ => 0,
    }
}

/// The one tuple that gives no relation a row.
pub fn alone(alloc: Global) -> Result<Tuples, Memory>
    ensures whole { IfOk result AreWhole }
    ensures leaves { IfOk result (λ t. t.leaves.items ≡ []) }
    ensures tuples { IfOk result (λ t. t.numbers.list ≡ [] ∷ []) }
{
    let mut numbers = Numbers::new(alloc, 0);
    numbers.push(&[], &[])?;
    let leaves = Vec::new(alloc);
    Ok(Tuples::new(leaves, numbers))
}

/// All pairs of tuples, the left one slowest. One left tuple without leaves changes nothing.
pub fn combination(alloc: Global, left: Tuples, right: Tuples) -> Result<Tuples, Memory>
    requires left { AreWhole left }
    requires right { AreWhole right }
    ensures whole { IfOk result AreWhole }
    ensures leaves { IfOk result (λ t. t.leaves.items ≡ right.leaves.items ++ left.leaves.items) }
    ensures tuples { IfOk result (λ t. t.numbers.list ≡ flat_map (λ l. map (pair_of l) right.numbers.list) left.numbers.list) }
{
    if left.numbers.is_alone() {
        return Ok(right);
    }
    let numbers = all_pairs(alloc, &left.numbers, &right.numbers)?;
    let leaves = followed(right.leaves, left.leaves)?;
    Ok(Tuples::new(leaves, numbers))
}

/// All pairs of tuples, the left one slowest.
fn all_pairs(alloc: Global, left: &Numbers, right: &Numbers) -> Result<Numbers, Memory>
    ensures width { IfOk result (λ n. n.width ≡ right.now.width + left.now.width) }
    ensures pairs { IfOk result (λ n. n.list ≡ flat_map (λ l. map (pair_of l) right.now.list) left.now.list) }
{
    let Some(width) = right.width().checked_add(left.width()) else {
        return Err(Memory);
    };
    let mut pairs = Numbers::new(alloc, width);
    'lefts: for at in 0..left.len() {
        push_all(&mut pairs, left.tuple(at), right)?;
    }
    Ok(pairs)
}

/// Adds the pairs of a left tuple with all right ones.
fn push_all(pairs: &mut Numbers, left: &[Option<u64>], right: &Numbers) -> Result<(), Memory>
    requires { right.now.width + length left.now ≡ pairs.now.width }
    ensures width { pairs.new.width ≡ pairs.old.width }
    ensures more { OnOk result (pairs.new.list ≡ pairs.old.list ++ map (pair_of left.now) right.now.list) }
{
    'rights: for at in 0..right.len() {
        pairs.push(right.tuple(at), left)?;
    }
    Ok(())
}

/// The first leaves, followed by the second ones.
pub fn followed(first: Vec<Leaf>, second: Vec<Leaf>) -> Result<Vec<Leaf>, Memory>
    ensures { IfOk result (λ v. v.items ≡ first.items ++ second.items) }
{
    let mut leaves = first;
    let mut second = second;
    match leaves.append(&mut second) {
        Ok(()) => Ok(leaves),
        Err(_) => Err(Memory),
    }
}
