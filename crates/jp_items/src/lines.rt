ghost use Rattle.std.specs.Prelude.{◌≡◌, ◌++◌, ◌∷◌, [], IfOk, OnOk, map, vec_len, if◌then◌else◌};
ghost use Rattle.jp_order.specs.Lines.{lines_with};
ghost use Rattle.jp_query.specs.InOrder.{direction_of};
ghost use Rattle.jp_query.specs.Ordering.{distinct_lines as distinct_of, outputs_of, sorted};

use jp_base::{Memory, Row};
use jp_order::{distinct_lines, sort_rows};
use jp_query::Order;
use std::alloc::Global;
use std::marker::Model;

/// Rows of outputs, each with the values that it is sorted by.
#[derive(Drop)]
pub struct Lines {
    rows: Vec<Row>,
    keys: Vec<Row>,
}

impl Model for Lines {
    ghost use Rattle.std.specs.Prelude.{◌≡◌, List, vec_len};
    ghost use Rattle.jp_order.specs.Lines.{lines_with};
    ghost use Rattle.jp_query.specs.Ordering.{Line};

    ghost Value = { List Line };

    ghost view = { λ t. lines_with t.rows.items t.keys.items };

    ghost invariant = { λ t. vec_len t.rows ≡ vec_len t.keys };
}

impl Lines {
    /// No lines.
    pub fn new(alloc: Global) -> Lines
        ensures { result ≡ [] }
    {
        Lines {
            rows: Vec::new(alloc),
            keys: Vec::new(alloc),
        }
    }

    /// Adds a line at the end.
    pub fn push(&mut self, row: Row, keys: Row) -> Result<(), Memory>
        ensures { OnOk result (self.new ≡ self.old ++ record { outputs = row; keys = keys } ∷ []) }
    {
        if !push_both(&mut self.rows, &mut self.keys, row, keys) {
            return Err(Memory);
        }
        Ok(())
    }

    /// The rows of the lines: under DISTINCT the first of each same row, and in their order.
    pub fn arranged(
        self,
        alloc: Global,
        distinct: bool,
        order: &[Order],
    ) -> Result<Vec<Row>, Memory>
        ensures { IfOk result (λ v. v.items ≡ map outputs_of (sorted (map direction_of order.now) (distinct_of distinct self))) }
    {
        let Lines { rows, keys } = self;
        if distinct {
            let (rows, keys) = distinct_lines(alloc, rows, keys)?;
            sorted_rows(alloc, rows, keys, order)
        } else {
            sorted_rows(alloc, rows, keys, order)
        }
    }
}

/// Adds the row and its keys at the ends of the lists, or neither. Whether there was memory for them.
fn push_both(rows: &mut Vec<Row>, keys: &mut Vec<Row>, row: Row, key: Row) -> bool
    ensures rows { rows.new.items ≡ (if result then rows.old.items ++ row ∷ [] else rows.old.items) }
    ensures keys { keys.new.items ≡ (if result then keys.old.items ++ key ∷ [] else keys.old.items) }
{
    match rows.push(row) {
        Ok(()) => {}
        Err(_) => return false,
    }
    match keys.push(key) {
        Ok(()) => true,
        Err(_) => {
            let _ = rows.pop();
            false
        }
    }
}

/// The rows in their order. Without ORDER BY they stay as they are.
fn sorted_rows(
    alloc: Global,
    rows: Vec<Row>,
    keys: Vec<Row>,
    order: &[Order],
) -> Result<Vec<Row>, Memory>
    requires { vec_len rows ≡ vec_len keys }
    ensures { IfOk result (λ v. v.items ≡ map outputs_of (sorted (map direction_of order.now) (lines_with rows.items keys.items))) }
{
    if order.is_empty() {
        return Ok(rows);
    }
    let rows = sort_rows(alloc, rows, keys, order)?;
    Ok(rows)
}
