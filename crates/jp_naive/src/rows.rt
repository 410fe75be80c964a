ghost use Rattle.std.specs.Prelude.{◌≡◌, ◌++◌, ◌∷◌, [], All, Bool, IfOk, OnOk, filter, map, ℕ, vec_len};
ghost use Rattle.std.specs.List.{list_all};
ghost use Rattle.jp_query.specs.InOrder.{lines_of as lines_meant};
ghost use Rattle.jp_query.specs.Joins.{join_rels};
ghost use Rattle.jp_query.specs.Meaning.{combined, holds as all_hold, join_tuples, meaning, rels_in, tuples_of as tuples_meant, truth_of, value_of};
ghost use Rattle.jp_query.specs.Operators.{is_true};
ghost use Rattle.jp_query.specs.Outermost.{outermost, IsGiven};
ghost use Rattle.jp_query.specs.Refs.{union};
ghost use Rattle.jp_query.specs.Tables.{rows_of_tables};
ghost use Rattle.jp_naive.specs.Frames.{env_of, env_over, envs_over, frame_env, place_env, rels_of};
ghost use Rattle.jp_naive.specs.Lines.{keys_at, line_of_query, order_expr, output_expr, outputs_at, values_of};
ghost use Rattle.jp_naive.specs.Running.{AreApart, CanRunAll, CanRunExpr, CanRunPairs, CanRunTree, CanRunQuery};
ghost use Rattle.jp_naive.specs.Joining.{absent, is_full, joined_leaves, joined_width, pairs_of, parts_joined};
ghost use Rattle.jp_query.specs.declared.Query.{out-Query};
ghost use Rattle.std.specs.Prelude.{if◌then◌else◌};
ghost use Rattle.jp_naive.specs.Sublinks.{outer_of, rows_by_number};
ghost use Rattle.jp_naive.specs.Whole.{AreWhole};

use crate::env::env_at;
use crate::frames::{Frame, OuterRow, Place};
use crate::joins::{
    all_marked, leaves_of, nowhere, push_part, push_unmatched, still_unmatched, width_of,
};
use crate::leaves::{Tuples, alone, base_tuples, combination, made_tuples};
use crate::lines::Lines;
use crate::numbers::Numbers;
use crate::outer::outer_rows;
use crate::sublinks::{Lent, Sublink, outermost_of};
use jp_base::{Memory, Row, Truth, Value};
use jp_eval::{eval, holds};
use jp_query::{Expr, JoinKind, JoinTree, Order, Output, Query};
use jp_table::Tables;
use sqlite_items::Items;
use std::alloc::Global;

/// The rows of a query inside the tuples of the outer levels, inner ones first.
#[cycle(rows)]
pub fn rows_of(
    alloc: Global,
    query: &Query,
    outer: &[OuterRow],
    tables: &Tables,
) -> Result<Vec<Row>, Memory>
    requires { CanRunQuery tables.now.list query.now (env_of tables.now.list outer.now) }
    ensures { IfOk result (λ v. v.items ≡ meaning (rows_of_tables tables.now.list) query.now (env_of tables.now.list outer.now)) }
{
    let tuples = tuples_of(alloc, &query.tree, outer, tables)?;
    let lines = lines_of(alloc, query, &tuples, outer, tables)?;
    let rows = lines.arranged(alloc, query.distinct, query.order.as_slice())?;
    Ok(rows)
}

/// The lines of the tuples of a query's tree that make its conditions hold, in their order.
#[cycle(rows)]
fn lines_of(
    alloc: Global,
    query: &Query,
    tuples: &Tuples,
    outer: &[OuterRow],
    tables: &Tables,
) -> Result<Lines, Memory>
    requires runs { CanRunQuery tables.now.list query.now (env_of tables.now.list outer.now) }
    requires tuples { envs_over tables.now.list tuples.now.leaves.items (env_of tables.now.list outer.now) tuples.now.numbers.list
        ≡ (tuples_meant (rows_of_tables tables.now.list) (out-Query query.now).tree).tuples (env_of tables.now.list outer.now) }
    ensures { IfOk result (λ lines. lines ≡ lines_meant (rows_of_tables tables.now.list) query.now (env_of tables.now.list outer.now)) }
{
    let mut lines = Lines::new(alloc);
    'tuples: for at in 0..tuples.len() {
        let place = single_place(tuples.tuple(at), outer);
        add_line(alloc, query, place, tables, &mut lines)?;
    }
    Ok(lines)
}

/// Adds the line of a tuple if it makes the query's conditions hold.
#[cycle(rows)]
fn add_line(
    alloc: Global,
    query: &Query,
    place: Place<'_, '_, '_>,
    tables: &Tables,
    lines: &mut Lines,
) -> Result<(), Memory>
    requires conds { CanRunAll tables.now.list (out-Query query.now).conds (place_env tables.now.list place) }
    requires columns { All (λ output. CanRunExpr tables.now.list (output_expr output) (place_env tables.now.list place)) (out-Query query.now).columns }
    requires order { All (λ order. CanRunExpr tables.now.list (order_expr order) (place_env tables.now.list place)) (out-Query query.now).order }
    ensures { OnOk result (lines.new ≡ lines.old ++ map (line_of_query (rows_of_tables tables.now.list) query.now)
        (filter (all_hold (values_of (rows_of_tables tables.now.list) (out-Query query.now).conds)) (place_env tables.now.list place.entry ∷ []))) }
{
    if passes(alloc, query.conds.as_slice(), place, tables)? {
        let row = output_row(alloc, query.columns.as_slice(), place, tables)?;
        let keys = key_row(alloc, query.order.as_slice(), place, tables)?;
        lines.push(row, keys)?;
    }
    Ok(())
}

/// Whether each condition of a list is true at a place.
#[cycle(rows)]
fn passes(
    alloc: Global,
    conds: &[Expr],
    place: Place<'_, '_, '_>,
    tables: &Tables,
) -> Result<bool, Memory>
    requires { CanRunAll tables.now.list conds.now (place_env tables.now.list place) }
    ensures { IfOk result (λ b. b ≡ all_hold (values_of (rows_of_tables tables.now.list) conds.now) (place_env tables.now.list place.entry)) }
{
    'conds: for cond in conds {
        if !is_met(alloc, cond, place, tables)? {
            return Ok(false);
        }
    }
    Ok(true)
}

/// Whether a condition is true at a place.
#[cycle(rows)]
fn is_met(
    alloc: Global,
    cond: &Expr,
    place: Place<'_, '_, '_>,
    tables: &Tables,
) -> Result<bool, Memory>
    requires { CanRunExpr tables.now.list cond.now (place_env tables.now.list place) }
    ensures { IfOk result (λ b. b ≡ is_true (truth_of (rows_of_tables tables.now.list) cond.now (place_env tables.now.list place.entry))) }
{
    let lent = lent_for(alloc, cond, place, tables)?;
    let lent = lent.as_slice();
    let env = env_at(tables, place, lent);
    match holds(alloc, cond, &env)? {
        Truth::True => Ok(true),
        Truth::False => Ok(false),
        Truth::Unknown => Ok(false),
    }
}

/// The value of an expression at a place.
#[cycle(rows)]
fn value_at(
    alloc: Global,
    expr: &Expr,
    place: Place<'_, '_, '_>,
    tables: &Tables,
) -> Result<Value, Memory>
    requires { CanRunExpr tables.now.list expr.now (place_env tables.now.list place) }
    ensures { IfOk result (λ v. v ≡ value_of (rows_of_tables tables.now.list) expr.now (place_env tables.now.list place.entry)) }
{
    let lent = lent_for(alloc, expr, place, tables)?;
    let lent = lent.as_slice();
    let env = env_at(tables, place, lent);
    let value = eval(alloc, expr, &env)?;
    Ok(value)
}

/// The outputs at a place, in the order of the columns.
#[cycle(rows)]
fn output_row(
    alloc: Global,
    columns: &[Output],
    place: Place<'_, '_, '_>,
    tables: &Tables,
) -> Result<Row, Memory>
    requires { All (λ output. CanRunExpr tables.now.list (output_expr output) (place_env tables.now.list place)) columns.now }
    ensures { IfOk result (λ row. row ≡ outputs_at (rows_of_tables tables.now.list) columns.now (place_env tables.now.list place.entry)) }
{
    let mut row = Items::new(alloc);
    'columns: for column in columns {
        let value = value_at(alloc, &column.expr, place, tables)?;
        match row.push(value) {
            Ok(()) => {}
            Err(_) => return Err(Memory),
        }
    }
    Ok(row)
}

/// The sort keys at a place.
#[cycle(rows)]
fn key_row(
    alloc: Global,
    order: &[Order],
    place: Place<'_, '_, '_>,
    tables: &Tables,
) -> Result<Row, Memory>
    requires { All (λ order. CanRunExpr tables.now.list (order_expr order) (place_env tables.now.list place)) order.now }
    ensures { IfOk result (λ row. row ≡ keys_at (rows_of_tables tables.now.list) order.now (place_env tables.now.list place.entry)) }
{
    let mut row = Items::new(alloc);
    'items: for item in order {
        let value = value_at(alloc, &item.expr, place, tables)?;
        match row.push(value) {
            Ok(()) => {}
            Err(_) => return Err(Memory),
        }
    }
    Ok(row)
}

/// The rows of the outermost sublinks of an expression at a place.
#[cycle(rows)]
fn lent_for(
    alloc: Global,
    expr: &Expr,
    place: Place<'_, '_, '_>,
    tables: &Tables,
) -> Result<Vec<Lent>, Memory>
    requires { CanRunExpr tables.now.list expr.now (place_env tables.now.list place) }
    ensures { IfOk result (λ v. All (IsGiven (rows_of_tables tables.now.list) (rows_by_number v.items) (place_env tables.now.list place.entry)) (outermost expr.now)) }
{
    let sublinks = outermost_of(alloc, expr)?;
    let mut list = Vec::new(alloc);
    if sublinks.is_empty() {
        return Ok(list);
    }
    let inner = outer_rows(alloc, place, tables)?;
    'sublinks: for sublink in &sublinks {
        let rows = rows_of(alloc, sublink.query, inner.as_slice(), tables)?;
        let number = sublink.number;
        match list.push(Lent { number, rows }) {
            Ok(()) => {}
            Err(_) => return Err(Memory),
        }
    }
    Ok(list)
}

/// The place in a tuple.
fn single_place<'t, 'o>(tuple: Frame<'t>, outer: &'o [OuterRow]) -> Place<'t, 't, 'o>
    ensures first { result.first ≡ tuple.entry }
    ensures second { result.second.leaves.now ≡ [] }
    ensures outer { result.outer.now ≡ outer.now }
{
    let second = Frame {
        leaves: &[],
        numbers: &[],
    };
    Place {
        first: tuple,
        second,
        outer,
    }
}

/// The tuples of a join tree inside the tuples of the outer levels.
#[cycle(rows)]
fn tuples_of(
    alloc: Global,
    tree: &JoinTree,
    outer: &[OuterRow],
    tables: &Tables,
) -> Result<Tuples, Memory>
    requires { CanRunTree tables.now.list tree.now (env_of tables.now.list outer.now) }
    ensures whole { IfOk result AreWhole }
    ensures rels { IfOk result (λ t. rels_of t.leaves.items ≡ (tuples_meant (rows_of_tables tables.now.list) tree.now).rels) }
    ensures tuples { IfOk result (λ t. envs_over tables.now.list t.leaves.items (env_of tables.now.list outer.now) t.numbers.list
        ≡ (tuples_meant (rows_of_tables tables.now.list) tree.now).tuples (env_of tables.now.list outer.now)) }
{
    match tree {
        JoinTree::Base { rel, table, .. } => {
            let list = base_tuples(alloc, *rel, *table, tables)?;
            Ok(list)
        }
        JoinTree::Sub { rel, query, .. } => {
            let rows = rows_of(alloc, query.get(), outer, tables)?;
            let list = made_tuples(alloc, *rel, rows)?;
            Ok(list)
        }
        JoinTree::Join {
            kind,
            left,
            right,
            on,
        } => {
            let left = tuples_of(alloc, left.get(), outer, tables)?;
            let right = tuples_of(alloc, right.get(), outer, tables)?;
            let list = join(alloc, on.as_slice(), *kind, left, right, outer, tables)?;
            Ok(list)
        }
        JoinTree::From { members, conds } => {
            let all = combinations(alloc, members.as_slice(), outer, tables)?;
            let list = filtered(alloc, conds.as_slice(), all, outer, tables)?;
            Ok(list)
        }
    }
}

/// All combinations of the tuples of the members of FROM, the first member slowest.
#[cycle(rows)]
fn combinations(
    alloc: Global,
    members: &[JoinTree],
    outer: &[OuterRow],
    tables: &Tables,
) -> Result<Tuples, Memory>
    requires { All (λ tree. CanRunTree tables.now.list tree (env_of tables.now.list outer.now)) members.now }
    ensures whole { IfOk result AreWhole }
    ensures rels { IfOk result (λ t. rels_of t.leaves.items ≡ union (map rels_in (map (tuples_meant (rows_of_tables tables.now.list)) members.now))) }
    ensures tuples { IfOk result (λ t. envs_over tables.now.list t.leaves.items (env_of tables.now.list outer.now) t.numbers.list
        ≡ combined (map (tuples_meant (rows_of_tables tables.now.list)) members.now) (env_of tables.now.list outer.now)) }
{
    let mut all = alone(alloc)?;
    'members: for member in members {
        let more = tuples_of(alloc, member, outer, tables)?;
        all = combination(alloc, all, more)?;
    }
    Ok(all)
}

/// The tuples that make the conditions hold, in their order.
#[cycle(rows)]
fn filtered(
    alloc: Global,
    conds: &[Expr],
    tuples: Tuples,
    outer: &[OuterRow],
    tables: &Tables,
) -> Result<Tuples, Memory>
    requires runs { All (λ tuple. CanRunAll tables.now.list conds.now (env_over tables.now.list tuples.leaves.items tuple (env_of tables.now.list outer.now))) tuples.numbers.list }
    requires whole { AreWhole tuples }
    ensures whole { IfOk result AreWhole }
    ensures leaves { IfOk result (λ t. t.leaves ≡ tuples.leaves) }
    ensures tuples { IfOk result (λ t. envs_over tables.now.list t.leaves.items (env_of tables.now.list outer.now) t.numbers.list
        ≡ filter (all_hold (values_of (rows_of_tables tables.now.list) conds.now)) (envs_over tables.now.list tuples.leaves.items (env_of tables.now.list outer.now) tuples.numbers.list)) }
{
    if conds.is_empty() {
        return Ok(tuples);
    }
    let mut kept = Numbers::new(alloc, tuples.numbers.width());
    'tuples: for at in 0..tuples.len() {
        let place = single_place(tuples.tuple(at), outer);
        if passes(alloc, conds, place, tables)? {
            kept.push(place.first.numbers, &[])?;
        }
    }
    Ok(Tuples::new(tuples.leaves, kept))
}

/// The tuples of a join. Right is Left with the sides exchanged.
#[cycle(rows)]
fn join(
    alloc: Global,
    on: &[Expr],
    kind: JoinKind,
    left: Tuples,
    right: Tuples,
    outer: &[OuterRow],
    tables: &Tables,
) -> Result<Tuples, Memory>
    requires whole_left { AreWhole left }
    requires whole_right { AreWhole right }
    requires apart { AreApart (rels_of left.leaves.items) (rels_of right.leaves.items) }
    requires runs { CanRunPairs tables.now.list on.now left.leaves.items left.numbers.list right.leaves.items right.numbers.list (env_of tables.now.list outer.now) }
    requires turned { CanRunPairs tables.now.list on.now right.leaves.items right.numbers.list left.leaves.items left.numbers.list (env_of tables.now.list outer.now) }
    ensures whole { IfOk result AreWhole }
    ensures rels { IfOk result (λ t. rels_of t.leaves.items ≡ join_rels kind (rels_of left.leaves.items) (rels_of right.leaves.items)) }
    ensures tuples { IfOk result (λ t. envs_over tables.now.list t.leaves.items (env_of tables.now.list outer.now) t.numbers.list
        ≡ join_tuples kind (values_of (rows_of_tables tables.now.list) on.now)
        (rels_of left.leaves.items) (envs_over tables.now.list left.leaves.items (env_of tables.now.list outer.now) left.numbers.list)
        (rels_of right.leaves.items) (envs_over tables.now.list right.leaves.items (env_of tables.now.list outer.now) right.numbers.list)) }
{
    match kind {
        JoinKind::Right => joined(alloc, on, JoinKind::Left, right, left, outer, tables),
        JoinKind::Inner => joined(alloc, on, kind, left, right, outer, tables),
        JoinKind::Left => joined(alloc, on, kind, left, right, outer, tables),
        JoinKind::Full => joined(alloc, on, kind, left, right, outer, tables),
        JoinKind::Semi => joined(alloc, on, kind, left, right, outer, tables),
        JoinKind::Anti => joined(alloc, on, kind, left, right, outer, tables),
    }
}

/// The tuples of a join, where a Right join is read as a Left one: what each left tuple gives in turn, and of a Full join
/// then the right tuples that match none.
#[cycle(rows)]
fn joined(
    alloc: Global,
    on: &[Expr],
    kind: JoinKind,
    left: Tuples,
    right: Tuples,
    outer: &[OuterRow],
    tables: &Tables,
) -> Result<Tuples, Memory>
    requires whole_left { AreWhole left }
    requires whole_right { AreWhole right }
    requires apart { AreApart (rels_of left.leaves.items) (rels_of right.leaves.items) }
    requires runs { CanRunPairs tables.now.list on.now left.leaves.items left.numbers.list right.leaves.items right.numbers.list (env_of tables.now.list outer.now) }
    ensures whole { IfOk result AreWhole }
    ensures leaves { IfOk result (λ t. t.leaves.items ≡ joined_leaves kind left.leaves.items right.leaves.items) }
    ensures tuples { IfOk result (λ t. envs_over tables.now.list t.leaves.items (env_of tables.now.list outer.now) t.numbers.list
        ≡ parts_joined kind (values_of (rows_of_tables tables.now.list) on.now)
        (rels_of left.leaves.items) (envs_over tables.now.list left.leaves.items (env_of tables.now.list outer.now) left.numbers.list)
        (rels_of right.leaves.items) (envs_over tables.now.list right.leaves.items (env_of tables.now.list outer.now) right.numbers.list)) }
{
    let mut found = Numbers::new(alloc, width_of(kind, &left.numbers, &right.numbers)?);
    let missing = nowhere(alloc, right.numbers.width())?;
    let mut unmatched = all_marked(alloc, right.len())?;
    'lefts: for at in 0..left.len() {
        let tuple = left.tuple(at);
        let marks = matches(alloc, on, tuple, &right, outer, tables)?;
        push_part(
            kind,
            &mut found,
            tuple.numbers,
            &right.numbers,
            missing.as_slice(),
            marks.as_slice(),
        )?;
        unmatched = still_unmatched(alloc, kind, unmatched, marks.as_slice())?;
    }
    finish(alloc, kind, left, right, found, unmatched.as_slice())
}

/// The tuples that were found, and of a Full join then the right tuples that are marked, with the left relations absent.
fn finish(
    alloc: Global,
    kind: JoinKind,
    left: Tuples,
    right: Tuples,
    found: Numbers,
    unmatched: &[bool],
) -> Result<Tuples, Memory>
    requires left { AreWhole left }
    requires right { AreWhole right }
    requires width { found.width ≡ joined_width kind right.numbers.width left.numbers.width }
    ensures whole { IfOk result AreWhole }
    ensures leaves { IfOk result (λ t. t.leaves.items ≡ joined_leaves kind left.leaves.items right.leaves.items) }
    ensures tuples { IfOk result (λ t. t.numbers.list ≡ found.list ++ (if is_full kind then pairs_of (absent left.numbers.width) right.numbers.list unmatched.now else [])) }
{
    let mut found = found;
    if let JoinKind::Full = kind {
        let missing = nowhere(alloc, left.numbers.width())?;
        push_unmatched(&mut found, missing.as_slice(), &right.numbers, unmatched)?;
    }
    let leaves = leaves_of(kind, left.leaves, right.leaves)?;
    Ok(Tuples::new(leaves, found))
}

/// For each right tuple whether it makes the conditions hold with the left one.
#[cycle(rows)]
fn matches(
    alloc: Global,
    on: &[Expr],
    left: Frame<'_>,
    right: &Tuples,
    outer: &[OuterRow],
    tables: &Tables,
) -> Result<Vec<bool>, Memory>
    requires { All (λ r. CanRunAll tables.now.list on.now (env_over tables.now.list right.now.leaves.items r (frame_env tables.now.list left (env_of tables.now.list outer.now)))) right.now.numbers.list }
    ensures { IfOk result (λ v. v.items ≡ map (λ r. all_hold (values_of (rows_of_tables tables.now.list) on.now) (env_over tables.now.list right.now.leaves.items r (frame_env tables.now.list left.entry (env_of tables.now.list outer.now)))) right.now.numbers.list) }
{
    let mut marks = Vec::new(alloc);
    'rights: for at in 0..right.len() {
        let place = Place {
            first: right.tuple(at),
            second: left,
            outer,
        };
        let mark = passes(alloc, on, place, tables)?;
        match marks.push(mark) {
            Ok(()) => {}
            Err(_) => return Err(Memory),
        }
    }
    Ok(marks)
}
