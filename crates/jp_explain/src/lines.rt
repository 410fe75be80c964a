#![tactic(auto, using(crate::proofs::LineLaws::line_equations))]

ghost use Rattle.std.specs.Prelude.{◌≡◌, ◌++◌, [], OnOk, IfOk, codes, map, string_bytes};
ghost use Rattle.jp_explain.specs.Lines.{conditions, deeper, direction, distinct_line, nulls, numbers, order_text, sort_line};
ghost use Rattle.jp_explain.specs.Lists.{separated};
ghost use Rattle.jp_explain.specs.Plans.{head_lines};

use crate::expressions::{push_expr, push_list};
use crate::pieces::{gap, push, push_number};
use jp_base::Memory;
use jp_query::{Expr, Order};
use jp_tree::{Block, RelName};
use std::alloc::Global;

/// The indentation of a child.
pub fn deeper(alloc: Global, indent: &str) -> Result<String, Memory>
    ensures { IfOk result (λ t. string_bytes t ≡ deeper indent.now) }
{
    let mut text = String::from_str(alloc, indent)?;
    push("  ", &mut text)?;
    Ok(text)
}

/// Puts the rows and the cost of a node at the end of its line.
pub fn push_numbers(rows: u64, cost: u128, text: &mut String) -> Result<(), Memory>
    ensures { OnOk result (string_bytes text.new ≡ string_bytes text.old ++ numbers rows cost) }
{
    push(" rows=", text)?;
    push_number(u128::from(rows), text)?;
    push(" cost=", text)?;
    push_number(cost, text)?;
    push("\n", text)?;
    Ok(())
}

/// Puts a line of conditions at the end, unless there are none.
pub fn push_conditions(
    names: &[RelName],
    indent: &str,
    title: &str,
    exprs: &[Expr],
    text: &mut String,
) -> Result<(), Memory>
    ensures { OnOk result (string_bytes text.new ≡ string_bytes text.old ++ conditions names.now indent.now title.now exprs.now) }
{
    if exprs.is_empty() {
        return Ok(());
    }
    push(indent, text)?;
    push(title, text)?;
    push_list(names, "; ", exprs, text)?;
    push("\n", text)?;
    Ok(())
}

/// Puts the lines of a block above its plan at the end.
pub fn push_head(
    names: &[RelName],
    indent: &str,
    block: &Block,
    text: &mut String,
) -> Result<(), Memory>
    ensures { OnOk result (string_bytes text.new ≡ string_bytes text.old ++ head_lines names.now indent.now (Some block.now)) }
{
    push_sort(names, indent, block.order.as_slice(), text)?;
    push_distinct(indent, block.distinct, text)?;
    Ok(())
}

fn push_sort(
    names: &[RelName],
    indent: &str,
    orders: &[Order],
    text: &mut String,
) -> Result<(), Memory>
    ensures { OnOk result (string_bytes text.new ≡ string_bytes text.old ++ sort_line names.now indent.now orders.now) }
{
    if orders.is_empty() {
        return Ok(());
    }
    push(indent, text)?;
    push("Sort ", text)?;
    push_orders(names, orders, text)?;
    push("\n", text)?;
    Ok(())
}

fn push_orders(names: &[RelName], orders: &[Order], text: &mut String) -> Result<(), Memory>
    ensures { OnOk result (string_bytes text.new ≡ string_bytes text.old ++ separated (codes ", ") (map (order_text names.now) orders.now)) }
{
    let mut first = true;
    'orders: for order in orders {
        push(gap(first, ", "), text)?;
        push_order(names, order, text)?;
        first = false;
    }
    Ok(())
}

fn push_order(names: &[RelName], order: &Order, text: &mut String) -> Result<(), Memory>
    ensures { OnOk result (string_bytes text.new ≡ string_bytes text.old ++ order_text names.now order.now) }
{
    push_expr(names, &order.expr, text)?;
    push(direction(order.desc), text)?;
    push(nulls(order.desc, order.nulls_first), text)?;
    Ok(())
}

fn direction(desc: bool) -> &'static str
    ensures { result.now ≡ direction desc }
{
    if desc { " DESC" } else { "" }
}

/// Where NULLs stand, unless it is the default.
fn nulls(desc: bool, nulls_first: bool) -> &'static str
    ensures { result.now ≡ nulls desc nulls_first }
{
    match (desc, nulls_first) {
        (false, false) => "",
        (false, true) => " NULLS FIRST",
        (true, false) => " NULLS LAST",
        (true, true) => "",
    }
}

fn push_distinct(indent: &str, distinct: bool, text: &mut String) -> Result<(), Memory>
    ensures { OnOk result (string_bytes text.new ≡ string_bytes text.old ++ distinct_line indent.now distinct) }
{
    if distinct {
        push(indent, text)?;
        push("Distinct\n", text)?;
    }
    Ok(())
}
