ghost use Rattle.std.specs.Prelude.{◌≡◌, ◌<◌, ◌++◌, OnOk, All, Some, length, slice_get, string_bytes};
ghost use Rattle.jp_tree.specs.BlockParts.{blocks_of_kind};
ghost use Rattle.jp_tree.specs.Prepared.{IsWhole};
ghost use Rattle.jp_tree.specs.PlanTrees.{IsLegalAt, tree_at};
ghost use Rattle.jp_explain.specs.Plans.{IsBehind, block_text, item_texts, plan_at, plan_text, plans_behind, problem_at, scan_text, tree_text};

use crate::lines::{deeper, push_head};
use crate::nodes::{StepNode, push_scan_lines, push_step_lines};
use crate::weights::weight_of;
use jp_base::{ItemNo, Memory};
use jp_problem::{Item, ItemKind, Problem};
use jp_tree::{PlanId, PlanNode, Prepared};
use std::alloc::Global;

/// Puts a block at the end, its head and its plan.
#[cycle(plans)]
pub fn push_block(
    alloc: Global,
    prepared: &Prepared,
    number: usize,
    indent: &str,
    text: &mut String,
) -> Result<(), Memory>
    requires whole { IsWhole prepared.now }
    requires there { number < length prepared.now.blocks }
    ensures { OnOk result (string_bytes text.new ≡ string_bytes text.old ++ block_text prepared.now number indent.now) }
{
    let block = &prepared.blocks.as_slice()[number];
    push_head(prepared.names.as_slice(), indent, block, text)?;
    push_plan(alloc, prepared, number, indent, text)?;
    Ok(())
}

/// Puts the plan of a block at the end.
#[cycle(plans)]
fn push_plan(
    alloc: Global,
    prepared: &Prepared,
    number: usize,
    indent: &str,
    text: &mut String,
) -> Result<(), Memory>
    requires whole { IsWhole prepared.now }
    requires there { number < length prepared.now.blocks }
    ensures { OnOk result (string_bytes text.new ≡ string_bytes text.old ++ plan_text prepared.now number indent.now) }
{
    push_tree(
        alloc,
        prepared,
        number,
        plan_at(prepared, number),
        indent,
        text,
    )?;
    Ok(())
}

/// Puts a part of the plan of a block at the end.
#[cycle(plans)]
fn push_tree(
    alloc: Global,
    prepared: &Prepared,
    number: usize,
    id: PlanId,
    indent: &str,
    text: &mut String,
) -> Result<(), Memory>
    requires whole { IsWhole prepared.now }
    requires there { number < length prepared.now.blocks }
    requires legal { IsLegalAt (problem_at prepared.now number) prepared.now.pool.nodes id }
    ensures { OnOk result (string_bytes text.new ≡ string_bytes text.old ++ tree_text prepared.now (plans_behind prepared.now number) (problem_at prepared.now number) indent.now (tree_at prepared.now.pool.nodes id)) }
{
    match prepared.pool.node(id) {
        PlanNode::Scan(item) => {
            push_scan(alloc, prepared, number, item, indent, text)?;
            Ok(())
        }
        PlanNode::Join {
            method,
            step,
            left,
            right,
        } => {
            let problem = problem_at(prepared, number);
            let pool = &prepared.pool;
            let node = StepNode {
                method,
                step,
                left: weight_of(problem, pool, left).set,
                right: weight_of(problem, pool, right).set,
                cost: weight_of(problem, pool, id).cost,
            };
            push_step_lines(
                alloc,
                prepared.names.as_slice(),
                problem,
                &node,
                indent,
                text,
            )?;
            let deeper = deeper(alloc, indent)?;
            push_tree(alloc, prepared, number, left, deeper.as_str(), text)?;
            push_tree(alloc, prepared, number, right, deeper.as_str(), text)?;
            Ok(())
        }
    }
}

/// Puts the scan of an item of a block at the end.
#[cycle(plans)]
fn push_scan(
    alloc: Global,
    prepared: &Prepared,
    number: usize,
    item: ItemNo,
    indent: &str,
    text: &mut String,
) -> Result<(), Memory>
    requires whole { IsWhole prepared.now }
    requires there { number < length prepared.now.blocks }
    requires item { item < length (problem_at prepared.now number).items }
    ensures { OnOk result (string_bytes text.new ≡ string_bytes text.old ++ scan_text prepared.now (plans_behind prepared.now number) (problem_at prepared.now number) indent.now item (slice_get (problem_at prepared.now number).items item)) }
{
    let problem = problem_at(prepared, number);
    let scanned = item_at(problem, item);
    push_scan_lines(
        alloc,
        prepared.names.as_slice(),
        problem,
        item,
        scanned,
        indent,
        text,
    )?;
    let deeper = deeper(alloc, indent)?;
    push_item_blocks(
        alloc,
        prepared,
        number,
        &scanned.kind,
        deeper.as_str(),
        text,
    )?;
    Ok(())
}

/// Puts the blocks that an item takes its rows from at the end: that of a sub-select, or the plans of a Full join's sides.
#[cycle(plans)]
fn push_item_blocks(
    alloc: Global,
    prepared: &Prepared,
    number: usize,
    kind: &ItemKind,
    indent: &str,
    text: &mut String,
) -> Result<(), Memory>
    requires whole { IsWhole prepared.now }
    requires behind { All (IsBehind prepared.now number) (blocks_of_kind kind.now) }
    ensures { OnOk result (string_bytes text.new ≡ string_bytes text.old ++ item_texts prepared.now (plans_behind prepared.now number) indent.now kind.now) }
{
    match kind {
        ItemKind::Base { .. } => Ok(()),
        ItemKind::Sub { block, .. } => {
            push_block(alloc, prepared, *block as usize, indent, text)?;
            Ok(())
        }
        ItemKind::Full { left, right, .. } => {
            push_plan(alloc, prepared, *left as usize, indent, text)?;
            push_plan(alloc, prepared, *right as usize, indent, text)?;
            Ok(())
        }
    }
}

fn problem_at(prepared: &Prepared, number: usize) -> &Problem
    requires { number < length prepared.now.blocks }
    ensures { result.now ≡ problem_at prepared.now number }
{
    &prepared.blocks.as_slice()[number].problem
}

fn plan_at(prepared: &Prepared, number: usize) -> PlanId
    requires { number < length prepared.now.blocks }
    ensures { result ≡ plan_at prepared.now number }
{
    prepared.blocks.as_slice()[number].plan
}

fn item_at(problem: &Problem, item: ItemNo) -> &Item
    requires { item < length problem.now.items }
    ensures { slice_get problem.now.items item ≡ Some result.now }
{
    &problem.items.as_slice()[item as usize]
}
