#![tactic(auto, using(crate::proofs::LineLaws::line_equations))]

ghost use Rattle.std.specs.Prelude.{◌≡◌, ◌<◌, ◌++◌, OnOk, codes, string_bytes};
ghost use Rattle.std.specs.Option.{option_copied};
ghost use Rattle.jp_problem.specs.Made.{IsEstimable, on_of_item};
ghost use Rattle.jp_explain.specs.Lines.{conditions};
ghost use Rattle.jp_explain.specs.Plans.{item_title, kind_of, kind_word, matched_by, method_word, scan_lines, step_join, step_lines, tested_behind};

use crate::lines::{deeper, push_conditions, push_numbers};
use crate::names::push_relation;
use crate::pieces::push;
use jp_base::{ItemNo, Memory, RelSet};
use jp_cost::estimate;
use jp_problem::sets::{both, one};
use jp_problem::{
    Item, ItemKind, Method, Problem, Special, Step, join_of, new_clauses, scan_clauses,
};
use jp_query::{Expr, JoinKind};
use jp_tree::RelName;
use std::alloc::Global;

/// A step of a plan: how it is run, the items of its two sides, and what it costs with these.
#[derive(Clone, Copy, Debug, PartialEq, Eq)]
pub struct StepNode {
    pub method: Method,
    pub step: Step,
    pub left: RelSet,
    pub right: RelSet,
    pub cost: u128,
}

/// Puts the lines of a scan at the end.
#[tactic(auto, using(crate::proofs::LineLaws::line_equations), unfolding(crate::specs::Plans::scan_lines))]
pub fn push_scan_lines(
    alloc: Global,
    names: &[RelName],
    problem: &Problem,
    number: ItemNo,
    item: &Item,
    indent: &str,
    text: &mut String,
) -> Result<(), Memory>
    requires estimable { IsEstimable problem.now }
    requires number { number < 64 }
    ensures { OnOk result (string_bytes text.new ≡ string_bytes text.old ++ scan_lines names.now problem.now indent.now number item.now) }
{
    push(indent, text)?;
    push_title(names, &item.kind, text)?;
    push_numbers(estimate(problem, one(number)), item.cost, text)?;
    let deeper = deeper(alloc, indent)?;
    push_on(names, deeper.as_str(), &item.kind, text)?;
    let clauses = scan_clauses(alloc, problem, number)?;
    push_conditions(names, deeper.as_str(), "filter: ", clauses.items(), text)?;
    Ok(())
}

fn push_title(names: &[RelName], kind: &ItemKind, text: &mut String) -> Result<(), Memory>
    ensures { OnOk result (string_bytes text.new ≡ string_bytes text.old ++ item_title names.now kind.now) }
{
    match kind {
        ItemKind::Base { rel, .. } => {
            push("Scan ", text)?;
            push_relation(names, *rel, text)?;
            Ok(())
        }
        ItemKind::Sub { rel, .. } => {
            push("Sub ", text)?;
            push_relation(names, *rel, text)?;
            Ok(())
        }
        ItemKind::Full { .. } => {
            push("Full", text)?;
            Ok(())
        }
    }
}

/// Puts the line of the ON list of a Full join at the end.
fn push_on(
    names: &[RelName],
    indent: &str,
    kind: &ItemKind,
    text: &mut String,
) -> Result<(), Memory>
    ensures { OnOk result (string_bytes text.new ≡ string_bytes text.old ++ conditions names.now indent.now (codes "on: ") (on_of_item kind.now)) }
{
    match kind {
        ItemKind::Full { on, .. } => {
            push_conditions(names, indent, "on: ", on.as_slice(), text)?;
            Ok(())
        }
        ItemKind::Base { .. } => Ok(()),
        ItemKind::Sub { .. } => Ok(()),
    }
}

/// Puts the lines of a step at the end.
#[tactic(auto, using(crate::proofs::LineLaws::line_equations), unfolding(crate::specs::Plans::step_lines))]
pub fn push_step_lines(
    alloc: Global,
    names: &[RelName],
    problem: &Problem,
    node: &StepNode,
    indent: &str,
    text: &mut String,
) -> Result<(), Memory>
    requires { IsEstimable problem.now }
    ensures { OnOk result (string_bytes text.new ≡ string_bytes text.old ++ step_lines names.now problem.now indent.now node.now.method node.now.step node.now.left node.now.right node.now.cost) }
{
    let join = step_join(problem, node.step);
    push(indent, text)?;
    push(method_word(node.method), text)?;
    push(kind_word(kind_of(join)), text)?;
    push_numbers(
        estimate(problem, both(node.left, node.right)),
        node.cost,
        text,
    )?;
    let deeper = deeper(alloc, indent)?;
    let clauses = new_clauses(alloc, problem, node.left, node.right)?;
    push_tests(names, deeper.as_str(), join, clauses.items(), text)?;
    Ok(())
}

/// Puts the lines of what a step tests at the end: the ON list of its join and its clauses, or its clauses alone.
fn push_tests(
    names: &[RelName],
    indent: &str,
    join: Option<&Special>,
    clauses: &[Expr],
    text: &mut String,
) -> Result<(), Memory>
    ensures { OnOk result (string_bytes text.new ≡ string_bytes text.old ++ (conditions names.now indent.now (codes "on: ") (matched_by (option_copied join.entry) clauses.now) ++ conditions names.now indent.now (codes "filter: ") (tested_behind (option_copied join.entry) clauses.now))) }
{
    match join {
        Some(join) => {
            push_conditions(names, indent, "on: ", join.on.as_slice(), text)?;
            push_conditions(names, indent, "filter: ", clauses, text)?;
            Ok(())
        }
        None => {
            push_conditions(names, indent, "on: ", clauses, text)?;
            Ok(())
        }
    }
}

/// The special join that a step does.
fn step_join(problem: &Problem, step: Step) -> Option<&Special>
    ensures { option_copied result ≡ step_join problem.now step }
{
    match step {
        Step::Inner => None,
        Step::By(number) => join_of(problem.joins.as_slice(), number),
    }
}

fn kind_of(join: Option<&Special>) -> JoinKind
    ensures { result ≡ kind_of (option_copied join.entry) }
{
    match join {
        Some(join) => join.kind,
        None => JoinKind::Inner,
    }
}

fn kind_word(kind: JoinKind) -> &'static str
    ensures { result.now ≡ kind_word kind }
{
    match kind {
        JoinKind::Inner => "Inner",
        JoinKind::Left => "Left",
        JoinKind::Right => "Right",
        JoinKind::Full => "Full",
        JoinKind::Semi => "Semi",
        JoinKind::Anti => "Anti",
    }
}

fn method_word(method: Method) -> &'static str
    ensures { result.now ≡ method_word method }
{
    match method {
        Method::Nest => "Nest ",
        Method::Hash => "Hash ",
        Method::HashRight => "HashRight ",
        Method::Merge => "Merge ",
    }
}
