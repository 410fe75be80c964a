ghost use Rattle.std.specs.Prelude.{◌≡◌, ◌++◌, ◌∷◌, [], IfOk, OnOk, map};
ghost use Rattle.std.specs.List.{flat_map};
ghost use Rattle.jp_problem.specs.Blocks.{output_expr, order_expr};
ghost use Rattle.jp_problem.specs.Made.{class_exprs, constant_exprs, exprs_of, item_exprs, join_exprs, member_expr};
ghost use Rattle.jp_problem.specs.StepClauses.{expr_of};
ghost use Rattle.jp_tree.specs.BlockParts.{exprs_in};
ghost use Rattle.jp_outputs.specs.Exprs.{lent_exprs};

use jp_base::{Memory, RelSet};
use jp_problem::{Class, Clause, Item, ItemKind, Problem, Special};
use jp_query::{Expr, Order, Output};
use jp_tree::Block;
use std::alloc::Global;

/// The expressions of a block: those of its problem, of its outputs and of its ORDER BY.
pub fn block_exprs<'b>(alloc: Global, block: &'b Block) -> Result<Vec<&'b Expr>, Memory>
    ensures { IfOk result (λ v. lent_exprs v.items ≡ exprs_in block.now) }
{
    let mut list = Vec::new(alloc);
    add_of_problem(&block.problem, &mut list)?;
    add_outputs(block.columns.as_slice(), &mut list)?;
    add_keys(block.order.as_slice(), &mut list)?;
    Ok(list)
}

/// The expressions of outputs.
pub fn output_exprs<'b>(alloc: Global, columns: &'b [Output]) -> Result<Vec<&'b Expr>, Memory>
    ensures { IfOk result (λ v. lent_exprs v.items ≡ map output_expr columns.now) }
{
    let mut list = Vec::new(alloc);
    add_outputs(columns, &mut list)?;
    Ok(list)
}

/// The expressions of an ORDER BY.
pub fn key_exprs<'b>(alloc: Global, order: &'b [Order]) -> Result<Vec<&'b Expr>, Memory>
    ensures { IfOk result (λ v. lent_exprs v.items ≡ map order_expr order.now) }
{
    let mut list = Vec::new(alloc);
    add_keys(order, &mut list)?;
    Ok(list)
}

fn add_outputs<'b>(columns: &'b [Output], list: &mut Vec<&'b Expr>) -> Result<(), Memory>
    ensures { OnOk result (lent_exprs list.new.items ≡ lent_exprs list.old.items ++ map output_expr columns.now) }
{
    'columns: for column in columns {
        add(&column.expr, list)?;
    }
    Ok(())
}

fn add_keys<'b>(order: &'b [Order], list: &mut Vec<&'b Expr>) -> Result<(), Memory>
    ensures { OnOk result (lent_exprs list.new.items ≡ lent_exprs list.old.items ++ map order_expr order.now) }
{
    'keys: for key in order {
        add(&key.expr, list)?;
    }
    Ok(())
}

fn add_of_problem<'b>(problem: &'b Problem, list: &mut Vec<&'b Expr>) -> Result<(), Memory>
    ensures { OnOk result (lent_exprs list.new.items ≡ lent_exprs list.old.items ++ exprs_of problem.now) }
{
    add_of_items(problem.items.as_slice(), list)?;
    add_of_joins(problem.joins.as_slice(), list)?;
    add_clauses(problem.clauses.as_slice(), list)?;
    add_of_classes(problem.classes.as_slice(), list)?;
    Ok(())
}

/// Adds the members of the items' ON lists.
fn add_of_items<'b>(items: &'b [Item], list: &mut Vec<&'b Expr>) -> Result<(), Memory>
    ensures { OnOk result (lent_exprs list.new.items ≡ lent_exprs list.old.items ++ flat_map item_exprs items.now) }
{
    'items: for item in items {
        add_of_item(item, list)?;
    }
    Ok(())
}

fn add_of_item<'b>(item: &'b Item, list: &mut Vec<&'b Expr>) -> Result<(), Memory>
    ensures { OnOk result (lent_exprs list.new.items ≡ lent_exprs list.old.items ++ item_exprs item.now) }
{
    match &item.kind {
        ItemKind::Base { .. } => Ok(()),
        ItemKind::Sub { .. } => Ok(()),
        ItemKind::Full { on, .. } => {
            add_all(on.as_slice(), list)?;
            Ok(())
        }
    }
}

/// Adds the members of the joins' ON lists.
fn add_of_joins<'b>(joins: &'b [Special], list: &mut Vec<&'b Expr>) -> Result<(), Memory>
    ensures { OnOk result (lent_exprs list.new.items ≡ lent_exprs list.old.items ++ flat_map join_exprs joins.now) }
{
    'joins: for join in joins {
        add_all(join.on.as_slice(), list)?;
    }
    Ok(())
}

fn add_clauses<'b>(clauses: &'b [Clause], list: &mut Vec<&'b Expr>) -> Result<(), Memory>
    ensures { OnOk result (lent_exprs list.new.items ≡ lent_exprs list.old.items ++ map expr_of clauses.now) }
{
    'clauses: for clause in clauses {
        add(&clause.expr, list)?;
    }
    Ok(())
}

/// Adds the constants and members of the classes.
fn add_of_classes<'b>(classes: &'b [Class], list: &mut Vec<&'b Expr>) -> Result<(), Memory>
    ensures { OnOk result (lent_exprs list.new.items ≡ lent_exprs list.old.items ++ flat_map class_exprs classes.now) }
{
    'classes: for class in classes {
        add_constant(&class.constant, list)?;
        add_members(class.members.as_slice(), list)?;
    }
    Ok(())
}

fn add_constant<'b>(constant: &'b Option<Expr>, list: &mut Vec<&'b Expr>) -> Result<(), Memory>
    ensures { OnOk result (lent_exprs list.new.items ≡ lent_exprs list.old.items ++ constant_exprs constant.now) }
{
    match constant {
        Some(constant) => {
            add(constant, list)?;
            Ok(())
        }
        None => Ok(()),
    }
}

fn add_members<'b>(members: &'b [(Expr, RelSet)], list: &mut Vec<&'b Expr>) -> Result<(), Memory>
    ensures { OnOk result (lent_exprs list.new.items ≡ lent_exprs list.old.items ++ map member_expr members.now) }
{
    'members: for (member, _) in members {
        add(member, list)?;
    }
    Ok(())
}

fn add_all<'b>(exprs: &'b [Expr], list: &mut Vec<&'b Expr>) -> Result<(), Memory>
    ensures { OnOk result (lent_exprs list.new.items ≡ lent_exprs list.old.items ++ exprs.now) }
{
    'exprs: for expr in exprs {
        add(expr, list)?;
    }
    Ok(())
}

fn add<'b>(expr: &'b Expr, list: &mut Vec<&'b Expr>) -> Result<(), Memory>
    ensures { OnOk result (lent_exprs list.new.items ≡ lent_exprs list.old.items ++ expr.now ∷ []) }
{
    list.push(expr)?;
    Ok(())
}
