#![tactic(auto, using(crate::proofs::PlaceLaws::equations))]

ghost use Rattle.std.specs.Prelude.{◌≡◌, ◌++◌, ◌∷◌, [], OnOk, IfOk, drop, map};
ghost use Rattle.std.specs.List.{flat_map};
ghost use Rattle.jp_query.specs.Parts.{all_in, arm_parts, term_part};
ghost use Rattle.jp_outputs.specs.Columns.{places_from, places_in, places_of_block};
ghost use Rattle.jp_outputs.specs.Exprs.{lent_exprs};

use crate::exprs::block_exprs;
use jp_base::{Memory, RelNo};
use jp_query::Expr;
use jp_tree::{Block, Prepared};
use std::alloc::Global;

/// The columns that the blocks from a number on name outside the queries of sublinks, block by block in the order in which
/// they are written: the relation, and the column's place in it from 0. One that is named twice comes twice.
pub fn columns_from(
    alloc: Global,
    prepared: &Prepared,
    first: usize,
) -> Result<Vec<(RelNo, u32)>, Memory>
    ensures { IfOk result (λ v. v.items ≡ places_from prepared.now first) }
{
    let mut list = Vec::new(alloc);
    let blocks = prepared.blocks.as_slice();
    add_of_blocks(alloc, blocks, first, &mut list)?;
    Ok(list)
}

/// Adds those of the blocks from a number on.
fn add_of_blocks(
    alloc: Global,
    blocks: &[Block],
    first: usize,
    list: &mut Vec<(RelNo, u32)>,
) -> Result<(), Memory>
    ensures { OnOk result (list.new.items ≡ list.old.items ++ flat_map places_of_block (drop first blocks.now)) }
{
    'behind: for at in first..blocks.len() {
        add_of_block(alloc, &blocks[at], list)?;
    }
    Ok(())
}

fn add_of_block(alloc: Global, block: &Block, list: &mut Vec<(RelNo, u32)>) -> Result<(), Memory>
    ensures { OnOk result (list.new.items ≡ list.old.items ++ places_of_block block.now) }
{
    let exprs = block_exprs(alloc, block)?;
    add_of_exprs(exprs.as_slice(), list)?;
    Ok(())
}

fn add_of_exprs(exprs: &[&Expr], list: &mut Vec<(RelNo, u32)>) -> Result<(), Memory>
    ensures { OnOk result (list.new.items ≡ list.old.items ++ flat_map places_in (lent_exprs exprs.now)) }
{
    'exprs: for expr in exprs {
        add_columns(expr, list)?;
    }
    Ok(())
}

/// Adds those of the expression.
#[cycle(columns)]
fn add_columns(expr: &Expr, list: &mut Vec<(RelNo, u32)>) -> Result<(), Memory>
    ensures { OnOk result (list.new.items ≡ list.old.items ++ places_in expr.now) }
{
    match expr {
        Expr::Col { rel, col, .. } => {
            add(*rel, *col, list)?;
            Ok(())
        }
        Expr::Lit(..) => Ok(()),
        Expr::Place(inner, _) => {
            add_columns(inner.get(), list)?;
            Ok(())
        }
        Expr::Neg(operand) => {
            add_columns(operand.get(), list)?;
            Ok(())
        }
        Expr::Sum(terms) => {
            add_of_terms(terms.as_slice(), list)?;
            Ok(())
        }
        Expr::Product(factors) => {
            add_of_list(factors.as_slice(), list)?;
            Ok(())
        }
        Expr::Concat(parts) => {
            add_of_list(parts.as_slice(), list)?;
            Ok(())
        }
        Expr::Compare(_, left, right) => {
            add_columns(left.get(), list)?;
            add_columns(right.get(), list)?;
            Ok(())
        }
        Expr::Between(operand, low, high) => {
            add_columns(operand.get(), list)?;
            add_columns(low.get(), list)?;
            add_columns(high.get(), list)?;
            Ok(())
        }
        Expr::InList(operand, members) => {
            add_columns(operand.get(), list)?;
            add_of_list(members.as_slice(), list)?;
            Ok(())
        }
        Expr::And(members) => {
            add_of_list(members.as_slice(), list)?;
            Ok(())
        }
        Expr::Or(members) => {
            add_of_list(members.as_slice(), list)?;
            Ok(())
        }
        Expr::Not(operand) => {
            add_columns(operand.get(), list)?;
            Ok(())
        }
        Expr::Test(_, operand) => {
            add_columns(operand.get(), list)?;
            Ok(())
        }
        Expr::Coalesce(members) => {
            add_of_list(members.as_slice(), list)?;
            Ok(())
        }
        Expr::Case {
            operand,
            arms,
            otherwise,
        } => {
            match operand {
                Some(operand) => add_columns(operand.get(), list)?,
                None => {}
            }
            add_of_arms(arms.as_slice(), list)?;
            match otherwise {
                Some(otherwise) => add_columns(otherwise.get(), list)?,
                None => {}
            }
            Ok(())
        }
        Expr::Exists(..) => Ok(()),
        Expr::InSub(_, operand, _) => {
            add_columns(operand.get(), list)?;
            Ok(())
        }
    }
}

/// Adds those of the members of a list.
#[cycle(columns)]
fn add_of_list(exprs: &[Expr], list: &mut Vec<(RelNo, u32)>) -> Result<(), Memory>
    ensures { OnOk result (list.new.items ≡ list.old.items ++ all_in (map places_in exprs.now)) }
{
    'exprs: for expr in exprs {
        add_columns(expr, list)?;
    }
    Ok(())
}

/// Adds those of the terms of a sum.
#[cycle(columns)]
fn add_of_terms(terms: &[(bool, Expr)], list: &mut Vec<(RelNo, u32)>) -> Result<(), Memory>
    ensures { OnOk result (list.new.items ≡ list.old.items ++ all_in (map places_in (map term_part terms.now))) }
{
    'terms: for (_, term) in terms {
        add_columns(term, list)?;
    }
    Ok(())
}

/// Adds those of the arms of CASE.
#[cycle(columns)]
fn add_of_arms(arms: &[(Expr, Expr)], list: &mut Vec<(RelNo, u32)>) -> Result<(), Memory>
    ensures { OnOk result (list.new.items ≡ list.old.items ++ all_in (map places_in (arm_parts arms.now))) }
{
    'arms: for (when, then) in arms {
        add_columns(when, list)?;
        add_columns(then, list)?;
    }
    Ok(())
}

fn add(rel: RelNo, col: u32, list: &mut Vec<(RelNo, u32)>) -> Result<(), Memory>
    ensures { OnOk result (list.new.items ≡ list.old.items ++ (rel, col) ∷ []) }
{
    list.push((rel, col))?;
    Ok(())
}
