//! Nodes of the syntax tree.

ghost use Rattle.std.specs.Prelude.{◌≡◌, false, [], ◌∷◌, reverse, IfOk};
ghost use Rattle.jp_ast.specs.declared.tree.Ast.TheVariants as ast;
ghost use Rattle.jp_ast.specs.Nodes as spec;
ghost use Rattle.jp_cursor.specs.Lists.{node_by};

use crate::lists::in_front;
use jp_ast::{Ast, FromItem, JoinWord};
use jp_base::Memory;
use sqlite_items::{Boxed, Items};
use std::alloc::Global;

pub fn boxed<T: Drop>(alloc: Global, value: T) -> Result<Boxed<T>, Memory>
    ensures { IfOk result (λ b. b ≡ value) }
{
    let boxed = Boxed::new(alloc, value)?;
    Ok(boxed)
}

/// The chains whose members stand in one list.
#[derive(Clone, Copy)]
pub enum Chain {
    Or,
    And,
    Concat,
    Product,
}

fn node(chain: Chain, list: Items<Ast>, at: u32) -> Ast
    ensures { result ≡ node_by chain at list }
{
    match chain {
        Chain::Or => Ast::Or { list, at },
        Chain::And => Ast::And { list, at },
        Chain::Concat => Ast::Concat { parts: list, at },
        Chain::Product => Ast::Product { factors: list, at },
    }
}

/// A member alone is itself, and more are one node.
pub fn gathered(
    alloc: Global,
    chain: Chain,
    at: u32,
    first: Boxed<Ast>,
    more: Items<Ast>,
) -> Result<Ast, Memory>
    ensures { IfOk result (λ a. a ≡ spec.chain (node_by chain at) first more) }
{
    if more.is_empty() {
        return Ok(first.into_inner());
    }
    let list = in_front(alloc, first.into_inner(), more)?;
    Ok(node(chain, list, at))
}

/// A term alone is itself, and more are one node.
pub fn total(
    alloc: Global,
    at: u32,
    first: Boxed<Ast>,
    more: Items<(bool, Ast)>,
) -> Result<Ast, Memory>
    ensures { IfOk result (λ a. a ≡ spec.sum_of at first more) }
{
    if more.is_empty() {
        return Ok(first.into_inner());
    }
    let terms = in_front(alloc, (false, first.into_inner()), more)?;
    Ok(Ast::Sum { terms, at })
}

/// NOT in front of the plain form, if it is negated.
pub fn negated_at(at: u32, negated: bool, plain: Boxed<Ast>) -> Ast
    ensures { result ≡ spec.negated_at at negated plain }
{
    if negated {
        Ast::Not { operand: plain, at }
    } else {
        plain.into_inner()
    }
}

pub fn between_node(
    alloc: Global,
    at: u32,
    negated: bool,
    operand: Boxed<Ast>,
    low: Boxed<Ast>,
    high: Boxed<Ast>,
) -> Result<Ast, Memory>
    ensures { IfOk result (λ a. a ≡ spec.negated_at at negated (ast.Between operand low high at)) }
{
    let plain = Ast::Between {
        operand,
        low,
        high,
        at,
    };
    let plain = boxed(alloc, plain)?;
    Ok(negated_at(at, negated, plain))
}

/// A join without its left side: its kind, its right side and its condition.
pub type Joined = (JoinWord, Boxed<FromItem>, Option<Boxed<Ast>>);

fn unboxed(value: Option<Boxed<Ast>>) -> Option<Ast>
    ensures { result ≡ value }
{
    match value {
        Some(value) => Some(value.into_inner()),
        None => None,
    }
}

fn join_node(at: u32, left: Boxed<FromItem>, joined: Joined) -> FromItem
    ensures { result ≡ spec.join_chain at left (joined ∷ []) }
{
    let (kind, right, on) = joined;
    FromItem::Join {
        kind,
        left,
        right,
        on: unboxed(on),
        at,
    }
}

/// The items, the last one first.
fn turned<T: Drop>(alloc: Global, mut items: Items<T>) -> Result<Items<T>, Memory>
    ensures { IfOk result (λ turned. turned ≡ reverse items) }
{
    let mut turned = Items::new(alloc);
    'items: while let Some(item) = items.pop() {
        turned.push(item)?;
    }
    Ok(turned)
}

/// Each join takes what stands before it as its left side.
pub fn join_chain(
    alloc: Global,
    at: u32,
    first: Boxed<FromItem>,
    joins: Items<Joined>,
) -> Result<FromItem, Memory>
    ensures { IfOk result (λ item. item ≡ spec.join_chain at first joins) }
{
    let mut left = first;
    let mut rest = turned(alloc, joins)?;
    'joins: while let Some(joined) = rest.pop() {
        let node = join_node(at, left, joined);
        left = boxed(alloc, node)?;
    }
    Ok(left.into_inner())
}
