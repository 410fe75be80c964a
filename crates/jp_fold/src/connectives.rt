#![tactic(auto, using(crate::proofs::Equations::equations, crate::proofs::Equations::members))]

ghost use Rattle.std.specs.Prelude.{◌≡◌, ◌++◌, ◌∷◌, [], true, map, reverse, IfOk, OnOk};
ghost use Rattle.std.specs.List.{list_any};
ghost use Rattle.jp_query.specs.Parts.{all_in};
ghost use Rattle.jp_folding.specs.Folding as folding;
ghost use Rattle.jp_fold.specs.InBits.{conjunction_made, disjunction_made};

use crate::literals::{are_literals, boxed, computed, is_false, is_true};
use jp_base::{Memory, Ty, Value};
use jp_query::Expr;
use sqlite_items::{Boxed, Items};
use std::alloc::Global;

pub fn push<T: Drop>(list: &mut Items<T>, item: T) -> Result<(), Memory>
    ensures { OnOk result (list.new ≡ list.old ++ item ∷ []) }
{
    match list.push(item) {
        Ok(()) => Ok(()),
        Err(_) => Err(Memory),
    }
}

fn append(list: &mut Items<Expr>, more: Items<Expr>) -> Result<(), Memory>
    ensures { OnOk result (list.new ≡ list.old ++ more) }
{
    match list.append(more) {
        Ok(()) => Ok(()),
        Err(_) => Err(Memory),
    }
}

/// The expressions, the last one first.
fn turned(alloc: Global, mut exprs: Items<Expr>) -> Result<Items<Expr>, Memory>
    ensures { IfOk result (λ turned. turned ≡ reverse exprs) }
{
    let mut turned = Items::new(alloc);
    'exprs: while let Some(expr) = exprs.pop() {
        push(&mut turned, expr)?;
    }
    Ok(turned)
}

fn truth_literal(alloc: Global, truth: bool) -> Result<Boxed<Expr>, Memory>
    ensures { IfOk result (λ e. e ≡ folding.truth_literal truth) }
{
    let literal = boxed(alloc, Expr::Lit(Value::Bool(truth), Ty::Boolean))?;
    Ok(literal)
}

/// The AND of members whose parts are folded.
pub fn conjunction(alloc: Global, members: Items<Expr>) -> Result<Boxed<Expr>, Memory>
    ensures { IfOk result (λ e. e ≡ conjunction_made members) }
{
    if are_literals(members.as_slice()) {
        let level = boxed(alloc, Expr::And(members))?;
        let literal = computed(alloc, level.get())?;
        return Ok(literal);
    }
    if is_any_false(members.as_slice()) {
        let literal = truth_literal(alloc, false)?;
        return Ok(literal);
    }
    let members = conjuncts(alloc, members)?;
    let whole = one_and(alloc, members)?;
    Ok(whole)
}

/// The OR of members whose parts are folded.
pub fn disjunction(alloc: Global, members: Items<Expr>) -> Result<Boxed<Expr>, Memory>
    ensures { IfOk result (λ e. e ≡ disjunction_made members) }
{
    if are_literals(members.as_slice()) {
        let level = boxed(alloc, Expr::Or(members))?;
        let literal = computed(alloc, level.get())?;
        return Ok(literal);
    }
    if is_any_true(members.as_slice()) {
        let literal = truth_literal(alloc, true)?;
        return Ok(literal);
    }
    let members = disjuncts(alloc, members)?;
    let whole = one_or(alloc, members)?;
    Ok(whole)
}

fn is_any_false(members: &[Expr]) -> bool
    ensures { result ≡ list_any folding.is_false members.now }
{
    for member in members {
        if is_false(member) {
            return true;
        }
    }
    false
}

fn is_any_true(members: &[Expr]) -> bool
    ensures { result ≡ list_any folding.is_true members.now }
{
    for member in members {
        if is_true(member) {
            return true;
        }
    }
    false
}

/// What the members give to the AND that they stand in.
fn conjuncts(alloc: Global, members: Items<Expr>) -> Result<Items<Expr>, Memory>
    ensures { IfOk result (λ list. list ≡ all_in (map folding.and_members members)) }
{
    let mut out = Items::new(alloc);
    let mut rest = turned(alloc, members)?;
    'members: while let Some(member) = rest.pop() {
        splice_and(&mut out, member)?;
    }
    Ok(out)
}

/// What the members give to the OR that they stand in.
fn disjuncts(alloc: Global, members: Items<Expr>) -> Result<Items<Expr>, Memory>
    ensures { IfOk result (λ list. list ≡ all_in (map folding.or_members members)) }
{
    let mut out = Items::new(alloc);
    let mut rest = turned(alloc, members)?;
    'members: while let Some(member) = rest.pop() {
        splice_or(&mut out, member)?;
    }
    Ok(out)
}

fn splice_and(out: &mut Items<Expr>, member: Expr) -> Result<(), Memory>
    ensures { OnOk result (out.new ≡ out.old ++ folding.and_members member) }
{
    match member {
        Expr::And(members) => append(out, members),
        Expr::Lit(Value::Bool(true), _) => Ok(()),
        member => push(out, member),
    }
}

fn splice_or(out: &mut Items<Expr>, member: Expr) -> Result<(), Memory>
    ensures { OnOk result (out.new ≡ out.old ++ folding.or_members member) }
{
    match member {
        Expr::Or(members) => append(out, members),
        Expr::Lit(Value::Bool(false), _) => Ok(()),
        member => push(out, member),
    }
}

/// One member stands for itself, and none is TRUE.
fn one_and(alloc: Global, mut members: Items<Expr>) -> Result<Boxed<Expr>, Memory>
    ensures { IfOk result (λ e. e ≡ folding.one_and members) }
{
    if members.len() > 1 {
        let whole = boxed(alloc, Expr::And(members))?;
        return Ok(whole);
    }
    match members.pop() {
        Some(member) => boxed(alloc, member),
        None => truth_literal(alloc, true),
    }
}

/// One member stands for itself, and none is FALSE.
fn one_or(alloc: Global, mut members: Items<Expr>) -> Result<Boxed<Expr>, Memory>
    ensures { IfOk result (λ e. e ≡ folding.one_or members) }
{
    if members.len() > 1 {
        let whole = boxed(alloc, Expr::Or(members))?;
        return Ok(whole);
    }
    match members.pop() {
        Some(member) => boxed(alloc, member),
        None => truth_literal(alloc, false),
    }
}

/// What a folded condition gives to a list of conditions.
pub fn members_of(alloc: Global, condition: Boxed<Expr>) -> Result<Items<Expr>, Memory>
    ensures { IfOk result (λ list. list ≡ folding.and_members condition) }
{
    let mut out = Items::new(alloc);
    splice_and(&mut out, condition.into_inner())?;
    Ok(out)
}
