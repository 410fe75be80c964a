ghost use Rattle.std.specs.Prelude.{◌≡◌, IfOk, OnOk, [], ◌∷◌, ◌++◌};

use crate::{Expr, JoinTree, Order, Output, Query};
use jp_base::Memory;
use sqlite_items::{Boxed, Items};
use std::alloc::Global;

impl Expr {
    /// An equal expression, in memory of its own.
    #[cycle(copy)]
    pub fn copy(&self, alloc: Global) -> Result<Expr, Memory>
        ensures { IfOk result (λ expr. expr ≡ self.now) }
    {
        match self {
            Expr::Col {
                rel,
                col,
                ty,
                nulled,
            } => Ok(Expr::Col {
                rel: *rel,
                col: *col,
                ty: *ty,
                nulled: *nulled,
            }),
            Expr::Lit(value, ty) => {
                let value = value.copy(alloc)?;
                Ok(Expr::Lit(value, *ty))
            }
            Expr::Place(inner, rels) => {
                let inner = copy_box(alloc, inner)?;
                Ok(Expr::Place(inner, *rels))
            }
            Expr::Neg(operand) => {
                let operand = copy_box(alloc, operand)?;
                Ok(Expr::Neg(operand))
            }
            Expr::Sum(terms) => {
                let terms = copy_terms(alloc, terms.as_slice())?;
                Ok(Expr::Sum(terms))
            }
            Expr::Product(factors) => {
                let factors = copy_list(alloc, factors.as_slice())?;
                Ok(Expr::Product(factors))
            }
            Expr::Concat(parts) => {
                let parts = copy_list(alloc, parts.as_slice())?;
                Ok(Expr::Concat(parts))
            }
            Expr::Compare(op, left, right) => {
                let left = copy_box(alloc, left)?;
                let right = copy_box(alloc, right)?;
                Ok(Expr::Compare(*op, left, right))
            }
            Expr::Between(operand, low, high) => {
                let operand = copy_box(alloc, operand)?;
                let low = copy_box(alloc, low)?;
                let high = copy_box(alloc, high)?;
                Ok(Expr::Between(operand, low, high))
            }
            Expr::InList(operand, list) => {
                let operand = copy_box(alloc, operand)?;
                let list = copy_list(alloc, list.as_slice())?;
                Ok(Expr::InList(operand, list))
            }
            Expr::And(members) => {
                let members = copy_list(alloc, members.as_slice())?;
                Ok(Expr::And(members))
            }
            Expr::Or(members) => {
                let members = copy_list(alloc, members.as_slice())?;
                Ok(Expr::Or(members))
            }
            Expr::Not(operand) => {
                let operand = copy_box(alloc, operand)?;
                Ok(Expr::Not(operand))
            }
            Expr::Test(test, operand) => {
                let operand = copy_box(alloc, operand)?;
                Ok(Expr::Test(*test, operand))
            }
            Expr::Coalesce(members) => {
                let members = copy_list(alloc, members.as_slice())?;
                Ok(Expr::Coalesce(members))
            }
            Expr::Case {
                operand,
                arms,
                otherwise,
            } => {
                let operand = match operand {
                    Some(operand) => Some(copy_box(alloc, operand)?),
                    None => None,
                };
                let arms = copy_arms(alloc, arms.as_slice())?;
                let otherwise = match otherwise {
                    Some(otherwise) => Some(copy_box(alloc, otherwise)?),
                    None => None,
                };
                Ok(Expr::Case {
                    operand,
                    arms,
                    otherwise,
                })
            }
            Expr::Exists(sub, query) => {
                let query = query.get().copy(alloc)?;
                let query = boxed(alloc, query)?;
                Ok(Expr::Exists(*sub, query))
            }
            Expr::InSub(sub, operand, query) => {
                let operand = copy_box(alloc, operand)?;
                let query = query.get().copy(alloc)?;
                let query = boxed(alloc, query)?;
                Ok(Expr::InSub(*sub, operand, query))
            }
        }
    }
}

impl Output {
    /// An equal output, in memory of its own.
    #[cycle(copy)]
    pub fn copy(&self, alloc: Global) -> Result<Output, Memory>
        ensures { IfOk result (λ output. output ≡ self.now) }
    {
        let name = self.name.copy(alloc)?;
        let expr = self.expr.copy(alloc)?;
        Ok(Output {
            name,
            ty: self.ty,
            expr,
        })
    }
}

impl Order {
    /// An equal item, in memory of its own.
    #[cycle(copy)]
    pub fn copy(&self, alloc: Global) -> Result<Order, Memory>
        ensures { IfOk result (λ order. order ≡ self.now) }
    {
        let expr = self.expr.copy(alloc)?;
        Ok(Order {
            expr,
            desc: self.desc,
            nulls_first: self.nulls_first,
        })
    }
}

impl JoinTree {
    /// An equal tree, in memory of its own.
    #[cycle(copy)]
    pub fn copy(&self, alloc: Global) -> Result<JoinTree, Memory>
        ensures { IfOk result (λ tree. tree ≡ self.now) }
    {
        match self {
            JoinTree::Base { rel, name, table } => {
                let name = name.copy(alloc)?;
                Ok(JoinTree::Base {
                    rel: *rel,
                    name,
                    table: *table,
                })
            }
            JoinTree::Sub { rel, name, query } => {
                let name = name.copy(alloc)?;
                let query = query.get().copy(alloc)?;
                let query = boxed(alloc, query)?;
                Ok(JoinTree::Sub {
                    rel: *rel,
                    name,
                    query,
                })
            }
            JoinTree::Join {
                kind,
                left,
                right,
                on,
            } => {
                let left = left.get().copy(alloc)?;
                let left = boxed(alloc, left)?;
                let right = right.get().copy(alloc)?;
                let right = boxed(alloc, right)?;
                let on = copy_list(alloc, on.as_slice())?;
                Ok(JoinTree::Join {
                    kind: *kind,
                    left,
                    right,
                    on,
                })
            }
            JoinTree::From { members, conds } => {
                let members = copy_trees(alloc, members.as_slice())?;
                let conds = copy_list(alloc, conds.as_slice())?;
                Ok(JoinTree::From { members, conds })
            }
        }
    }
}

impl Query {
    /// An equal query, in memory of its own.
    #[cycle(copy)]
    pub fn copy(&self, alloc: Global) -> Result<Query, Memory>
        ensures { IfOk result (λ query. query ≡ self.now) }
    {
        let columns = copy_outputs(alloc, self.columns.as_slice())?;
        let tree = self.tree.copy(alloc)?;
        let conds = copy_list(alloc, self.conds.as_slice())?;
        let order = copy_orders(alloc, self.order.as_slice())?;
        Ok(Query {
            columns,
            distinct: self.distinct,
            tree,
            conds,
            order,
        })
    }
}

fn boxed<T: Drop>(alloc: Global, value: T) -> Result<Boxed<T>, Memory>
    ensures { IfOk result (λ b. b ≡ value) }
{
    let b = Boxed::new(alloc, value)?;
    Ok(b)
}

fn push<T: Drop>(list: &mut Items<T>, item: T) -> Result<(), Memory>
    ensures { OnOk result (list.new ≡ list.old ++ item ∷ []) }
{
    list.push(item)?;
    Ok(())
}

#[cycle(copy)]
fn copy_box(alloc: Global, expr: &Boxed<Expr>) -> Result<Boxed<Expr>, Memory>
    ensures { IfOk result (λ b. b ≡ expr.now) }
{
    let copy = expr.get().copy(alloc)?;
    let copy = boxed(alloc, copy)?;
    Ok(copy)
}

#[cycle(copy)]
fn copy_list(alloc: Global, exprs: &[Expr]) -> Result<Items<Expr>, Memory>
    ensures { IfOk result (λ list. list ≡ exprs.now) }
{
    let mut out = Items::new(alloc);
    for expr in exprs {
        let copy = expr.copy(alloc)?;
        push(&mut out, copy)?;
    }
    Ok(out)
}

#[cycle(copy)]
fn copy_terms(alloc: Global, terms: &[(bool, Expr)]) -> Result<Items<(bool, Expr)>, Memory>
    ensures { IfOk result (λ list. list ≡ terms.now) }
{
    let mut out = Items::new(alloc);
    for (subtracted, term) in terms {
        let copy = term.copy(alloc)?;
        push(&mut out, (*subtracted, copy))?;
    }
    Ok(out)
}

#[cycle(copy)]
fn copy_arms(alloc: Global, arms: &[(Expr, Expr)]) -> Result<Items<(Expr, Expr)>, Memory>
    ensures { IfOk result (λ list. list ≡ arms.now) }
{
    let mut out = Items::new(alloc);
    for (when, then) in arms {
        let when = when.copy(alloc)?;
        let then = then.copy(alloc)?;
        push(&mut out, (when, then))?;
    }
    Ok(out)
}

#[cycle(copy)]
fn copy_trees(alloc: Global, trees: &[JoinTree]) -> Result<Items<JoinTree>, Memory>
    ensures { IfOk result (λ list. list ≡ trees.now) }
{
    let mut out = Items::new(alloc);
    for tree in trees {
        let copy = tree.copy(alloc)?;
        push(&mut out, copy)?;
    }
    Ok(out)
}

#[cycle(copy)]
fn copy_outputs(alloc: Global, outputs: &[Output]) -> Result<Items<Output>, Memory>
    ensures { IfOk result (λ list. list ≡ outputs.now) }
{
    let mut out = Items::new(alloc);
    for output in outputs {
        let copy = output.copy(alloc)?;
        push(&mut out, copy)?;
    }
    Ok(out)
}

#[cycle(copy)]
fn copy_orders(alloc: Global, orders: &[Order]) -> Result<Items<Order>, Memory>
    ensures { IfOk result (λ list. list ≡ orders.now) }
{
    let mut out = Items::new(alloc);
    for order in orders {
        let copy = order.copy(alloc)?;
        push(&mut out, copy)?;
    }
    Ok(out)
}
