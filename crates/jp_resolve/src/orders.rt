#![tactic(auto, using(crate::proofs::OrderLaws::ordering))]

ghost use Rattle.std.specs.Prelude.{◌≡◌, Ok};
ghost use Rattle.jp_resolution.specs.Answers.{Gives};
ghost use Rattle.jp_resolve.specs.Orders as spec;

use crate::counting::Resolver;
use crate::names::place_of;
use jp_ast::{Ast, OrderAst};
use jp_query::{Expr, Order, Output};
use jp_resolution::{Counts, Entry, ResolveError};
use jp_resolve_parts::{both, named_expr, no_counts, position_expr, selected_expr};
use sqlite_items::Items;

impl Resolver<'_> {
    /// The items of ORDER BY over the outputs of their select.
    pub fn orders(
        &self,
        orders: &[OrderAst],
        distinct: bool,
        outputs: &[Output],
        levels: &[Items<Entry>],
        before: Counts,
    ) -> Result<Items<Order>, ResolveError>
        ensures { Gives (spec.orders_in self.now.catalog.now distinct outputs.now orders.now levels.now before) result }
    {
        let mut found = Items::new(self.alloc);
        let mut after = before;
        'orders: for order in orders {
            let counts = self.expr_counts(&order.expr)?;
            let expr = self.order_expr(&order.expr, distinct, outputs, levels, after)?;
            found.push(Order {
                expr,
                desc: order.desc,
                nulls_first: order.nulls_first,
            })?;
            after = both(after, counts)?;
        }
        Ok(found)
    }

    /// The expression of an item: an output's for its name alone or its number, else one over the entries of FROM.
    fn order_expr(
        &self,
        ast: &Ast,
        distinct: bool,
        outputs: &[Output],
        levels: &[Items<Entry>],
        before: Counts,
    ) -> Result<Expr, ResolveError>
        ensures { Gives (spec.order_expr_in self.now.catalog.now distinct outputs.now ast.now levels.now before) result }
    {
        match ast {
            Ast::Name { name, at } => {
                match named_expr(self.alloc, *at, outputs, name.as_str())? {
                    Some(expr) => Ok(expr),
                    None => {
                        let expr = self.plain(ast, distinct, outputs, levels, before)?;
                        Ok(expr)
                    }
                }
            }
            Ast::Number { value, at } => {
                let expr = position_expr(self.alloc, *at, outputs, *value)?;
                Ok(expr)
            }
            Ast::Text { at, .. } => Err(ResolveError::BadPosition(*at)),
            Ast::Bool { at, .. } => Err(ResolveError::BadPosition(*at)),
            Ast::Null { at } => Err(ResolveError::BadPosition(*at)),
            Ast::Sign { operand, at, .. } => {
                if self.is_literal(operand.get()) {
                    return Err(ResolveError::BadPosition(*at));
                }
                let expr = self.plain(ast, distinct, outputs, levels, before)?;
                Ok(expr)
            }
            _ => {
                let expr = self.plain(ast, distinct, outputs, levels, before)?;
                Ok(expr)
            }
        }
    }

    /// The expression of an item that is no output.
    fn plain(
        &self,
        ast: &Ast,
        distinct: bool,
        outputs: &[Output],
        levels: &[Items<Entry>],
        before: Counts,
    ) -> Result<Expr, ResolveError>
        ensures { Gives (spec.plain_in self.now.catalog.now distinct outputs.now ast.now levels.now before) result }
    {
        let operand = self.expr(ast, levels, before)?;
        let expr = selected_expr(place_of(ast), distinct, outputs, operand)?;
        Ok(expr)
    }

    /// Whether an expression is a literal without a sign.
    fn is_literal(&self, ast: &Ast) -> bool
        ensures { result ≡ spec.is_bare_literal (spec.written_of_expr self.now.catalog.now ast.now) }
    {
        match ast {
            Ast::Number { .. } => true,
            Ast::Text { .. } => true,
            Ast::Bool { .. } => true,
            Ast::Null { .. } => true,
            _ => false,
        }
    }

    /// What stands in ORDER BY.
    pub fn order_counts(&self, orders: &[OrderAst]) -> Result<Counts, ResolveError>
        ensures { Gives (Ok (spec.counts_of_orders self.now.catalog.now orders.now)) result }
    {
        let mut counts = no_counts();
        'orders: for order in orders {
            let more = self.expr_counts(&order.expr)?;
            counts = both(counts, more)?;
        }
        Ok(counts)
    }
}
