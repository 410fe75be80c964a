//! The select, and the whole statement.

ghost use Rattle.std.specs.Prelude.{◌≡◌};
ghost use Rattle.jp_ast.specs.declared.class.Class.TheVariants as k;
ghost use Rattle.jp_cursor.specs.Reading as reading;
ghost use Rattle.jp_parse.specs.Readers as spec;
ghost use Rattle.jp_ast.specs.Classes.{first};
ghost use Rattle.jp_cursor.specs.Lists.{separated_by};
ghost use Rattle.jp_cursor.specs.Reads.{Reads};
ghost use Rattle.jp_parse.specs.Nests.{Nests};

use crate::grammar::Grammar;
use crate::parts::{alias, all, all_of, direction, nulls};
use jp_ast::{Ast, Class, FromItem, OrderAst, Select, Stmt, Target};
use jp_cursor::{Cursor, Stop, boxed, followed, one, separated};
use sqlite_items::Items;
use std::alloc::Global;

impl<
    E: Fn(Global, &mut Cursor<'_, '_>, usize) -> Result<Ast, Stop>,
    Q: Fn(Global, &mut Cursor<'_, '_>, usize) -> Result<Select, Stop>,
    I: Fn(Global, &mut Cursor<'_, '_>, usize) -> Result<FromItem, Stop>,
> Grammar<E, Q, I> {
    #[tactic(auto, unfolding(crate::specs::Readers::one))]
    fn one(&self, tokens: &mut Cursor<'_, '_>) -> Result<Target, Stop>
        requires { Nests self.now.depth (E.pre self.now.expr) (E.post self.now.expr) (Q.pre self.now.select) (Q.post self.now.select) (I.pre self.now.item) (I.post self.now.item) }
        ensures { Reads (spec.one (spec.expr self.now.depth) tokens.old) result tokens.new }
    {
        let expr = self.expr(tokens)?;
        let expr = boxed(self.alloc, expr)?;
        let alias = alias(self.alloc, tokens)?;
        Ok(Target::One {
            expr: expr.into_inner(),
            alias,
        })
    }

    fn other_target(&self, tokens: &mut Cursor<'_, '_>) -> Result<Target, Stop>
        requires { Nests self.now.depth (E.pre self.now.expr) (E.post self.now.expr) (Q.pre self.now.select) (Q.post self.now.select) (I.pre self.now.item) (I.post self.now.item) }
        ensures { Reads (spec.target_by (spec.expr self.now.depth) (first tokens.old) tokens.old) result tokens.new }
    {
        match tokens.peek() {
            Class::Star => {
                let target = all(tokens)?;
                Ok(target)
            }
            _ => {
                let target = self.one(tokens)?;
                Ok(target)
            }
        }
    }

    #[tactic(auto, unfolding(crate::specs::Readers::target_of))]
    fn target(&self, tokens: &mut Cursor<'_, '_>) -> Result<Target, Stop>
        requires { Nests self.now.depth (E.pre self.now.expr) (E.post self.now.expr) (Q.pre self.now.select) (Q.post self.now.select) (I.pre self.now.item) (I.post self.now.item) }
        ensures { Reads (spec.target_of (spec.expr self.now.depth) tokens.old) result tokens.new }
    {
        if tokens.sees_all_of() {
            let target = all_of(self.alloc, tokens)?;
            Ok(target)
        } else {
            let target = self.other_target(tokens)?;
            Ok(target)
        }
    }

    fn more_targets(&self, tokens: &mut Cursor<'_, '_>) -> Result<Items<Target>, Stop>
        requires { Nests self.now.depth (E.pre self.now.expr) (E.post self.now.expr) (Q.pre self.now.select) (Q.post self.now.select) (I.pre self.now.item) (I.post self.now.item) }
        ensures { Reads (separated_by k.Comma (spec.target_of (spec.expr self.now.depth)) tokens.old) result tokens.new }
    {
        separated(
            self.alloc,
            tokens,
            Class::Comma,
            |tokens| self.target(tokens),
        )
    }

    fn targets(&self, tokens: &mut Cursor<'_, '_>) -> Result<Items<Target>, Stop>
        requires { Nests self.now.depth (E.pre self.now.expr) (E.post self.now.expr) (Q.pre self.now.select) (Q.post self.now.select) (I.pre self.now.item) (I.post self.now.item) }
        ensures { Reads (reading.listed (spec.target_of (spec.expr self.now.depth)) tokens.old) result tokens.new }
    {
        let first = self.target(tokens)?;
        let first = one(self.alloc, first)?;
        let more = self.more_targets(tokens)?;
        let list = followed(first, more)?;
        Ok(list)
    }

    #[tactic(auto, unfolding(crate::specs::Readers::condition))]
    fn condition(&self, tokens: &mut Cursor<'_, '_>) -> Result<Option<Ast>, Stop>
        requires { Nests self.now.depth (E.pre self.now.expr) (E.post self.now.expr) (Q.pre self.now.select) (Q.post self.now.select) (I.pre self.now.item) (I.post self.now.item) }
        ensures { Reads (spec.condition (spec.expr self.now.depth) tokens.old) result tokens.new }
    {
        match tokens.peek() {
            Class::Where => {
                tokens.expect(Class::Where)?;
                let cond = self.expr(tokens)?;
                Ok(Some(cond))
            }
            _ => Ok(None),
        }
    }

    fn more_items(&self, tokens: &mut Cursor<'_, '_>) -> Result<Items<FromItem>, Stop>
        requires { Nests self.now.depth (E.pre self.now.expr) (E.post self.now.expr) (Q.pre self.now.select) (Q.post self.now.select) (I.pre self.now.item) (I.post self.now.item) }
        ensures { Reads (separated_by k.Comma (spec.item self.now.depth) tokens.old) result tokens.new }
    {
        separated(self.alloc, tokens, Class::Comma, |tokens| self.item(tokens))
    }

    fn items(&self, tokens: &mut Cursor<'_, '_>) -> Result<Items<FromItem>, Stop>
        requires { Nests self.now.depth (E.pre self.now.expr) (E.post self.now.expr) (Q.pre self.now.select) (Q.post self.now.select) (I.pre self.now.item) (I.post self.now.item) }
        ensures { Reads (reading.listed (spec.item self.now.depth) tokens.old) result tokens.new }
    {
        let first = self.item(tokens)?;
        let first = one(self.alloc, first)?;
        let more = self.more_items(tokens)?;
        let list = followed(first, more)?;
        Ok(list)
    }

    #[tactic(auto, unfolding(crate::specs::Readers::select_from))]
    pub fn select_from(&self, tokens: &mut Cursor<'_, '_>) -> Result<Select, Stop>
        requires { Nests self.now.depth (E.pre self.now.expr) (E.post self.now.expr) (Q.pre self.now.select) (Q.post self.now.select) (I.pre self.now.item) (I.post self.now.item) }
        ensures { Reads (spec.select_from (spec.expr self.now.depth) (spec.item self.now.depth) tokens.old) result tokens.new }
    {
        tokens.expect(Class::Select)?;
        let distinct = tokens.eat(Class::Distinct);
        let targets = self.targets(tokens)?;
        tokens.expect(Class::From)?;
        let items = self.items(tokens)?;
        let cond = self.condition(tokens)?;
        Ok(Select {
            distinct,
            targets,
            items,
            cond,
        })
    }

    #[tactic(auto, unfolding(crate::specs::Readers::order))]
    fn order(&self, tokens: &mut Cursor<'_, '_>) -> Result<OrderAst, Stop>
        requires { Nests self.now.depth (E.pre self.now.expr) (E.post self.now.expr) (Q.pre self.now.select) (Q.post self.now.select) (I.pre self.now.item) (I.post self.now.item) }
        ensures { Reads (spec.order (spec.expr self.now.depth) tokens.old) result tokens.new }
    {
        let expr = self.expr(tokens)?;
        let expr = boxed(self.alloc, expr)?;
        let desc = direction(tokens)?;
        let nulls_first = nulls(tokens, desc)?;
        Ok(OrderAst {
            expr: expr.into_inner(),
            desc,
            nulls_first,
        })
    }

    fn more_orders(&self, tokens: &mut Cursor<'_, '_>) -> Result<Items<OrderAst>, Stop>
        requires { Nests self.now.depth (E.pre self.now.expr) (E.post self.now.expr) (Q.pre self.now.select) (Q.post self.now.select) (I.pre self.now.item) (I.post self.now.item) }
        ensures { Reads (separated_by k.Comma (spec.order (spec.expr self.now.depth)) tokens.old) result tokens.new }
    {
        separated(
            self.alloc,
            tokens,
            Class::Comma,
            |tokens| self.order(tokens),
        )
    }

    fn order_list(&self, tokens: &mut Cursor<'_, '_>) -> Result<Items<OrderAst>, Stop>
        requires { Nests self.now.depth (E.pre self.now.expr) (E.post self.now.expr) (Q.pre self.now.select) (Q.post self.now.select) (I.pre self.now.item) (I.post self.now.item) }
        ensures { Reads (reading.listed (spec.order (spec.expr self.now.depth)) tokens.old) result tokens.new }
    {
        let first = self.order(tokens)?;
        let first = one(self.alloc, first)?;
        let more = self.more_orders(tokens)?;
        let list = followed(first, more)?;
        Ok(list)
    }

    #[tactic(auto, unfolding(crate::specs::Readers::orders))]
    fn orders(&self, tokens: &mut Cursor<'_, '_>) -> Result<Items<OrderAst>, Stop>
        requires { Nests self.now.depth (E.pre self.now.expr) (E.post self.now.expr) (Q.pre self.now.select) (Q.post self.now.select) (I.pre self.now.item) (I.post self.now.item) }
        ensures { Reads (spec.orders (spec.expr self.now.depth) tokens.old) result tokens.new }
    {
        match tokens.peek() {
            Class::Order => {
                tokens.expect(Class::Order)?;
                tokens.expect(Class::By)?;
                let list = self.order_list(tokens)?;
                Ok(list)
            }
            _ => Ok(Items::new(self.alloc)),
        }
    }

    #[tactic(auto, unfolding(crate::specs::Readers::statement_of))]
    pub fn statement_of(&self, tokens: &mut Cursor<'_, '_>) -> Result<Stmt, Stop>
        requires { Nests self.now.depth (E.pre self.now.expr) (E.post self.now.expr) (Q.pre self.now.select) (Q.post self.now.select) (I.pre self.now.item) (I.post self.now.item) }
        ensures { Reads (spec.statement_of (spec.expr self.now.depth) (spec.select self.now.depth) tokens.old) result tokens.new }
    {
        let select = self.select(tokens)?;
        let select = boxed(self.alloc, select)?;
        let order = self.orders(tokens)?;
        tokens.eat(Class::Semicolon);
        Ok(Stmt {
            select: select.into_inner(),
            order,
        })
    }
}
