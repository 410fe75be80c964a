//! Items of FROM.

ghost use Rattle.std.specs.Prelude.{◌≡◌};
ghost use Rattle.jp_ast.specs.declared.class.Class.TheVariants as k;
ghost use Rattle.jp_cursor.specs.Reading as reading;
ghost use Rattle.jp_parse.specs.Readers as spec;
ghost use Rattle.jp_ast.specs.Classes.{first};
ghost use Rattle.jp_cursor.specs.declared.lists.Begin.TheVariants as begin;
ghost use Rattle.jp_cursor.specs.Lists.{begins_by, separated_by};
ghost use Rattle.jp_cursor.specs.Reads.{Reads};
ghost use Rattle.jp_parse.specs.Nests.{Nests};

use crate::grammar::Grammar;
use crate::parts::{alias, side, table};
use jp_ast::{Ast, Class, FromItem, JoinWord, Select};
use jp_cursor::{Begin, Cursor, Joined, Stop, boxed, join_chain, many};
use sqlite_items::Items;
use std::alloc::Global;

impl<
    E: Fn(Global, &mut Cursor<'_, '_>, usize) -> Result<Ast, Stop>,
    Q: Fn(Global, &mut Cursor<'_, '_>, usize) -> Result<Select, Stop>,
    I: Fn(Global, &mut Cursor<'_, '_>, usize) -> Result<FromItem, Stop>,
> Grammar<E, Q, I> {
    #[tactic(auto, unfolding(crate::specs::Readers::sub))]
    fn sub(&self, tokens: &mut Cursor<'_, '_>, at: u32) -> Result<FromItem, Stop>
        requires { Nests self.now.depth (E.pre self.now.expr) (E.post self.now.expr) (Q.pre self.now.select) (Q.post self.now.select) (I.pre self.now.item) (I.post self.now.item) }
        ensures { Reads (spec.sub (spec.select self.now.depth) at tokens.old) result tokens.new }
    {
        let select = self.select(tokens)?;
        let select = boxed(self.alloc, select)?;
        tokens.expect(Class::Close)?;
        let alias = alias(self.alloc, tokens)?;
        Ok(FromItem::Sub { select, alias, at })
    }

    #[tactic(auto, unfolding(crate::specs::Readers::grouped))]
    fn grouped(&self, tokens: &mut Cursor<'_, '_>) -> Result<FromItem, Stop>
        requires { Nests self.now.depth (E.pre self.now.expr) (E.post self.now.expr) (Q.pre self.now.select) (Q.post self.now.select) (I.pre self.now.item) (I.post self.now.item) }
        ensures { Reads (spec.grouped (spec.item self.now.depth) tokens.old) result tokens.new }
    {
        let item = self.item(tokens)?;
        let item = boxed(self.alloc, item)?;
        tokens.expect(Class::Close)?;
        Ok(item.into_inner())
    }

    fn inside(&self, tokens: &mut Cursor<'_, '_>, at: u32) -> Result<FromItem, Stop>
        requires { Nests self.now.depth (E.pre self.now.expr) (E.post self.now.expr) (Q.pre self.now.select) (Q.post self.now.select) (I.pre self.now.item) (I.post self.now.item) }
        ensures { Reads (spec.inside_by (spec.select self.now.depth) (spec.item self.now.depth) at (first tokens.old) tokens.old) result tokens.new }
    {
        match tokens.peek() {
            Class::Select => {
                let item = self.sub(tokens, at)?;
                Ok(item)
            }
            _ => {
                let item = self.grouped(tokens)?;
                Ok(item)
            }
        }
    }

    #[tactic(auto, unfolding(crate::specs::Readers::in_parens))]
    fn in_parens(&self, tokens: &mut Cursor<'_, '_>) -> Result<FromItem, Stop>
        requires { Nests self.now.depth (E.pre self.now.expr) (E.post self.now.expr) (Q.pre self.now.select) (Q.post self.now.select) (I.pre self.now.item) (I.post self.now.item) }
        ensures { Reads (spec.in_parens (spec.select self.now.depth) (spec.item self.now.depth) tokens.old) result tokens.new }
    {
        let at = tokens.place();
        tokens.expect(Class::Open)?;
        let item = self.inside(tokens, at)?;
        Ok(item)
    }

    #[tactic(auto, unfolding(crate::specs::Readers::primary))]
    fn primary(&self, tokens: &mut Cursor<'_, '_>) -> Result<FromItem, Stop>
        requires { Nests self.now.depth (E.pre self.now.expr) (E.post self.now.expr) (Q.pre self.now.select) (Q.post self.now.select) (I.pre self.now.item) (I.post self.now.item) }
        ensures { Reads (spec.primary (spec.select self.now.depth) (spec.item self.now.depth) tokens.old) result tokens.new }
    {
        match tokens.peek() {
            Class::Open => {
                let item = self.in_parens(tokens)?;
                Ok(item)
            }
            _ => {
                let item = table(self.alloc, tokens)?;
                Ok(item)
            }
        }
    }

    #[tactic(auto, unfolding(crate::specs::Readers::crossed))]
    fn crossed(&self, tokens: &mut Cursor<'_, '_>) -> Result<Joined, Stop>
        requires { Nests self.now.depth (E.pre self.now.expr) (E.post self.now.expr) (Q.pre self.now.select) (Q.post self.now.select) (I.pre self.now.item) (I.post self.now.item) }
        ensures { Reads (spec.crossed (spec.select self.now.depth) (spec.item self.now.depth) tokens.old) result tokens.new }
    {
        tokens.expect(Class::Cross)?;
        tokens.expect(Class::Join)?;
        let right = self.primary(tokens)?;
        let right = boxed(self.alloc, right)?;
        Ok((JoinWord::Cross, right, None))
    }

    #[tactic(auto, unfolding(crate::specs::Readers::sided))]
    fn sided(&self, tokens: &mut Cursor<'_, '_>) -> Result<Joined, Stop>
        requires { Nests self.now.depth (E.pre self.now.expr) (E.post self.now.expr) (Q.pre self.now.select) (Q.post self.now.select) (I.pre self.now.item) (I.post self.now.item) }
        ensures { Reads (spec.sided (spec.expr self.now.depth) (spec.select self.now.depth) (spec.item self.now.depth) tokens.old) result tokens.new }
    {
        let kind = side(tokens)?;
        tokens.expect(Class::Join)?;
        let right = self.primary(tokens)?;
        let right = boxed(self.alloc, right)?;
        tokens.expect(Class::On)?;
        let on = self.expr(tokens)?;
        let on = boxed(self.alloc, on)?;
        Ok((kind, right, Some(on)))
    }

    #[tactic(auto, unfolding(crate::specs::Readers::join_of))]
    fn join(&self, tokens: &mut Cursor<'_, '_>) -> Result<Joined, Stop>
        requires { Nests self.now.depth (E.pre self.now.expr) (E.post self.now.expr) (Q.pre self.now.select) (Q.post self.now.select) (I.pre self.now.item) (I.post self.now.item) }
        ensures { Reads (spec.join_of (spec.expr self.now.depth) (spec.select self.now.depth) (spec.item self.now.depth) tokens.old) result tokens.new }
    {
        match tokens.peek() {
            Class::Cross => {
                let joined = self.crossed(tokens)?;
                Ok(joined)
            }
            _ => {
                let joined = self.sided(tokens)?;
                Ok(joined)
            }
        }
    }

    fn more_joins(&self, tokens: &mut Cursor<'_, '_>) -> Result<Items<Joined>, Stop>
        requires { Nests self.now.depth (E.pre self.now.expr) (E.post self.now.expr) (Q.pre self.now.select) (Q.post self.now.select) (I.pre self.now.item) (I.post self.now.item) }
        ensures { Reads (reading.many (begins_by begin.Join) (spec.join_of (spec.expr self.now.depth) (spec.select self.now.depth) (spec.item self.now.depth)) tokens.old) result tokens.new }
    {
        many(self.alloc, tokens, Begin::Join, |tokens| self.join(tokens))
    }

    #[tactic(auto, unfolding(crate::specs::Readers::item_of))]
    pub fn item_of(&self, tokens: &mut Cursor<'_, '_>) -> Result<FromItem, Stop>
        requires { Nests self.now.depth (E.pre self.now.expr) (E.post self.now.expr) (Q.pre self.now.select) (Q.post self.now.select) (I.pre self.now.item) (I.post self.now.item) }
        ensures { Reads (spec.item_of (spec.expr self.now.depth) (spec.select self.now.depth) (spec.item self.now.depth) tokens.old) result tokens.new }
    {
        let at = tokens.place();
        let first = self.primary(tokens)?;
        let first = boxed(self.alloc, first)?;
        let joins = self.more_joins(tokens)?;
        let item = join_chain(self.alloc, at, first, joins)?;
        Ok(item)
    }
}
