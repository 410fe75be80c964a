//! Expressions that begin and end with tokens of their own.

ghost use Rattle.std.specs.Prelude.{◌≡◌};
ghost use Rattle.jp_ast.specs.declared.class.Class.TheVariants as k;
ghost use Rattle.jp_cursor.specs.Reading as reading;
ghost use Rattle.jp_parse.specs.Readers as spec;
ghost use Rattle.jp_cursor.specs.declared.lists.Begin.TheVariants as begin;
ghost use Rattle.jp_cursor.specs.Lists.{begins_by, separated_by};
ghost use Rattle.jp_cursor.specs.Reads.{Reads};
ghost use Rattle.jp_parse.specs.Parts.{some_expr};
ghost use Rattle.jp_parse.specs.Nests.{Nests};

use crate::grammar::Grammar;
use crate::parts::{false_atom, name_atom, null_atom, number_atom, text_atom, true_atom};
use jp_ast::{Ast, Class, FromItem, Select};
use jp_cursor::{Begin, Cursor, Stop, boxed, followed, many, one, separated};
use sqlite_items::{Boxed, Items};
use std::alloc::Global;

impl<
    E: Fn(Global, &mut Cursor<'_, '_>, usize) -> Result<Ast, Stop>,
    Q: Fn(Global, &mut Cursor<'_, '_>, usize) -> Result<Select, Stop>,
    I: Fn(Global, &mut Cursor<'_, '_>, usize) -> Result<FromItem, Stop>,
> Grammar<E, Q, I> {
    #[tactic(auto, unfolding(crate::specs::Readers::parens))]
    fn parens(&self, tokens: &mut Cursor<'_, '_>) -> Result<Ast, Stop>
        requires { Nests self.now.depth (E.pre self.now.expr) (E.post self.now.expr) (Q.pre self.now.select) (Q.post self.now.select) (I.pre self.now.item) (I.post self.now.item) }
        ensures { Reads (spec.parens (spec.expr self.now.depth) tokens.old) result tokens.new }
    {
        tokens.expect(Class::Open)?;
        let inner = self.expr(tokens)?;
        let inner = boxed(self.alloc, inner)?;
        tokens.expect(Class::Close)?;
        Ok(inner.into_inner())
    }

    fn more_exprs(&self, tokens: &mut Cursor<'_, '_>) -> Result<Items<Ast>, Stop>
        requires { Nests self.now.depth (E.pre self.now.expr) (E.post self.now.expr) (Q.pre self.now.select) (Q.post self.now.select) (I.pre self.now.item) (I.post self.now.item) }
        ensures { Reads (separated_by k.Comma (spec.expr self.now.depth) tokens.old) result tokens.new }
    {
        separated(self.alloc, tokens, Class::Comma, |tokens| self.expr(tokens))
    }

    pub fn exprs(&self, tokens: &mut Cursor<'_, '_>) -> Result<Items<Ast>, Stop>
        requires { Nests self.now.depth (E.pre self.now.expr) (E.post self.now.expr) (Q.pre self.now.select) (Q.post self.now.select) (I.pre self.now.item) (I.post self.now.item) }
        ensures { Reads (reading.listed (spec.expr self.now.depth) tokens.old) result tokens.new }
    {
        let first = self.expr(tokens)?;
        let first = one(self.alloc, first)?;
        let more = self.more_exprs(tokens)?;
        let list = followed(first, more)?;
        Ok(list)
    }

    #[tactic(auto, unfolding(crate::specs::Readers::coalesce))]
    fn coalesce(&self, tokens: &mut Cursor<'_, '_>) -> Result<Ast, Stop>
        requires { Nests self.now.depth (E.pre self.now.expr) (E.post self.now.expr) (Q.pre self.now.select) (Q.post self.now.select) (I.pre self.now.item) (I.post self.now.item) }
        ensures { Reads (spec.coalesce (spec.expr self.now.depth) tokens.old) result tokens.new }
    {
        let at = tokens.place();
        tokens.expect(Class::Coalesce)?;
        tokens.expect(Class::Open)?;
        let list = self.exprs(tokens)?;
        tokens.expect(Class::Close)?;
        Ok(Ast::Coalesce { list, at })
    }

    fn boxed_expr(&self, tokens: &mut Cursor<'_, '_>) -> Result<Option<Boxed<Ast>>, Stop>
        requires { Nests self.now.depth (E.pre self.now.expr) (E.post self.now.expr) (Q.pre self.now.select) (Q.post self.now.select) (I.pre self.now.item) (I.post self.now.item) }
        ensures { Reads (some_expr (spec.expr self.now.depth) tokens.old) result tokens.new }
    {
        let value = self.expr(tokens)?;
        let value = boxed(self.alloc, value)?;
        Ok(Some(value))
    }

    #[tactic(auto, unfolding(crate::specs::Readers::operand))]
    fn operand(&self, tokens: &mut Cursor<'_, '_>) -> Result<Option<Boxed<Ast>>, Stop>
        requires { Nests self.now.depth (E.pre self.now.expr) (E.post self.now.expr) (Q.pre self.now.select) (Q.post self.now.select) (I.pre self.now.item) (I.post self.now.item) }
        ensures { Reads (spec.operand (spec.expr self.now.depth) tokens.old) result tokens.new }
    {
        match tokens.peek() {
            Class::When => Ok(None),
            _ => {
                let operand = self.boxed_expr(tokens)?;
                Ok(operand)
            }
        }
    }

    #[tactic(auto, unfolding(crate::specs::Readers::arm))]
    fn arm(&self, tokens: &mut Cursor<'_, '_>) -> Result<(Ast, Ast), Stop>
        requires { Nests self.now.depth (E.pre self.now.expr) (E.post self.now.expr) (Q.pre self.now.select) (Q.post self.now.select) (I.pre self.now.item) (I.post self.now.item) }
        ensures { Reads (spec.arm (spec.expr self.now.depth) tokens.old) result tokens.new }
    {
        tokens.expect(Class::When)?;
        let when = self.expr(tokens)?;
        let when = boxed(self.alloc, when)?;
        tokens.expect(Class::Then)?;
        let value = self.expr(tokens)?;
        Ok((when.into_inner(), value))
    }

    fn more_arms(&self, tokens: &mut Cursor<'_, '_>) -> Result<Items<(Ast, Ast)>, Stop>
        requires { Nests self.now.depth (E.pre self.now.expr) (E.post self.now.expr) (Q.pre self.now.select) (Q.post self.now.select) (I.pre self.now.item) (I.post self.now.item) }
        ensures { Reads (reading.many (begins_by begin.When) (spec.arm (spec.expr self.now.depth)) tokens.old) result tokens.new }
    {
        many(self.alloc, tokens, Begin::When, |tokens| self.arm(tokens))
    }

    #[tactic(auto, unfolding(crate::specs::Readers::arms))]
    fn arms(&self, tokens: &mut Cursor<'_, '_>) -> Result<Items<(Ast, Ast)>, Stop>
        requires { Nests self.now.depth (E.pre self.now.expr) (E.post self.now.expr) (Q.pre self.now.select) (Q.post self.now.select) (I.pre self.now.item) (I.post self.now.item) }
        ensures { Reads (spec.arms (spec.expr self.now.depth) tokens.old) result tokens.new }
    {
        let first = self.arm(tokens)?;
        let first = one(self.alloc, first)?;
        let more = self.more_arms(tokens)?;
        let arms = followed(first, more)?;
        Ok(arms)
    }

    #[tactic(auto, unfolding(crate::specs::Readers::otherwise))]
    fn otherwise(&self, tokens: &mut Cursor<'_, '_>) -> Result<Option<Boxed<Ast>>, Stop>
        requires { Nests self.now.depth (E.pre self.now.expr) (E.post self.now.expr) (Q.pre self.now.select) (Q.post self.now.select) (I.pre self.now.item) (I.post self.now.item) }
        ensures { Reads (spec.otherwise (spec.expr self.now.depth) tokens.old) result tokens.new }
    {
        match tokens.peek() {
            Class::Else => {
                tokens.expect(Class::Else)?;
                let value = self.boxed_expr(tokens)?;
                Ok(value)
            }
            _ => Ok(None),
        }
    }

    #[tactic(auto, unfolding(crate::specs::Readers::cases))]
    fn cases(&self, tokens: &mut Cursor<'_, '_>) -> Result<Ast, Stop>
        requires { Nests self.now.depth (E.pre self.now.expr) (E.post self.now.expr) (Q.pre self.now.select) (Q.post self.now.select) (I.pre self.now.item) (I.post self.now.item) }
        ensures { Reads (spec.cases (spec.expr self.now.depth) tokens.old) result tokens.new }
    {
        let at = tokens.place();
        tokens.expect(Class::Case)?;
        let operand = self.operand(tokens)?;
        let arms = self.arms(tokens)?;
        let otherwise = self.otherwise(tokens)?;
        tokens.expect(Class::End)?;
        Ok(Ast::Case {
            operand,
            arms,
            otherwise,
            at,
        })
    }

    #[tactic(auto, unfolding(crate::specs::Readers::exists))]
    fn exists(&self, tokens: &mut Cursor<'_, '_>) -> Result<Ast, Stop>
        requires { Nests self.now.depth (E.pre self.now.expr) (E.post self.now.expr) (Q.pre self.now.select) (Q.post self.now.select) (I.pre self.now.item) (I.post self.now.item) }
        ensures { Reads (spec.exists (spec.select self.now.depth) tokens.old) result tokens.new }
    {
        let at = tokens.place();
        tokens.expect(Class::Exists)?;
        tokens.expect(Class::Open)?;
        let select = self.select(tokens)?;
        let select = boxed(self.alloc, select)?;
        tokens.expect(Class::Close)?;
        Ok(Ast::Exists { select, at })
    }

    #[tactic(auto, unfolding(crate::specs::Readers::atom))]
    pub fn atom(&self, tokens: &mut Cursor<'_, '_>) -> Result<Ast, Stop>
        requires { Nests self.now.depth (E.pre self.now.expr) (E.post self.now.expr) (Q.pre self.now.select) (Q.post self.now.select) (I.pre self.now.item) (I.post self.now.item) }
        ensures { Reads (spec.atom (spec.expr self.now.depth) (spec.select self.now.depth) tokens.old) result tokens.new }
    {
        match tokens.peek() {
            Class::Number => {
                let atom = number_atom(tokens)?;
                Ok(atom)
            }
            Class::Text => {
                let atom = text_atom(self.alloc, tokens)?;
                Ok(atom)
            }
            Class::True => {
                let atom = true_atom(tokens)?;
                Ok(atom)
            }
            Class::False => {
                let atom = false_atom(tokens)?;
                Ok(atom)
            }
            Class::Null => {
                let atom = null_atom(tokens)?;
                Ok(atom)
            }
            Class::Open => {
                let atom = self.parens(tokens)?;
                Ok(atom)
            }
            Class::Exists => {
                let atom = self.exists(tokens)?;
                Ok(atom)
            }
            Class::Coalesce => {
                let atom = self.coalesce(tokens)?;
                Ok(atom)
            }
            Class::Case => {
                let atom = self.cases(tokens)?;
                Ok(atom)
            }
            _ => {
                let atom = name_atom(self.alloc, tokens)?;
                Ok(atom)
            }
        }
    }
}
