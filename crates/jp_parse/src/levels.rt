//! The levels of expressions, from those that bind tightest.

ghost use Rattle.std.specs.Prelude.{◌≡◌};
ghost use Rattle.jp_ast.specs.declared.class.Class.TheVariants as k;
ghost use Rattle.jp_cursor.specs.Reading as reading;
ghost use Rattle.jp_parse.specs.Readers as spec;
ghost use Rattle.jp_ast.specs.Classes.{first};
ghost use Rattle.jp_cursor.specs.declared.lists.Begin.TheVariants as begin;
ghost use Rattle.jp_cursor.specs.Lists.{begins_by, separated_by};
ghost use Rattle.jp_parse.specs.Parts.{upper_bound};
ghost use Rattle.jp_cursor.specs.Reads.{Reads};
ghost use Rattle.jp_parse.specs.Nests.{Nests};

use crate::grammar::Grammar;
use crate::parts::test_tail;
use jp_ast::{Ast, Class, FromItem, Select};
use jp_cursor::{
    Begin, Chain, Cursor, Stop, between_node, boxed, gathered, is_comparison, is_sign, many,
    negated_at, separated, total,
};
use sqlite_items::{Boxed, Items};
use std::alloc::Global;

impl<
    E: Fn(Global, &mut Cursor<'_, '_>, usize) -> Result<Ast, Stop>,
    Q: Fn(Global, &mut Cursor<'_, '_>, usize) -> Result<Select, Stop>,
    I: Fn(Global, &mut Cursor<'_, '_>, usize) -> Result<FromItem, Stop>,
> Grammar<E, Q, I> {
    #[tactic(auto, unfolding(crate::specs::Readers::signed))]
    fn signed(&self, tokens: &mut Cursor<'_, '_>) -> Result<Ast, Stop>
        requires { Nests self.now.depth (E.pre self.now.expr) (E.post self.now.expr) (Q.pre self.now.select) (Q.post self.now.select) (I.pre self.now.item) (I.post self.now.item) }
        ensures { Reads (spec.signed (spec.expr self.now.depth) (spec.select self.now.depth) tokens.old) result tokens.new }
    {
        let at = tokens.place();
        let minus = tokens.sign()?;
        let operand = self.atom(tokens)?;
        let operand = boxed(self.alloc, operand)?;
        Ok(Ast::Sign { minus, operand, at })
    }

    #[tactic(auto, unfolding(crate::specs::Readers::sign))]
    fn sign(&self, tokens: &mut Cursor<'_, '_>) -> Result<Ast, Stop>
        requires { Nests self.now.depth (E.pre self.now.expr) (E.post self.now.expr) (Q.pre self.now.select) (Q.post self.now.select) (I.pre self.now.item) (I.post self.now.item) }
        ensures { Reads (spec.sign (spec.expr self.now.depth) (spec.select self.now.depth) tokens.old) result tokens.new }
    {
        if is_sign(tokens.peek()) {
            let signed = self.signed(tokens)?;
            Ok(signed)
        } else {
            let atom = self.atom(tokens)?;
            Ok(atom)
        }
    }

    fn more_factors(&self, tokens: &mut Cursor<'_, '_>) -> Result<Items<Ast>, Stop>
        requires { Nests self.now.depth (E.pre self.now.expr) (E.post self.now.expr) (Q.pre self.now.select) (Q.post self.now.select) (I.pre self.now.item) (I.post self.now.item) }
        ensures { Reads (separated_by k.Star (spec.sign (spec.expr self.now.depth) (spec.select self.now.depth)) tokens.old) result tokens.new }
    {
        separated(self.alloc, tokens, Class::Star, |tokens| self.sign(tokens))
    }

    #[tactic(auto, unfolding(crate::specs::Readers::product, crate::specs::Readers::level))]
    fn product(&self, tokens: &mut Cursor<'_, '_>) -> Result<Ast, Stop>
        requires { Nests self.now.depth (E.pre self.now.expr) (E.post self.now.expr) (Q.pre self.now.select) (Q.post self.now.select) (I.pre self.now.item) (I.post self.now.item) }
        ensures { Reads (spec.product (spec.expr self.now.depth) (spec.select self.now.depth) tokens.old) result tokens.new }
    {
        let at = tokens.place();
        let first = self.sign(tokens)?;
        let first = boxed(self.alloc, first)?;
        let more = self.more_factors(tokens)?;
        let node = gathered(self.alloc, Chain::Product, at, first, more)?;
        Ok(node)
    }

    #[tactic(auto, unfolding(crate::specs::Readers::term))]
    fn term(&self, tokens: &mut Cursor<'_, '_>) -> Result<(bool, Ast), Stop>
        requires { Nests self.now.depth (E.pre self.now.expr) (E.post self.now.expr) (Q.pre self.now.select) (Q.post self.now.select) (I.pre self.now.item) (I.post self.now.item) }
        ensures { Reads (spec.term (spec.expr self.now.depth) (spec.select self.now.depth) tokens.old) result tokens.new }
    {
        let minus = tokens.sign()?;
        let product = self.product(tokens)?;
        Ok((minus, product))
    }

    fn more_terms(&self, tokens: &mut Cursor<'_, '_>) -> Result<Items<(bool, Ast)>, Stop>
        requires { Nests self.now.depth (E.pre self.now.expr) (E.post self.now.expr) (Q.pre self.now.select) (Q.post self.now.select) (I.pre self.now.item) (I.post self.now.item) }
        ensures { Reads (reading.many (begins_by begin.Sign) (spec.term (spec.expr self.now.depth) (spec.select self.now.depth)) tokens.old) result tokens.new }
    {
        many(self.alloc, tokens, Begin::Sign, |tokens| self.term(tokens))
    }

    #[tactic(auto, unfolding(crate::specs::Readers::sum))]
    fn sum(&self, tokens: &mut Cursor<'_, '_>) -> Result<Ast, Stop>
        requires { Nests self.now.depth (E.pre self.now.expr) (E.post self.now.expr) (Q.pre self.now.select) (Q.post self.now.select) (I.pre self.now.item) (I.post self.now.item) }
        ensures { Reads (spec.sum (spec.expr self.now.depth) (spec.select self.now.depth) tokens.old) result tokens.new }
    {
        let at = tokens.place();
        let first = self.product(tokens)?;
        let first = boxed(self.alloc, first)?;
        let more = self.more_terms(tokens)?;
        let sum = total(self.alloc, at, first, more)?;
        Ok(sum)
    }

    fn more_parts(&self, tokens: &mut Cursor<'_, '_>) -> Result<Items<Ast>, Stop>
        requires { Nests self.now.depth (E.pre self.now.expr) (E.post self.now.expr) (Q.pre self.now.select) (Q.post self.now.select) (I.pre self.now.item) (I.post self.now.item) }
        ensures { Reads (separated_by k.Bars (spec.sum (spec.expr self.now.depth) (spec.select self.now.depth)) tokens.old) result tokens.new }
    {
        separated(self.alloc, tokens, Class::Bars, |tokens| self.sum(tokens))
    }

    #[tactic(auto, unfolding(crate::specs::Readers::cat, crate::specs::Readers::level))]
    fn cat(&self, tokens: &mut Cursor<'_, '_>) -> Result<Ast, Stop>
        requires { Nests self.now.depth (E.pre self.now.expr) (E.post self.now.expr) (Q.pre self.now.select) (Q.post self.now.select) (I.pre self.now.item) (I.post self.now.item) }
        ensures { Reads (spec.cat (spec.expr self.now.depth) (spec.select self.now.depth) tokens.old) result tokens.new }
    {
        let at = tokens.place();
        let first = self.sum(tokens)?;
        let first = boxed(self.alloc, first)?;
        let more = self.more_parts(tokens)?;
        let node = gathered(self.alloc, Chain::Concat, at, first, more)?;
        Ok(node)
    }

    /// `AND high` of BETWEEN.
    fn upper_bound(
        &self,
        tokens: &mut Cursor<'_, '_>,
        at: u32,
        operand: Boxed<Ast>,
        negated: bool,
        low: Boxed<Ast>,
    ) -> Result<Ast, Stop>
        requires { Nests self.now.depth (E.pre self.now.expr) (E.post self.now.expr) (Q.pre self.now.select) (Q.post self.now.select) (I.pre self.now.item) (I.post self.now.item) }
        ensures { Reads (upper_bound (spec.expr self.now.depth) (spec.select self.now.depth) at operand negated low tokens.old) result tokens.new }
    {
        tokens.expect(Class::And)?;
        let high = self.cat(tokens)?;
        let high = boxed(self.alloc, high)?;
        let node = between_node(self.alloc, at, negated, operand, low, high)?;
        Ok(node)
    }

    #[tactic(auto, unfolding(crate::specs::Readers::between))]
    fn between(
        &self,
        tokens: &mut Cursor<'_, '_>,
        at: u32,
        operand: Boxed<Ast>,
        negated: bool,
    ) -> Result<Ast, Stop>
        requires { Nests self.now.depth (E.pre self.now.expr) (E.post self.now.expr) (Q.pre self.now.select) (Q.post self.now.select) (I.pre self.now.item) (I.post self.now.item) }
        ensures { Reads (spec.between (spec.expr self.now.depth) (spec.select self.now.depth) at operand negated tokens.old) result tokens.new }
    {
        tokens.expect(Class::Between)?;
        let low = self.cat(tokens)?;
        let low = boxed(self.alloc, low)?;
        let node = self.upper_bound(tokens, at, operand, negated, low)?;
        Ok(node)
    }

    #[tactic(auto, unfolding(crate::specs::Readers::members))]
    fn members(
        &self,
        tokens: &mut Cursor<'_, '_>,
        at: u32,
        operand: Boxed<Ast>,
    ) -> Result<Ast, Stop>
        requires { Nests self.now.depth (E.pre self.now.expr) (E.post self.now.expr) (Q.pre self.now.select) (Q.post self.now.select) (I.pre self.now.item) (I.post self.now.item) }
        ensures { Reads (spec.members (spec.expr self.now.depth) (spec.select self.now.depth) at operand tokens.old) result tokens.new }
    {
        match tokens.peek() {
            Class::Select => {
                let select = self.select(tokens)?;
                let select = boxed(self.alloc, select)?;
                Ok(Ast::InSelect {
                    operand,
                    select,
                    at,
                })
            }
            _ => {
                let list = self.exprs(tokens)?;
                Ok(Ast::InList { operand, list, at })
            }
        }
    }

    #[tactic(auto, unfolding(crate::specs::Readers::among))]
    fn among(
        &self,
        tokens: &mut Cursor<'_, '_>,
        at: u32,
        operand: Boxed<Ast>,
        negated: bool,
    ) -> Result<Ast, Stop>
        requires { Nests self.now.depth (E.pre self.now.expr) (E.post self.now.expr) (Q.pre self.now.select) (Q.post self.now.select) (I.pre self.now.item) (I.post self.now.item) }
        ensures { Reads (spec.among (spec.expr self.now.depth) (spec.select self.now.depth) at operand negated tokens.old) result tokens.new }
    {
        tokens.expect(Class::In)?;
        tokens.expect(Class::Open)?;
        let plain = self.members(tokens, at, operand)?;
        let plain = boxed(self.alloc, plain)?;
        tokens.expect(Class::Close)?;
        Ok(negated_at(at, negated, plain))
    }

    fn behind_not(
        &self,
        tokens: &mut Cursor<'_, '_>,
        at: u32,
        operand: Boxed<Ast>,
    ) -> Result<Ast, Stop>
        requires { Nests self.now.depth (E.pre self.now.expr) (E.post self.now.expr) (Q.pre self.now.select) (Q.post self.now.select) (I.pre self.now.item) (I.post self.now.item) }
        ensures { Reads (spec.after_not_by (spec.expr self.now.depth) (spec.select self.now.depth) at operand (first tokens.old) tokens.old) result tokens.new }
    {
        match tokens.peek() {
            Class::Between => {
                let node = self.between(tokens, at, operand, true)?;
                Ok(node)
            }
            _ => {
                let node = self.among(tokens, at, operand, true)?;
                Ok(node)
            }
        }
    }

    #[tactic(auto, unfolding(crate::specs::Readers::after_not))]
    fn after_not(
        &self,
        tokens: &mut Cursor<'_, '_>,
        at: u32,
        operand: Boxed<Ast>,
    ) -> Result<Ast, Stop>
        requires { Nests self.now.depth (E.pre self.now.expr) (E.post self.now.expr) (Q.pre self.now.select) (Q.post self.now.select) (I.pre self.now.item) (I.post self.now.item) }
        ensures { Reads (spec.after_not (spec.expr self.now.depth) (spec.select self.now.depth) at operand tokens.old) result tokens.new }
    {
        tokens.expect(Class::Not)?;
        let node = self.behind_not(tokens, at, operand)?;
        Ok(node)
    }

    #[tactic(auto, unfolding(crate::specs::Readers::range_tail))]
    fn range_tail(
        &self,
        tokens: &mut Cursor<'_, '_>,
        at: u32,
        operand: Boxed<Ast>,
    ) -> Result<Ast, Stop>
        requires { Nests self.now.depth (E.pre self.now.expr) (E.post self.now.expr) (Q.pre self.now.select) (Q.post self.now.select) (I.pre self.now.item) (I.post self.now.item) }
        ensures { Reads (spec.range_tail (spec.expr self.now.depth) (spec.select self.now.depth) at operand tokens.old) result tokens.new }
    {
        match tokens.peek() {
            Class::Not => {
                let node = self.after_not(tokens, at, operand)?;
                Ok(node)
            }
            Class::Between => {
                let node = self.between(tokens, at, operand, false)?;
                Ok(node)
            }
            Class::In => {
                let node = self.among(tokens, at, operand, false)?;
                Ok(node)
            }
            _ => Ok(operand.into_inner()),
        }
    }

    #[tactic(auto, unfolding(crate::specs::Readers::range))]
    fn range(&self, tokens: &mut Cursor<'_, '_>) -> Result<Ast, Stop>
        requires { Nests self.now.depth (E.pre self.now.expr) (E.post self.now.expr) (Q.pre self.now.select) (Q.post self.now.select) (I.pre self.now.item) (I.post self.now.item) }
        ensures { Reads (spec.range (spec.expr self.now.depth) (spec.select self.now.depth) tokens.old) result tokens.new }
    {
        let at = tokens.place();
        let operand = self.cat(tokens)?;
        let operand = boxed(self.alloc, operand)?;
        let node = self.range_tail(tokens, at, operand)?;
        Ok(node)
    }

    #[tactic(auto, unfolding(crate::specs::Readers::compared))]
    fn compared(&self, tokens: &mut Cursor<'_, '_>, at: u32, left: Boxed<Ast>) -> Result<Ast, Stop>
        requires { Nests self.now.depth (E.pre self.now.expr) (E.post self.now.expr) (Q.pre self.now.select) (Q.post self.now.select) (I.pre self.now.item) (I.post self.now.item) }
        ensures { Reads (spec.compared (spec.expr self.now.depth) (spec.select self.now.depth) at left tokens.old) result tokens.new }
    {
        let op = tokens.comparison()?;
        let right = self.range(tokens)?;
        let right = boxed(self.alloc, right)?;
        Ok(Ast::Compare {
            op,
            left,
            right,
            at,
        })
    }

    #[tactic(auto, unfolding(crate::specs::Readers::compare_tail))]
    fn compare_tail(
        &self,
        tokens: &mut Cursor<'_, '_>,
        at: u32,
        left: Boxed<Ast>,
    ) -> Result<Ast, Stop>
        requires { Nests self.now.depth (E.pre self.now.expr) (E.post self.now.expr) (Q.pre self.now.select) (Q.post self.now.select) (I.pre self.now.item) (I.post self.now.item) }
        ensures { Reads (spec.compare_tail (spec.expr self.now.depth) (spec.select self.now.depth) at left tokens.old) result tokens.new }
    {
        if is_comparison(tokens.peek()) {
            let node = self.compared(tokens, at, left)?;
            Ok(node)
        } else {
            Ok(left.into_inner())
        }
    }

    #[tactic(auto, unfolding(crate::specs::Readers::compare))]
    fn compare(&self, tokens: &mut Cursor<'_, '_>) -> Result<Ast, Stop>
        requires { Nests self.now.depth (E.pre self.now.expr) (E.post self.now.expr) (Q.pre self.now.select) (Q.post self.now.select) (I.pre self.now.item) (I.post self.now.item) }
        ensures { Reads (spec.compare (spec.expr self.now.depth) (spec.select self.now.depth) tokens.old) result tokens.new }
    {
        let at = tokens.place();
        let left = self.range(tokens)?;
        let left = boxed(self.alloc, left)?;
        let node = self.compare_tail(tokens, at, left)?;
        Ok(node)
    }

    #[tactic(auto, unfolding(crate::specs::Readers::test_level))]
    fn test(&self, tokens: &mut Cursor<'_, '_>) -> Result<Ast, Stop>
        requires { Nests self.now.depth (E.pre self.now.expr) (E.post self.now.expr) (Q.pre self.now.select) (Q.post self.now.select) (I.pre self.now.item) (I.post self.now.item) }
        ensures { Reads (spec.test_level (spec.expr self.now.depth) (spec.select self.now.depth) tokens.old) result tokens.new }
    {
        let at = tokens.place();
        let operand = self.compare(tokens)?;
        let operand = boxed(self.alloc, operand)?;
        let node = test_tail(tokens, at, operand)?;
        Ok(node)
    }

    #[tactic(auto, unfolding(crate::specs::Readers::negated))]
    fn negated(&self, tokens: &mut Cursor<'_, '_>) -> Result<Ast, Stop>
        requires { Nests self.now.depth (E.pre self.now.expr) (E.post self.now.expr) (Q.pre self.now.select) (Q.post self.now.select) (I.pre self.now.item) (I.post self.now.item) }
        ensures { Reads (spec.negated (spec.expr self.now.depth) (spec.select self.now.depth) tokens.old) result tokens.new }
    {
        let at = tokens.place();
        tokens.expect(Class::Not)?;
        let operand = self.test(tokens)?;
        let operand = boxed(self.alloc, operand)?;
        Ok(Ast::Not { operand, at })
    }

    #[tactic(auto, unfolding(crate::specs::Readers::not_level))]
    fn not_level(&self, tokens: &mut Cursor<'_, '_>) -> Result<Ast, Stop>
        requires { Nests self.now.depth (E.pre self.now.expr) (E.post self.now.expr) (Q.pre self.now.select) (Q.post self.now.select) (I.pre self.now.item) (I.post self.now.item) }
        ensures { Reads (spec.not_level (spec.expr self.now.depth) (spec.select self.now.depth) tokens.old) result tokens.new }
    {
        match tokens.peek() {
            Class::Not => {
                let node = self.negated(tokens)?;
                Ok(node)
            }
            _ => {
                let node = self.test(tokens)?;
                Ok(node)
            }
        }
    }

    fn more_conditions(&self, tokens: &mut Cursor<'_, '_>) -> Result<Items<Ast>, Stop>
        requires { Nests self.now.depth (E.pre self.now.expr) (E.post self.now.expr) (Q.pre self.now.select) (Q.post self.now.select) (I.pre self.now.item) (I.post self.now.item) }
        ensures { Reads (separated_by k.And (spec.not_level (spec.expr self.now.depth) (spec.select self.now.depth)) tokens.old) result tokens.new }
    {
        separated(
            self.alloc,
            tokens,
            Class::And,
            |tokens| self.not_level(tokens),
        )
    }

    #[tactic(auto, unfolding(crate::specs::Readers::and_level, crate::specs::Readers::level))]
    fn and_level(&self, tokens: &mut Cursor<'_, '_>) -> Result<Ast, Stop>
        requires { Nests self.now.depth (E.pre self.now.expr) (E.post self.now.expr) (Q.pre self.now.select) (Q.post self.now.select) (I.pre self.now.item) (I.post self.now.item) }
        ensures { Reads (spec.and_level (spec.expr self.now.depth) (spec.select self.now.depth) tokens.old) result tokens.new }
    {
        let at = tokens.place();
        let first = self.not_level(tokens)?;
        let first = boxed(self.alloc, first)?;
        let more = self.more_conditions(tokens)?;
        let node = gathered(self.alloc, Chain::And, at, first, more)?;
        Ok(node)
    }

    fn more_choices(&self, tokens: &mut Cursor<'_, '_>) -> Result<Items<Ast>, Stop>
        requires { Nests self.now.depth (E.pre self.now.expr) (E.post self.now.expr) (Q.pre self.now.select) (Q.post self.now.select) (I.pre self.now.item) (I.post self.now.item) }
        ensures { Reads (separated_by k.Or (spec.and_level (spec.expr self.now.depth) (spec.select self.now.depth)) tokens.old) result tokens.new }
    {
        separated(
            self.alloc,
            tokens,
            Class::Or,
            |tokens| self.and_level(tokens),
        )
    }

    #[tactic(auto, unfolding(crate::specs::Readers::expr_of, crate::specs::Readers::level))]
    pub fn expr_of(&self, tokens: &mut Cursor<'_, '_>) -> Result<Ast, Stop>
        requires { Nests self.now.depth (E.pre self.now.expr) (E.post self.now.expr) (Q.pre self.now.select) (Q.post self.now.select) (I.pre self.now.item) (I.post self.now.item) }
        ensures { Reads (spec.expr_of (spec.expr self.now.depth) (spec.select self.now.depth) tokens.old) result tokens.new }
    {
        let at = tokens.place();
        let first = self.and_level(tokens)?;
        let first = boxed(self.alloc, first)?;
        let more = self.more_choices(tokens)?;
        let node = gathered(self.alloc, Chain::Or, at, first, more)?;
        Ok(node)
    }
}
