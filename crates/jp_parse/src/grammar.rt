//! The rules that hold others in parentheses take their readers as parameters, so that each is proved by itself.

ghost use Rattle.std.specs.Prelude.{◌≡◌};
ghost use Rattle.jp_parse.specs.Readers as spec;
ghost use Rattle.jp_cursor.specs.Reads.{Reads};
ghost use Rattle.jp_parse.specs.Nests.{Nests};

use jp_ast::{Ast, FromItem, Select};
use jp_cursor::{Cursor, Stop};
use std::alloc::Global;

#[derive(Clone, Copy)]
pub struct Grammar<E, Q, I> {
    pub alloc: Global,
    /// How deep the rules may still hold one another.
    pub depth: usize,
    pub expr: E,
    pub select: Q,
    pub item: I,
}

impl<
    E: Fn(Global, &mut Cursor<'_, '_>, usize) -> Result<Ast, Stop>,
    Q: Fn(Global, &mut Cursor<'_, '_>, usize) -> Result<Select, Stop>,
    I: Fn(Global, &mut Cursor<'_, '_>, usize) -> Result<FromItem, Stop>,
> Grammar<E, Q, I> {
    pub fn expr(&self, tokens: &mut Cursor<'_, '_>) -> Result<Ast, Stop>
        requires { Nests self.now.depth (E.pre self.now.expr) (E.post self.now.expr) (Q.pre self.now.select) (Q.post self.now.select) (I.pre self.now.item) (I.post self.now.item) }
        ensures { Reads (spec.expr self.now.depth tokens.old) result tokens.new }
    {
        (self.expr)(self.alloc, tokens, self.depth)
    }

    pub fn select(&self, tokens: &mut Cursor<'_, '_>) -> Result<Select, Stop>
        requires { Nests self.now.depth (E.pre self.now.expr) (E.post self.now.expr) (Q.pre self.now.select) (Q.post self.now.select) (I.pre self.now.item) (I.post self.now.item) }
        ensures { Reads (spec.select self.now.depth tokens.old) result tokens.new }
    {
        (self.select)(self.alloc, tokens, self.depth)
    }

    pub fn item(&self, tokens: &mut Cursor<'_, '_>) -> Result<FromItem, Stop>
        requires { Nests self.now.depth (E.pre self.now.expr) (E.post self.now.expr) (Q.pre self.now.select) (Q.post self.now.select) (I.pre self.now.item) (I.post self.now.item) }
        ensures { Reads (spec.item self.now.depth tokens.old) result tokens.new }
    {
        (self.item)(self.alloc, tokens, self.depth)
    }
}

#[cycle(grammar)]
#[tactic(auto, unfolding(crate::specs::Readers::expr))]
pub fn expr(alloc: Global, tokens: &mut Cursor<'_, '_>, depth: usize) -> Result<Ast, Stop>
    ensures { Reads (spec.expr depth tokens.old) result tokens.new }
{
    if depth == 0 {
        return Err(Stop::Stuck);
    }
    let value = Grammar {
        alloc,
        depth: depth - 1,
        expr,
        select,
        item,
    }
    .expr_of(tokens)?;
    Ok(value)
}

#[cycle(grammar)]
#[tactic(auto, unfolding(crate::specs::Readers::select))]
pub fn select(alloc: Global, tokens: &mut Cursor<'_, '_>, depth: usize) -> Result<Select, Stop>
    ensures { Reads (spec.select depth tokens.old) result tokens.new }
{
    if depth == 0 {
        return Err(Stop::Stuck);
    }
    let value = Grammar {
        alloc,
        depth: depth - 1,
        expr,
        select,
        item,
    }
    .select_from(tokens)?;
    Ok(value)
}

#[cycle(grammar)]
#[tactic(auto, unfolding(crate::specs::Readers::item))]
pub fn item(alloc: Global, tokens: &mut Cursor<'_, '_>, depth: usize) -> Result<FromItem, Stop>
    ensures { Reads (spec.item depth tokens.old) result tokens.new }
{
    if depth == 0 {
        return Err(Stop::Stuck);
    }
    let value = Grammar {
        alloc,
        depth: depth - 1,
        expr,
        select,
        item,
    }
    .item_of(tokens)?;
    Ok(value)
}
