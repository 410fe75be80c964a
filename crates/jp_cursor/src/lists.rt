//! Lists of what one rule reads.

ghost use Rattle.std.specs.Prelude.{◌≡◌, [], ◌∷◌, ◌++◌, IfOk};
ghost use Rattle.jp_cursor.specs.Reading.{Reader};
ghost use Rattle.jp_cursor.specs.Reading as spec;
ghost use Rattle.jp_cursor.specs.Reads.{Reads, ReadsBy};
ghost use Rattle.jp_cursor.specs.Lists.{begins_by, separated_by};

use crate::classes::{begins_join, is_sign, same};
use crate::cursor::Cursor;
use crate::stop::Stop;
use jp_ast::Class;
use jp_base::Memory;
use sqlite_items::Items;
use std::alloc::Global;

/// What a member of a list begins with.
#[derive(Clone, Copy)]
pub enum Begin {
    /// `+` or `-`.
    Sign,
    When,
    Join,
}

fn begins(begin: Begin, class: Class) -> bool
    ensures { result ≡ begins_by begin class }
{
    match begin {
        Begin::Sign => is_sign(class),
        Begin::When => same(class, Class::When),
        Begin::Join => begins_join(class),
    }
}

pub fn one<T: Drop>(alloc: Global, item: T) -> Result<Items<T>, Memory>
    ensures { IfOk result (λ items. items ≡ item ∷ []) }
{
    let mut items = Items::new(alloc);
    items.push(item)?;
    Ok(items)
}

/// The items of both.
pub fn followed<T: Drop>(mut first: Items<T>, more: Items<T>) -> Result<Items<T>, Memory>
    ensures { IfOk result (λ items. items ≡ first ++ more) }
{
    first.append(more)?;
    Ok(first)
}

/// The items with one more in front.
pub fn in_front<T: Drop>(alloc: Global, first: T, more: Items<T>) -> Result<Items<T>, Memory>
    ensures { IfOk result (λ items. items ≡ first ∷ more) }
{
    let first = one(alloc, first)?;
    let items = followed(first, more)?;
    Ok(items)
}

/// As many members as there are.
pub fn many<T: Drop, M: Fn(&mut Cursor<'_, '_>) -> Result<T, Stop>>(
    alloc: Global,
    tokens: &mut Cursor<'_, '_>,
    begin: Begin,
    member: M,
) -> Result<Items<T>, Stop>
    requires { M.IsAlwaysCallable member }
    ensures { (reader : Reader T) → ReadsBy reader (M.post member) → Reads (spec.many (begins_by begin) reader tokens.old) result tokens.new }
{
    let mut found = Items::new(alloc);
    'members: for _turn in 0..tokens.turns() {
        if !begins(begin, tokens.peek()) {
            return Ok(found);
        }
        let item = member(tokens)?;
        match found.push(item) {
            Ok(()) => {}
            Err(_) => return Err(Stop::Memory),
        }
    }
    Err(Stop::Stuck)
}

/// As many members as there are, each behind a token of the class.
pub fn separated<T: Drop, M: Fn(&mut Cursor<'_, '_>) -> Result<T, Stop>>(
    alloc: Global,
    tokens: &mut Cursor<'_, '_>,
    between: Class,
    member: M,
) -> Result<Items<T>, Stop>
    requires { M.IsAlwaysCallable member }
    ensures { (reader : Reader T) → ReadsBy reader (M.post member) → Reads (separated_by between reader tokens.old) result tokens.new }
{
    let mut found = Items::new(alloc);
    'members: for _turn in 0..tokens.turns() {
        if !tokens.sees(between) {
            return Ok(found);
        }
        tokens.expect(between)?;
        let item = member(tokens)?;
        match found.push(item) {
            Ok(()) => {}
            Err(_) => return Err(Stop::Memory),
        }
    }
    Err(Stop::Stuck)
}
