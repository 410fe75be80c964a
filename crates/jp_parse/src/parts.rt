//! Rules without expressions.

ghost use Rattle.std.specs.Prelude.{◌≡◌};
ghost use Rattle.jp_ast.specs.declared.class.Class.TheVariants as k;
ghost use Rattle.jp_parse.specs.Readers as spec;
ghost use Rattle.jp_ast.specs.Classes.{first};
ghost use Rattle.jp_cursor.specs.Reads.{Reads};
ghost use Rattle.jp_parse.specs.Parts.{some_name, bare_alias};

use jp_ast::{Ast, Class, FromItem, JoinWord, Target};
use jp_base::Txt;
use jp_cursor::{Cursor, Stop, is_name};
use sqlite_items::Boxed;
use std::alloc::Global;

#[tactic(auto, unfolding(crate::specs::Readers::number_atom))]
pub fn number_atom(tokens: &mut Cursor<'_, '_>) -> Result<Ast, Stop>
    ensures { Reads (spec.number_atom tokens.old) result tokens.new }
{
    let at = tokens.place();
    let value = tokens.number()?;
    Ok(Ast::Number { value, at })
}

#[tactic(auto, unfolding(crate::specs::Readers::text_atom))]
pub fn text_atom(alloc: Global, tokens: &mut Cursor<'_, '_>) -> Result<Ast, Stop>
    ensures { Reads (spec.text_atom tokens.old) result tokens.new }
{
    let at = tokens.place();
    let value = tokens.text(alloc)?;
    Ok(Ast::Text { value, at })
}

#[tactic(auto, unfolding(crate::specs::Readers::word_atom))]
pub fn true_atom(tokens: &mut Cursor<'_, '_>) -> Result<Ast, Stop>
    ensures { Reads (spec.word_atom k.True spec.true_node tokens.old) result tokens.new }
{
    let at = tokens.place();
    tokens.expect(Class::True)?;
    Ok(Ast::Bool { value: true, at })
}

#[tactic(auto, unfolding(crate::specs::Readers::word_atom))]
pub fn false_atom(tokens: &mut Cursor<'_, '_>) -> Result<Ast, Stop>
    ensures { Reads (spec.word_atom k.False spec.false_node tokens.old) result tokens.new }
{
    let at = tokens.place();
    tokens.expect(Class::False)?;
    Ok(Ast::Bool { value: false, at })
}

#[tactic(auto, unfolding(crate::specs::Readers::word_atom))]
pub fn null_atom(tokens: &mut Cursor<'_, '_>) -> Result<Ast, Stop>
    ensures { Reads (spec.word_atom k.Null spec.null_node tokens.old) result tokens.new }
{
    let at = tokens.place();
    tokens.expect(Class::Null)?;
    Ok(Ast::Null { at })
}

fn after_name(
    alloc: Global,
    tokens: &mut Cursor<'_, '_>,
    at: u32,
    qualifier: Txt,
) -> Result<Ast, Stop>
    ensures { Reads (spec.after_name at qualifier (first tokens.old) tokens.old) result tokens.new }
{
    match tokens.peek() {
        Class::Dot => {
            tokens.expect(Class::Dot)?;
            let name = tokens.name(alloc)?;
            Ok(Ast::Qualified {
                qualifier,
                name,
                at,
            })
        }
        _ => Ok(Ast::Name {
            name: qualifier,
            at,
        }),
    }
}

#[tactic(auto, unfolding(crate::specs::Readers::name_atom))]
pub fn name_atom(alloc: Global, tokens: &mut Cursor<'_, '_>) -> Result<Ast, Stop>
    ensures { Reads (spec.name_atom tokens.old) result tokens.new }
{
    let at = tokens.place();
    let qualifier = tokens.name(alloc)?;
    let column = after_name(alloc, tokens, at, qualifier)?;
    Ok(column)
}

#[tactic(auto, unfolding(crate::specs::Readers::tested))]
fn tested(tokens: &mut Cursor<'_, '_>, at: u32, operand: Boxed<Ast>) -> Result<Ast, Stop>
    ensures { Reads (spec.tested at operand tokens.old) result tokens.new }
{
    tokens.expect(Class::Is)?;
    let negated = tokens.eat(Class::Not);
    let word = tokens.test()?;
    Ok(Ast::Is {
        operand,
        negated,
        word,
        at,
    })
}

/// `IS [NOT] word` behind an operand, if it is there.
#[tactic(auto, unfolding(crate::specs::Readers::test_tail))]
pub fn test_tail(tokens: &mut Cursor<'_, '_>, at: u32, operand: Boxed<Ast>) -> Result<Ast, Stop>
    ensures { Reads (spec.test_tail at operand tokens.old) result tokens.new }
{
    match tokens.peek() {
        Class::Is => {
            let test = tested(tokens, at, operand)?;
            Ok(test)
        }
        _ => Ok(operand.into_inner()),
    }
}

fn some_name(alloc: Global, tokens: &mut Cursor<'_, '_>) -> Result<Option<Txt>, Stop>
    ensures { Reads (some_name tokens.old) result tokens.new }
{
    let name = tokens.name(alloc)?;
    Ok(Some(name))
}

fn bare_alias(alloc: Global, tokens: &mut Cursor<'_, '_>) -> Result<Option<Txt>, Stop>
    ensures { Reads (bare_alias (first tokens.old) tokens.old) result tokens.new }
{
    if is_name(tokens.peek()) {
        let name = some_name(alloc, tokens)?;
        Ok(name)
    } else {
        Ok(None)
    }
}

/// `[[AS] name]`.
#[tactic(auto, unfolding(crate::specs::Readers::alias))]
pub fn alias(alloc: Global, tokens: &mut Cursor<'_, '_>) -> Result<Option<Txt>, Stop>
    ensures { Reads (spec.alias tokens.old) result tokens.new }
{
    match tokens.peek() {
        Class::As => {
            tokens.expect(Class::As)?;
            let name = some_name(alloc, tokens)?;
            Ok(name)
        }
        _ => {
            let name = bare_alias(alloc, tokens)?;
            Ok(name)
        }
    }
}

/// `[ASC | DESC]`: whether it is DESC.
#[tactic(auto, unfolding(crate::specs::Readers::direction))]
pub fn direction(tokens: &mut Cursor<'_, '_>) -> Result<bool, Stop>
    ensures { Reads (spec.direction tokens.old) result tokens.new }
{
    match tokens.peek() {
        Class::Asc => {
            tokens.expect(Class::Asc)?;
            Ok(false)
        }
        Class::Desc => {
            tokens.expect(Class::Desc)?;
            Ok(true)
        }
        _ => Ok(false),
    }
}

fn nulls_word(tokens: &mut Cursor<'_, '_>) -> Result<bool, Stop>
    ensures { Reads (spec.nulls_word (first tokens.old) tokens.old) result tokens.new }
{
    match tokens.peek() {
        Class::First => {
            tokens.expect(Class::First)?;
            Ok(true)
        }
        _ => {
            tokens.expect(Class::Last)?;
            Ok(false)
        }
    }
}

/// `[NULLS (FIRST | LAST)]`: whether NULL comes first.
#[tactic(auto, unfolding(crate::specs::Readers::nulls))]
pub fn nulls(tokens: &mut Cursor<'_, '_>, desc: bool) -> Result<bool, Stop>
    ensures { Reads (spec.nulls desc tokens.old) result tokens.new }
{
    match tokens.peek() {
        Class::Nulls => {
            tokens.expect(Class::Nulls)?;
            let first = nulls_word(tokens)?;
            Ok(first)
        }
        _ => Ok(desc),
    }
}

#[tactic(auto, unfolding(crate::specs::Readers::outer_side))]
fn outer_side(tokens: &mut Cursor<'_, '_>, class: Class, side: JoinWord) -> Result<JoinWord, Stop>
    ensures { Reads (spec.outer_side class side tokens.old) result tokens.new }
{
    tokens.expect(class)?;
    tokens.eat(Class::Outer);
    Ok(side)
}

#[tactic(auto, unfolding(crate::specs::Readers::inner_side))]
fn inner_side(tokens: &mut Cursor<'_, '_>) -> Result<JoinWord, Stop>
    ensures { Reads (spec.inner_side tokens.old) result tokens.new }
{
    tokens.expect(Class::Inner)?;
    Ok(JoinWord::Inner)
}

/// `[INNER | LEFT [OUTER] | RIGHT [OUTER] | FULL [OUTER]]`.
#[tactic(auto, unfolding(crate::specs::Readers::side))]
pub fn side(tokens: &mut Cursor<'_, '_>) -> Result<JoinWord, Stop>
    ensures { Reads (spec.side tokens.old) result tokens.new }
{
    match tokens.peek() {
        Class::Inner => {
            let side = inner_side(tokens)?;
            Ok(side)
        }
        Class::Left => {
            let side = outer_side(tokens, Class::Left, JoinWord::Left)?;
            Ok(side)
        }
        Class::Right => {
            let side = outer_side(tokens, Class::Right, JoinWord::Right)?;
            Ok(side)
        }
        Class::Full => {
            let side = outer_side(tokens, Class::Full, JoinWord::Full)?;
            Ok(side)
        }
        _ => Ok(JoinWord::Inner),
    }
}

#[tactic(auto, unfolding(crate::specs::Readers::all))]
pub fn all(tokens: &mut Cursor<'_, '_>) -> Result<Target, Stop>
    ensures { Reads (spec.all tokens.old) result tokens.new }
{
    let at = tokens.place();
    tokens.expect(Class::Star)?;
    Ok(Target::All { at })
}

#[tactic(auto, unfolding(crate::specs::Readers::all_of))]
pub fn all_of(alloc: Global, tokens: &mut Cursor<'_, '_>) -> Result<Target, Stop>
    ensures { Reads (spec.all_of tokens.old) result tokens.new }
{
    let at = tokens.place();
    let name = tokens.name(alloc)?;
    tokens.expect(Class::Dot)?;
    tokens.expect(Class::Star)?;
    Ok(Target::AllOf { name, at })
}

#[tactic(auto, unfolding(crate::specs::Readers::table))]
pub fn table(alloc: Global, tokens: &mut Cursor<'_, '_>) -> Result<FromItem, Stop>
    ensures { Reads (spec.table tokens.old) result tokens.new }
{
    let at = tokens.place();
    let name = tokens.name(alloc)?;
    let alias = alias(alloc, tokens)?;
    Ok(FromItem::Table { name, alias, at })
}
