//! A whole statement.

ghost use Rattle.std.specs.Prelude.{◌≡◌, ◌≤◌, suc, length, Ok, Err};
ghost use Rattle.jp_lex.specs.Cutting.{Bytes, lexemes, Tokens};
ghost use Rattle.jp_ast.specs.Answer.{ParsedAs};
ghost use Rattle.jp_ast.specs.Nesting.{nested_by};
ghost use Rattle.jp_ast.specs.Place.{end_of};
ghost use Rattle.jp_parse.specs.Readers as spec;
ghost use Rattle.jp_parse.specs.Verdict.{passing_from, ending, as_error, answer, Agrees};
ghost use Rattle.jp_cursor.specs.Reads.{Reads};
ghost use Rattle.jp_ast.specs.SeenTokens.{seen_tokens, AllFit};

use crate::grammar::{Grammar, expr, item, select};
use jp_ast::{Class, ParseError, Stmt};
use jp_cursor::{Cursor, Stop, class_of};
use jp_lex::Token;
use std::alloc::Global;

/// How many places may be open at once.
const MAX_NESTING: u32 = 64;

/// How many places are open behind a token.
fn nested(class: Class, before: u32) -> u32
    requires { before ≤ 64 }
    ensures { result ≡ nested_by class before }
{
    match class {
        Class::Open | Class::Case => before + 1,
        Class::Close | Class::End => before.saturating_sub(1),
        _ => before,
    }
}

/// The place of the first token behind which too many places are open.
fn passing(tokens: &[Token<'_>]) -> Option<u32>
    ensures { result ≡ passing_from 0 (seen_tokens tokens.now) }
{
    let mut nesting = 0;
    'tokens: for token in tokens {
        nesting = nested(class_of(token), nesting);
        if nesting > MAX_NESTING {
            return Some(token.at);
        }
    }
    None
}

/// The place behind the last token.
fn end(tokens: &[Token<'_>]) -> u32
    requires { AllFit (seen_tokens tokens.now) }
    ensures { result ≡ end_of (seen_tokens tokens.now) }
{
    match tokens.last() {
        Some(last) => last.at + last.text.len() as u32,
        None => 0,
    }
}

#[tactic(auto, unfolding(crate::specs::Readers::statement))]
fn statement(alloc: Global, cursor: &mut Cursor<'_, '_>, depth: usize) -> Result<Stmt, Stop>
    ensures { Reads (spec.statement depth cursor.old) result cursor.new }
{
    let grammar = Grammar {
        alloc,
        depth,
        expr,
        select,
        item,
    };
    let stmt = grammar.statement_of(cursor)?;
    Ok(stmt)
}

/// The answer where a statement was read, behind which the cursor stands.
fn read(tokens: &[Token<'_>], cursor: &Cursor<'_, '_>, stmt: Stmt) -> Result<Stmt, ParseError>
    ensures { result ≡ ending (seen_tokens tokens.now) (Ok (stmt, cursor.now)) }
{
    if cursor.is_at_end() {
        Ok(stmt)
    } else {
        Err(ParseError::Syntax(cursor.place()))
    }
}

/// The answer where no rule takes the token at which the cursor stands.
fn stuck(tokens: &[Token<'_>], cursor: &Cursor<'_, '_>) -> ParseError
    requires { AllFit (seen_tokens tokens.now) }
    ensures { Err result ≡ ending (seen_tokens tokens.now) (Err cursor.now) }
{
    if cursor.is_at_end() {
        ParseError::Syntax(end(tokens))
    } else {
        ParseError::Syntax(cursor.place())
    }
}

#[tactic(auto, unfolding(crate::specs::Readers::parsed))]
fn parsed(alloc: Global, tokens: &[Token<'_>]) -> Result<Stmt, ParseError>
    requires { AllFit (seen_tokens tokens.now) }
    ensures { Agrees result (as_error (spec.parsed (seen_tokens tokens.now))) }
{
    let mut cursor = Cursor::new(tokens);
    match statement(alloc, &mut cursor, tokens.len() + 1) {
        Ok(stmt) => read(tokens, &cursor, stmt),
        Err(Stop::Stuck) => Err(stuck(tokens, &cursor)),
        Err(Stop::Memory) => Err(ParseError::Memory),
    }
}

/// The answer by the readers.
fn answered(alloc: Global, tokens: &[Token<'_>]) -> Result<Stmt, ParseError>
    requires { AllFit (seen_tokens tokens.now) }
    ensures { Agrees result (answer (seen_tokens tokens.now)) }
{
    match passing(tokens) {
        Some(at) => Err(ParseError::TooDeep(at)),
        None => parsed(alloc, tokens),
    }
}

/// The statement that the tokens of a source derive, by a part of PostgreSQL's gram.y. Nesting is judged before the grammar
/// is tried; places are those of the source's bytes.
pub fn parse(alloc: Global, tokens: &[Token<'_>]) -> Result<Stmt, ParseError>
    requires { (src : Bytes) × (length src ≤ 65536) × Tokens src (lexemes tokens.now) }
    ensures { ParsedAs (seen_tokens tokens.now) result }
{
    answered(alloc, tokens)
}
