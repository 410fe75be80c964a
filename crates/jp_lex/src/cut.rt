//! Cuts a source into gaps and tokens, in turn.

ghost use Rattle.std.specs.Prelude.{◌≡◌, ◌⊎◌, ◌+◌, ◌^◌, ◌<◌, ◌≤◌, length, drop, slice_index, nat_lt, MatchResult};
ghost use Rattle.jp_lex.specs.Chars.{is_letter};
ghost use Rattle.jp_lex.specs.Cutting as spec;
ghost use Rattle.jp_lex.specs.Scan.{TokenAt, IsTokenOr, IsEndOr, IsNext};

use crate::chars::is_letter;
use crate::scan::{Scanned, gap_len, scan};
use crate::token::{LexError, Token, TokenKind};
use std::alloc::Global;

/// The most bytes of a name.
const LONGEST_NAME: usize = 63;

/// The greatest number, 2^127-1.
const WIDEST: u128 = 0x7fff_ffff_ffff_ffff_ffff_ffff_ffff_ffff;

/// The value of the digits is at most `WIDEST`.
fn fits(digits: &[u8]) -> bool
    ensures { result ≡ nat_lt (spec.value digits.now) (2 ^ 127) }
{
    let mut value: u128 = 0;
    for b in digits {
        let digit = u128::from(b.saturating_sub(b'0'));
        if value > (WIDEST - digit) / 10 {
            return false;
        }
        value = 10 * value + digit;
    }
    true
}

/// The first byte is a letter or `_`.
fn begins_word(rest: &[u8]) -> bool
    ensures { result ≡ is_letter (slice_index rest.now 0) }
{
    match rest {
        [b, ..] => is_letter(*b),
        [] => false,
    }
}

/// What is wrong with a token at a place, if anything; `size` counts the bytes of its content.
fn fault(at: u32, kind: TokenKind, text: &[u8], size: usize, rest: &[u8]) -> Option<LexError>
    requires { at + length text.now < 2 ^ 32 }
    ensures { result ≡ spec.fault at kind text.now size rest.now }
{
    match kind {
        TokenKind::Word if size > LONGEST_NAME => Some(LexError::NameTooLong(at)),
        TokenKind::Quoted if size == 0 => Some(LexError::BadByte(at)),
        TokenKind::Quoted if size > LONGEST_NAME => Some(LexError::NameTooLong(at)),
        TokenKind::Number if begins_word(rest) => Some(LexError::BadByte(at + text.len() as u32)),
        TokenKind::Number if !fits(text) => Some(LexError::NumberTooWide(at)),
        _ => None,
    }
}

/// The refusal at a place where no token begins.
fn unmatched(at: u32, b: u8, rest: &[u8]) -> LexError
    ensures { result ≡ spec.unmatched at b rest.now }
{
    match (b, rest) {
        (b'"', _) => LexError::OpenIdent(at),
        (b'\'', _) => LexError::OpenString(at),
        (b'/', [b'*', ..]) => LexError::OpenComment(at),
        _ => LexError::BadByte(at),
    }
}

/// The token that was found at a place, or what is wrong with it.
fn token_at(text: &str, start: usize, found: Scanned) -> Result<Token<'_>, LexError>
    requires place { start ≤ length text.now }
    requires short { length text.now ≤ 65536 }
    requires room { start + found.len ≤ length text.now }
    requires token { TokenAt (drop start text.now) found }
    ensures { IsTokenOr text.now start found result }
{
    let end = start + found.len;
    let src = text.as_bytes();
    match fault(
        start as u32,
        found.kind,
        &src[start..end],
        found.size,
        &src[end..],
    ) {
        Some(error) => Err(error),
        None => Ok(Token {
            kind: found.kind,
            text: &text[start..end],
            at: start as u32,
        }),
    }
}

/// The end of the source, or the refusal at a place where no token begins.
fn end_or_refusal(at: u32, rest: &[u8]) -> Option<LexError>
    ensures { IsEndOr at rest.now result }
{
    match rest {
        [b, tail @ ..] => Some(unmatched(at, *b, tail)),
        [] => None,
    }
}

/// The token behind the gap at a place, or none at the end.
fn next_token(text: &str, at: usize) -> Result<Option<Token<'_>>, LexError>
    requires place { at ≤ length text.now }
    requires short { length text.now ≤ 65536 }
    ensures { IsNext text.now at result }
{
    let src = text.as_bytes();
    let start = at + gap_len(&src[at..]);
    match scan(&src[start..]) {
        Some(found) => {
            let token = token_at(text, start, found)?;
            Ok(Some(token))
        }
        None => match end_or_refusal(start as u32, &src[start..]) {
            Some(error) => Err(error),
            None => Ok(None),
        },
    }
}

/// The tokens of a text.
pub(crate) fn cut(alloc: Global, text: &str) -> Result<Vec<Token<'_>>, LexError>
    requires { length text.now ≤ 65536 }
    ensures { MatchResult result
        (λ v. spec.Cut 0 text.now (spec.lexemes v.items))
        (λ e. (e ≡ LexError.Memory) ⊎ spec.Refusal 0 text.now e) }
{
    let mut found = Vec::new(alloc);
    let mut at = 0;
    'tokens: while let Some(token) = next_token(text, at)? {
        at = token.at as usize + token.text.len();
        match found.push(token) {
            Ok(()) => {}
            Err(_) => return Err(LexError::Memory),
        }
    }
    Ok(found)
}
