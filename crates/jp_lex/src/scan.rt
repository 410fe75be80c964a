//! What stands at the front of a source: a piece of a gap, or a token.

ghost use Rattle.std.specs.Prelude.{◌≡◌, ◌+◌, ◌^◌, ◌<◌, ◌≤◌, length, IfSome, false, true};
ghost use Rattle.std.specs.List.{prefix_len};
ghost use Rattle.jp_lex.specs.Chars.{is_word_byte, is_digit};
ghost use Rattle.jp_lex.specs.Cutting as cutting;
ghost use Rattle.jp_lex.specs.Scan as spec;

use crate::chars::{is_digit, is_letter, is_white, is_word_byte};
use crate::token::TokenKind;

/// What begins a text: its kind, its length, and the number of bytes of its content.
#[derive(Clone, Copy)]
pub(crate) struct Scanned {
    pub(crate) kind: TokenKind,
    pub(crate) len: usize,
    pub(crate) size: usize,
}

/// The place after the `*/` of a comment, from its `/*` on, for the bytes that follow the `/*`.
fn comment_end(comment: &[u8]) -> Option<usize>
    requires { length comment.now < 2 ^ 63 }
    ensures value { result ≡ spec.comment_from false 0 2 comment.now }
    ensures within { IfSome result (λ end. end ≤ length comment.now + 2) }
{
    let mut rest = comment;
    let mut at = 2;
    let mut depth: usize = 0;
    loop {
        match rest {
            [b'/', b'*', tail @ ..] => {
                depth += 1;
                at += 2;
                rest = tail;
            }
            [b'*', b'/', tail @ ..] => {
                at += 2;
                if depth == 0 {
                    return Some(at);
                }
                depth -= 1;
                rest = tail;
            }
            [_, tail @ ..] => {
                at += 1;
                rest = tail;
            }
            [] => return None,
        }
    }
}

/// The number of bytes before the first line feed.
fn line_body_len(src: &[u8]) -> usize
    ensures value { result ≡ prefix_len cutting.is_in_line src.now }
    ensures within { result ≤ length src.now }
{
    src.iter().take_while(|b| **b != b'\n').count()
}

/// The length of the line at the front, with its line feed if there is one.
fn line_len(src: &[u8]) -> usize
    requires { length src.now < 2 ^ 63 }
    ensures { result ≡ spec.line_len src.now }
{
    src.len().min(line_body_len(src) + 1)
}

/// The length of the white byte or comment at the front, or 0. A comment that isn't closed is none.
#[tactic(auto, unfolding(crate::specs::Scan::piece_len))]
fn piece_len(src: &[u8]) -> usize
    requires { length src.now < 2 ^ 63 }
    ensures value { result ≡ spec.piece_len src.now }
    ensures within { result ≤ length src.now }
{
    match src {
        [b, ..] if is_white(*b) => 1,
        [b'-', b'-', ..] => line_len(src),
        [b'/', b'*', comment @ ..] => comment_end(comment).unwrap_or(0),
        _ => 0,
    }
}

/// The length of the longest gap at the front.
pub(crate) fn gap_len(src: &[u8]) -> usize
    requires { length src.now < 2 ^ 63 }
    ensures longest { spec.LongestAt src.now result }
    ensures within { result ≤ length src.now }
{
    let mut len = 0;
    'pieces: loop {
        match piece_len(&src[len..]) {
            0 => return len,
            more => len += more,
        }
    }
}

/// The place of the quote that closes a body, from the opening quote on, and the number of bytes of the
/// content, for the bytes that follow the opening quote.
fn quote_end(quote: u8, body: &[u8]) -> Option<(usize, usize)>
    requires { length body.now < 2 ^ 63 }
    ensures value { result ≡ spec.quote_from quote false 1 0 body.now }
    ensures within { IfSome result (λ end. end.0 ≤ length body.now) }
{
    let mut rest = body;
    let mut at = 1;
    let mut size = 0;
    loop {
        match rest {
            [b, next, tail @ ..] if *b == quote && *next == quote => {
                at += 2;
                size += 1;
                rest = tail;
            }
            [b, ..] if *b == quote => return Some((at, size)),
            [_, tail @ ..] => {
                at += 1;
                size += 1;
                rest = tail;
            }
            [] => return None,
        }
    }
}

fn quoted(kind: TokenKind, quote: u8, body: &[u8]) -> Option<Scanned>
    requires { length body.now < 2 ^ 63 }
    ensures { result ≡ spec.closed kind (spec.quote_from quote false 1 0 body.now) }
{
    let (end, size) = quote_end(quote, body)?;
    Some(Scanned {
        kind,
        len: end + 1,
        size,
    })
}

/// `( ) , . ; + - * = < >`
fn is_symbol(b: u8) -> bool
    ensures { result ≡ cutting.is_symbol b }
{
    matches!(b, b'('..=b'.' | b';' | b'<'..=b'>')
}

/// `<> <= != >= ||`
fn is_long_symbol(b: u8, next: u8) -> bool
    ensures { result ≡ cutting.is_long_symbol b next }
{
    matches!(
        (b, next),
        (b'<', b'>') | (b'<' | b'!' | b'>', b'=') | (b'|', b'|')
    )
}

fn plain(kind: TokenKind, len: usize) -> Scanned
    ensures { result ≡ spec.plain kind len }
{
    Scanned {
        kind,
        len,
        size: len,
    }
}

fn word_len(src: &[u8]) -> usize
    ensures { result ≡ prefix_len is_word_byte src.now }
{
    src.iter().take_while(|b| is_word_byte(**b)).count()
}

fn digits_len(src: &[u8]) -> usize
    ensures { result ≡ prefix_len is_digit src.now }
{
    src.iter().take_while(|b| is_digit(**b)).count()
}

/// The token at the front, if one begins there and is closed.
#[tactic(auto, unfolding(crate::specs::Scan::scan))]
pub(crate) fn scan(src: &[u8]) -> Option<Scanned>
    requires { length src.now < 2 ^ 63 }
    ensures { result ≡ spec.scan src.now }
{
    match src {
        [b, ..] if is_letter(*b) => Some(plain(TokenKind::Word, word_len(src))),
        [b, ..] if is_digit(*b) => Some(plain(TokenKind::Number, digits_len(src))),
        [b'"', body @ ..] => quoted(TokenKind::Quoted, b'"', body),
        [b'\'', body @ ..] => quoted(TokenKind::Text, b'\'', body),
        [b, next, ..] if is_long_symbol(*b, *next) => Some(plain(TokenKind::Symbol, 2)),
        [b, ..] if is_symbol(*b) => Some(plain(TokenKind::Symbol, 1)),
        _ => None,
    }
}
