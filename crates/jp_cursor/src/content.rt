//! What the text of a token stands for.

ghost use Rattle.std.specs.Prelude.{◌≡◌, ◌^◌, ◌<◌, false, map, IfOk, IsUtf8};
ghost use Rattle.jp_lex.specs.Chars.{lower};
ghost use Rattle.jp_lex.specs.Cutting.{value};
ghost use Rattle.jp_ast.specs.Seen as spec;
ghost use Rattle.jp_ast.specs.SeenTokens.{seen_token};

use jp_base::{Memory, Txt};
use jp_lex::{Token, TokenKind};
use std::alloc::Global;
use std::str;

/// The text in lower case.
fn folded(alloc: Global, text: &str) -> Result<Txt, Memory>
    ensures { IfOk result (λ content. content ≡ map lower text.now) }
{
    match text.to_ascii_lowercase(alloc) {
        Ok(folded) => {
            let content = Txt::new(alloc, folded.as_str())?;
            Ok(content)
        }
        Err(_) => Err(Memory),
    }
}

/// What stands between the first byte and the last.
fn inside(text: &[u8]) -> &[u8]
    ensures { result.now ≡ spec.inside text.now }
{
    match text {
        [_, inside @ .., _] => inside,
        _ => &[],
    }
}

/// The bytes without the second quote of each two.
fn undoubled(alloc: Global, quote: u8, text: &[u8]) -> Result<Vec<u8>, Memory>
    ensures { IfOk result (λ content. content.items ≡ spec.undoubled quote false text.now) }
{
    let mut content = Vec::new(alloc);
    let mut is_second = false;
    'bytes: for b in text {
        if is_second {
            is_second = false;
            continue;
        }
        content.push(*b)?;
        is_second = *b == quote;
    }
    Ok(content)
}

/// What stands between the quotes.
fn unquoted(alloc: Global, quote: u8, text: &str) -> Result<Txt, Memory>
    requires { IsUtf8 (spec.undoubled quote false (spec.inside text.now)) }
    ensures { IfOk result (λ content. content ≡ spec.undoubled quote false (spec.inside text.now)) }
{
    let bytes = undoubled(alloc, quote, inside(text.as_bytes()))?;
    match str::from_utf8(bytes.as_slice()) {
        Ok(content) => {
            let content = Txt::new(alloc, content)?;
            Ok(content)
        }
        Err(_) => unreachable!(),
    }
}

/// A word in lower case, a name or a text without its quotes.
pub fn content(alloc: Global, token: &Token<'_>) -> Result<Txt, Memory>
    requires { IsUtf8 (seen_token token.now).content }
    ensures { IfOk result (λ content. content ≡ (seen_token token.now).content) }
{
    let content = match token.kind {
        TokenKind::Word => folded(alloc, token.text)?,
        TokenKind::Quoted => unquoted(alloc, b'"', token.text)?,
        TokenKind::Number => Txt::new(alloc, token.text)?,
        TokenKind::Text => unquoted(alloc, b'\'', token.text)?,
        TokenKind::Symbol => Txt::new(alloc, token.text)?,
    };
    Ok(content)
}

/// What the digits write.
pub fn number_value(digits: &[u8]) -> u128
    requires { value digits.now < 2 ^ 127 }
    ensures { result ≡ value digits.now }
{
    let mut number: u128 = 0;
    'digits: for digit in digits {
        number = 10 * number + u128::from(digit.saturating_sub(b'0'));
    }
    number
}
