use crate::token_cases::{NOT_UTF8, TOKENS};
use jp_lex::{Token, TokenKind, tokens};
use std::alloc::{AllocError, Global};
use std::process::Abort;
use std::test::Fail;

fn letter(kind: TokenKind) -> &'static str {
    match kind {
        TokenKind::Word => "w",
        TokenKind::Quoted => "q",
        TokenKind::Number => "n",
        TokenKind::Text => "t",
        TokenKind::Symbol => "s",
    }
}

/// Each token as its kind, place and text.
fn written(alloc: Global, found: &[Token<'_>]) -> Result<String, AllocError> {
    let mut text = String::new(alloc);
    for token in found {
        let part = format!(in alloc; "{}{} {}|", letter(token.kind), token.at, token.text)?;
        text.push_str(&part)?;
    }
    Ok(text)
}

fn answer(alloc: Global, source: &[u8]) -> Result<String, Fail> {
    if source.len() > 65536 {
        return Err(Fail::from("too long"));
    }
    match tokens(alloc, source) {
        Ok(list) => Ok(written(alloc, &list)?),
        Err(error) => Ok(format!(in alloc; "{error:?}")?),
    }
}

/// Asks that each source is cut or refused as the list says.
fn check(rt: &impl Abort, alloc: Global, cases: &[(&str, &str)]) -> Result<(), Fail> {
    for (source, expected) in cases {
        let found = answer(alloc, source.as_bytes())?;
        assert_eq!(rt; found.as_str(), *expected, "{source}");
    }
    Ok(())
}

fn check_bytes(rt: &impl Abort, alloc: Global, cases: &[(&[u8], &str)]) -> Result<(), Fail> {
    for (source, expected) in cases {
        let found = answer(alloc, source)?;
        assert_eq!(rt; found.as_str(), *expected);
    }
    Ok(())
}

#[test]
fn sources_are_cut_or_refused_as_stated(rt: HostRuntime) -> Result<(), Fail> {
    check(&rt, rt.alloc(), TOKENS)?;
    check_bytes(&rt, rt.alloc(), NOT_UTF8)
}
