ghost use Rattle.std.specs.Prelude.{◌≤◌, length, IfOk};

use crate::cases::{
    CONDITIONS, CUTS, EXPRESSIONS, FROM_ITEMS, LONG, NAMES, OTHERS, REPORT, REPORT_TREE, RESERVED,
    SELECTS,
};
use crate::shown::shown;
use jp_lex::tokens;
use jp_parse::{ParseError, Stmt, parse};
use std::alloc::{AllocError, Global};
use std::process::Abort;
use std::test::Fail;

/// The bytes of a source that isn't too long.
pub fn bytes_of(source: &str) -> Result<&[u8], Fail>
    ensures { IfOk result (λ bytes. length bytes.now ≤ 65536) }
{
    if source.len() > 65536 {
        return Err(Fail::from("too long"));
    }
    Ok(source.as_bytes())
}

/// The text of a tree.
pub fn text_of(alloc: Global, stmt: &Stmt) -> Result<String, Fail> {
    Ok(shown(alloc, stmt)?)
}

/// What is wrong with a source, and where.
fn refusal(alloc: Global, error: ParseError) -> Result<String, Fail> {
    match error {
        ParseError::Syntax(at) => Ok(format!(in alloc; "syntax {at}")?),
        ParseError::TooDeep(at) => Ok(format!(in alloc; "deep {at}")?),
        ParseError::Memory => Err(Fail::from("memory")),
    }
}

fn accepted(alloc: Global) -> Result<String, Fail> {
    Ok(format!(in alloc; "statement")?)
}

/// The tree of a source, or its refusal.
fn tree(alloc: Global, source: &str) -> Result<String, Fail> {
    let tokens = tokens(alloc, bytes_of(source)?)?;
    match parse(alloc, tokens.as_slice()) {
        Ok(stmt) => text_of(alloc, &stmt),
        Err(error) => refusal(alloc, error),
    }
}

/// The word "statement" for a source that is one, or its refusal.
pub fn verdict(alloc: Global, source: &str) -> Result<String, Fail> {
    let tokens = tokens(alloc, bytes_of(source)?)?;
    match parse(alloc, tokens.as_slice()) {
        Ok(_) => accepted(alloc),
        Err(error) => refusal(alloc, error),
    }
}

/// Asks that each source is read as the list says.
fn check(rt: &impl Abort, alloc: Global, cases: &[(&str, &str)]) -> Result<(), Fail> {
    for (source, expected) in cases {
        let found = tree(alloc, source)?;
        assert_eq!(rt; found.as_str(), *expected, "{source}");
    }
    Ok(())
}

/// Asks that no word of the list is a name, and that each is one in quotes.
fn check_reserved(rt: &impl Abort, alloc: Global, words: &[&str]) -> Result<(), Fail> {
    for word in words {
        let source = format!(in alloc; "SELECT x FROM {word}")?;
        let found = tree(alloc, source.as_str())?;
        assert_eq!(rt; found.as_str(), "syntax 14", "{word}");
        let source = format!(in alloc; "SELECT x FROM \"{word}\"")?;
        let found = tree(alloc, source.as_str())?;
        let named = format!(in alloc; "select x@7 from {word}@14")?;
        assert_eq!(rt; found.as_str(), named.as_str());
    }
    Ok(())
}

#[test]
fn sources_are_read_as_stated(rt: HostRuntime) -> Result<(), Fail> {
    check(&rt, rt.alloc(), SELECTS)?;
    check(&rt, rt.alloc(), CONDITIONS)?;
    check(&rt, rt.alloc(), EXPRESSIONS)?;
    check(&rt, rt.alloc(), NAMES)?;
    check(&rt, rt.alloc(), FROM_ITEMS)?;
    check(&rt, rt.alloc(), OTHERS)?;
    check(&rt, rt.alloc(), &[(REPORT, REPORT_TREE)])?;
    check_reserved(&rt, rt.alloc(), RESERVED)
}

/// Asks of each end that the report up to there is a statement or misses its next token.
fn check_cuts(rt: &impl Abort, alloc: Global, cuts: &[(usize, bool)]) -> Result<(), Fail> {
    for (end, whole) in cuts {
        let Some(source) = REPORT.get(..*end) else {
            return Err(Fail::from("no cut"));
        };
        let found = verdict(alloc, source)?;
        if *whole {
            assert_eq!(rt; found.as_str(), "statement", "{source}");
        } else {
            let stop = format!(in alloc; "syntax {end}")?;
            assert_eq!(rt; found.as_str(), stop.as_str(), "{source}");
        }
    }
    Ok(())
}

#[test]
fn report_cut_behind_each_token(rt: HostRuntime) -> Result<(), Fail> {
    check_cuts(&rt, rt.alloc(), CUTS)
}

/// Writes a piece so many times.
pub fn push_times(out: &mut String, piece: &str, count: usize) -> Result<(), AllocError> {
    for _ in 0..count {
        out.push_str(piece)?;
    }
    Ok(())
}

/// Asks of each chain that it is a statement.
fn check_long(rt: &impl Abort, alloc: Global, chains: &[(&str, &str, usize)]) -> Result<(), Fail> {
    for (head, piece, count) in chains {
        let mut source = String::new(alloc);
        source.push_str(head)?;
        push_times(&mut source, piece, *count)?;
        if !head.contains("FROM") {
            source.push_str(" FROM a")?;
        }
        let found = verdict(alloc, source.as_str())?;
        assert_eq!(rt; found.as_str(), "statement", "{head}");
    }
    Ok(())
}

#[test]
fn long_chains(rt: HostRuntime) -> Result<(), Fail> {
    check_long(&rt, rt.alloc(), LONG)
}
