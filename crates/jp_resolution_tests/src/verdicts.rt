ghost use Rattle.std.specs.Prelude.{◌≤◌, length, IfOk};

use crate::cases::{
    EMPTY, EMPTY_CATALOGUE, KEYS, KEYS_CATALOGUE, LAST_MIXED, LAST_NUMBERS, MIXED, MIXED_CATALOGUE,
    MORE_MIXED, MORE_NUMBERS, NAMES, NAMES_CATALOGUE, NULLS, NULLS_CATALOGUE, NUMBERS,
    NUMBERS_CATALOGUE, ONE, ONE_CATALOGUE, REPEATS, REPEATS_CATALOGUE, SAME, SAME_CATALOGUE, SHOP,
    SHOP_CATALOGUE, STAFF, STAFF_CATALOGUE, TEXTS, TEXTS_CATALOGUE, TRUTH, TRUTH_CATALOGUE, TUVW,
    TUVW_CATALOGUE, WIDE, WIDE_CATALOGUE,
};
use jp_catalog::{Catalog, read_catalog};
use jp_lex::tokens;
use jp_parse::parse;
use jp_query::{Output, Query};
use jp_resolution::ResolveError;
use jp_resolve::resolve;
use std::alloc::{AllocError, Global};
use std::process::Abort;
use std::test::Fail;

/// The bytes of a source that isn't too long.
fn bytes_of(source: &str) -> Result<&[u8], Fail>
    ensures { IfOk result (λ bytes. length bytes.now ≤ 65536) }
{
    if source.len() > 65536 {
        return Err(Fail::from("too long"));
    }
    Ok(source.as_bytes())
}

/// The names of a query's outputs.
fn names(alloc: Global, outputs: &[Output]) -> Result<String, AllocError> {
    let mut out = String::new(alloc);
    out.push_str("accepted ")?;
    let mut first = true;
    for output in outputs {
        if !first {
            out.push_str(",")?;
        }
        out.push_str(output.name.as_str())?;
        first = false;
    }
    Ok(out)
}

/// What is wrong with a statement, and where.
fn refusal(alloc: Global, error: ResolveError) -> Result<String, Fail> {
    match error {
        ResolveError::UnknownTable(at) => Ok(format!(in alloc; "unknown table {at}")?),
        ResolveError::UnknownColumn(at) => Ok(format!(in alloc; "unknown column {at}")?),
        ResolveError::Ambiguous(at) => Ok(format!(in alloc; "ambiguous column {at}")?),
        ResolveError::DuplicateAlias(at) => Ok(format!(in alloc; "alias repeated {at}")?),
        ResolveError::TypeMismatch(at) => Ok(format!(in alloc; "type mismatch {at}")?),
        ResolveError::NotOneColumn(at) => Ok(format!(in alloc; "not one column {at}")?),
        ResolveError::NumberTooWide(at) => Ok(format!(in alloc; "number too wide {at}")?),
        ResolveError::OrderNotSelected(at) => Ok(format!(in alloc; "order not selected {at}")?),
        ResolveError::BadPosition(at) => Ok(format!(in alloc; "bad position {at}")?),
        ResolveError::TooManyTables(count) => Ok(format!(in alloc; "{count} entries")?),
        ResolveError::Memory => Err(Fail::from("memory")),
    }
}

/// The text of an answer.
fn shown(alloc: Global, answer: Result<Query, ResolveError>) -> Result<String, Fail> {
    match answer {
        Ok(query) => Ok(names(alloc, query.columns.as_slice())?),
        Err(error) => refusal(alloc, error),
    }
}

/// What resolution answers to a source.
fn verdict(alloc: Global, catalog: &Catalog, source: &str) -> Result<String, Fail> {
    let tokens = tokens(alloc, bytes_of(source)?)?;
    let stmt = parse(alloc, tokens.as_slice())?;
    shown(alloc, resolve(alloc, catalog, &stmt))
}

/// Asks that each statement is answered as the list says.
fn check(
    rt: &impl Abort,
    alloc: Global,
    catalogue: &str,
    cases: &[(&str, &str)],
) -> Result<(), Fail> {
    let catalog = read_catalog(alloc, catalogue.as_bytes())?;
    for (source, expected) in cases {
        let found = verdict(alloc, &catalog, source)?;
        assert_eq!(rt; found.as_str(), *expected, "{source}");
    }
    Ok(())
}

#[test]
fn over_numbers(rt: HostRuntime) -> Result<(), Fail> {
    check(&rt, rt.alloc(), NUMBERS_CATALOGUE, NUMBERS)
}

#[test]
fn over_more_numbers(rt: HostRuntime) -> Result<(), Fail> {
    check(&rt, rt.alloc(), NUMBERS_CATALOGUE, MORE_NUMBERS)
}

#[test]
fn over_the_last_numbers(rt: HostRuntime) -> Result<(), Fail> {
    check(&rt, rt.alloc(), NUMBERS_CATALOGUE, LAST_NUMBERS)
}

#[test]
fn over_one(rt: HostRuntime) -> Result<(), Fail> {
    check(&rt, rt.alloc(), ONE_CATALOGUE, ONE)
}

#[test]
fn over_names(rt: HostRuntime) -> Result<(), Fail> {
    check(&rt, rt.alloc(), NAMES_CATALOGUE, NAMES)
}

#[test]
fn over_truth(rt: HostRuntime) -> Result<(), Fail> {
    check(&rt, rt.alloc(), TRUTH_CATALOGUE, TRUTH)
}

#[test]
fn over_texts(rt: HostRuntime) -> Result<(), Fail> {
    check(&rt, rt.alloc(), TEXTS_CATALOGUE, TEXTS)
}

#[test]
fn over_nulls(rt: HostRuntime) -> Result<(), Fail> {
    check(&rt, rt.alloc(), NULLS_CATALOGUE, NULLS)
}

#[test]
fn over_wide(rt: HostRuntime) -> Result<(), Fail> {
    check(&rt, rt.alloc(), WIDE_CATALOGUE, WIDE)
}

#[test]
fn over_shop(rt: HostRuntime) -> Result<(), Fail> {
    check(&rt, rt.alloc(), SHOP_CATALOGUE, SHOP)
}

#[test]
fn over_staff(rt: HostRuntime) -> Result<(), Fail> {
    check(&rt, rt.alloc(), STAFF_CATALOGUE, STAFF)
}

#[test]
fn over_empty(rt: HostRuntime) -> Result<(), Fail> {
    check(&rt, rt.alloc(), EMPTY_CATALOGUE, EMPTY)
}

#[test]
fn over_repeats(rt: HostRuntime) -> Result<(), Fail> {
    check(&rt, rt.alloc(), REPEATS_CATALOGUE, REPEATS)
}

#[test]
fn over_same(rt: HostRuntime) -> Result<(), Fail> {
    check(&rt, rt.alloc(), SAME_CATALOGUE, SAME)
}

#[test]
fn over_keys(rt: HostRuntime) -> Result<(), Fail> {
    check(&rt, rt.alloc(), KEYS_CATALOGUE, KEYS)
}

#[test]
fn over_mixed(rt: HostRuntime) -> Result<(), Fail> {
    check(&rt, rt.alloc(), MIXED_CATALOGUE, MIXED)
}

#[test]
fn over_more_mixed(rt: HostRuntime) -> Result<(), Fail> {
    check(&rt, rt.alloc(), MIXED_CATALOGUE, MORE_MIXED)
}

#[test]
fn over_the_last_mixed(rt: HostRuntime) -> Result<(), Fail> {
    check(&rt, rt.alloc(), MIXED_CATALOGUE, LAST_MIXED)
}

#[test]
fn over_tuvw(rt: HostRuntime) -> Result<(), Fail> {
    check(&rt, rt.alloc(), TUVW_CATALOGUE, TUVW)
}
