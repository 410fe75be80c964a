use crate::statements::{push_times, verdict};
use std::alloc::{AllocError, Global};
use std::process::Abort;
use std::test::Fail;

/// A source of a head, so many pieces, a middle, as many other pieces and a tail.
struct Nested {
    head: &'static str,
    opening: &'static str,
    middle: &'static str,
    closing: &'static str,
    tail: &'static str,
    /// How many of the pieces open 64 places.
    count: usize,
    /// What the source is with so many pieces.
    within: &'static str,
    /// What it is with one more.
    beyond: &'static str,
}

const NESTED: &[Nested] = &[
    Nested {
        head: "SELECT ",
        opening: "(",
        middle: "x",
        closing: ")",
        tail: " FROM a",
        count: 64,
        within: "statement",
        beyond: "deep 71",
    },
    Nested {
        head: "SELECT x FROM ",
        opening: "(",
        middle: "a",
        closing: ")",
        tail: "",
        count: 64,
        within: "statement",
        beyond: "deep 78",
    },
    Nested {
        head: "SELECT ",
        opening: "CASE WHEN ",
        middle: "x",
        closing: " THEN 1 END",
        tail: " FROM a",
        count: 64,
        within: "statement",
        beyond: "deep 647",
    },
    Nested {
        head: "SELECT ",
        opening: "COALESCE(",
        middle: "x",
        closing: ")",
        tail: " FROM a",
        count: 64,
        within: "statement",
        beyond: "deep 591",
    },
    Nested {
        head: "SELECT x FROM a WHERE ",
        opening: "EXISTS (SELECT x FROM a WHERE ",
        middle: "x",
        closing: ")",
        tail: "",
        count: 64,
        within: "statement",
        beyond: "deep 1949",
    },
    Nested {
        head: "SELECT x FROM ",
        opening: "(SELECT x FROM ",
        middle: "a",
        closing: ")",
        tail: "",
        count: 64,
        within: "statement",
        beyond: "deep 974",
    },
    Nested {
        head: "SELECT x FROM a WHERE x",
        opening: " IN (1, (2",
        middle: "",
        closing: "))",
        tail: "",
        count: 32,
        within: "statement",
        beyond: "deep 347",
    },
    // Nesting is judged before the grammar is tried.
    Nested {
        head: "x ",
        opening: "(",
        middle: "",
        closing: "",
        tail: "",
        count: 64,
        within: "syntax 0",
        beyond: "deep 66",
    },
    // Where nothing is open, nothing is closed.
    Nested {
        head: ")))",
        opening: "(",
        middle: "",
        closing: "",
        tail: "",
        count: 64,
        within: "syntax 0",
        beyond: "deep 67",
    },
];

fn source_of(alloc: Global, given: &Nested, count: usize) -> Result<String, AllocError> {
    let mut source = String::new(alloc);
    source.push_str(given.head)?;
    push_times(&mut source, given.opening, count)?;
    source.push_str(given.middle)?;
    push_times(&mut source, given.closing, count)?;
    source.push_str(given.tail)?;
    Ok(source)
}

/// Asks that each source is judged as stated, with 64 places open and with more.
fn check(rt: &impl Abort, alloc: Global, cases: &[Nested]) -> Result<(), Fail> {
    for given in cases {
        let source = source_of(alloc, given, given.count)?;
        let found = verdict(alloc, source.as_str())?;
        assert_eq!(rt; found.as_str(), given.within, "{}", given.opening);
        let source = source_of(alloc, given, given.count.saturating_add(1))?;
        let found = verdict(alloc, source.as_str())?;
        assert_eq!(rt; found.as_str(), given.beyond, "{}", given.opening);
    }
    Ok(())
}

#[test]
fn at_most_64_places_are_open(rt: HostRuntime) -> Result<(), Fail> {
    check(&rt, rt.alloc(), NESTED)
}
