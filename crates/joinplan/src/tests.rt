ghost use Rattle.std.specs.Prelude.{◌≡◌, ◌≤◌, ◌<◌, ◌⊎◌, ◌++◌, ◌-◌, ◌^◌, ℕ, List, [], IfOk, Ok, length, map, string_bytes, true};
ghost use Rattle.jp_io.specs.MemFiles.{fault_count, is_calm, told_files};
ghost use Rattle.jp_io.specs.MemSink.{failing_calls, room_left, taken_bytes};
ghost use Rattle.joinplan.specs.Answers.{HasBytes, Output, answer_of};

use crate::joinplan;
use jp_base::{Memory, Txt};
use jp_io::{MemFiles, MemSink};
use std::alloc::{AllocError, Global};
use std::test::Fail;

const CATALOGUE: &str = "version = 1
[tables.a]
file = \"a.csv\"
rows = 100
columns = [{name = \"id\", type = \"number\"}, {name = \"x\", type = \"number\"}]
primary_key = [\"id\"]
[tables.b]
file = \"b.csv\"
rows = 1000
columns = [{name = \"id\", type = \"number\"}, {name = \"aid\", type = \"number\"}, {name = \"y\", type = \"number\"}]
primary_key = [\"id\"]
[tables.c]
file = \"c.csv\"
rows = 10
columns = [{name = \"id\", type = \"number\"}, {name = \"bid\", type = \"number\"}, {name = \"z\", type = \"number\"}]
primary_key = [\"id\"]
unique = [[\"bid\"]]
[tables.d]
file = \"d.csv\"
rows = 10
columns = [{name = \"v\", type = \"number\"}]
[tables.t]
file = \"t.csv\"
rows = 10
columns = [{name = \"id\", type = \"number\"}, {name = \"name\", type = \"text\"}, {name = \"ok\", type = \"boolean\"}]
";

const UNSTATED: &str = "version = 1
[tables.a]
file = \"a.csv\"
columns = [{name = \"id\", type = \"number\"}, {name = \"x\", type = \"number\"}]
";

const LARGE: &str = "version = 1
[tables.big]
file = \"big.csv\"
rows = 1000000
columns = [{name = \"id\", type = \"number\"}, {name = \"ref\", type = \"number\"}]
primary_key = [\"id\"]
";

/// Tables that don't stand in the order of their names.
const TURNED: &str = "version = 1
[tables.d]
file = \"d.csv\"
rows = 10
columns = [{name = \"v\", type = \"number\"}]
[tables.a]
file = \"a.csv\"
rows = 100
columns = [{name = \"id\", type = \"number\"}, {name = \"x\", type = \"number\"}]
";

/// The names of the files that each row begins with, and their texts.
const FILES: &[(&str, &str)] = &[
    ("K", CATALOGUE),
    ("q.sql", "SELECT id FROM a WHERE x > 10"),
    ("a.csv", "id,x\n1,10\n2,20\n3,\\N\n"),
    ("b.csv", "id,aid,y\n3,2,\\N\n1,1,5\n2,1,6\n"),
    ("c.csv", "id,bid,z\n1,1,100\n2,\\N,7\n3,\\N,8\n"),
    ("d.csv", "v\n1\n1\n\\N\n\\N\n"),
    ("t.csv", "id,name,ok\n1,Ada,t\n2,\\N,\\N\n"),
];

const USAGE: &str =
    "usage: joinplan run CATALOG STATEMENT; explain [--verbose] CATALOG STATEMENT; check CATALOG; generate SEED SIZE\n";

/// A statement, a file with another text than in `FILES`, and what is answered. A name without a text leaves the files
/// as they are.
struct Row {
    name: &'static str,
    statement: &'static str,
    file: &'static str,
    text: &'static str,
    status: u8,
    out: &'static str,
    err: &'static str,
}

const ROWS: &[Row] = &[
    Row {
        name: "one_comparison",
        statement: "SELECT id FROM a WHERE x > 10",
        file: "",
        text: "",
        status: 0,
        out: "id\n2\n",
        err: "",
    },
    Row {
        name: "null_is_printed",
        statement: "select X from A where ID >= 2;",
        file: "",
        text: "",
        status: 0,
        out: "x\n20\n\\N\n",
        err: "",
    },
    Row {
        name: "table_with_its_header_alone",
        statement: "SELECT id FROM a WHERE x > 10",
        file: "a.csv",
        text: "id,x\n",
        status: 0,
        out: "id\n",
        err: "",
    },
    Row {
        name: "left_join_keeps_unmatched_rows",
        statement: "SELECT a.id, b.id FROM a LEFT JOIN b ON a.id = b.aid",
        file: "",
        text: "",
        status: 0,
        out: "id,id\n2,3\n1,1\n1,2\n3,\\N\n",
        err: "",
    },
    Row {
        name: "not_of_unknown",
        statement: "SELECT id FROM a WHERE NOT x > 10",
        file: "",
        text: "",
        status: 0,
        out: "id\n1\n",
        err: "",
    },
    Row {
        name: "chain_of_three",
        statement: "SELECT a.id, b.id, c.z FROM a LEFT JOIN b ON a.id = b.aid LEFT JOIN c ON b.id = c.bid",
        file: "",
        text: "",
        status: 0,
        out: "id,id,z\n2,3,\\N\n1,1,100\n1,2,\\N\n3,\\N,\\N\n",
        err: "",
    },
    Row {
        name: "inner_join_with_an_empty_side",
        statement: "SELECT a.id FROM a JOIN b ON a.id = b.aid",
        file: "b.csv",
        text: "id,aid,y\n",
        status: 0,
        out: "id\n",
        err: "",
    },
    Row {
        name: "left_join_that_never_matches",
        statement: "SELECT a.id, b.id FROM a LEFT OUTER JOIN b ON a.id > 100",
        file: "",
        text: "",
        status: 0,
        out: "id,id\n1,\\N\n2,\\N\n3,\\N\n",
        err: "",
    },
    Row {
        name: "on_refers_to_an_earlier_entry",
        statement: "SELECT a.id, b.id, d.v FROM a INNER JOIN b ON a.id = b.aid JOIN d ON a.id = d.v",
        file: "",
        text: "",
        status: 0,
        out: "id,id,v\n1,1,1\n1,1,1\n1,2,1\n1,2,1\n",
        err: "",
    },
    Row {
        name: "on_refers_to_a_later_entry",
        statement: "SELECT a.id FROM a JOIN b ON a.id = c.bid JOIN c ON b.id = c.bid",
        file: "",
        text: "",
        status: 4,
        out: "",
        err: "statement: unknown table at byte 36\n",
    },
    Row {
        name: "name_that_a_later_entry_would_repeat",
        statement: "SELECT a.id FROM a JOIN b ON a.id = aid JOIN b AS other ON other.id = a.id",
        file: "",
        text: "",
        status: 0,
        out: "id\n2\n1\n1\n",
        err: "",
    },
    Row {
        name: "ambiguous_name",
        statement: "SELECT id FROM a JOIN b ON a.id = b.aid",
        file: "",
        text: "",
        status: 4,
        out: "",
        err: "statement: ambiguous column at byte 7\n",
    },
    Row {
        name: "two_entries_of_one_name",
        statement: "SELECT a.id FROM a JOIN b a ON a.id = 1",
        file: "",
        text: "",
        status: 4,
        out: "",
        err: "statement: alias repeated at byte 24\n",
    },
    Row {
        name: "one_table_under_two_names",
        statement: "SELECT p.id, q.id FROM a p JOIN a q ON p.x < q.x",
        file: "",
        text: "",
        status: 0,
        out: "id,id\n1,2\n",
        err: "",
    },
    Row {
        name: "condition_with_and_or_is",
        statement: "SELECT id FROM a WHERE NOT x = 10 OR x IS NULL AND id = 3",
        file: "",
        text: "",
        status: 0,
        out: "id\n2\n3\n",
        err: "",
    },
    Row {
        name: "twelve_entries",
        statement: "SELECT a.v FROM d a LEFT JOIN d b ON a.v = 0 LEFT JOIN d c ON a.v = 0 LEFT JOIN d e ON a.v = 0 LEFT JOIN d f ON a.v = 0 LEFT JOIN d g ON a.v = 0 LEFT JOIN d h ON a.v = 0 LEFT JOIN d i ON a.v = 0 LEFT JOIN d j ON a.v = 0 LEFT JOIN d k ON a.v = 0 LEFT JOIN d l ON a.v = 0 LEFT JOIN d m ON a.v = 0",
        file: "",
        text: "",
        status: 0,
        out: "v\n1\n1\n\\N\n\\N\n",
        err: "",
    },
    Row {
        name: "thirteen_entries",
        statement: "SELECT a.v FROM d a LEFT JOIN d b ON a.v = 0 LEFT JOIN d c ON a.v = 0 LEFT JOIN d e ON a.v = 0 LEFT JOIN d f ON a.v = 0 LEFT JOIN d g ON a.v = 0 LEFT JOIN d h ON a.v = 0 LEFT JOIN d i ON a.v = 0 LEFT JOIN d j ON a.v = 0 LEFT JOIN d k ON a.v = 0 LEFT JOIN d l ON a.v = 0 LEFT JOIN d m ON a.v = 0 LEFT JOIN d n ON a.v = 0",
        file: "",
        text: "",
        status: 5,
        out: "",
        err: "limit: 13 table references, at most 12\n",
    },
    Row {
        name: "unknown_column",
        statement: "SELECT q FROM a WHERE x = 1",
        file: "",
        text: "",
        status: 4,
        out: "",
        err: "statement: unknown column at byte 7\n",
    },
    Row {
        name: "unknown_table",
        statement: "SELECT id FROM missing",
        file: "",
        text: "",
        status: 4,
        out: "",
        err: "statement: unknown table at byte 15\n",
    },
    Row {
        name: "parentheses",
        statement: "SELECT id FROM a WHERE (x = 1)",
        file: "",
        text: "",
        status: 0,
        out: "id\n",
        err: "",
    },
    Row {
        name: "number_of_a_table_with_texts",
        statement: "SELECT id FROM t WHERE id = 2",
        file: "",
        text: "",
        status: 0,
        out: "id\n2\n",
        err: "",
    },
    Row {
        name: "text_column",
        statement: "SELECT name FROM t",
        file: "",
        text: "",
        status: 0,
        out: "name\nAda\n\\N\n",
        err: "",
    },
    Row {
        name: "test_on_a_text_column",
        statement: "SELECT id FROM t WHERE name IS NULL",
        file: "",
        text: "",
        status: 0,
        out: "id\n2\n",
        err: "",
    },
    Row {
        name: "sublink_and_order",
        statement: "SELECT id FROM a WHERE EXISTS (SELECT 1 FROM b WHERE b.aid = a.id) ORDER BY id DESC",
        file: "",
        text: "",
        status: 0,
        out: "id\n2\n1\n",
        err: "",
    },
    Row {
        name: "distinct_rows_of_a_sub_select",
        statement: "SELECT DISTINCT s.v FROM (SELECT v FROM d) s ORDER BY 1",
        file: "",
        text: "",
        status: 0,
        out: "v\n1\n\\N\n",
        err: "",
    },
    Row {
        name: "byte_that_no_token_begins_with",
        statement: "SELECT id FROM a WHERE x # 1",
        file: "",
        text: "",
        status: 4,
        out: "",
        err: "statement: bad byte at byte 25\n",
    },
    Row {
        name: "no_statement",
        statement: "SELECT id FROM a WHERE",
        file: "",
        text: "",
        status: 4,
        out: "",
        err: "statement: syntax at byte 22\n",
    },
    Row {
        name: "empty_table_file",
        statement: "SELECT id FROM a WHERE x > 10",
        file: "a.csv",
        text: "",
        status: 3,
        out: "",
        err: "data: table a: header differs\n",
    },
    Row {
        name: "repeated_key",
        statement: "SELECT id FROM b",
        file: "b.csv",
        text: "id,aid,y\n1,1,5\n1,2,6\n",
        status: 3,
        out: "",
        err: "data: table b: records 1 and 2 repeat a key\n",
    },
    Row {
        name: "too_few_fields",
        statement: "SELECT id FROM b",
        file: "b.csv",
        text: "id,aid,y\n3,2\n",
        status: 3,
        out: "",
        err: "data: table b: record 1: 2 fields\n",
    },
    Row {
        name: "no_number",
        statement: "SELECT id FROM b",
        file: "b.csv",
        text: "id,aid,y\n3,2,5\n4,2,\\\n",
        status: 3,
        out: "",
        err: "data: table b: record 2 column 3: not a number\n",
    },
    Row {
        name: "no_boolean",
        statement: "SELECT id FROM t",
        file: "t.csv",
        text: "id,name,ok\n1,Ada,yes\n",
        status: 3,
        out: "",
        err: "data: table t: record 1 column 3: not a boolean\n",
    },
    Row {
        name: "null_in_a_key",
        statement: "SELECT id FROM a",
        file: "a.csv",
        text: "id,x\n1,1\n,2\n",
        status: 3,
        out: "",
        err: "data: table a: record 2: NULL in a key\n",
    },
    Row {
        name: "tables_in_order_of_first_mention",
        statement: "SELECT b.id FROM b JOIN a ON a.id = b.aid JOIN c ON c.id = a.id",
        file: "a.csv",
        text: "x\n",
        status: 3,
        out: "",
        err: "data: table a: header differs\n",
    },
    Row {
        name: "catalogue_without_rows",
        statement: "SELECT id FROM a WHERE x > 10",
        file: "K",
        text: UNSTATED,
        status: 2,
        out: "",
        err: "catalogue: missing tables.a.rows\n",
    },
    Row {
        name: "catalogue_that_is_no_toml",
        statement: "SELECT id FROM a WHERE x > 10",
        file: "K",
        text: "version",
        status: 2,
        out: "",
        err: "catalogue: not TOML\n",
    },
];

const COUNTS: &[Row] = &[
    Row {
        name: "all_tables",
        statement: "",
        file: "",
        text: "",
        status: 0,
        out: "a: 3 rows\nb: 3 rows\nc: 3 rows\nd: 4 rows\nt: 2 rows\n",
        err: "",
    },
    Row {
        name: "tables_in_another_order",
        statement: "",
        file: "K",
        text: TURNED,
        status: 0,
        out: "a: 3 rows\nd: 4 rows\n",
        err: "",
    },
    Row {
        name: "unique_key_repeated",
        statement: "",
        file: "c.csv",
        text: "id,bid,z\n1,\\N,100\n2,5,7\n3,5,8\n",
        status: 3,
        out: "",
        err: "data: table c: records 2 and 3 repeat a key\n",
    },
    Row {
        name: "version",
        statement: "",
        file: "K",
        text: "version = 2\n",
        status: 2,
        out: "",
        err: "catalogue: bad version\n",
    },
];

/// Plans by all methods. No data file is read: the first row's file of b has no header.
const PLANS: &[Row] = &[
    // both orders cost 3550, and the lesser left set goes first
    Row {
        name: "two_left_joins",
        statement: "SELECT a.id, b.id, c.z FROM a LEFT JOIN b ON a.id = b.aid LEFT JOIN c ON b.id = c.bid",
        file: "b.csv",
        text: "no header",
        status: 0,
        out: "HashRight Left rows=1000 cost=3550
  on: a.id = b.aid
  Scan a rows=100 cost=100
  Hash Left rows=1000 cost=2050
    on: b.id = c.bid
    Scan b rows=1000 cost=1000
    Scan c rows=10 cost=10
",
        err: "",
    },
    // the other order costs 3190
    Row {
        name: "two_left_joins_of_few",
        statement: "SELECT a.id, b.id, c.z FROM a LEFT JOIN b ON a.id = b.aid LEFT JOIN c ON b.id = c.bid WHERE a.x = 10",
        file: "",
        text: "",
        status: 0,
        out: "Hash Left rows=100 cost=2290
  on: b.id = c.bid
  HashRight Left rows=100 cost=2140
    on: a.id = b.aid
    Scan a rows=10 cost=100
      filter: a.x = 10
    Scan b rows=1000 cost=1000
  Scan c rows=10 cost=10
",
        err: "",
    },
    Row {
        name: "one_left_join",
        statement: "SELECT a.id, b.id FROM b RIGHT JOIN a ON a.id = b.aid",
        file: "",
        text: "",
        status: 0,
        out: "HashRight Left rows=1000 cost=2500
  on: a.id = b.aid
  Scan a rows=100 cost=100
  Scan b rows=1000 cost=1000
",
        err: "",
    },
    // a sort of both sides costs less than a table of a million rows in sixteen parts
    Row {
        name: "two_large_tables",
        statement: "SELECT p.id, q.id FROM big p JOIN big q ON p.id = q.ref",
        file: "K",
        text: LARGE,
        status: 0,
        out: "Merge Inner rows=1000000 cost=44000000
  on: p.id = q.ref
  Scan p rows=1000000 cost=1000000
  Scan q rows=1000000 cost=1000000
",
        err: "",
    },
    Row {
        name: "sublink_that_stays",
        statement: "SELECT id FROM a WHERE id NOT IN (SELECT y FROM b)",
        file: "",
        text: "",
        status: 0,
        out: "Scan a rows=50 cost=100
  filter: NOT (a.id IN (#1))
#1:
  Scan b rows=1000 cost=1000
",
        err: "",
    },
    Row {
        name: "sub_select_with_distinct",
        statement: "SELECT a.id FROM a JOIN (SELECT DISTINCT aid FROM b) s ON s.aid = a.id",
        file: "",
        text: "",
        status: 0,
        out: "Hash Inner rows=1000 cost=3500
  on: s.aid = a.id
  Sub s rows=1000 cost=2000
    Distinct
    Scan b rows=1000 cost=1000
  Scan a rows=100 cost=100
",
        err: "",
    },
    Row {
        name: "full_join",
        statement: "SELECT a.id, b.id FROM a FULL JOIN b ON a.x = b.y",
        file: "",
        text: "",
        status: 0,
        out: "Full rows=1100 cost=102200
  on: a.x = b.y
  Scan a rows=100 cost=100
  Scan b rows=1000 cost=1000
",
        err: "",
    },
    Row {
        name: "thirteen_entries",
        statement: "SELECT t1.id FROM a t1, a t2, a t3, a t4, a t5, a t6, a t7, a t8, a t9, a t10, a t11, a t12 WHERE EXISTS (SELECT 1 FROM b)",
        file: "",
        text: "",
        status: 5,
        out: "",
        err: "limit: 13 table references, at most 12\n",
    },
];

/// A caller's use of completeness: over files and a sink in memory of which no call is to fail, an answer for which the sink has
/// room is written, and the status is 0, unless memory is refused.
fn served(
    alloc: Global,
    words: &[String],
    files: &mut MemFiles,
    out: &mut MemSink,
    err: &mut MemSink,
) -> u8
    requires calm { is_calm files.old ≡ true }
    requires low { (name : List ℕ) → fault_count files.old name < 2 ^ 64 - 1 }
    requires calm_out { failing_calls out.old ≡ [] }
    ensures { (output : Output) → (answer_of (map string_bytes words.now) (told_files files.old)).answer ≡ Ok output → ((bytes : List ℕ) → HasBytes output bytes → length bytes ≤ room_left out.old) →
        ((bytes : List ℕ) × (result ≡ 0) × HasBytes output bytes × (taken_bytes out.new ≡ taken_bytes out.old ++ bytes)) ⊎ (result ≡ 8) }
{
    joinplan(alloc, words, files, out, err)
}

fn push_file(
    alloc: Global,
    files: &mut Vec<(Txt, Vec<u8>)>,
    name: &str,
    text: &str,
) -> Result<(), Fail> {
    let name = Txt::new(alloc, name)?;
    let bytes = Vec::from_slice(alloc, text.as_bytes())?;
    files.push((name, bytes))?;
    Ok(())
}

/// The files of a row. Of two files of one name the first counts.
fn files_of(alloc: Global, row: &Row) -> Result<MemFiles, Fail> {
    let mut files = Vec::new(alloc);
    push_file(alloc, &mut files, row.file, row.text)?;
    if !row.statement.is_empty() {
        push_file(alloc, &mut files, "q.sql", row.statement)?;
    }
    for (name, text) in FILES {
        push_file(alloc, &mut files, name, text)?;
    }
    Ok(MemFiles::new(files, Vec::new(alloc)))
}

fn run_words(alloc: Global, statement: &str) -> Result<Vec<String>, AllocError> {
    words_with(alloc, "run", statement)
}

fn words_with(alloc: Global, verb: &str, statement: &str) -> Result<Vec<String>, AllocError> {
    let mut words = Vec::new(alloc);
    words.push(String::from_str(alloc, verb)?)?;
    words.push(String::from_str(alloc, "K")?)?;
    words.push(String::from_str(alloc, statement)?)?;
    Ok(words)
}

fn check_words(alloc: Global) -> Result<Vec<String>, AllocError> {
    let mut words = Vec::new(alloc);
    words.push(String::from_str(alloc, "check")?)?;
    words.push(String::from_str(alloc, "K")?)?;
    Ok(words)
}

fn sink(alloc: Global, piece: usize) -> Result<MemSink, Memory>
    requires { 1 ≤ piece }
    ensures { IfOk result (λ s. failing_calls s ≡ []) }
{
    MemSink::new(alloc, piece, 4096, Vec::new(alloc))
}

/// What the program answers, and what it wrote.
#[derive(Drop)]
struct Answer {
    status: u8,
    out: MemSink,
    err: MemSink,
}

fn answer_of(alloc: Global, words: &[String], row: &Row) -> Result<Answer, Fail> {
    let mut files = files_of(alloc, row)?;
    let mut out = sink(alloc, 4)?;
    let mut err = sink(alloc, 4)?;
    let status = joinplan(alloc, words, &mut files, &mut out, &mut err);
    Ok(Answer { status, out, err })
}

#[test]
fn statements(rt: HostRuntime) -> Result<(), Fail> {
    let words = run_words(rt.alloc(), "q.sql")?;
    for row in ROWS {
        let answer = answer_of(rt.alloc(), words.as_slice(), row)?;
        assert_eq!(rt; answer.status, row.status, "{}", row.name);
        assert_eq!(rt; answer.out.bytes(), row.out.as_bytes(), "{}", row.name);
        assert_eq!(rt; answer.err.bytes(), row.err.as_bytes(), "{}", row.name);
    }
    Ok(())
}

#[test]
fn plans(rt: HostRuntime) -> Result<(), Fail> {
    let words = words_with(rt.alloc(), "explain", "q.sql")?;
    for row in PLANS {
        let answer = answer_of(rt.alloc(), words.as_slice(), row)?;
        assert_eq!(rt; answer.status, row.status, "{}", row.name);
        assert_eq!(rt; answer.out.bytes(), row.out.as_bytes(), "{}", row.name);
        assert_eq!(rt; answer.err.bytes(), row.err.as_bytes(), "{}", row.name);
    }
    Ok(())
}

#[test]
fn counts(rt: HostRuntime) -> Result<(), Fail> {
    let words = check_words(rt.alloc())?;
    for row in COUNTS {
        let answer = answer_of(rt.alloc(), words.as_slice(), row)?;
        assert_eq!(rt; answer.status, row.status, "{}", row.name);
        assert_eq!(rt; answer.out.bytes(), row.out.as_bytes(), "{}", row.name);
        assert_eq!(rt; answer.err.bytes(), row.err.as_bytes(), "{}", row.name);
    }
    Ok(())
}

#[test]
fn missing_statement_file(rt: HostRuntime) -> Result<(), Fail> {
    let mut files = files_of(rt.alloc(), &ROWS[0])?;
    let words = run_words(rt.alloc(), "none.sql")?;
    let mut out = sink(rt.alloc(), 4096)?;
    let mut err = sink(rt.alloc(), 4096)?;
    let status = joinplan(rt.alloc(), words.as_slice(), &mut files, &mut out, &mut err);
    assert_eq!(rt; status, 6);
    assert_eq!(rt; err.bytes(), b"read fault: none.sql\n".as_slice());
    Ok(())
}

/// Files without that of the second table, and with this one of the first.
fn without_the_second_table(alloc: Global, first: &str) -> Result<MemFiles, Fail> {
    let mut files = Vec::new(alloc);
    push_file(alloc, &mut files, "K", CATALOGUE)?;
    let statement = "SELECT a.id FROM a JOIN b ON a.id = b.aid";
    push_file(alloc, &mut files, "q.sql", statement)?;
    push_file(alloc, &mut files, "a.csv", first)?;
    Ok(MemFiles::new(files, Vec::new(alloc)))
}

#[test]
fn missing_file_of_the_second_table(rt: HostRuntime) -> Result<(), Fail> {
    let mut files = without_the_second_table(rt.alloc(), "id,x\n")?;
    let words = run_words(rt.alloc(), "q.sql")?;
    let mut out = sink(rt.alloc(), 4096)?;
    let mut err = sink(rt.alloc(), 4096)?;
    let status = joinplan(rt.alloc(), words.as_slice(), &mut files, &mut out, &mut err);
    assert_eq!(rt; status, 6);
    assert_eq!(rt; err.bytes(), b"read fault: b.csv\n".as_slice());
    Ok(())
}

#[test]
fn first_table_refused_before_the_second_is_missed(rt: HostRuntime) -> Result<(), Fail> {
    let mut files = without_the_second_table(rt.alloc(), "id\n")?;
    let words = run_words(rt.alloc(), "q.sql")?;
    let mut out = sink(rt.alloc(), 4096)?;
    let mut err = sink(rt.alloc(), 4096)?;
    let status = joinplan(rt.alloc(), words.as_slice(), &mut files, &mut out, &mut err);
    assert_eq!(rt; status, 3);
    assert_eq!(rt; err.bytes(), b"data: table a: header differs\n".as_slice());
    Ok(())
}

#[test]
fn words_without_a_form(rt: HostRuntime) -> Result<(), Fail> {
    let mut files = MemFiles::new(Vec::new(rt.alloc()), Vec::new(rt.alloc()));
    let mut words = run_words(rt.alloc(), "q.sql")?;
    let _statement = words.pop();
    let mut out = sink(rt.alloc(), 4096)?;
    let mut err = sink(rt.alloc(), 4096)?;
    let status = joinplan(rt.alloc(), words.as_slice(), &mut files, &mut out, &mut err);
    assert_eq!(rt; status, 1);
    assert_eq!(rt; err.bytes(), USAGE.as_bytes());
    Ok(())
}

#[test]
fn second_write_fails(rt: HostRuntime) -> Result<(), Fail> {
    let mut files = files_of(rt.alloc(), &ROWS[0])?;
    let words = run_words(rt.alloc(), "q.sql")?;
    let mut out = MemSink::new(rt.alloc(), 4, 4096, vec![in rt.alloc(); 2]?)?;
    let mut err = sink(rt.alloc(), 4096)?;
    let status = joinplan(rt.alloc(), words.as_slice(), &mut files, &mut out, &mut err);
    assert_eq!(rt; status, 7);
    assert_eq!(rt; out.bytes(), b"id\n2".as_slice());
    assert_eq!(rt; err.bytes(), b"write fault\n".as_slice());
    Ok(())
}

/// A statement and spaces behind it, of so many bytes.
fn padded(alloc: Global, text: &str, length: usize) -> Result<Vec<u8>, Fail> {
    let mut bytes = Vec::from_slice(alloc, text.as_bytes())?;
    bytes.resize(length, b' ')?;
    Ok(bytes)
}

/// The answer to the first row's statement with another file in front.
fn answer_with(alloc: Global, name: &str, bytes: Vec<u8>) -> Result<Answer, Fail> {
    let mut files = Vec::new(alloc);
    files.push((Txt::new(alloc, name)?, bytes))?;
    for (name, text) in FILES {
        push_file(alloc, &mut files, name, text)?;
    }
    let mut files = MemFiles::new(files, Vec::new(alloc));
    let words = run_words(alloc, "q.sql")?;
    let mut out = sink(alloc, 4096)?;
    let mut err = sink(alloc, 4096)?;
    let status = served(alloc, words.as_slice(), &mut files, &mut out, &mut err);
    Ok(Answer { status, out, err })
}

#[test]
fn statement_of_the_greatest_length(rt: HostRuntime) -> Result<(), Fail> {
    let bytes = padded(rt.alloc(), "SELECT id FROM a WHERE x > 10", 65536)?;
    let answer = answer_with(rt.alloc(), "q.sql", bytes)?;
    assert_eq!(rt; answer.status, 0);
    assert_eq!(rt; answer.out.bytes(), b"id\n2\n".as_slice());
    Ok(())
}

#[test]
fn statement_of_a_byte_too_many(rt: HostRuntime) -> Result<(), Fail> {
    let bytes = padded(rt.alloc(), "SELECT id FROM a WHERE x > 10", 65537)?;
    let answer = answer_with(rt.alloc(), "q.sql", bytes)?;
    assert_eq!(rt; answer.status, 5);
    assert_eq!(rt;
        answer.err.bytes(),
        b"limit: statement over 65536 bytes\n".as_slice()
    );
    Ok(())
}

#[test]
fn file_of_a_byte_too_many(rt: HostRuntime) -> Result<(), Fail> {
    let bytes = padded(rt.alloc(), "id,x\n", 67108865)?;
    let answer = answer_with(rt.alloc(), "a.csv", bytes)?;
    assert_eq!(rt; answer.status, 5);
    assert_eq!(rt;
        answer.err.bytes(),
        b"limit: file a.csv over 67108864 bytes\n".as_slice()
    );
    Ok(())
}
