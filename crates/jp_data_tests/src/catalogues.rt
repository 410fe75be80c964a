use crate::catalogue_cases::{ENTRIES, FIVE, KEYS, TABLES, TEXTS};
use jp_base::Ty;
use jp_catalog::{CatalogError, TableDef, TableDefs, read_catalog};
use std::alloc::{AllocError, Global};
use std::process::Abort;
use std::test::Fail;

/// The text of a refusal, as it is printed.
fn line_of(alloc: Global, error: &CatalogError) -> Result<String, AllocError> {
    match error {
        CatalogError::NotToml => format!(in alloc; "not TOML"),
        CatalogError::Version => format!(in alloc; "bad version"),
        CatalogError::Missing(path) => format!(in alloc; "missing {}", path.as_str()),
        CatalogError::BadType(path) => format!(in alloc; "bad value at {}", path.as_str()),
        CatalogError::UnknownKey(path) => format!(in alloc; "unknown key {}", path.as_str()),
        CatalogError::BadName(path) => format!(in alloc; "bad name at {}", path.as_str()),
        CatalogError::TooManyColumns(path) => {
            format!(in alloc; "too many columns at {}", path.as_str())
        }
        CatalogError::DuplicateColumn(path) => {
            format!(in alloc; "column repeated at {}", path.as_str())
        }
        CatalogError::KeyColumn(path) => format!(in alloc; "bad key column at {}", path.as_str()),
        CatalogError::RowsOutOfRange(path) => {
            format!(in alloc; "rows out of range at {}", path.as_str())
        }
        CatalogError::Memory => format!(in alloc; "out of memory"),
    }
}

/// What the reader says of a text: `ok`, or the text of the refusal.
fn answer(alloc: Global, text: &[u8]) -> Result<String, AllocError> {
    match read_catalog(alloc, text) {
        Ok(_) => format!(in alloc; "ok"),
        Err(error) => line_of(alloc, &error),
    }
}

/// Asks that each text, between what stands before and after it, is answered as the list says.
fn check(
    rt: &impl Abort,
    alloc: Global,
    before: &str,
    cases: &[(&str, &str)],
    after: &str,
) -> Result<(), Fail> {
    for (text, line) in cases {
        let whole = format!(in alloc; "{before}{text}{after}")?;
        let found = answer(alloc, whole.as_bytes())?;
        assert_eq!(rt; found.as_str(), *line);
    }
    Ok(())
}

#[test]
fn each_refusal_has_its_path(rt: HostRuntime) -> Result<(), Fail> {
    let table = "version = 1\n[tables.a]\n";
    let entry = "version = 1\n[tables.a]\nfile = 'f'\nrows = 1\ncolumns = [";
    let key =
        "version = 1\n[tables.a]\nfile = 'f'\nrows = 1\ncolumns = [{name = 'x', type = 'number'}, {name = 'y', type = 'boolean'}]\n";
    check(&rt, rt.alloc(), "", TEXTS, "")?;
    check(&rt, rt.alloc(), table, TABLES, "")?;
    check(&rt, rt.alloc(), entry, ENTRIES, "]")?;
    check(&rt, rt.alloc(), key, KEYS, "")?;
    let no_text = answer(rt.alloc(), b"\xff")?;
    assert_eq!(rt; no_text.as_str(), "not TOML");
    Ok(())
}

/// A catalogue of one table with so many columns.
fn with_columns(alloc: Global, count: u32) -> Result<String, AllocError> {
    let mut text = String::from_str(
        alloc,
        "version = 1\n[tables.a]\nfile = 'f'\nrows = 1\ncolumns = [",
    )?;
    for i in 0..count {
        let entry = format!(in alloc; "{{name = 'c{i}', type = 'text'}},")?;
        text.push_str(entry.as_str())?;
    }
    text.push_str("]")?;
    Ok(text)
}

#[test]
fn a_table_has_at_most_64_columns(rt: HostRuntime) -> Result<(), Fail> {
    let most = with_columns(rt.alloc(), 64)?;
    let more = with_columns(rt.alloc(), 65)?;
    let cases = [
        (most.as_str(), "ok"),
        (more.as_str(), "too many columns at tables.a.columns"),
    ];
    check(&rt, rt.alloc(), "", &cases, "")
}

/// The table `c` of the five.
fn check_table(rt: &impl Abort, table: &TableDef) {
    assert_eq!(rt; table.file.as_str(), "c.csv");
    assert_eq!(rt; table.rows, 10);
    assert_eq!(rt; table.columns.position("bid"), Some(1));
    assert_eq!(rt; table.columns.get("z").copied(), Some(Ty::Text));
    assert!(rt; table.columns.get("y").is_none());
    assert_eq!(rt; table.keys.len(), 3);
    for (i, key) in table.keys.as_slice().iter().enumerate() {
        assert_eq!(rt; key.primary, i == 0);
        let places: &[u32] = match i {
            0 => &[0],
            1 => &[1],
            _ => &[2, 1],
        };
        assert_eq!(rt; key.columns.as_slice(), places);
    }
}

fn check_tables(rt: &impl Abort, tables: &TableDefs) {
    assert_eq!(rt; tables.len(), 5);
    assert_eq!(rt; tables.position("big"), Some(2));
    assert_eq!(rt; tables.position("e"), None);
    match tables.get("c") {
        Some(table) => check_table(rt, table),
        None => assert!(rt; false),
    }
}

#[test]
fn five_tables_are_read(rt: HostRuntime) {
    match read_catalog(rt.alloc(), FIVE.as_bytes()) {
        Ok(catalog) => check_tables(&rt, &catalog.tables),
        Err(_) => assert!(rt; false),
    }
}
