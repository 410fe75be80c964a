ghost use Rattle.std.specs.Prelude.{◌≡◌, ◌<◌, All, IfOk, length};
ghost use Rattle.jp_catalog.specs.Sound.{IsSoundKey, IsSoundTable};

use crate::table_cases::{EITHER, KEYED, NUMBERS, PAIRS, WORDS};
use indexmap::IndexMap;
use jp_base::{Cell, Memory, Txt, Ty};
use jp_catalog::{Columns, Key, TableDef, read_catalog};
use jp_table::{Table, TableError, load};
use sqlite_items::Items;
use std::alloc::{AllocError, Global};
use std::process::Abort;
use std::test::Fail;

/// A cell as the lists of cases write it.
fn push_cell(text: &mut String, alloc: Global, cell: Cell<'_>) -> Result<(), AllocError> {
    let shown = match cell {
        Cell::Null => format!(in alloc; "NULL")?,
        Cell::Num(number) => format!(in alloc; "{number}")?,
        Cell::Bool(truth) => format!(in alloc; "{truth}")?,
        Cell::Text(bytes) => format!(in alloc; "'{bytes}'")?,
    };
    text.push_str(shown.as_str())
}

/// The rows of a table as the lists of cases write them.
fn rows_of_table(alloc: Global, table: &Table) -> Result<String, Fail> {
    let width = u32::try_from(table.width())?;
    let mut text = String::new(alloc);
    for row in 0..table.rows() {
        for col in 0..width {
            if col > 0 {
                text.push_str(",")?;
            }
            push_cell(&mut text, alloc, table.cell(row, col))?;
        }
        text.push_str(";")?;
    }
    Ok(text)
}

/// What `load` answers for a file, with the columns and keys of its table.
fn load_with(alloc: Global, columns: &str, file: &[u8]) -> Result<Result<Table, TableError>, Fail> {
    let text = format!(in alloc; "version = 1\n[tables.t]\nfile = 'f'\nrows = 1\n{columns}")?;
    let Ok(catalog) = read_catalog(alloc, text.as_bytes()) else {
        return Err(Fail::from("no catalogue"));
    };
    let Some((_, def)) = catalog.tables.get_index(0) else {
        return Err(Fail::from("no table"));
    };
    Ok(load(alloc, def, file))
}

/// What was loaded: its rows, or the refusal.
fn shown(alloc: Global, loaded: &Result<Table, TableError>) -> Result<String, Fail> {
    match loaded {
        Ok(table) => rows_of_table(alloc, table),
        Err(TableError::Memory) => Err(Fail::from("out of memory")),
        Err(error) => Ok(format!(in alloc; "{error:?}")?),
    }
}

/// What a file is answered by.
fn answer(alloc: Global, columns: &str, file: &[u8]) -> Result<String, Fail> {
    let loaded = load_with(alloc, columns, file)?;
    shown(alloc, &loaded)
}

/// Asks that each file is answered as the list says.
fn check(
    rt: &impl Abort,
    alloc: Global,
    columns: &str,
    cases: &[(&[u8], &str)],
) -> Result<(), Fail> {
    for (file, line) in cases {
        let found = answer(alloc, columns, file)?;
        assert_eq!(rt; found.as_str(), *line);
    }
    Ok(())
}

#[test]
fn each_file_gets_its_rows_or_its_first_refusal(rt: HostRuntime) -> Result<(), Fail> {
    let numbers = "columns = [{name = 'id', type = 'number'}, {name = 'x', type = 'number'}]";
    let words = "columns = [{name = 'ok', type = 'boolean'}, {name = 'name', type = 'text'}]";
    let keyed =
        "columns = [{name = 'id', type = 'number'}, {name = 'a', type = 'text'}, {name = 'b', type = 'number'}]\nunique = [['a'], ['a', 'b']]\nprimary_key = ['id']";
    let pairs =
        "columns = [{name = 'a', type = 'number'}, {name = 'b', type = 'number'}]\nunique = [['a', 'b'], ['b']]";
    let either =
        "columns = [{name = 'a', type = 'number'}, {name = 'b', type = 'number'}]\nunique = [['b'], ['a']]";
    check(&rt, rt.alloc(), numbers, NUMBERS)?;
    check(&rt, rt.alloc(), words, WORDS)?;
    check(&rt, rt.alloc(), keyed, KEYED)?;
    check(&rt, rt.alloc(), pairs, PAIRS)?;
    check(&rt, rt.alloc(), either, EITHER)?;
    Ok(())
}

/// Two number columns, `a` and `b`.
fn two_columns(alloc: Global) -> Result<Columns, Fail>
    ensures { IfOk result (λ columns. length columns ≡ 2) }
{
    let mut types = IndexMap::new(alloc);
    let _ = types.insert(Txt::new(alloc, "a")?, Ty::Number)?;
    let _ = types.insert(Txt::new(alloc, "b")?, Ty::Number)?;
    if types.len() != 2 {
        return Err(Fail::from("other columns"));
    }
    Ok(Columns::from_map(types))
}

/// A key of one of two columns.
fn key_of(alloc: Global, column: u32, primary: bool) -> Result<Key, Memory>
    requires { column < 2 }
    ensures { IfOk result (IsSoundKey 2) }
{
    match Items::from_slice(alloc, &[column]) {
        Ok(columns) => Ok(Key { columns, primary }),
        Err(_) => Err(Memory),
    }
}

/// A unique key of the second column, and then a primary key of the first.
fn two_keys(alloc: Global) -> Result<Items<Key>, Fail>
    ensures { IfOk result (All (IsSoundKey 2)) }
{
    let mut keys = Items::new(alloc);
    keys.push(key_of(alloc, 1, false)?)?;
    keys.push(key_of(alloc, 0, true)?)?;
    Ok(keys)
}

/// A table with its unique key before its primary key.
fn unique_before_primary(alloc: Global) -> Result<TableDef, Fail>
    ensures sound { IfOk result IsSoundTable }
    ensures columns { IfOk result (λ def. length def.columns ≡ 2) }
{
    let file = Txt::new(alloc, "f")?;
    let keys = two_keys(alloc)?;
    let columns = two_columns(alloc)?;
    Ok(TableDef {
        file,
        rows: 1,
        columns,
        keys,
    })
}

/// What a file with repetitions in both columns is answered by.
fn answer_of_both(alloc: Global) -> Result<String, Fail> {
    let def = unique_before_primary(alloc)?;
    shown(alloc, &load(alloc, &def, b"a,b\n1,1\n2,2\n2,1\n"))
}

#[test]
fn a_primary_key_is_judged_first_in_any_list(rt: HostRuntime) -> Result<(), Fail> {
    let found = answer_of_both(rt.alloc())?;
    assert_eq!(rt; found.as_str(), "KeyRepeated(2, 3)");
    Ok(())
}
