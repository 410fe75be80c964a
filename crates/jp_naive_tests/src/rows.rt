ghost use Rattle.std.specs.Prelude.{IfOk};
ghost use Rattle.jp_catalog.specs.Sound.{AreOfSize, IsSound};
ghost use Rattle.jp_naive_tests.specs.Tables.{HasFittingRows, IsOneTable};

use crate::queries::{full_apart, not_in_nothing};
use jp_base::Value;
use jp_catalog::{Catalog, read_catalog};
use jp_naive::meaning_of;
use jp_table::{Table, Tables, load};
use sqlite_items::Items;
use std::alloc::Global;
use std::test::Fail;

const CATALOG: &[u8] =
    b"version = 1\n[tables.a]\nfile = \"a.csv\"\nrows = 100\ncolumns = [{name = \"id\", type = \"number\"}, {name = \"x\", type = \"number\"}]\n";

const A: &[u8] = b"id,x\n1,10\n2,20\n3,\\N\n";

/// The first table of the catalogue, with the file's rows.
fn first_table(alloc: Global, catalog: &Catalog, file: &[u8]) -> Result<Table, Fail>
    requires sound { IsSound catalog.now }
    requires size { AreOfSize catalog.now }
    ensures { IfOk result HasFittingRows }
{
    let Some((_, def)) = catalog.tables.get_index(0) else {
        return Err(Fail::from("no table"));
    };
    let table = load(alloc, def, file)?;
    Ok(table)
}

/// The first table of the catalogue, with the file's rows, and no other.
fn one_table(alloc: Global, file: &[u8]) -> Result<Tables, Fail>
    ensures { IfOk result (λ t. IsOneTable t.list) }
{
    let catalog = read_catalog(alloc, CATALOG)?;
    let table = first_table(alloc, &catalog, file)?;
    let mut list = Items::new(alloc);
    list.push(Some(table))?;
    Ok(Tables { list })
}

#[test]
fn unmatched_rows_of_both_sides(rt: HostRuntime) -> Result<(), Fail> {
    let tables = one_table(rt.alloc(), A)?;
    let query = full_apart(rt.alloc())?;
    let rows = meaning_of(rt.alloc(), &query, &tables)?;
    assert_eq!(rt; rows.len(), 2);
    let first = rows.first();
    assert!(rt; first.is_some_and(|row| matches!(row.as_slice(), [Value::Null, Value::Num(2)])));
    let last = rows.last();
    assert!(rt; last.is_some_and(|row| matches!(row.as_slice(), [Value::Num(1), Value::Null])));
    Ok(())
}

#[test]
fn no_row_to_be_among(rt: HostRuntime) -> Result<(), Fail> {
    let tables = one_table(rt.alloc(), A)?;
    let query = not_in_nothing(rt.alloc())?;
    let rows = meaning_of(rt.alloc(), &query, &tables)?;
    assert_eq!(rt; rows.len(), 3);
    for row in &rows {
        assert!(rt; matches!(row.as_slice(), [Value::Num(1)]));
    }
    Ok(())
}
