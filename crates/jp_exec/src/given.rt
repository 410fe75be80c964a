ghost use Rattle.std.specs.Prelude.{◌≡◌, ℕ, List, IfOk, IfSome};
ghost use Rattle.jp_induction.specs.Each.{Each};
ghost use Rattle.jp_query.specs.Meaning.{Row as GivenRow};
ghost use Rattle.jp_exec.specs.Given.{IsLentAs};

use jp_base::{Memory, Row, SubNo, Value};
use jp_joins::Lent;
use sqlite_items::Items;
use std::alloc::Global;

/// The rows that are given for a sublink, the first with its number; none where none are given.
pub fn given_for(given: &[Lent], sub: SubNo) -> Option<&[Row]>
    ensures { (rows : ℕ → List GivenRow) → Each (IsLentAs rows) given.now → IfSome result (λ r. r.now ≡ rows sub) }
{
    'given: for lent in given {
        if lent.number == sub {
            return Some(lent.rows.as_slice());
        }
    }
    None
}

/// Equal rows, in memory of their own.
pub fn copied(alloc: Global, rows: &[Row]) -> Result<Vec<Row>, Memory>
    ensures { IfOk result (λ v. v.items ≡ rows.now) }
{
    let mut copies = Vec::new(alloc);
    'rows: for row in rows {
        let copy = copy_row(alloc, row.as_slice())?;
        copies.push(copy)?;
    }
    Ok(copies)
}

fn copy_row(alloc: Global, row: &[Value]) -> Result<Row, Memory>
    ensures { IfOk result (λ copy. copy ≡ row.now) }
{
    let mut copy = Items::new(alloc);
    'values: for value in row {
        let value = value.copy(alloc)?;
        match copy.push(value) {
            Ok(()) => {}
            Err(_) => return Err(Memory),
        }
    }
    Ok(copy)
}
