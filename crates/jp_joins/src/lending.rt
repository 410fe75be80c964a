ghost use Rattle.std.specs.Prelude.{◌≡◌, ℕ, List, All, IfOk};
ghost use Rattle.jp_query.specs.Meaning.{Row as GivenRow};
ghost use Rattle.jp_joins.specs.Lending.{GivesAt, IsLentFor, rows_by_number};

use crate::Tuple;
use jp_base::{Memory, Row, SubNo};
use std::alloc::Global;

/// The rows of a sublink, by its number.
#[derive(Drop)]
pub struct Lent {
    pub number: SubNo,
    pub rows: Vec<Row>,
}

/// The rows of a sublink, by its number.
pub fn rows_with_number(lent: &[Lent], sub: SubNo) -> &[Row]
    ensures { result.now ≡ rows_by_number lent.now sub }
{
    'lent: for rows in lent {
        if rows.number == sub {
            return rows.rows.as_slice();
        }
    }
    &[]
}

/// The rows that each sublink has at the tuple.
pub fn lent_for<'t, S: Fn(Tuple<'t>, SubNo) -> Result<Vec<Row>, Memory>>(
    alloc: Global,
    subs: &S,
    tuple: Tuple<'t>,
    numbers: &[SubNo],
) -> Result<Vec<Lent>, Memory>
    requires can { S.IsAlwaysCallable subs.now }
    ensures { (rows : ℕ → List GivenRow) → GivesAt rows (S.post subs.now tuple.entry) → IfOk result (λ v. All (IsLentFor rows v.items) numbers.now) }
{
    let mut lent = Vec::new(alloc);
    'numbers: for number in numbers {
        let rows = subs(tuple, *number)?;
        lent.push(Lent {
            number: *number,
            rows,
        })?;
    }
    Ok(lent)
}
