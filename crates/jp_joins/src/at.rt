ghost use Rattle.std.specs.Prelude.{◌≡◌, All, IfOk};
ghost use Rattle.jp_joins.specs.Conditions.{CanEvaluateAt};
ghost use Rattle.jp_joins.specs.Lending.{IsLentFor, numbers_in_all};
ghost use Rattle.jp_joins.specs.Meant.{list_holds};
ghost use Rattle.jp_joins.specs.Tuples.{map_of};
ghost use Rattle.jp_joins.specs.Working.{IsKnown};

use crate::lending::{Lent, rows_with_number};
use crate::{Tuple, TupleEnv};
use jp_base::{Cell, Memory, RelNo, RelSet, Row, SubNo, Truth};
use jp_eval::{Env, holds};
use jp_query::Expr;
use std::alloc::Global;

/// A tuple as expressions see it, with the rows of sublinks that were computed for it.
#[derive(Drop)]
pub struct At<'e, E> {
    pub env: &'e E,
    pub tuple: Tuple<'e>,
    pub lent: &'e [Lent],
}

impl<E: TupleEnv> Env for At<'_, E> {
    ghost use Rattle.jp_joins.specs.Lending.{rows_by_number};
    ghost use Rattle.jp_joins.specs.Tuples.{map_of};

    ghost environment = { λ s. (E.meant s.env.now).environment (map_of s.tuple) };

    ghost sublink_rows = { λ s. rows_by_number s.lent.now };

    fn cell(&self, rel: RelNo, col: u32) -> Cell<'_> {
        self.env.cell(self.tuple, rel, col)
    }

    fn present(&self) -> RelSet {
        self.env.present(self.tuple)
    }

    fn rows_of(&self, sub: SubNo) -> &[Row] {
        rows_with_number(self.lent, sub)
    }
}

/// Whether each condition of the list is true at the tuple. The rows of their sublinks there are lent. The one at `known`
/// is true, so it isn't tested; there is none where `known` is the list's length.
pub fn all_hold<E: TupleEnv>(
    alloc: Global,
    env: &E,
    conds: &[Expr],
    known: usize,
    tuple: Tuple<'_>,
    lent: &[Lent],
) -> Result<bool, Memory>
    requires evaluable { All (CanEvaluateAt (E.meant env.now) (map_of tuple)) conds.now }
    requires known { IsKnown (E.meant env.now) conds.now known (map_of tuple) }
    requires lent { All (IsLentFor ((E.meant env.now).sublink_rows (map_of tuple)) lent.now) (numbers_in_all conds.now) }
    ensures { IfOk result (λ b. b ≡ list_holds (E.meant env.now) conds.now (map_of tuple.entry)) }
{
    let at = At { env, tuple, lent };
    'conds: for place in 0..conds.len() {
        if place == known {
            continue;
        }
        let cond = &conds[place];
        let truth = holds(alloc, cond, &at)?;
        match truth {
            Truth::True => {}
            Truth::False => return Ok(false),
            Truth::Unknown => return Ok(false),
        }
    }
    Ok(true)
}
