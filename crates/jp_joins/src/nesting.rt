ghost use Rattle.std.specs.Prelude.{◌≡◌, IfOk, length};
ghost use Rattle.jp_joins.specs.Conditions.{CanJoin};
ghost use Rattle.jp_joins.specs.Meant.{GivesRows, plain_list};
ghost use Rattle.jp_joins.specs.Tuples.{maps_of};
ghost use Rattle.jp_joins.specs.Working.{IsReady};

use crate::numbers::numbers_of;
use crate::work::{Work, add_left};
use crate::{Tuple, TupleEnv};
use bumpalo::Bump;
use jp_base::{Memory, Row, SubNo};
use jp_problem::Step;
use std::alloc::Global;

/// The step by trying each pair.
pub fn nest<'t, E: TupleEnv, S: Fn(Tuple<'t>, SubNo) -> Result<Vec<Row>, Memory>>(
    alloc: Global,
    env: &E,
    subs: &S,
    kind: Step,
    left: &[Tuple<'t>],
    right: &[Tuple<'t>],
    arena: &'t Bump<Global>,
) -> Result<Vec<Tuple<'t>>, Memory>
    requires can { S.IsAlwaysCallable subs.now }
    requires gives { GivesRows (E.meant env.now) (S.post subs.now) }
    requires join { CanJoin (E.meant env.now) kind (maps_of left.now) (maps_of right.now) }
    ensures { IfOk result (λ v. maps_of v.items ≡ plain_list (E.meant env.now) (maps_of left.now) (maps_of right.now)) }
{
    let on_sublinks = numbers_of(alloc, env.on())?;
    let filter_sublinks = numbers_of(alloc, env.filters())?;
    let work = Work {
        alloc,
        env,
        subs,
        kind,
        known: env.on().len(),
        on_sublinks: on_sublinks.as_slice(),
        filter_sublinks: filter_sublinks.as_slice(),
        arena,
    };
    let list = tried_all(&work, left, right)?;
    Ok(list)
}

/// What each left tuple gives, with all right tuples tried.
fn tried_all<'t, E: TupleEnv, S: Fn(Tuple<'t>, SubNo) -> Result<Vec<Row>, Memory>>(
    work: &Work<'_, 't, E, S>,
    lefts: &[Tuple<'t>],
    rights: &[Tuple<'t>],
) -> Result<Vec<Tuple<'t>>, Memory>
    requires can { S.IsAlwaysCallable work.now.subs.now }
    requires ready { IsReady (E.meant work.now.env.now) work.now.on_sublinks.now work.now.filter_sublinks.now (S.post work.now.subs.now) }
    requires none_known { work.now.known ≡ length (E.meant work.now.env.now).on }
    requires join { CanJoin (E.meant work.now.env.now) work.now.kind (maps_of lefts.now) (maps_of rights.now) }
    ensures { IfOk result (λ v. maps_of v.items ≡ plain_list (E.meant work.now.env.now) (maps_of lefts.now) (maps_of rights.now)) }
{
    let mut found = Vec::new(work.alloc);
    let mut pair = Vec::new(work.alloc);
    'lefts: for left in lefts {
        add_left(work, *left, rights, &mut pair, &mut found)?;
    }
    Ok(found)
}
