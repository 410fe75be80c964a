ghost use Rattle.std.specs.Prelude.{◌≡◌, IfOk, Some};
ghost use Rattle.jp_joins.specs.Conditions.{CanJoin, CanLookUp, CanLookUpBy};
ghost use Rattle.jp_joins.specs.KeyPlaces.{IsKeyPlace};
ghost use Rattle.jp_joins.specs.Keys.{AreMade};
ghost use Rattle.jp_joins.specs.Meant.{GivesRows, plain_list};
ghost use Rattle.jp_joins.specs.Tuples.{maps_of};
ghost use Rattle.jp_joins.specs.Working.{IsReady};

use crate::key_places::key_place;
use crate::keys::{Made, made_keys};
use crate::numbers::numbers_of;
use crate::table::{lists_at, table_of};
use crate::work::{Work, add_left};
use crate::{Tuple, TupleEnv};
use bumpalo::Bump;
use jp_base::{Memory, Row, SubNo};
use jp_problem::Step;
use jp_query::Expr;
use std::alloc::Global;

/// The step by a table of the right tuples, in which each left tuple is looked up.
pub fn hash<'t, E: TupleEnv, S: Fn(Tuple<'t>, SubNo) -> Result<Vec<Row>, Memory>>(
    alloc: Global,
    env: &E,
    subs: &S,
    kind: Step,
    left: &[Tuple<'t>],
    right: &[Tuple<'t>],
    arena: &'t Bump<Global>,
) -> Result<Vec<Tuple<'t>>, Memory>
    requires can { S.IsAlwaysCallable subs.now }
    requires gives { GivesRows (E.meant env.now) (S.post subs.now) }
    requires join { CanJoin (E.meant env.now) kind (maps_of left.now) (maps_of right.now) }
    requires look_up { CanLookUp (E.meant env.now) (maps_of left.now) (maps_of right.now) }
    ensures { IfOk result (λ v. maps_of v.items ≡ plain_list (E.meant env.now) (maps_of left.now) (maps_of right.now)) }
{
    let on_sublinks = numbers_of(alloc, env.on())?;
    let filter_sublinks = numbers_of(alloc, env.filters())?;
    match env.key() {
        Some((first, second)) => {
            let work = Work {
                alloc,
                env,
                subs,
                kind,
                known: key_place(env.on(), first, second),
                on_sublinks: on_sublinks.as_slice(),
                filter_sublinks: filter_sublinks.as_slice(),
                arena,
            };
            let list = looked_up(&work, first, second, left, right)?;
            Ok(list)
        }
        None => unreachable!(),
    }
}

/// What each left tuple gives, with the right tuples tried that have its key.
fn looked_up<'t, E: TupleEnv, S: Fn(Tuple<'t>, SubNo) -> Result<Vec<Row>, Memory>>(
    work: &Work<'_, 't, E, S>,
    first: &Expr,
    second: &Expr,
    lefts: &[Tuple<'t>],
    rights: &[Tuple<'t>],
) -> Result<Vec<Tuple<'t>>, Memory>
    requires can { S.IsAlwaysCallable work.now.subs.now }
    requires ready { IsReady (E.meant work.now.env.now) work.now.on_sublinks.now work.now.filter_sublinks.now (S.post work.now.subs.now) }
    requires join { CanJoin (E.meant work.now.env.now) work.now.kind (maps_of lefts.now) (maps_of rights.now) }
    requires key { (E.meant work.now.env.now).key ≡ Some (first.now, second.now) }
    requires look_up { CanLookUpBy (E.meant work.now.env.now) first.now second.now (maps_of lefts.now) (maps_of rights.now) }
    requires known { IsKeyPlace (E.meant work.now.env.now).on first.now second.now work.now.known }
    ensures { IfOk result (λ v. maps_of v.items ≡ plain_list (E.meant work.now.env.now) (maps_of lefts.now) (maps_of rights.now)) }
{
    let made = Made {
        left: made_keys(work.alloc, work.env, first, lefts)?,
        right: made_keys(work.alloc, work.env, second, rights)?,
    };
    let list = looked_up_by(work, work.env, first, second, lefts, rights, &made)?;
    Ok(list)
}

/// The same, with the keys that are no columns made. The keys of the table live as long as `env` and `made`.
fn looked_up_by<'k, 't, E: TupleEnv, S: Fn(Tuple<'t>, SubNo) -> Result<Vec<Row>, Memory>>(
    work: &Work<'_, 't, E, S>,
    env: &'k E,
    first: &Expr,
    second: &Expr,
    lefts: &[Tuple<'t>],
    rights: &[Tuple<'t>],
    made: &'k Made,
) -> Result<Vec<Tuple<'t>>, Memory>
    requires can { S.IsAlwaysCallable work.now.subs.now }
    requires ready { IsReady (E.meant work.now.env.now) work.now.on_sublinks.now work.now.filter_sublinks.now (S.post work.now.subs.now) }
    requires join { CanJoin (E.meant work.now.env.now) work.now.kind (maps_of lefts.now) (maps_of rights.now) }
    requires look_up { CanLookUpBy (E.meant work.now.env.now) first.now second.now (maps_of lefts.now) (maps_of rights.now) }
    requires known { IsKeyPlace (E.meant work.now.env.now).on first.now second.now work.now.known }
    requires env { env.now ≡ work.now.env.now }
    requires left { AreMade (E.meant work.now.env.now) first.now (maps_of lefts.now) made.now.left.items }
    requires right { AreMade (E.meant work.now.env.now) second.now (maps_of rights.now) made.now.right.items }
    ensures { IfOk result (λ v. maps_of v.items ≡ plain_list (E.meant work.now.env.now) (maps_of lefts.now) (maps_of rights.now)) }
{
    let table = table_of(work.alloc, env, second, rights, made.right.as_slice())?;
    let lists = lists_at(work.alloc, env, first, lefts, made.left.as_slice(), &table)?;
    let mut found = Vec::new(work.alloc);
    let mut pair = Vec::new(work.alloc);
    'lefts: for at in 0..lefts.len() {
        add_left(work, lefts[at], lists[at], &mut pair, &mut found)?;
    }
    Ok(found)
}
