ghost use Rattle.std.specs.Prelude.{◌≡◌, ◌↔◌, ◌<◌, ◌≤◌, ℕ, All, IfOk, Some, true, false, filter, length, map};
ghost use Rattle.std.specs.List.{flat_map};
ghost use Rattle.std.specs.List.Sorted.{IsSortedBy};
ghost use Rattle.jp_base.specs.Cells.{value_of_cell};
ghost use Rattle.jp_base.specs.Values.{are_equal};
ghost use Rattle.jp_query.specs.declared.JoinKind.TheVariants as join;
ghost use Rattle.jp_problem.specs.declared.types.Step.TheVariants as step;
ghost use Rattle.jp_joins.specs.Conditions.{CanJoin, CanLookUp, CanLookUpBy};
ghost use Rattle.jp_joins.specs.KeyPlaces.{IsKeyPlace};
ghost use Rattle.jp_joins.specs.Keys.{AreMade};
ghost use Rattle.jp_joins.specs.Meant.{GivesRows, is_match, left_gives};
ghost use Rattle.jp_joins.specs.Sorting.{CanTryEqual, MatchesKey, key_at, key_before, keyed_before, map_of_keyed, merged_list, tuple_of_keyed};
ghost use Rattle.jp_joins.specs.Tuples.{maps_of};
ghost use Rattle.jp_joins.specs.Working.{CanKeep, IsReady, is_kept};
ghost use Rattle.jp_joins.specs.declared.sorting.Keyed.{Keyed as KeyedTuple};

use crate::key_places::key_place;
use crate::keys::{Made, made_keys};
use crate::numbers::numbers_of;
use crate::sorting::{Keyed, in_key_order, key_order, tuples_of};
use crate::work::{Work, add_left};
use crate::{Tuple, TupleEnv};
use bumpalo::Bump;
use jp_base::{Cell, Memory, Row, SubNo};
use jp_problem::Step;
use jp_query::Expr;
use std::alloc::Global;
use std::cmp::Ordering;

/// The step over both sides in the order of their keys.
pub fn merge<'t, E: TupleEnv, S: Fn(Tuple<'t>, SubNo) -> Result<Vec<Row>, Memory>>(
    alloc: Global,
    env: &E,
    subs: &S,
    kind: Step,
    left: &[Tuple<'t>],
    right: &[Tuple<'t>],
    arena: &'t Bump<Global>,
) -> Result<Vec<Tuple<'t>>, Memory>
    requires can { S.IsAlwaysCallable subs.now }
    requires gives { GivesRows (E.meant env.now) (S.post subs.now) }
    requires join { CanJoin (E.meant env.now) kind (maps_of left.now) (maps_of right.now) }
    requires look_up { CanLookUp (E.meant env.now) (maps_of left.now) (maps_of right.now) }
    ensures { IfOk result (λ v. maps_of v.items ≡ merged_list (E.meant env.now) (maps_of left.now) (maps_of right.now)) }
{
    let on_sublinks = numbers_of(alloc, env.on())?;
    let filter_sublinks = numbers_of(alloc, env.filters())?;
    match env.key() {
        Some((first, second)) => {
            let work = Work {
                alloc,
                env,
                subs,
                kind,
                known: key_place(env.on(), first, second),
                on_sublinks: on_sublinks.as_slice(),
                filter_sublinks: filter_sublinks.as_slice(),
                arena,
            };
            let list = merged(&work, first, second, left, right)?;
            Ok(list)
        }
        None => unreachable!(),
    }
}

/// The step over the tuples sorted by their sides of the key.
fn merged<'t, E: TupleEnv, S: Fn(Tuple<'t>, SubNo) -> Result<Vec<Row>, Memory>>(
    work: &Work<'_, 't, E, S>,
    first: &Expr,
    second: &Expr,
    lefts: &[Tuple<'t>],
    rights: &[Tuple<'t>],
) -> Result<Vec<Tuple<'t>>, Memory>
    requires can { S.IsAlwaysCallable work.now.subs.now }
    requires ready { IsReady (E.meant work.now.env.now) work.now.on_sublinks.now work.now.filter_sublinks.now (S.post work.now.subs.now) }
    requires join { CanJoin (E.meant work.now.env.now) work.now.kind (maps_of lefts.now) (maps_of rights.now) }
    requires key { (E.meant work.now.env.now).key ≡ Some (first.now, second.now) }
    requires look_up { CanLookUpBy (E.meant work.now.env.now) first.now second.now (maps_of lefts.now) (maps_of rights.now) }
    requires known { IsKeyPlace (E.meant work.now.env.now).on first.now second.now work.now.known }
    ensures { IfOk result (λ v. maps_of v.items ≡ merged_list (E.meant work.now.env.now) (maps_of lefts.now) (maps_of rights.now)) }
{
    let made = Made {
        left: made_keys(work.alloc, work.env, first, lefts)?,
        right: made_keys(work.alloc, work.env, second, rights)?,
    };
    let list = merged_by(work, work.env, first, second, lefts, rights, &made)?;
    Ok(list)
}

/// The same, with the keys that are no columns made. The keys live as long as `env` and `made`.
fn merged_by<'k, 't, E: TupleEnv, S: Fn(Tuple<'t>, SubNo) -> Result<Vec<Row>, Memory>>(
    work: &Work<'_, 't, E, S>,
    env: &'k E,
    first: &Expr,
    second: &Expr,
    lefts: &[Tuple<'t>],
    rights: &[Tuple<'t>],
    made: &'k Made,
) -> Result<Vec<Tuple<'t>>, Memory>
    requires can { S.IsAlwaysCallable work.now.subs.now }
    requires ready { IsReady (E.meant work.now.env.now) work.now.on_sublinks.now work.now.filter_sublinks.now (S.post work.now.subs.now) }
    requires join { CanJoin (E.meant work.now.env.now) work.now.kind (maps_of lefts.now) (maps_of rights.now) }
    requires key { (E.meant work.now.env.now).key ≡ Some (first.now, second.now) }
    requires look_up { CanLookUpBy (E.meant work.now.env.now) first.now second.now (maps_of lefts.now) (maps_of rights.now) }
    requires known { IsKeyPlace (E.meant work.now.env.now).on first.now second.now work.now.known }
    requires env { env.now ≡ work.now.env.now }
    requires left_made { AreMade (E.meant work.now.env.now) first.now (maps_of lefts.now) made.now.left.items }
    requires right_made { AreMade (E.meant work.now.env.now) second.now (maps_of rights.now) made.now.right.items }
    ensures { IfOk result (λ v. maps_of v.items ≡ merged_list (E.meant work.now.env.now) (maps_of lefts.now) (maps_of rights.now)) }
{
    let lefts = in_key_order(work.alloc, env, first, lefts, made.left.as_slice())?;
    let rights = in_key_order(work.alloc, env, second, rights, made.right.as_slice())?;
    let tuples = tuples_of(work.alloc, rights.as_slice())?;
    let list = walked(work, lefts.as_slice(), rights.as_slice(), tuples.as_slice())?;
    Ok(list)
}

/// What each left tuple gives, with the run of the right tuples tried that has its key.
fn walked<'t, E: TupleEnv, S: Fn(Tuple<'t>, SubNo) -> Result<Vec<Row>, Memory>>(
    work: &Work<'_, 't, E, S>,
    lefts: &[Keyed<'_, 't>],
    rights: &[Keyed<'_, 't>],
    tuples: &[Tuple<'t>],
) -> Result<Vec<Tuple<'t>>, Memory>
    requires can { S.IsAlwaysCallable work.now.subs.now }
    requires ready { IsReady (E.meant work.now.env.now) work.now.on_sublinks.now work.now.filter_sublinks.now (S.post work.now.subs.now) }
    requires kind { ((E.meant work.now.env.now).kind ≡ join.Inner) ↔ (work.now.kind ≡ step.Inner) }
    requires tuples { tuples.now ≡ map tuple_of_keyed rights.now }
    requires keep { All (λ left. CanKeep (E.meant work.now.env.now) (map_of_keyed left)) lefts.now }
    requires pairs { All (λ left. CanTryEqual (E.meant work.now.env.now) work.now.known left rights.now) lefts.now }
    requires left_sorted { IsSortedBy keyed_before lefts.now }
    requires right_sorted { IsSortedBy keyed_before rights.now }
    requires keys { All (λ left. MatchesKey (is_match (E.meant work.now.env.now)) left rights.now) lefts.now }
    ensures { IfOk result (λ v. maps_of v.items ≡ filter (is_kept (E.meant work.now.env.now))
        (flat_map (left_gives (E.meant work.now.env.now).kind (is_match (E.meant work.now.env.now)) (map map_of_keyed rights.now)) (map map_of_keyed lefts.now))) }
{
    let mut found = Vec::new(work.alloc);
    let mut pair = Vec::new(work.alloc);
    let mut from = 0;
    'lefts: for at in 0..lefts.len() {
        let left = lefts[at];
        from = first_not_before(rights, left.key, from);
        let to = first_unequal(rights, left.key, from);
        add_left(work, left.tuple, &tuples[from..to], &mut pair, &mut found)?;
    }
    Ok(found)
}

/// The first place from `from` on whose key isn't before the key, or the end.
fn first_not_before(keyed: &[Keyed<'_, '_>], key: Cell<'_>, from: usize) -> usize
    requires { from ≤ length keyed.now }
    ensures bounds { (from ≤ result) × (result ≤ length keyed.now) }
    ensures before { (k : ℕ) (d : KeyedTuple) → from ≤ k → k < result → key_before (key_at keyed.now k d) (value_of_cell key.entry) ≡ true }
    ensures stop { (d : KeyedTuple) → result < length keyed.now → key_before (key_at keyed.now result d) (value_of_cell key.entry) ≡ false }
{
    'places: for at in from..keyed.len() {
        if !is_before(keyed[at].key, key) {
            return at;
        }
    }
    keyed.len()
}

/// The first place from `from` on whose key isn't equal to the key, or the end.
fn first_unequal(keyed: &[Keyed<'_, '_>], key: Cell<'_>, from: usize) -> usize
    requires { from ≤ length keyed.now }
    ensures bounds { (from ≤ result) × (result ≤ length keyed.now) }
    ensures equal { (k : ℕ) (d : KeyedTuple) → from ≤ k → k < result → are_equal (value_of_cell key.entry) (key_at keyed.now k d) ≡ true }
    ensures stop { (d : KeyedTuple) → result < length keyed.now → are_equal (value_of_cell key.entry) (key_at keyed.now result d) ≡ false }
{
    'places: for at in from..keyed.len() {
        if !is_equal(key, keyed[at].key) {
            return at;
        }
    }
    keyed.len()
}

fn is_before(left: Cell<'_>, right: Cell<'_>) -> bool
    ensures { result ≡ key_before (value_of_cell left.entry) (value_of_cell right.entry) }
{
    match key_order(left, right) {
        Ordering::Less => true,
        Ordering::Equal => false,
        Ordering::Greater => false,
    }
}

/// Whether two keys are equal, which NULL never is.
fn is_equal(left: Cell<'_>, right: Cell<'_>) -> bool
    ensures { result ≡ are_equal (value_of_cell left.entry) (value_of_cell right.entry) }
{
    match (left, right) {
        (Cell::Num(left), Cell::Num(right)) => left == right,
        (Cell::Bool(left), Cell::Bool(right)) => left == right,
        (Cell::Text(left), Cell::Text(right)) => left == right,
        _ => false,
    }
}
