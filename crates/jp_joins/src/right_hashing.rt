ghost use Rattle.std.specs.Prelude.{◌≡◌, ◌↔◌, ◌++◌, ◌<◌, ◌||◌, Bool, All, IfOk, OnOk, Some, false, not, filter, length, replicate};
ghost use Rattle.jp_query.specs.declared.JoinKind.TheVariants as join;
ghost use Rattle.jp_problem.specs.declared.types.Step.TheVariants as step;
ghost use Rattle.jp_frame.specs.Maps.{Map};
ghost use Rattle.jp_frame.specs.Methods.{matches_to};
ghost use Rattle.jp_joins.specs.Conditions.{CanJoin, CanLookUp, CanLookUpBy};
ghost use Rattle.jp_joins.specs.KeyPlaces.{IsKeyPlace};
ghost use Rattle.jp_joins.specs.Keys.{AreMade, map_at, maps_at, once_if};
ghost use Rattle.jp_joins.specs.Meant.{GivesRows, is_match, right_list};
ghost use Rattle.jp_joins.specs.Tuples.{map_of, maps_of};
ghost use Rattle.jp_joins.specs.Working.{AreMarks, CanKeep, CanTry, IsReady, Marks, is_kept, is_not};

use crate::key_places::key_place;
use crate::keys::{Made, made_keys};
use crate::numbers::numbers_of;
use crate::table::{lists_at, places_of};
use crate::work::{Work, add_kept, add_match};
use crate::{Tuple, TupleEnv};
use bumpalo::Bump;
use jp_base::{Memory, Row, SubNo};
use jp_problem::Step;
use jp_query::Expr;
use std::alloc::Global;

/// A left join by a table of the left tuples, in which each right tuple is looked up: the right tuples give the order, and
/// the left tuples without a match come last.
pub fn hash_right<'t, E: TupleEnv, S: Fn(Tuple<'t>, SubNo) -> Result<Vec<Row>, Memory>>(
    alloc: Global,
    env: &E,
    subs: &S,
    kind: Step,
    left: &[Tuple<'t>],
    right: &[Tuple<'t>],
    arena: &'t Bump<Global>,
) -> Result<Vec<Tuple<'t>>, Memory>
    requires can { S.IsAlwaysCallable subs.now }
    requires gives { GivesRows (E.meant env.now) (S.post subs.now) }
    requires join { CanJoin (E.meant env.now) kind (maps_of left.now) (maps_of right.now) }
    requires look_up { CanLookUp (E.meant env.now) (maps_of left.now) (maps_of right.now) }
    requires left { (E.meant env.now).kind ≡ join.Left }
    ensures { IfOk result (λ v. maps_of v.items ≡ right_list (E.meant env.now) (maps_of left.now) (maps_of right.now)) }
{
    let on_sublinks = numbers_of(alloc, env.on())?;
    let filter_sublinks = numbers_of(alloc, env.filters())?;
    match env.key() {
        Some((first, second)) => {
            let work = Work {
                alloc,
                env,
                subs,
                kind,
                known: key_place(env.on(), first, second),
                on_sublinks: on_sublinks.as_slice(),
                filter_sublinks: filter_sublinks.as_slice(),
                arena,
            };
            let list = looked_up(&work, first, second, left, right)?;
            Ok(list)
        }
        None => unreachable!(),
    }
}

/// What each right tuple gives, with the left tuples tried that have its key, and then the left tuples without a match.
fn looked_up<'t, E: TupleEnv, S: Fn(Tuple<'t>, SubNo) -> Result<Vec<Row>, Memory>>(
    work: &Work<'_, 't, E, S>,
    first: &Expr,
    second: &Expr,
    lefts: &[Tuple<'t>],
    rights: &[Tuple<'t>],
) -> Result<Vec<Tuple<'t>>, Memory>
    requires can { S.IsAlwaysCallable work.now.subs.now }
    requires ready { IsReady (E.meant work.now.env.now) work.now.on_sublinks.now work.now.filter_sublinks.now (S.post work.now.subs.now) }
    requires join { CanJoin (E.meant work.now.env.now) work.now.kind (maps_of lefts.now) (maps_of rights.now) }
    requires key { (E.meant work.now.env.now).key ≡ Some (first.now, second.now) }
    requires look_up { CanLookUpBy (E.meant work.now.env.now) first.now second.now (maps_of lefts.now) (maps_of rights.now) }
    requires known { IsKeyPlace (E.meant work.now.env.now).on first.now second.now work.now.known }
    requires left { (E.meant work.now.env.now).kind ≡ join.Left }
    ensures { IfOk result (λ v. maps_of v.items ≡ right_list (E.meant work.now.env.now) (maps_of lefts.now) (maps_of rights.now)) }
{
    let made = Made {
        left: made_keys(work.alloc, work.env, first, lefts)?,
        right: made_keys(work.alloc, work.env, second, rights)?,
    };
    let list = looked_up_by(work, work.env, first, second, lefts, rights, &made)?;
    Ok(list)
}

/// The same, with the keys that are no columns made. The keys of the table live as long as `env` and `made`.
fn looked_up_by<'k, 't, E: TupleEnv, S: Fn(Tuple<'t>, SubNo) -> Result<Vec<Row>, Memory>>(
    work: &Work<'_, 't, E, S>,
    env: &'k E,
    first: &Expr,
    second: &Expr,
    lefts: &[Tuple<'t>],
    rights: &[Tuple<'t>],
    made: &'k Made,
) -> Result<Vec<Tuple<'t>>, Memory>
    requires can { S.IsAlwaysCallable work.now.subs.now }
    requires ready { IsReady (E.meant work.now.env.now) work.now.on_sublinks.now work.now.filter_sublinks.now (S.post work.now.subs.now) }
    requires join { CanJoin (E.meant work.now.env.now) work.now.kind (maps_of lefts.now) (maps_of rights.now) }
    requires look_up { CanLookUpBy (E.meant work.now.env.now) first.now second.now (maps_of lefts.now) (maps_of rights.now) }
    requires known { IsKeyPlace (E.meant work.now.env.now).on first.now second.now work.now.known }
    requires left { (E.meant work.now.env.now).kind ≡ join.Left }
    requires env { env.now ≡ work.now.env.now }
    requires left_made { AreMade (E.meant work.now.env.now) first.now (maps_of lefts.now) made.now.left.items }
    requires right_made { AreMade (E.meant work.now.env.now) second.now (maps_of rights.now) made.now.right.items }
    ensures { IfOk result (λ v. maps_of v.items ≡ right_list (E.meant work.now.env.now) (maps_of lefts.now) (maps_of rights.now)) }
{
    let table = places_of(work.alloc, env, first, lefts, made.left.as_slice())?;
    let lists = lists_at(
        work.alloc,
        env,
        second,
        rights,
        made.right.as_slice(),
        &table,
    )?;
    let mut found = Vec::new(work.alloc);
    let mut pair = Vec::new(work.alloc);
    let mut marks = no_marks(work.alloc, lefts.len())?;
    'rights: for at in 0..rights.len() {
        add_right(
            work, lefts, rights[at], lists[at], &mut marks, &mut pair, &mut found,
        )?;
    }
    add_unmatched(work, lefts, marks.as_slice(), &mut found)?;
    Ok(found)
}

/// So many marks, none of them set.
fn no_marks(alloc: Global, count: usize) -> Result<Vec<bool>, Memory>
    ensures { IfOk result (λ v. v.items ≡ replicate count false) }
{
    let mut marks = Vec::new(alloc);
    'marks: for _ in 0..count {
        marks.push(false)?;
    }
    Ok(marks)
}

/// Adds the matches of a right tuple with the left tuples at the places, and marks these.
fn add_right<'t, E: TupleEnv, S: Fn(Tuple<'t>, SubNo) -> Result<Vec<Row>, Memory>>(
    work: &Work<'_, 't, E, S>,
    lefts: &[Tuple<'t>],
    right: Tuple<'t>,
    places: &[usize],
    marks: &mut Vec<bool>,
    pair: &mut Vec<Option<u64>>,
    found: &mut Vec<Tuple<'t>>,
) -> Result<(), Memory>
    requires can { S.IsAlwaysCallable work.now.subs.now }
    requires ready { IsReady (E.meant work.now.env.now) work.now.on_sublinks.now work.now.filter_sublinks.now (S.post work.now.subs.now) }
    requires kind { ((E.meant work.now.env.now).kind ≡ join.Inner) ↔ (work.now.kind ≡ step.Inner) }
    requires places { All (λ place. place < length lefts.now) places.now }
    requires pairs { All (λ place. CanTry (E.meant work.now.env.now) work.now.known (map_at (maps_of lefts.now) place) (map_of right)) places.now }
    requires marks { length marks.now.items ≡ length lefts.now }
    ensures more { OnOk result (maps_of found.new.items ≡ maps_of found.old.items
        ++ filter (is_kept (E.meant work.now.env.now)) (matches_to (is_match (E.meant work.now.env.now)) (maps_at (maps_of lefts.now) places.now) (map_of right.entry))) }
    ensures marks { OnOk result (Marks (is_match (E.meant work.now.env.now)) (maps_of lefts.now) (map_of right.entry) places.now marks.old.items marks.new.items) }
    ensures long { OnOk result (length marks.new.items ≡ length marks.old.items) }
{
    'places: for place in places {
        let matches = add_match(work, lefts[*place], right, pair, found)?;
        marks[*place] = either(marks[*place], matches);
    }
    Ok(())
}

fn either(a: bool, b: bool) -> bool
    ensures { result ≡ (a || b) }
{
    a || b
}

/// Adds the left tuples that aren't marked, null-extended, if the step keeps them.
fn add_unmatched<'t, E: TupleEnv, S: Fn(Tuple<'t>, SubNo) -> Result<Vec<Row>, Memory>>(
    work: &Work<'_, 't, E, S>,
    lefts: &[Tuple<'t>],
    marks: &[bool],
    found: &mut Vec<Tuple<'t>>,
) -> Result<(), Memory>
    requires can { S.IsAlwaysCallable work.now.subs.now }
    requires ready { IsReady (E.meant work.now.env.now) work.now.on_sublinks.now work.now.filter_sublinks.now (S.post work.now.subs.now) }
    requires kind { ((E.meant work.now.env.now).kind ≡ join.Inner) ↔ (work.now.kind ≡ step.Inner) }
    requires lefts { All (λ left. CanKeep (E.meant work.now.env.now) (map_of left)) lefts.now }
    requires marks { length marks.now ≡ length lefts.now }
    ensures { (has_match : Map → Bool) → AreMarks has_match (maps_of lefts.now) marks.now
        → OnOk result (maps_of found.new.items ≡ maps_of found.old.items ++ filter (is_kept (E.meant work.now.env.now)) (filter (is_not has_match) (maps_of lefts.now))) }
{
    'lefts: for at in 0..lefts.len() {
        add_unless(work, marks[at], lefts[at], found)?;
    }
    Ok(())
}

/// Adds a left tuple that isn't marked if the step keeps it.
fn add_unless<'t, E: TupleEnv, S: Fn(Tuple<'t>, SubNo) -> Result<Vec<Row>, Memory>>(
    work: &Work<'_, 't, E, S>,
    mark: bool,
    left: Tuple<'t>,
    found: &mut Vec<Tuple<'t>>,
) -> Result<(), Memory>
    requires can { S.IsAlwaysCallable work.now.subs.now }
    requires ready { IsReady (E.meant work.now.env.now) work.now.on_sublinks.now work.now.filter_sublinks.now (S.post work.now.subs.now) }
    requires kind { ((E.meant work.now.env.now).kind ≡ join.Inner) ↔ (work.now.kind ≡ step.Inner) }
    requires left { CanKeep (E.meant work.now.env.now) (map_of left) }
    ensures { OnOk result (maps_of found.new.items ≡ maps_of found.old.items ++ filter (is_kept (E.meant work.now.env.now)) (once_if (not mark) (map_of left.entry))) }
{
    if mark {
        return Ok(());
    }
    add_kept(work, left, found)?;
    Ok(())
}
