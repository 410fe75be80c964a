ghost use Rattle.std.specs.Prelude.{◌≡◌, ◌↔◌, ◌++◌, ◌∷◌, [], All, IfOk, IfSome, OnOk, filter};
ghost use Rattle.std.specs.Option.{option_map};
ghost use Rattle.jp_query.specs.declared.JoinKind.TheVariants as join;
ghost use Rattle.jp_problem.specs.declared.types.Step.TheVariants as step;
ghost use Rattle.jp_frame.specs.Maps.{both};
ghost use Rattle.jp_frame.specs.Methods.{is_matched, matches};
ghost use Rattle.jp_joins.specs.Conditions.{CanEvaluateAt};
ghost use Rattle.jp_joins.specs.Lending.{numbers_in_all};
ghost use Rattle.jp_joins.specs.Meant.{GivesRows, is_match, left_gives, list_holds};
ghost use Rattle.jp_joins.specs.Tuples.{map_of, maps_of};
ghost use Rattle.jp_joins.specs.Working.{CanKeep, CanTry, CanTryAll, IsKnown, IsReady, is_kept, only_if};

use crate::at::all_hold;
use crate::lending::lent_for;
use crate::tuples::{placed, put_pair};
use crate::{Tuple, TupleEnv};
use bumpalo::Bump;
use jp_base::{Memory, Row, SubNo};
use jp_problem::Step;
use jp_query::{Expr, JoinKind};
use std::alloc::Global;

/// What a step works with.
#[derive(Drop)]
pub struct Work<'w, 't, E, S> {
    pub alloc: Global,
    pub env: &'w E,
    pub subs: &'w S,
    pub kind: Step,
    /// The place in the ON list of a member that is true at each pair that is tried, so that it isn't tested; the list's
    /// length where there is none.
    pub known: usize,
    /// The numbers of the sublinks of the ON list and of the filters.
    pub on_sublinks: &'w [SubNo],
    pub filter_sublinks: &'w [SubNo],
    pub arena: &'t Bump<Global>,
}

/// Whether a pair makes the ON list true. It stands in the arena where a sublink asked for rows there.
#[derive(Drop)]
pub struct Outcome<'t> {
    pub holds: bool,
    pub placed: Option<Tuple<'t>>,
}

/// Whether the tuple makes a list of conditions true, whose sublinks have the numbers. The one at `known` is true there.
fn holds_at<'t, E: TupleEnv, S: Fn(Tuple<'t>, SubNo) -> Result<Vec<Row>, Memory>>(
    work: &Work<'_, 't, E, S>,
    conds: &[Expr],
    known: usize,
    numbers: &[SubNo],
    tuple: Tuple<'t>,
) -> Result<bool, Memory>
    requires can { S.IsAlwaysCallable work.now.subs.now }
    requires gives { GivesRows (E.meant work.now.env.now) (S.post work.now.subs.now) }
    requires evaluable { All (CanEvaluateAt (E.meant work.now.env.now) (map_of tuple)) conds.now }
    requires known { IsKnown (E.meant work.now.env.now) conds.now known (map_of tuple) }
    requires numbers { numbers.now ≡ numbers_in_all conds.now }
    ensures { IfOk result (λ b. b ≡ list_holds (E.meant work.now.env.now) conds.now (map_of tuple.entry)) }
{
    let lent = lent_for(work.alloc, work.subs, tuple, numbers)?;
    let holds = all_hold(work.alloc, work.env, conds, known, tuple, lent.as_slice())?;
    Ok(holds)
}

/// Whether the step keeps a tuple that it formed.
fn keeps<'t, E: TupleEnv, S: Fn(Tuple<'t>, SubNo) -> Result<Vec<Row>, Memory>>(
    work: &Work<'_, 't, E, S>,
    tuple: Tuple<'t>,
) -> Result<bool, Memory>
    requires can { S.IsAlwaysCallable work.now.subs.now }
    requires ready { IsReady (E.meant work.now.env.now) work.now.on_sublinks.now work.now.filter_sublinks.now (S.post work.now.subs.now) }
    requires kind { ((E.meant work.now.env.now).kind ≡ join.Inner) ↔ (work.now.kind ≡ step.Inner) }
    requires evaluable { CanKeep (E.meant work.now.env.now) (map_of tuple) }
    ensures { IfOk result (λ b. b ≡ is_kept (E.meant work.now.env.now) (map_of tuple.entry)) }
{
    match work.kind {
        Step::Inner => Ok(true),
        Step::By(_) => {
            let filters = work.env.filters();
            let holds = holds_at(work, filters, filters.len(), work.filter_sublinks, tuple)?;
            Ok(holds)
        }
    }
}

/// Adds the tuple if the step keeps it.
pub fn add_kept<'t, E: TupleEnv, S: Fn(Tuple<'t>, SubNo) -> Result<Vec<Row>, Memory>>(
    work: &Work<'_, 't, E, S>,
    tuple: Tuple<'t>,
    found: &mut Vec<Tuple<'t>>,
) -> Result<(), Memory>
    requires can { S.IsAlwaysCallable work.now.subs.now }
    requires ready { IsReady (E.meant work.now.env.now) work.now.on_sublinks.now work.now.filter_sublinks.now (S.post work.now.subs.now) }
    requires kind { ((E.meant work.now.env.now).kind ≡ join.Inner) ↔ (work.now.kind ≡ step.Inner) }
    requires evaluable { CanKeep (E.meant work.now.env.now) (map_of tuple) }
    ensures { OnOk result (maps_of found.new.items ≡ maps_of found.old.items ++ filter (is_kept (E.meant work.now.env.now)) (map_of tuple.entry ∷ [])) }
{
    if keeps(work, tuple)? {
        found.push(tuple)?;
    }
    Ok(())
}

/// Tries a pair in `pair`, which then holds its rows.
fn tried<'t, E: TupleEnv, S: Fn(Tuple<'t>, SubNo) -> Result<Vec<Row>, Memory>>(
    work: &Work<'_, 't, E, S>,
    left: Tuple<'t>,
    right: Tuple<'t>,
    pair: &mut Vec<Option<u64>>,
) -> Result<Outcome<'t>, Memory>
    requires can { S.IsAlwaysCallable work.now.subs.now }
    requires ready { IsReady (E.meant work.now.env.now) work.now.on_sublinks.now work.now.filter_sublinks.now (S.post work.now.subs.now) }
    requires pair { CanTry (E.meant work.now.env.now) work.now.known (map_of left) (map_of right) }
    ensures holds { IfOk result (λ tried. tried.holds ≡ is_match (E.meant work.now.env.now) (both (map_of left.entry) (map_of right.entry))) }
    ensures placed { IfOk result (λ tried. IfSome tried.placed (λ t. map_of t ≡ both (map_of left.entry) (map_of right.entry))) }
    ensures pair { OnOk result (pair.new.items ≡ both (map_of left.entry) (map_of right.entry)) }
{
    put_pair(pair, left, right)?;
    let on = work.env.on();
    if work.on_sublinks.is_empty() {
        let tuple = Tuple {
            rows: pair.as_slice(),
        };
        let holds = all_hold(work.alloc, work.env, on, work.known, tuple, &[])?;
        return Ok(Outcome {
            holds,
            placed: None,
        });
    }
    let tuple = placed(work.arena, pair.as_slice())?;
    let holds = holds_at(work, on, work.known, work.on_sublinks, tuple)?;
    Ok(Outcome {
        holds,
        placed: Some(tuple),
    })
}

/// The pair if it matches, in the arena.
fn matched<'t, E: TupleEnv, S: Fn(Tuple<'t>, SubNo) -> Result<Vec<Row>, Memory>>(
    work: &Work<'_, 't, E, S>,
    left: Tuple<'t>,
    right: Tuple<'t>,
    pair: &mut Vec<Option<u64>>,
) -> Result<Option<Tuple<'t>>, Memory>
    requires can { S.IsAlwaysCallable work.now.subs.now }
    requires ready { IsReady (E.meant work.now.env.now) work.now.on_sublinks.now work.now.filter_sublinks.now (S.post work.now.subs.now) }
    requires pair { CanTry (E.meant work.now.env.now) work.now.known (map_of left) (map_of right) }
    ensures { IfOk result (λ found. option_map map_of found ≡ only_if (is_match (E.meant work.now.env.now) (both (map_of left.entry) (map_of right.entry))) (both (map_of left.entry) (map_of right.entry))) }
{
    let tried = tried(work, left, right, pair)?;
    if !tried.holds {
        return Ok(None);
    }
    match tried.placed {
        Some(tuple) => Ok(Some(tuple)),
        None => {
            let tuple = placed(work.arena, pair.as_slice())?;
            Ok(Some(tuple))
        }
    }
}

/// Adds the pair if it matches and the step keeps it, and tells whether it matches.
pub fn add_match<'t, E: TupleEnv, S: Fn(Tuple<'t>, SubNo) -> Result<Vec<Row>, Memory>>(
    work: &Work<'_, 't, E, S>,
    left: Tuple<'t>,
    right: Tuple<'t>,
    pair: &mut Vec<Option<u64>>,
    found: &mut Vec<Tuple<'t>>,
) -> Result<bool, Memory>
    requires can { S.IsAlwaysCallable work.now.subs.now }
    requires ready { IsReady (E.meant work.now.env.now) work.now.on_sublinks.now work.now.filter_sublinks.now (S.post work.now.subs.now) }
    requires kind { ((E.meant work.now.env.now).kind ≡ join.Inner) ↔ (work.now.kind ≡ step.Inner) }
    requires pair { CanTry (E.meant work.now.env.now) work.now.known (map_of left) (map_of right) }
    ensures more { OnOk result (maps_of found.new.items ≡ maps_of found.old.items
        ++ filter (is_kept (E.meant work.now.env.now)) (matches (is_match (E.meant work.now.env.now)) (map_of right.entry ∷ []) (map_of left.entry))) }
    ensures any { IfOk result (λ b. b ≡ is_match (E.meant work.now.env.now) (both (map_of left.entry) (map_of right.entry))) }
{
    match matched(work, left, right, pair)? {
        Some(tuple) => {
            add_kept(work, tuple, found)?;
            Ok(true)
        }
        None => Ok(false),
    }
}

/// Adds the matches of a left tuple that the step keeps, in right order, and tells whether there is any match.
fn add_matches<'t, E: TupleEnv, S: Fn(Tuple<'t>, SubNo) -> Result<Vec<Row>, Memory>>(
    work: &Work<'_, 't, E, S>,
    left: Tuple<'t>,
    rights: &[Tuple<'t>],
    pair: &mut Vec<Option<u64>>,
    found: &mut Vec<Tuple<'t>>,
) -> Result<bool, Memory>
    requires can { S.IsAlwaysCallable work.now.subs.now }
    requires ready { IsReady (E.meant work.now.env.now) work.now.on_sublinks.now work.now.filter_sublinks.now (S.post work.now.subs.now) }
    requires kind { ((E.meant work.now.env.now).kind ≡ join.Inner) ↔ (work.now.kind ≡ step.Inner) }
    requires pairs { CanTryAll (E.meant work.now.env.now) work.now.known left rights.now }
    ensures more { OnOk result (maps_of found.new.items ≡ maps_of found.old.items
        ++ filter (is_kept (E.meant work.now.env.now)) (matches (is_match (E.meant work.now.env.now)) (maps_of rights.now) (map_of left.entry))) }
    ensures any { IfOk result (λ b. b ≡ is_matched (is_match (E.meant work.now.env.now)) (maps_of rights.now) (map_of left.entry)) }
{
    let mut any = false;
    'rights: for right in rights {
        let matches = add_match(work, left, *right, pair, found)?;
        any = any || matches;
    }
    Ok(any)
}

/// Whether a left tuple has a match.
fn has_match<'t, E: TupleEnv, S: Fn(Tuple<'t>, SubNo) -> Result<Vec<Row>, Memory>>(
    work: &Work<'_, 't, E, S>,
    left: Tuple<'t>,
    rights: &[Tuple<'t>],
    pair: &mut Vec<Option<u64>>,
) -> Result<bool, Memory>
    requires can { S.IsAlwaysCallable work.now.subs.now }
    requires ready { IsReady (E.meant work.now.env.now) work.now.on_sublinks.now work.now.filter_sublinks.now (S.post work.now.subs.now) }
    requires pairs { CanTryAll (E.meant work.now.env.now) work.now.known left rights.now }
    ensures { IfOk result (λ b. b ≡ is_matched (is_match (E.meant work.now.env.now)) (maps_of rights.now) (map_of left.entry)) }
{
    'rights: for right in rights {
        if tried(work, left, *right, pair)?.holds {
            return Ok(true);
        }
    }
    Ok(false)
}

/// Adds what a left tuple gives to the step, where `rights` are all right tuples or those that have its key.
pub fn add_left<'t, E: TupleEnv, S: Fn(Tuple<'t>, SubNo) -> Result<Vec<Row>, Memory>>(
    work: &Work<'_, 't, E, S>,
    left: Tuple<'t>,
    rights: &[Tuple<'t>],
    pair: &mut Vec<Option<u64>>,
    found: &mut Vec<Tuple<'t>>,
) -> Result<(), Memory>
    requires can { S.IsAlwaysCallable work.now.subs.now }
    requires ready { IsReady (E.meant work.now.env.now) work.now.on_sublinks.now work.now.filter_sublinks.now (S.post work.now.subs.now) }
    requires kind { ((E.meant work.now.env.now).kind ≡ join.Inner) ↔ (work.now.kind ≡ step.Inner) }
    requires left { CanKeep (E.meant work.now.env.now) (map_of left) }
    requires pairs { CanTryAll (E.meant work.now.env.now) work.now.known left rights.now }
    ensures { OnOk result (maps_of found.new.items ≡ maps_of found.old.items
        ++ filter (is_kept (E.meant work.now.env.now)) (left_gives (E.meant work.now.env.now).kind (is_match (E.meant work.now.env.now)) (maps_of rights.now) (map_of left.entry))) }
{
    match work.env.join_kind() {
        JoinKind::Inner => {
            add_matches(work, left, rights, pair, found)?;
            Ok(())
        }
        JoinKind::Left => {
            if !add_matches(work, left, rights, pair, found)? {
                add_kept(work, left, found)?;
            }
            Ok(())
        }
        JoinKind::Semi => {
            if has_match(work, left, rights, pair)? {
                add_kept(work, left, found)?;
            }
            Ok(())
        }
        JoinKind::Anti => {
            if !has_match(work, left, rights, pair)? {
                add_kept(work, left, found)?;
            }
            Ok(())
        }
        JoinKind::Right | JoinKind::Full => Ok(()),
    }
}
