#![tactic(auto, using(crate::proofs::SizeLaws::small_has_few, crate::proofs::SizeLaws::small_has_room))]

ghost use Rattle.std.specs.Prelude.{◌≤◌};
ghost use Rattle.jp_query.specs.declared.Query.{out-Query};
ghost use Rattle.jp_special_trees.specs.Sizes.{size};

use crate::build::{condition, query, set};
use crate::sizes::measure;
use crate::table::{Cond, Facts, Known};
use jp_base::{ItemNo, JoinNo, RelSet};
use jp_problem::{
    Clause, Problem, Special, Step, is_joinable, new_clauses, scan_clauses, step_kind,
};
use jp_quals::clauses_of;
use jp_query::{Expr, Query, is_same};
use jp_special::{outline, specials_in};
use sqlite_items::Items;
use std::alloc::Global;
use std::process::Abort;
use std::test::Fail;

const SETS: &[&str] = &[
    "", "a", "b", "ab", "c", "ac", "bc", "abc", "d", "ad", "bd", "abd", "cd", "acd", "bcd", "abcd",
];

pub fn check(rt: &impl Abort, al: Global, facts: &Facts) -> Result<(), Fail> {
    let query = query(al, facts.tree, facts.conds, set(facts.place))?;
    if measure(&query.tree)? > 64 {
        return Err(Fail::from("a large tree"));
    }
    let problem = distributed(al, &query)?;
    check_joins(rt, problem.joins.as_slice(), facts);
    check_clauses(rt, al, problem.clauses.as_slice(), facts)?;
    check_scans(rt, al, &problem, facts)?;
    check_spine(rt, al, &problem, facts)?;
    check_sets(rt, &problem, facts);
    Ok(())
}

/// The problem of a query without its items, as `distribute` makes it.
fn distributed(al: Global, query: &Query) -> Result<Problem, Fail>
    requires { size (out-Query query.now).tree ≤ 64 }
{
    let outline = outline(al, query)?;
    let found = specials_in(al, &outline)?;
    let clauses = clauses_of(
        al,
        outline.rels.as_slice(),
        found.as_slice(),
        outline.clauses.as_slice(),
    )?;
    Ok(Problem {
        items: Items::new(al),
        joins: Items::from_vec(found),
        clauses,
        classes: Items::new(al),
    })
}

fn check_joins(rt: &impl Abort, found: &[Special], facts: &Facts) {
    assert_eq!(rt; found.len(), facts.joins.len());
    for (k, s) in found.iter().enumerate() {
        match facts.joins.get(k) {
            Some(known) => check_join(rt, s, known),
            None => assert!(rt; false, "a join too many"),
        }
    }
}

fn check_join(rt: &impl Abort, s: &Special, known: &Known) {
    assert_eq!(rt; s.kind, known.kind);
    assert_eq!(rt; s.syn_left, set(known.sides.0));
    assert_eq!(rt; s.syn_right, set(known.sides.1));
    assert_eq!(rt; s.min_left, set(known.sets.0));
    assert_eq!(rt; s.min_right, set(known.sets.1));
    assert_eq!(rt; s.region, known.region);
    assert_eq!(rt; s.on.as_slice().len(), known.members);
}

fn check_clauses(
    rt: &impl Abort,
    al: Global,
    clauses: &[Clause],
    facts: &Facts,
) -> Result<(), Fail> {
    assert_eq!(rt; clauses.len(), facts.clauses.len());
    for (k, c) in clauses.iter().enumerate() {
        match facts.clauses.get(k) {
            Some((cond, region, needs)) => {
                assert!(rt; is_same(&c.expr, &condition(al, cond)?), "another clause");
                assert_eq!(rt; c.region, *region);
                assert_eq!(rt; c.req, set(needs));
            }
            None => assert!(rt; false, "a clause too many"),
        }
    }
    Ok(())
}

/// At the scan of each item its own conditions are tested, and no others.
fn check_scans(rt: &impl Abort, al: Global, problem: &Problem, facts: &Facts) -> Result<(), Fail> {
    for item in 0..4 {
        let found = scan_clauses(al, problem, item)?;
        check_conditions(rt, al, found.items(), scanned(facts, item))?;
    }
    Ok(())
}

fn scanned(facts: &Facts, item: ItemNo) -> &'static [Cond] {
    for (scan, conds) in facts.scans {
        if *scan == item {
            return conds;
        }
    }
    &[]
}

fn check_spine(rt: &impl Abort, al: Global, problem: &Problem, facts: &Facts) -> Result<(), Fail> {
    for (left, right, conds) in facts.spine {
        let found = new_clauses(al, problem, set(left), set(right))?;
        check_conditions(rt, al, found.items(), conds)?;
    }
    Ok(())
}

fn check_conditions(
    rt: &impl Abort,
    al: Global,
    found: &[Expr],
    conds: &[Cond],
) -> Result<(), Fail> {
    assert_eq!(rt; found.len(), conds.len());
    for (k, expr) in found.iter().enumerate() {
        match conds.get(k) {
            Some(cond) => assert!(rt; is_same(expr, &condition(al, cond)?), "another condition"),
            None => assert!(rt; false, "a condition too many"),
        }
    }
    Ok(())
}

fn check_sets(rt: &impl Abort, problem: &Problem, facts: &Facts) {
    for first in SETS {
        if set(first).within(set(facts.items)) {
            assert_eq!(rt;
                is_joinable(problem, set(first)),
                is_listed(facts, set(first))
            );
            check_steps(rt, problem, facts, set(first));
        }
    }
}

fn is_listed(facts: &Facts, items: RelSet) -> bool {
    facts.joinable.iter().any(|j| set(j) == items)
}

fn check_steps(rt: &impl Abort, problem: &Problem, facts: &Facts, first: RelSet) {
    for second in SETS {
        if set(second).within(set(facts.items)) {
            let known = step_of(facts, first, set(second));
            if facts.whole || known.is_some() {
                assert_eq!(rt; step_kind(problem, first, set(second)), known);
            }
        }
    }
}

fn step_of(facts: &Facts, first: RelSet, second: RelSet) -> Option<Step> {
    for (left, right, join) in facts.steps {
        if set(left) == first && set(right) == second {
            return Some(kind_of(*join));
        }
    }
    None
}

fn kind_of(join: JoinNo) -> Step {
    if join == 0 {
        Step::Inner
    } else {
        Step::By(join)
    }
}
