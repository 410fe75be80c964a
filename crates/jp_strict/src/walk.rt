#![tactic(auto, using(crate::proofs::CasesLaws::equations))]

ghost use Rattle.std.specs.Prelude.{◌≡◌, map};
ghost use Rattle.jp_query.specs.Refs.{union};
ghost use Rattle.jp_strict.specs.Cases.{all_cases, and_cases, cases_of, either, in_all, literal_cases, members_of, no_members, null_in, null_of_term, or_cases, shared, test_cases, tests, with_member};

use crate::absence::{Absence, Members, Surely, both, common, nothing};
use jp_base::{RelSet, Value};
use jp_query::{Expr, IsTest};

/// In which cases an expression is surely NULL, not true, not false.
#[cycle(walk)]
pub fn surely(expr: &Expr, absence: &Absence) -> Surely
    ensures { result ≡ cases_of absence.now expr.now }
{
    match expr {
        Expr::Col { rel, col, .. } => null_where(absence.column(*rel, *col)),
        Expr::Lit(value, _) => literal(value, absence.all()),
        Expr::Place(inner, rels) => {
            let inner = surely(inner.get(), absence);
            let gone = absence.relations(*rels);
            so_where(both(gone, inner.null), inner.not_true, inner.not_false)
        }
        Expr::Neg(operand) => null_where(surely(operand.get(), absence).null),
        Expr::Sum(terms) => null_where(null_terms(terms.as_slice(), absence)),
        Expr::Product(factors) => some_null(&members(factors.as_slice(), absence)),
        Expr::Concat(parts) => some_null(&members(parts.as_slice(), absence)),
        Expr::Compare(_, left, right) => {
            let left = surely(left.get(), absence);
            let right = surely(right.get(), absence);
            null_where(both(left.null, right.null))
        }
        Expr::Between(operand, low, high) => {
            let operand = surely(operand.get(), absence);
            let low = surely(low.get(), absence);
            let high = surely(high.get(), absence);
            let end = both(operand.null, both(low.null, high.null));
            so_where(operand.null, end, nothing())
        }
        Expr::InList(operand, _) => null_where(surely(operand.get(), absence).null),
        Expr::And(list) => conjunction(&members(list.as_slice(), absence)),
        Expr::Or(list) => disjunction(&members(list.as_slice(), absence)),
        Expr::Not(operand) => {
            let operand = surely(operand.get(), absence);
            so_where(operand.null, operand.not_false, operand.not_true)
        }
        Expr::Test(test, operand) => tested(*test, surely(operand.get(), absence)),
        Expr::Coalesce(list) => every_null(&members(list.as_slice(), absence)),
        Expr::Case { .. } => null_where(nothing()),
        Expr::Exists(_, _) => null_where(nothing()),
        Expr::InSub(_, operand, _) => {
            let operand = surely(operand.get(), absence);
            so_where(nothing(), operand.null, nothing())
        }
    }
}

#[cycle(walk)]
fn members(exprs: &[Expr], absence: &Absence) -> Members
    ensures { result ≡ members_of (all_cases absence.now) (map (cases_of absence.now) exprs.now) }
{
    let all = absence.all();
    let mut found = none_found(all);
    for expr in exprs {
        let member = surely(expr, absence);
        let more = one_more(&found, &member, all);
        found = more;
    }
    found
}

/// The cases in which some term of a sum is NULL.
#[cycle(walk)]
fn null_terms(terms: &[(bool, Expr)], absence: &Absence) -> RelSet
    ensures { result ≡ union (map (null_of_term absence.now) terms.now) }
{
    let mut null = nothing();
    for (_, term) in terms {
        null = both(null, surely(term, absence).null);
    }
    null
}

/// NULL in the first cases, and in these neither true nor false.
fn so_where(null: RelSet, not_true: RelSet, not_false: RelSet) -> Surely
    ensures { result ≡ tests null not_true not_false }
{
    Surely {
        null,
        not_true: both(null, not_true),
        not_false: both(null, not_false),
    }
}

fn null_where(null: RelSet) -> Surely
    ensures { result ≡ null_in null }
{
    so_where(null, nothing(), nothing())
}

fn none_found(all: RelSet) -> Members
    ensures { result ≡ no_members all }
{
    Members {
        some: everywhere(nothing()),
        every: everywhere(all),
        listed: nothing(),
    }
}

fn one_more(before: &Members, member: &Surely, all: RelSet) -> Members
    ensures { result ≡ with_member all before.now member.now }
{
    Members {
        some: in_either(&before.some, member),
        every: in_both(&before.every, member),
        listed: all,
    }
}

fn everywhere(all: RelSet) -> Surely
    ensures { result ≡ in_all all }
{
    Surely {
        null: all,
        not_true: all,
        not_false: all,
    }
}

fn in_either(a: &Surely, b: &Surely) -> Surely
    ensures { result ≡ either a.now b.now }
{
    Surely {
        null: both(a.null, b.null),
        not_true: both(a.not_true, b.not_true),
        not_false: both(a.not_false, b.not_false),
    }
}

fn in_both(a: &Surely, b: &Surely) -> Surely
    ensures { result ≡ shared a.now b.now }
{
    Surely {
        null: common(a.null, b.null),
        not_true: common(a.not_true, b.not_true),
        not_false: common(a.not_false, b.not_false),
    }
}

/// What is NULL where some member is.
fn some_null(members: &Members) -> Surely
    ensures { result ≡ null_in members.now.some.null }
{
    null_where(members.some.null)
}

/// What is NULL where all members are.
fn every_null(members: &Members) -> Surely
    ensures { result ≡ null_in members.now.every.null }
{
    null_where(members.every.null)
}

/// AND is NULL where all members are, not true where one isn't, not false where all aren't.
fn conjunction(members: &Members) -> Surely
    ensures { result ≡ and_cases members.now }
{
    let null = common(members.listed, members.every.null);
    let not_false = common(members.listed, members.every.not_false);
    so_where(null, members.some.not_true, not_false)
}

/// OR is NULL where all members are, not true where all aren't, not false where one isn't.
fn disjunction(members: &Members) -> Surely
    ensures { result ≡ or_cases members.now }
{
    let null = common(members.listed, members.every.null);
    let not_true = common(members.listed, members.every.not_true);
    so_where(null, not_true, members.some.not_false)
}

fn literal(value: &Value, all: RelSet) -> Surely
    ensures { result ≡ literal_cases all value.now }
{
    match value {
        Value::Null => null_where(all),
        Value::Bool(false) => so_where(nothing(), all, nothing()),
        Value::Bool(true) => so_where(nothing(), nothing(), all),
        Value::Num(_) => null_where(nothing()),
        Value::Text(_) => null_where(nothing()),
    }
}

fn tested(test: IsTest, operand: Surely) -> Surely
    ensures { result ≡ test_cases test operand }
{
    match test {
        IsTest::NotNull => so_where(nothing(), operand.null, nothing()),
        IsTest::NotUnknown => so_where(nothing(), operand.null, nothing()),
        IsTest::True => so_where(nothing(), operand.not_true, nothing()),
        IsTest::False => so_where(nothing(), operand.not_false, nothing()),
        _ => null_where(nothing()),
    }
}
