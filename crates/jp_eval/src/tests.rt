#![tactic(auto, using(crate::proofs::LiteralLaws::literal_ready))]

ghost use Rattle.std.specs.Prelude.{ℕ, ◌<◌, List, IfOk};
ghost use Rattle.jp_query.specs.Meaning.{Row as GivenRow, Env as Environment};
ghost use Rattle.jp_eval.specs.Evaluation.{CanEvaluate};

use crate::evaluation::evaluate;
use crate::{Env, eval, eval_in_128_bits, holds};
use jp_base::{Cell, Memory, RelNo, RelSet, Row, SubNo, Truth, Txt, Ty, Value};
use jp_placeholder::wrap;
use jp_query::{CmpOp, Expr, IsTest, JoinTree, Query};
use sqlite_items::{Boxed, Items};
use std::alloc::Global;
use std::test::Fail;

/// An environment in which only relation 0 has a row: 7, NULL and the text `seven`. Sublink 1 has the rows 2 and NULL,
/// sublink 2 the row 3, and the others have none.
#[derive(Drop)]
struct Lent {
    row: Row,
    with_null: Items<Row>,
    without_null: Items<Row>,
}

impl Env for Lent {
    ghost use Rattle.std.specs.Prelude.{Some, None, [], ◌==◌, if◌then◌else◌};

    ghost environment = { λ s rel. if rel == 0 then Some s.row else None };

    ghost sublink_rows = { λ s sub. if sub == 1 then s.with_null else if sub == 2 then s.without_null else [] };

    fn cell(&self, rel: RelNo, col: u32) -> Cell<'_> {
        if rel != 0 {
            return Cell::Null;
        }
        match self.row.get(col as usize) {
            Some(value) => value.cell(),
            None => Cell::Null,
        }
    }

    fn present(&self) -> RelSet {
        RelSet::one(0)
    }

    fn rows_of(&self, sub: SubNo) -> &[Row] {
        if sub == 1 {
            return self.with_null.as_slice();
        }
        if sub == 2 {
            return self.without_null.as_slice();
        }
        &[]
    }
}

/// The rows of a query with one output.
fn rows(alloc: Global, values: &[Option<i128>]) -> Result<Items<Row>, Memory> {
    let mut rows = Items::new(alloc);
    for value in values {
        let row = one(alloc, number_value(*value))?;
        match rows.push(row) {
            Ok(()) => {}
            Err(_) => return Err(Memory),
        }
    }
    Ok(rows)
}

fn one(alloc: Global, value: Value) -> Result<Row, Memory> {
    let mut row = Items::new(alloc);
    match row.push(value) {
        Ok(()) => Ok(row),
        Err(_) => Err(Memory),
    }
}

fn environment(alloc: Global) -> Result<Lent, Memory> {
    let mut row = one(alloc, Value::Num(7))?;
    match row.push(Value::Null) {
        Ok(()) => {}
        Err(_) => return Err(Memory),
    }
    match row.push(Value::Text(Txt::new(alloc, "seven")?)) {
        Ok(()) => {}
        Err(_) => return Err(Memory),
    }
    Ok(Lent {
        row,
        with_null: rows(alloc, &[Some(2), None])?,
        without_null: rows(alloc, &[Some(3)])?,
    })
}

fn literal(truth: Truth) -> Expr
    ensures { (rows : ℕ → List GivenRow) (env : Environment) → CanEvaluate rows result env }
{
    let value = match truth {
        Truth::True => Value::Bool(true),
        Truth::False => Value::Bool(false),
        Truth::Unknown => Value::Null,
    };
    Expr::Lit(value, Ty::Boolean)
}

fn number(value: Option<i128>) -> Expr {
    Expr::Lit(number_value(value), Ty::Number)
}

fn number_value(value: Option<i128>) -> Value {
    match value {
        Some(number) => Value::Num(number),
        None => Value::Null,
    }
}

fn column(rel: RelNo, col: u32) -> Expr {
    Expr::Col {
        rel,
        col,
        ty: Ty::Number,
        nulled: RelSet::empty(),
    }
}

fn push(members: &mut Items<Expr>, member: Expr) -> Result<(), Memory> {
    match members.push(member) {
        Ok(()) => Ok(()),
        Err(_) => Err(Memory),
    }
}

fn pair(alloc: Global, left: Expr, right: Expr) -> Result<Items<Expr>, Memory> {
    let mut members = Items::new(alloc);
    push(&mut members, left)?;
    push(&mut members, right)?;
    Ok(members)
}

fn boxed(alloc: Global, expr: Expr) -> Result<Boxed<Expr>, Memory> {
    match Boxed::new(alloc, expr) {
        Ok(b) => Ok(b),
        Err(_) => Err(Memory),
    }
}

fn truth(alloc: Global, expr: Expr) -> Result<Truth, Memory> {
    let env = environment(alloc)?;
    let found = evaluate(alloc, &expr, &env)?;
    Ok(found.truth())
}

/// The value of an expression that is a number or NULL.
fn number_of(alloc: Global, expr: Expr) -> Result<Option<i128>, Memory> {
    let env = environment(alloc)?;
    match evaluate(alloc, &expr, &env)?.into_value(alloc)? {
        Value::Num(number) => Ok(Some(number)),
        _ => Ok(None),
    }
}

/// Two truth values, their AND and their OR.
const AND_AND_OR: [(Truth, Truth, Truth, Truth); 9] = [
    (Truth::True, Truth::True, Truth::True, Truth::True),
    (Truth::True, Truth::False, Truth::False, Truth::True),
    (Truth::True, Truth::Unknown, Truth::Unknown, Truth::True),
    (Truth::False, Truth::True, Truth::False, Truth::True),
    (Truth::False, Truth::False, Truth::False, Truth::False),
    (Truth::False, Truth::Unknown, Truth::False, Truth::Unknown),
    (Truth::Unknown, Truth::True, Truth::Unknown, Truth::True),
    (Truth::Unknown, Truth::False, Truth::False, Truth::Unknown),
    (
        Truth::Unknown,
        Truth::Unknown,
        Truth::Unknown,
        Truth::Unknown,
    ),
];

fn conjunction(alloc: Global, left: Truth, right: Truth) -> Result<Truth, Memory> {
    let members = pair(alloc, literal(left), literal(right))?;
    truth(alloc, Expr::And(members))
}

fn disjunction(alloc: Global, left: Truth, right: Truth) -> Result<Truth, Memory> {
    let members = pair(alloc, literal(left), literal(right))?;
    truth(alloc, Expr::Or(members))
}

#[test]
fn and_and_or(rt: HostRuntime) -> Result<(), Fail> {
    for (left, right, all, any) in AND_AND_OR {
        assert_eq!(rt; conjunction(rt.alloc(), left, right)?, all);
        assert_eq!(rt; disjunction(rt.alloc(), left, right)?, any);
    }
    Ok(())
}

/// A truth value and its NOT.
const NOT: [(Truth, Truth); 3] = [
    (Truth::True, Truth::False),
    (Truth::False, Truth::True),
    (Truth::Unknown, Truth::Unknown),
];

fn negation(alloc: Global, operand: Truth) -> Result<Truth, Memory> {
    let operand = boxed(alloc, literal(operand))?;
    truth(alloc, Expr::Not(operand))
}

#[test]
fn not(rt: HostRuntime) -> Result<(), Fail> {
    for (operand, expected) in NOT {
        assert_eq!(rt; negation(rt.alloc(), operand)?, expected);
    }
    Ok(())
}

/// A word after IS, and whether it is true of true, of false and of NULL.
const IS: [(IsTest, bool, bool, bool); 8] = [
    (IsTest::Null, false, false, true),
    (IsTest::NotNull, true, true, false),
    (IsTest::True, true, false, false),
    (IsTest::NotTrue, false, true, true),
    (IsTest::False, false, true, false),
    (IsTest::NotFalse, true, false, true),
    (IsTest::Unknown, false, false, true),
    (IsTest::NotUnknown, true, true, false),
];

fn is(alloc: Global, test: IsTest, operand: Truth) -> Result<Truth, Memory> {
    let operand = boxed(alloc, literal(operand))?;
    truth(alloc, Expr::Test(test, operand))
}

#[test]
fn is_null_true_false_and_unknown(rt: HostRuntime) -> Result<(), Fail> {
    for (test, of_true, of_false, of_null) in IS {
        assert_eq!(rt; is(rt.alloc(), test, Truth::True)?, Truth::of(of_true));
        assert_eq!(rt; is(rt.alloc(), test, Truth::False)?, Truth::of(of_false));
        assert_eq!(rt; is(rt.alloc(), test, Truth::Unknown)?, Truth::of(of_null));
    }
    Ok(())
}

/// A comparison, and whether it is true of 1 and 2, of 2 and 2 and of 3 and 2.
const COMPARISONS: [(CmpOp, bool, bool, bool); 6] = [
    (CmpOp::Eq, false, true, false),
    (CmpOp::Ne, true, false, true),
    (CmpOp::Lt, true, false, false),
    (CmpOp::Le, true, true, false),
    (CmpOp::Gt, false, false, true),
    (CmpOp::Ge, false, true, true),
];

fn compared(
    alloc: Global,
    op: CmpOp,
    left: Option<i128>,
    right: Option<i128>,
) -> Result<Truth, Memory> {
    let left = boxed(alloc, number(left))?;
    let right = boxed(alloc, number(right))?;
    truth(alloc, Expr::Compare(op, left, right))
}

#[test]
fn comparisons(rt: HostRuntime) -> Result<(), Fail> {
    for (op, less, equal, greater) in COMPARISONS {
        assert_eq!(rt;
            compared(rt.alloc(), op, Some(1), Some(2))?,
            Truth::of(less)
        );
        assert_eq!(rt;
            compared(rt.alloc(), op, Some(2), Some(2))?,
            Truth::of(equal)
        );
        assert_eq!(rt;
            compared(rt.alloc(), op, Some(3), Some(2))?,
            Truth::of(greater)
        );
        assert_eq!(rt; compared(rt.alloc(), op, None, Some(2))?, Truth::Unknown);
        assert_eq!(rt; compared(rt.alloc(), op, Some(2), None)?, Truth::Unknown);
        assert_eq!(rt; compared(rt.alloc(), op, None, None)?, Truth::Unknown);
    }
    Ok(())
}

#[test]
fn columns(rt: HostRuntime) -> Result<(), Fail> {
    assert_eq!(rt; number_of(rt.alloc(), column(0, 0))?, Some(7));
    assert_eq!(rt; number_of(rt.alloc(), column(0, 1))?, None);
    assert_eq!(rt; number_of(rt.alloc(), column(1, 0))?, None);
    Ok(())
}

fn placeholder(alloc: Global, rel: RelNo) -> Result<Option<i128>, Memory>
    requires { rel < 64 }
{
    let place = wrap(alloc, number(Some(1)), RelSet::one(rel))?;
    number_of(alloc, place)
}

#[test]
fn placeholders(rt: HostRuntime) -> Result<(), Fail> {
    assert_eq!(rt; placeholder(rt.alloc(), 0)?, Some(1));
    assert_eq!(rt; placeholder(rt.alloc(), 1)?, None);
    Ok(())
}

/// Two factors and their product: NULL where one is, also beside a 0.
const PRODUCTS: [(Option<i128>, Option<i128>, Option<i128>); 6] = [
    (Some(3), Some(-4), Some(-12)),
    (Some(7), Some(0), Some(0)),
    (Some(0), Some(7), Some(0)),
    (None, Some(0), None),
    (Some(0), None, None),
    (None, Some(7), None),
];

fn product(alloc: Global, factors: &[Option<i128>]) -> Result<Option<i128>, Memory> {
    let mut items = Items::new(alloc);
    for factor in factors {
        push(&mut items, number(*factor))?;
    }
    number_of(alloc, Expr::Product(items))
}

#[test]
fn products(rt: HostRuntime) -> Result<(), Fail> {
    for (left, right, expected) in PRODUCTS {
        assert_eq!(rt; product(rt.alloc(), &[left, right])?, expected);
    }
    let wide = Some(170141183460469231731687303715884105727);
    assert_eq!(rt; product(rt.alloc(), &[wide, wide, Some(0)])?, Some(0));
    assert_eq!(rt; product(rt.alloc(), &[wide, wide, None, Some(0)])?, None);
    assert_eq!(rt; product(rt.alloc(), &[wide, Some(-1)])?, wide.map(|n| -n));
    Ok(())
}

fn sum(alloc: Global, terms: &[(bool, Option<i128>)]) -> Result<Option<i128>, Memory> {
    let mut items = Items::new(alloc);
    for (subtracted, term) in terms {
        match items.push((*subtracted, number(*term))) {
            Ok(()) => {}
            Err(_) => return Err(Memory),
        }
    }
    number_of(alloc, Expr::Sum(items))
}

#[test]
fn sums_and_signs(rt: HostRuntime) -> Result<(), Fail> {
    let terms = [(false, Some(5)), (true, Some(7)), (false, Some(1))];
    assert_eq!(rt; sum(rt.alloc(), &terms)?, Some(-1));
    assert_eq!(rt; sum(rt.alloc(), &[(true, Some(5))])?, Some(-5));
    assert_eq!(rt; sum(rt.alloc(), &[(false, Some(5)), (true, None)])?, None);
    let negated = Expr::Neg(boxed(rt.alloc(), column(0, 0))?);
    assert_eq!(rt; number_of(rt.alloc(), negated)?, Some(-7));
    let null = Expr::Neg(boxed(rt.alloc(), column(0, 1))?);
    assert_eq!(rt; number_of(rt.alloc(), null)?, None);
    Ok(())
}

/// An operand, a low and a high end, and BETWEEN.
const BETWEEN: [(Option<i128>, Option<i128>, Option<i128>, Truth); 7] = [
    (Some(2), Some(1), Some(3), Truth::True),
    (Some(3), Some(1), Some(3), Truth::True),
    (Some(4), Some(1), Some(3), Truth::False),
    (Some(4), None, Some(3), Truth::False),
    (Some(2), None, Some(3), Truth::Unknown),
    (Some(0), Some(1), None, Truth::False),
    (None, Some(1), Some(3), Truth::Unknown),
];

fn between(
    alloc: Global,
    operand: Option<i128>,
    low: Option<i128>,
    high: Option<i128>,
) -> Result<Truth, Memory> {
    let operand = boxed(alloc, number(operand))?;
    let low = boxed(alloc, number(low))?;
    let high = boxed(alloc, number(high))?;
    truth(alloc, Expr::Between(operand, low, high))
}

#[test]
fn between_with_null_ends(rt: HostRuntime) -> Result<(), Fail> {
    for (operand, low, high, expected) in BETWEEN {
        assert_eq!(rt; between(rt.alloc(), operand, low, high)?, expected);
    }
    Ok(())
}

/// An operand, a list of two, and IN.
const IN: [(Option<i128>, Option<i128>, Option<i128>, Truth); 5] = [
    (Some(1), Some(2), Some(1), Truth::True),
    (Some(1), None, Some(1), Truth::True),
    (Some(1), None, Some(2), Truth::Unknown),
    (Some(1), Some(2), Some(3), Truth::False),
    (None, Some(1), Some(2), Truth::Unknown),
];

fn in_list(
    alloc: Global,
    operand: Option<i128>,
    first: Option<i128>,
    second: Option<i128>,
) -> Result<Truth, Memory> {
    let operand = boxed(alloc, number(operand))?;
    let list = pair(alloc, number(first), number(second))?;
    truth(alloc, Expr::InList(operand, list))
}

#[test]
fn in_with_null_on_each_side(rt: HostRuntime) -> Result<(), Fail> {
    for (operand, first, second, expected) in IN {
        assert_eq!(rt; in_list(rt.alloc(), operand, first, second)?, expected);
    }
    Ok(())
}

/// The query of a sublink, which the evaluator doesn't look at.
fn query(alloc: Global) -> Result<Boxed<Query>, Memory> {
    let query = Query {
        columns: Items::new(alloc),
        distinct: false,
        tree: JoinTree::From {
            members: Items::new(alloc),
            conds: Items::new(alloc),
        },
        conds: Items::new(alloc),
        order: Items::new(alloc),
    };
    match Boxed::new(alloc, query) {
        Ok(query) => Ok(query),
        Err(_) => Err(Memory),
    }
}

/// An operand and a sublink, and IN.
const IN_ROWS: [(Option<i128>, SubNo, Truth); 7] = [
    (Some(2), 1, Truth::True),
    (Some(4), 1, Truth::Unknown),
    (None, 1, Truth::Unknown),
    (Some(4), 2, Truth::False),
    (None, 2, Truth::Unknown),
    (Some(4), 3, Truth::False),
    (None, 3, Truth::False),
];

fn in_rows(alloc: Global, operand: Option<i128>, sub: SubNo) -> Result<Truth, Memory> {
    let query = query(alloc)?;
    let operand = boxed(alloc, number(operand))?;
    truth(alloc, Expr::InSub(sub, operand, query))
}

fn exists(alloc: Global, sub: SubNo) -> Result<Truth, Memory> {
    let query = query(alloc)?;
    truth(alloc, Expr::Exists(sub, query))
}

#[test]
fn sublinks(rt: HostRuntime) -> Result<(), Fail> {
    for (operand, sub, expected) in IN_ROWS {
        assert_eq!(rt; in_rows(rt.alloc(), operand, sub)?, expected);
    }
    assert_eq!(rt; exists(rt.alloc(), 1)?, Truth::True);
    assert_eq!(rt; exists(rt.alloc(), 2)?, Truth::True);
    assert_eq!(rt; exists(rt.alloc(), 3)?, Truth::False);
    Ok(())
}

/// `CASE operand WHEN first THEN 10 WHEN 2 THEN 20 END`.
fn simple_case(
    alloc: Global,
    operand: Option<i128>,
    first: Option<i128>,
) -> Result<Option<i128>, Memory> {
    let mut arms = Items::new(alloc);
    match arms.push((number(first), number(Some(10)))) {
        Ok(()) => {}
        Err(_) => return Err(Memory),
    }
    match arms.push((number(Some(2)), number(Some(20)))) {
        Ok(()) => {}
        Err(_) => return Err(Memory),
    }
    let case = Expr::Case {
        operand: Some(boxed(alloc, number(operand))?),
        arms,
        otherwise: None,
    };
    number_of(alloc, case)
}

/// `CASE WHEN condition THEN 10 ELSE 30 END`.
fn searched_case(alloc: Global, condition: Truth) -> Result<Option<i128>, Memory> {
    let mut arms = Items::new(alloc);
    match arms.push((literal(condition), number(Some(10)))) {
        Ok(()) => {}
        Err(_) => return Err(Memory),
    }
    let case = Expr::Case {
        operand: None,
        arms,
        otherwise: Some(boxed(alloc, number(Some(30)))?),
    };
    number_of(alloc, case)
}

#[test]
fn case_by_equality_and_by_truth(rt: HostRuntime) -> Result<(), Fail> {
    assert_eq!(rt; simple_case(rt.alloc(), Some(1), Some(1))?, Some(10));
    assert_eq!(rt; simple_case(rt.alloc(), Some(2), Some(2))?, Some(10));
    assert_eq!(rt; simple_case(rt.alloc(), Some(2), None)?, Some(20));
    assert_eq!(rt; simple_case(rt.alloc(), Some(3), Some(1))?, None);
    assert_eq!(rt; simple_case(rt.alloc(), None, None)?, None);
    assert_eq!(rt; searched_case(rt.alloc(), Truth::True)?, Some(10));
    assert_eq!(rt; searched_case(rt.alloc(), Truth::False)?, Some(30));
    assert_eq!(rt; searched_case(rt.alloc(), Truth::Unknown)?, Some(30));
    Ok(())
}

fn text(alloc: Global, text: &str) -> Result<Expr, Memory>
    ensures { (rows : ℕ → List GivenRow) (env : Environment) → IfOk result (λ e. CanEvaluate rows e env) }
{
    let text = Txt::new(alloc, text)?;
    Ok(Expr::Lit(Value::Text(text), Ty::Text))
}

/// Whether the value is this text.
fn is_text(alloc: Global, expr: &Expr, expected: &str) -> Result<bool, Memory> {
    let env = environment(alloc)?;
    match evaluate(alloc, expr, &env)?.into_value(alloc)? {
        Value::Text(text) => Ok(text.as_str() == expected),
        _ => Ok(false),
    }
}

fn is_null(alloc: Global, expr: &Expr) -> Result<bool, Memory> {
    let env = environment(alloc)?;
    let found = evaluate(alloc, expr, &env)?;
    Ok(found.is_null())
}

#[test]
fn coalesced_texts(rt: HostRuntime) -> Result<(), Fail> {
    let alloc = rt.alloc();
    let mut members = pair(alloc, column(0, 1), column(0, 2))?;
    push(&mut members, text(alloc, "other")?)?;
    assert!(rt; is_text(alloc, &Expr::Coalesce(members), "seven")?);
    let nulls = pair(alloc, column(0, 1), column(1, 0))?;
    assert!(rt; is_null(alloc, &Expr::Coalesce(nulls))?);
    Ok(())
}

#[test]
fn concatenations(rt: HostRuntime) -> Result<(), Fail> {
    let alloc = rt.alloc();
    let mut pieces = pair(alloc, column(0, 2), text(alloc, "-")?)?;
    push(&mut pieces, column(0, 2))?;
    assert!(rt; is_text(alloc, &Expr::Concat(pieces), "seven-seven")?);
    let with_null = pair(alloc, column(0, 2), column(0, 1))?;
    assert!(rt; is_null(alloc, &Expr::Concat(with_null))?);
    Ok(())
}

#[test]
fn public_calls_with_ample_memory(rt: HostRuntime) -> Result<(), Fail> {
    let alloc = rt.alloc();
    let env = environment(alloc)?;
    let expr = text(alloc, "long enough for memory")?;
    match eval(alloc, &expr, &env)? {
        Value::Text(value) => assert_eq!(rt; value.as_str(), "long enough for memory"),
        _ => assert!(rt; false),
    }
    assert_eq!(rt; holds(alloc, &literal(Truth::True), &env)?, Truth::True);
    assert_eq!(rt;
        holds(alloc, &literal(Truth::Unknown), &env)?,
        Truth::Unknown
    );
    Ok(())
}

#[test]
fn evaluation_in_128_bits_with_ample_memory(rt: HostRuntime) -> Result<(), Fail> {
    let alloc = rt.alloc();
    let env = environment(alloc)?;
    let expr = text(alloc, "long enough for memory")?;
    match eval_in_128_bits(alloc, &expr, &env)? {
        Value::Text(value) => assert_eq!(rt; value.as_str(), "long enough for memory"),
        _ => assert!(rt; false),
    }
    Ok(())
}
