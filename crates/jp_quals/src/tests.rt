#![tactic(auto, using(jp_special::proofs::BlockSize::few_items, crate::proofs::ExampleLaws::block_of))]

ghost use Rattle.std.specs.Prelude.{◌≡◌, ◌∷◌, [], map, IfOk};
ghost use Rattle.jp_problem.specs.Made.{IsBlock};
ghost use Rattle.jp_problem.specs.Problems.{rels_of_item};
ghost use Rattle.jp_query.specs.TreeExamples.{col, equals as equality};
ghost use Rattle.jp_quals.specs.Examples.{both as both_of, is_null as null_test, leaf as leaf_of, left_join as left_join_of, lower as lower_of, output as output_of, two_left_joins as two_left_joins_of};

use crate::distribute;
use jp_base::{RelNo, RelSet, Txt, Ty, Value};
use jp_problem::{Item, ItemKind, Problem, new_clauses, scan_clauses};
use jp_query::{CmpOp, Expr, IsTest, JoinKind, JoinTree, Output, Query};
use jp_special::{outline, specials};
use sqlite_items::{Boxed, Items};
use std::alloc::Global;
use std::process::Abort;
use std::test::Fail;

/// Of two left joins the upper one needs the lower one's right side alone, so that either can come first. A condition on
/// the upper right side needs all three items, one of the lower ON list that uses its right side alone is tested there.
#[test]
fn two_left_joins_distributed(rt: HostRuntime) -> Result<(), Fail> {
    let al = rt.alloc();
    let query = two_left_joins(al)?;
    let problem = distributed(al, &query)?;
    check_clauses(&rt, &problem);
    check_spine(&rt, al, &problem)
}

fn check_clauses(rt: &impl Abort, problem: &Problem) {
    let clauses = problem.clauses.as_slice();
    assert_eq!(rt; clauses.len(), 2);
    for (k, c) in clauses.iter().enumerate() {
        let (region, req) = if k == 0 {
            (1, RelSet::one(1))
        } else {
            (0, up_to_c())
        };
        assert_eq!(rt; c.region, region);
        assert_eq!(rt; c.req, req);
        assert_eq!(rt; c.class, None);
    }
    assert_eq!(rt; problem.items.as_slice().len(), 3);
    assert_eq!(rt; problem.joins.as_slice().len(), 2);
    assert_eq!(rt; problem.classes.as_slice().len(), 0);
}

/// At the scan of b its own condition is tested, at the last step that on c.
fn check_spine(rt: &impl Abort, al: Global, problem: &Problem) -> Result<(), Fail> {
    let at_b = scan_clauses(al, problem, 1)?;
    assert_eq!(rt; at_b.items().len(), 1);
    let at_first = new_clauses(al, problem, RelSet::one(0), RelSet::one(1))?;
    assert_eq!(rt; at_first.items().len(), 0);
    let low = RelSet::one(0).union(RelSet::one(1));
    let at_second = new_clauses(al, problem, low, RelSet::one(2))?;
    assert_eq!(rt; at_second.items().len(), 1);
    Ok(())
}

fn up_to_c() -> RelSet {
    RelSet::one(0).union(RelSet::one(1)).union(RelSet::one(2))
}

/// The problem of a query, with an item for each of its own.
fn distributed(al: Global, query: &Query) -> Result<Problem, Fail>
    requires { IsBlock query.now }
{
    let block = outline(al, query)?;
    let items = items_with(al, block.rels.as_slice())?;
    let joins = specials(al, query)?;
    let problem = distribute(al, query, joins, items)?;
    Ok(problem)
}

fn items_with(al: Global, rels: &[RelSet]) -> Result<Vec<Item>, Fail>
    ensures { IfOk result (λ items. map rels_of_item items.items ≡ rels.now) }
{
    let mut items = Vec::new(al);
    'rels: for rel in rels {
        items.push(item(al, *rel))?;
    }
    Ok(items)
}

fn item(al: Global, rels: RelSet) -> Item
    ensures { rels_of_item result ≡ rels }
{
    Item {
        kind: ItemKind::Base { rel: 0, table: 0 },
        rels,
        rows: 1,
        cost: 0,
        distinct: Items::new(al),
    }
}

// ---- the query

/// SELECT 1 FROM a LEFT JOIN b ON a.0 = b.0 AND b.1 IS NULL LEFT JOIN c ON b.0 = c.0 WHERE c.0 = c.0
fn two_left_joins(al: Global) -> Result<Query, Fail>
    ensures is { IfOk result (λ q. q ≡ two_left_joins_of) }
    ensures block { IfOk result IsBlock }
{
    let conds = only(al, equals(al, column(2, 0), column(2, 0))?)?;
    let columns = outputs(al)?;
    let tree = both(al)?;
    Ok(Query {
        columns,
        distinct: false,
        tree,
        conds,
        order: Items::new(al),
    })
}

fn outputs(al: Global) -> Result<Items<Output>, Fail>
    ensures { IfOk result (λ us. us ≡ output_of ∷ []) }
{
    let name = Txt::new(al, "")?;
    let mut columns = Items::new(al);
    columns.push(Output {
        name,
        ty: Ty::Number,
        expr: Expr::Lit(Value::Num(1), Ty::Number),
    })?;
    Ok(columns)
}

fn both(al: Global) -> Result<JoinTree, Fail>
    ensures { IfOk result (λ t. t ≡ both_of) }
{
    let on = only(al, equals(al, column(1, 0), column(2, 0))?)?;
    let right = leaf(al, 2, 0)?;
    let left = Boxed::new(al, lower(al)?)?;
    Ok(left_join(left, right, on))
}

fn lower(al: Global) -> Result<JoinTree, Fail>
    ensures { IfOk result (λ t. t ≡ lower_of) }
{
    let mut on = only(al, equals(al, column(0, 0), column(1, 0))?)?;
    on.push(is_null(al, column(1, 1))?)?;
    let left = leaf(al, 0, 0)?;
    let right = leaf(al, 1, 1)?;
    Ok(left_join(left, right, on))
}

fn left_join(left: Boxed<JoinTree>, right: Boxed<JoinTree>, on: Items<Expr>) -> JoinTree
    ensures { result ≡ left_join_of left right on }
{
    JoinTree::Join {
        kind: JoinKind::Left,
        left,
        right,
        on,
    }
}

fn leaf(al: Global, rel: RelNo, table: u32) -> Result<Boxed<JoinTree>, Fail>
    ensures { IfOk result (λ t. t ≡ leaf_of rel table) }
{
    let name = Txt::new(al, "")?;
    let tree = Boxed::new(al, JoinTree::Base { rel, name, table })?;
    Ok(tree)
}

/// The list of one condition.
fn only(al: Global, cond: Expr) -> Result<Items<Expr>, Fail>
    ensures { IfOk result (λ es. es ≡ cond ∷ []) }
{
    let mut conds = Items::new(al);
    conds.push(cond)?;
    Ok(conds)
}

fn column(rel: RelNo, number: u32) -> Expr
    ensures { result ≡ col rel number }
{
    Expr::Col {
        rel,
        col: number,
        ty: Ty::Number,
        nulled: RelSet::empty(),
    }
}

fn equals(al: Global, left: Expr, right: Expr) -> Result<Expr, Fail>
    ensures { IfOk result (λ e. e ≡ equality left right) }
{
    let left = Boxed::new(al, left)?;
    let right = Boxed::new(al, right)?;
    Ok(Expr::Compare(CmpOp::Eq, left, right))
}

fn is_null(al: Global, operand: Expr) -> Result<Expr, Fail>
    ensures { IfOk result (λ e. e ≡ null_test operand) }
{
    let operand = Boxed::new(al, operand)?;
    Ok(Expr::Test(IsTest::Null, operand))
}
