ghost use Rattle.std.specs.Prelude.{◌≡◌, ◌<◌, ◌∷◌, [], IfOk};
ghost use Rattle.jp_query.specs.TreeExamples.{col, equals as equality, exists_by, select as select_of};
ghost use Rattle.jp_naive_tests.specs.Queries.{full_apart as full_apart_of, literal as literal_of, made as made_of, not_in_nothing as not_in_nothing_of, nothing as nothing_of, output as output_of, same_inner as same_inner_of, same_two_levels_out as same_two_levels_out_of, table as table_of};

use jp_base::{RelNo, RelSet, SubNo, Txt, Ty, Value};
use jp_query::{CmpOp, Expr, JoinKind, JoinTree, Order, Output, Query};
use sqlite_items::{Boxed, Items};
use std::alloc::Global;
use std::test::Fail;

fn literal(number: i128) -> Expr
    ensures { result ≡ literal_of number }
{
    Expr::Lit(Value::Num(number), Ty::Number)
}

/// The first column of a relation.
fn column(rel: RelNo) -> Expr
    ensures { result ≡ col rel 0 }
{
    Expr::Col {
        rel,
        col: 0,
        ty: Ty::Number,
        nulled: RelSet::empty(),
    }
}

fn equals(alloc: Global, left: Expr, right: Expr) -> Result<Expr, Fail>
    ensures { IfOk result (λ e. e ≡ equality left right) }
{
    let left = Boxed::new(alloc, left)?;
    let right = Boxed::new(alloc, right)?;
    Ok(Expr::Compare(CmpOp::Eq, left, right))
}

/// The list of one condition.
fn only(alloc: Global, cond: Expr) -> Result<Items<Expr>, Fail>
    ensures { IfOk result (λ es. es ≡ cond ∷ []) }
{
    let mut conds = Items::new(alloc);
    conds.push(cond)?;
    Ok(conds)
}

fn table(alloc: Global, rel: RelNo) -> Result<JoinTree, Fail>
    ensures { IfOk result (λ t. t ≡ table_of rel) }
{
    let name = Txt::new(alloc, "")?;
    Ok(JoinTree::Base {
        rel,
        name,
        table: 0,
    })
}

/// A select in FROM.
fn made(alloc: Global, rel: RelNo, query: Query) -> Result<Boxed<JoinTree>, Fail>
    ensures { IfOk result (λ t. t ≡ made_of rel query) }
{
    let query = Boxed::new(alloc, query)?;
    let name = Txt::new(alloc, "")?;
    let tree = Boxed::new(alloc, JoinTree::Sub { rel, name, query })?;
    Ok(tree)
}

fn output(alloc: Global, expr: Expr) -> Result<Output, Fail>
    ensures { IfOk result (λ u. u ≡ output_of expr) }
{
    let name = Txt::new(alloc, "")?;
    Ok(Output {
        name,
        ty: Ty::Number,
        expr,
    })
}

/// SELECT number FROM a, with conditions; a has the relation's number.
fn select(alloc: Global, number: i128, rel: RelNo, conds: Items<Expr>) -> Result<Query, Fail>
    ensures { IfOk result (λ q. q ≡ select_of (literal_of number) (table_of rel) conds) }
{
    let mut columns = Items::new(alloc);
    columns.push(output(alloc, literal(number))?)?;
    let tree = table(alloc, rel)?;
    Ok(Query {
        columns,
        distinct: false,
        tree,
        conds,
        order: Items::new(alloc),
    })
}

fn exists(alloc: Global, number: SubNo, query: Query) -> Result<Expr, Fail>
    ensures { IfOk result (λ e. e ≡ exists_by number query) }
{
    let query = Boxed::new(alloc, query)?;
    Ok(Expr::Exists(number, query))
}

fn same_inner(alloc: Global) -> Result<Query, Fail>
    ensures { IfOk result (λ q. q ≡ same_inner_of) }
{
    let conds = only(alloc, equals(alloc, column(4), column(5))?)?;
    select(alloc, 1, 3, conds)
}

fn same_two_levels_out(alloc: Global) -> Result<Expr, Fail>
    ensures { IfOk result (λ e. e ≡ same_two_levels_out_of) }
{
    let conds = only(alloc, exists(alloc, 2, same_inner(alloc)?)?)?;
    let query = select(alloc, 1, 2, conds)?;
    exists(alloc, 1, query)
}

/// SELECT DISTINCT x.0, y.0 FROM (SELECT 1 FROM a) x FULL JOIN (SELECT 2 FROM a) y
/// ON EXISTS (SELECT 1 FROM a WHERE EXISTS (SELECT 1 FROM a WHERE x.0 = y.0)) ORDER BY x.0 NULLS FIRST.
pub fn full_apart(alloc: Global) -> Result<Query, Fail>
    ensures { IfOk result (λ q. q ≡ full_apart_of) }
{
    let left = made(alloc, 4, select(alloc, 1, 0, Items::new(alloc))?)?;
    let right = made(alloc, 5, select(alloc, 2, 1, Items::new(alloc))?)?;
    let on = only(alloc, same_two_levels_out(alloc)?)?;
    let mut columns = Items::new(alloc);
    columns.push(output(alloc, column(4))?)?;
    columns.push(output(alloc, column(5))?)?;
    let mut order = Items::new(alloc);
    order.push(Order {
        expr: column(4),
        desc: false,
        nulls_first: true,
    })?;
    Ok(Query {
        columns,
        distinct: true,
        tree: JoinTree::Join {
            kind: JoinKind::Full,
            left,
            right,
            on,
        },
        conds: Items::new(alloc),
        order,
    })
}

/// SELECT 1 FROM a WHERE 1 = 2.
fn nothing(alloc: Global) -> Result<Query, Fail>
    ensures { IfOk result (λ q. q ≡ nothing_of) }
{
    let conds = only(alloc, equals(alloc, literal(1), literal(2))?)?;
    select(alloc, 1, 1, conds)
}

/// SELECT 1 FROM a WHERE NOT 1 IN (SELECT 1 FROM a WHERE 1 = 2).
pub fn not_in_nothing(alloc: Global) -> Result<Query, Fail>
    ensures { IfOk result (λ q. q ≡ not_in_nothing_of) }
{
    let query = Boxed::new(alloc, nothing(alloc)?)?;
    let operand = Boxed::new(alloc, literal(1))?;
    let among = Boxed::new(alloc, Expr::InSub(1, operand, query))?;
    let conds = only(alloc, Expr::Not(among))?;
    select(alloc, 1, 0, conds)
}
