ghost use Rattle.std.specs.Prelude.{◌≡◌, ◌<◌, ◌≤◌, length, All, IfOk};
ghost use Rattle.jp_problem.specs.Made.{IsSearchable};
ghost use Rattle.jp_query.specs.TreeExamples.{col, equals as equality};
ghost use Rattle.jp_search_tests.specs.Plain.{HasRows, IsLink, IsPlainItem, IsTypedClause};

use jp_base::{Memory, RelNo, RelSet, Ty};
use jp_problem::{Clause, Item, ItemKind, Problem};
use jp_query::{CmpOp, Expr};
use sqlite_items::{Boxed, Items};
use std::alloc::Global;

/// A problem without special joins: an item for each number of rows, whose scan costs nothing, and for each link an
/// equality of a column of the one item and one of the other.
pub fn plain_problem(
    alloc: Global,
    rows: &[u64],
    links: &[(RelNo, RelNo)],
) -> Result<Problem, Memory>
    requires some { 1 ≤ length rows.now }
    requires few { length rows.now ≤ 16 }
    requires rows { All HasRows rows.now }
    requires links { All IsLink links.now }
    ensures { IfOk result (λ problem. IsSearchable problem) }
{
    let items = plain_items(alloc, rows)?;
    let clauses = equalities(alloc, links)?;
    Ok(Problem {
        items,
        joins: Items::new(alloc),
        clauses,
        classes: Items::new(alloc),
    })
}

pub(crate) fn plain_items(alloc: Global, rows: &[u64]) -> Result<Items<Item>, Memory>
    requires few { length rows.now ≤ 16 }
    requires rows { All HasRows rows.now }
    ensures count { IfOk result (λ items. length items ≡ length rows.now) }
    ensures plain { IfOk result (λ items. All IsPlainItem items) }
{
    let mut items = Items::new(alloc);
    'rows: for (number, count) in rows.iter().enumerate() {
        items.push(plain_item(alloc, number as u8, *count))?;
    }
    Ok(items)
}

fn plain_item(alloc: Global, rel: RelNo, rows: u64) -> Item
    requires rel { rel < 64 }
    requires rows { HasRows rows }
    ensures { IsPlainItem result }
{
    Item {
        kind: ItemKind::Sub { rel, block: 1 },
        rels: RelSet::one(rel),
        rows,
        cost: 0,
        distinct: Items::new(alloc),
    }
}

fn equalities(alloc: Global, links: &[(RelNo, RelNo)]) -> Result<Items<Clause>, Memory>
    requires { All IsLink links.now }
    ensures { IfOk result (λ clauses. All IsTypedClause clauses) }
{
    let mut clauses = Items::new(alloc);
    'links: for link in links {
        clauses.push(clause(alloc, link.0, link.1)?)?;
    }
    Ok(clauses)
}

fn clause(alloc: Global, left: RelNo, right: RelNo) -> Result<Clause, Memory>
    requires left { left < 64 }
    requires right { right < 64 }
    ensures { IfOk result (λ clause. IsTypedClause clause) }
{
    let expr = equals(alloc, left, right)?;
    Ok(Clause {
        expr,
        region: 0,
        req: RelSet::one(left).union(RelSet::one(right)),
        class: None,
    })
}

fn equals(alloc: Global, left: RelNo, right: RelNo) -> Result<Expr, Memory>
    ensures { IfOk result (λ e. e ≡ equality (col left 0) (col right 0)) }
{
    let left = Boxed::new(alloc, column(left))?;
    let right = Boxed::new(alloc, column(right))?;
    Ok(Expr::Compare(CmpOp::Eq, left, right))
}

/// The first column of a relation.
fn column(rel: RelNo) -> Expr
    ensures { result ≡ col rel 0 }
{
    Expr::Col {
        rel,
        col: 0,
        ty: Ty::Number,
        nulled: RelSet::empty(),
    }
}
