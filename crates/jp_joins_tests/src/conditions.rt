ghost use Rattle.std.specs.Prelude.{◌≡◌, ◌∷◌, [], All, Contains, IfOk};
ghost use Rattle.jp_query.specs.TreeExamples.{col};
ghost use Rattle.jp_joins_tests.specs.Relations.{IsCondition, equality as the_equality, nothing as the_nothing, right_is_null as the_test, sublink as the_sublink};

use jp_base::{Memory, RelNo, RelSet, Ty};
use jp_query::{CmpOp, Expr, IsTest, JoinTree, Query};
use sqlite_items::{Boxed, Items};
use std::alloc::Global;

/// The column of a relation.
pub(crate) fn column(rel: RelNo) -> Expr
    ensures { result ≡ col rel 0 }
{
    Expr::Col {
        rel,
        col: 0,
        ty: Ty::Number,
        nulled: RelSet::empty(),
    }
}

fn equality(alloc: Global) -> Result<Expr, Memory>
    ensures { IfOk result (λ e. e ≡ the_equality) }
{
    let left = Boxed::new(alloc, column(0))?;
    let right = Boxed::new(alloc, column(1))?;
    Ok(Expr::Compare(CmpOp::Eq, left, right))
}

fn sublink(alloc: Global) -> Result<Expr, Memory>
    ensures { IfOk result (λ e. e ≡ the_sublink) }
{
    let query = Boxed::new(alloc, nothing(alloc))?;
    Ok(Expr::Exists(1, query))
}

fn nothing(alloc: Global) -> Query
    ensures { result ≡ the_nothing }
{
    Query {
        columns: Items::new(alloc),
        distinct: false,
        tree: JoinTree::From {
            members: Items::new(alloc),
            conds: Items::new(alloc),
        },
        conds: Items::new(alloc),
        order: Items::new(alloc),
    }
}

fn right_is_null(alloc: Global) -> Result<Expr, Memory>
    ensures { IfOk result (λ e. e ≡ the_test) }
{
    let operand = Boxed::new(alloc, column(1))?;
    Ok(Expr::Test(IsTest::Null, operand))
}

/// The ON list: the equality of the columns, behind the sublink if that is asked for.
pub(crate) fn on_list(alloc: Global, with_sublink: bool) -> Result<Items<Expr>, Memory>
    ensures equality { IfOk result (λ list. Contains list the_equality) }
    ensures all { IfOk result (λ list. All IsCondition list) }
{
    let equality = Boxed::new(alloc, equality(alloc)?)?;
    let mut list = Items::new(alloc);
    if with_sublink {
        list.push(sublink(alloc)?)?;
    }
    list.push(equality.into_inner())?;
    Ok(list)
}

/// The filters: that the right column is NULL, if that is asked for.
pub(crate) fn filter_list(alloc: Global, filtered: bool) -> Result<Items<Expr>, Memory>
    ensures { IfOk result (λ list. All IsCondition list) }
{
    let mut list = Items::new(alloc);
    if filtered {
        list.push(right_is_null(alloc)?)?;
    }
    Ok(list)
}
