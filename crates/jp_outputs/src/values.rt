ghost use Rattle.std.specs.Prelude.{◌≡◌, All, IfOk};
ghost use Rattle.jp_joins.specs.Conditions.{CanEvaluateAt};
ghost use Rattle.jp_joins.specs.Lending.{IsLentFor, numbers_in, numbers_in_all};
ghost use Rattle.jp_joins.specs.Meant.{GivesRows, value_at};
ghost use Rattle.jp_joins.specs.Tuples.{map_of};
ghost use Rattle.jp_outputs.specs.Exprs.{lent_exprs};
ghost use Rattle.jp_outputs.specs.Values.{values_at};

use crate::sublinks::numbers_of_all;
use jp_base::{Memory, Row, SubNo, Value};
use jp_eval::eval;
use jp_joins::{At, Lent, Tuple, TupleEnv, lent_for};
use jp_query::Expr;
use sqlite_items::Items;
use std::alloc::Global;

/// Expressions that are evaluated at each tuple, with the numbers of their sublinks.
#[derive(Drop)]
pub struct Asked<'b> {
    pub exprs: Vec<&'b Expr>,
    pub numbers: Vec<SubNo>,
}

/// The expressions, with the numbers of their sublinks.
pub fn to_ask<'b>(alloc: Global, exprs: Vec<&'b Expr>) -> Result<Asked<'b>, Memory>
    ensures exprs { IfOk result (λ a. a.exprs.items ≡ exprs.entry.items) }
    ensures numbers { IfOk result (λ a. a.numbers.items ≡ numbers_in_all (lent_exprs exprs.entry.items)) }
{
    let numbers = numbers_of_all(alloc, exprs.as_slice())?;
    Ok(Asked { exprs, numbers })
}

/// The values of the expressions at a tuple.
pub fn values_at<'t, E: TupleEnv, S: Fn(Tuple<'t>, SubNo) -> Result<Vec<Row>, Memory>>(
    alloc: Global,
    env: &E,
    subs: &S,
    asked: &Asked<'_>,
    tuple: Tuple<'t>,
) -> Result<Row, Memory>
    requires can { S.IsAlwaysCallable subs.now }
    requires gives { GivesRows (E.meant env.now) (S.post subs.now) }
    requires numbers { asked.now.numbers.items ≡ numbers_in_all (lent_exprs asked.now.exprs.items) }
    requires evaluable { All (CanEvaluateAt (E.meant env.now) (map_of tuple)) (lent_exprs asked.now.exprs.items) }
    ensures { IfOk result (λ row. row ≡ values_at (E.meant env.now) (lent_exprs asked.now.exprs.items) (map_of tuple.entry)) }
{
    let lent = lent_for(alloc, subs, tuple, asked.numbers.as_slice())?;
    let row = values_lent(alloc, env, asked.exprs.as_slice(), tuple, lent.as_slice())?;
    Ok(row)
}

/// The values of the expressions at a tuple. The rows of their sublinks there are lent.
fn values_lent<E: TupleEnv>(
    alloc: Global,
    env: &E,
    exprs: &[&Expr],
    tuple: Tuple<'_>,
    lent: &[Lent],
) -> Result<Row, Memory>
    requires evaluable { All (CanEvaluateAt (E.meant env.now) (map_of tuple)) (lent_exprs exprs.now) }
    requires lent { All (IsLentFor ((E.meant env.now).sublink_rows (map_of tuple)) lent.now) (numbers_in_all (lent_exprs exprs.now)) }
    ensures { IfOk result (λ row. row ≡ values_at (E.meant env.now) (lent_exprs exprs.now) (map_of tuple.entry)) }
{
    let mut row = Items::new(alloc);
    'exprs: for expr in exprs {
        let value = value_lent(alloc, env, expr, tuple, lent)?;
        match row.push(value) {
            Ok(()) => {}
            Err(_) => return Err(Memory),
        }
    }
    Ok(row)
}

/// The value of an expression at a tuple. The rows of its sublinks there are lent.
fn value_lent<E: TupleEnv>(
    alloc: Global,
    env: &E,
    expr: &Expr,
    tuple: Tuple<'_>,
    lent: &[Lent],
) -> Result<Value, Memory>
    requires evaluable { CanEvaluateAt (E.meant env.now) (map_of tuple) expr.now }
    requires lent { All (IsLentFor ((E.meant env.now).sublink_rows (map_of tuple)) lent.now) (numbers_in expr.now) }
    ensures { IfOk result (λ v. v ≡ value_at (E.meant env.now) (map_of tuple.entry) expr.now) }
{
    let at = At { env, tuple, lent };
    let value = eval(alloc, expr, &at)?;
    Ok(value)
}
