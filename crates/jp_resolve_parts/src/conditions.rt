#![tactic(auto, using(crate::proofs::ConjunctRules::conjunct_rules))]

ghost use Rattle.std.specs.Prelude.{◌≡◌, ◌++◌, Ok, OnOk};
ghost use Rattle.jp_query.specs.Conjuncts.{conjuncts, conjuncts_of_all};
ghost use Rattle.jp_resolution.specs.Answers.{Gives};
ghost use Rattle.jp_resolution.specs.Types as spec;

use crate::types::{can_be, expr_as};
use jp_base::Ty;
use jp_query::Expr;
use jp_resolution::{ResolveError, TypedExpr};
use sqlite_items::Items;
use std::alloc::Global;

/// The list of a condition, which has to be a boolean: the members of an AND, a member that is itself an AND taken apart
/// likewise, else the condition alone.
pub fn condition(alloc: Global, at: u32, cond: TypedExpr) -> Result<Items<Expr>, ResolveError>
    ensures { Gives (spec.condition at cond) result }
{
    if !can_be(Ty::Boolean, &cond) {
        return Err(ResolveError::TypeMismatch(at));
    }
    let mut conds = Items::new(alloc);
    conds.push(expr_as(Ty::Boolean, cond))?;
    let mut members = Items::new(alloc);
    push_all_conjuncts(alloc, conds.as_slice(), &mut members)?;
    Ok(members)
}

/// Puts the conjuncts of an expression behind others.
#[cycle(conjuncts)]
fn push_conjuncts(alloc: Global, expr: &Expr, conds: &mut Items<Expr>) -> Result<(), ResolveError>
    ensures memory { Gives (Ok record {}) result }
    ensures conds { OnOk result (conds.new ≡ conds.old ++ conjuncts expr.now) }
{
    match expr {
        Expr::And(members) => {
            push_all_conjuncts(alloc, members.as_slice(), conds)?;
            Ok(())
        }
        _ => {
            let copy = expr.copy(alloc)?;
            conds.push(copy)?;
            Ok(())
        }
    }
}

/// The same for a list of expressions.
#[cycle(conjuncts)]
fn push_all_conjuncts(
    alloc: Global,
    exprs: &[Expr],
    conds: &mut Items<Expr>,
) -> Result<(), ResolveError>
    ensures memory { Gives (Ok record {}) result }
    ensures conds { OnOk result (conds.new ≡ conds.old ++ conjuncts_of_all exprs.now) }
{
    'exprs: for expr in exprs {
        push_conjuncts(alloc, expr, conds)?;
    }
    Ok(())
}
