#![tactic(auto, using(crate::proofs::SublinkLaws::equations))]

ghost use Rattle.std.specs.Prelude.{◌≡◌, ◌||◌};
ghost use Rattle.std.specs.List.{list_any};
ghost use Rattle.jp_problem.specs.Equalities.{has_sublink};
ghost use Rattle.jp_problem.specs.SublinkWords.{arm_has_sublink, term_has_sublink};

use jp_query::Expr;

/// Whether the expression holds a sublink.
#[cycle(sublinks)]
pub fn has_sublink(expr: &Expr) -> bool
    ensures { result ≡ has_sublink expr.now }
{
    match expr {
        Expr::Col { .. } => false,
        Expr::Lit(_, _) => false,
        Expr::Place(inner, _) => has_sublink(inner.get()),
        Expr::Neg(operand) => has_sublink(operand.get()),
        Expr::Sum(terms) => any_term(terms.as_slice()),
        Expr::Product(factors) => any(factors.as_slice()),
        Expr::Concat(parts) => any(parts.as_slice()),
        Expr::Compare(_, left, right) => has_sublink(left.get()) || has_sublink(right.get()),
        Expr::Between(operand, low, high) => {
            has_sublink(operand.get()) || has_sublink(low.get()) || has_sublink(high.get())
        }
        Expr::InList(operand, list) => has_sublink(operand.get()) || any(list.as_slice()),
        Expr::And(members) => any(members.as_slice()),
        Expr::Or(members) => any(members.as_slice()),
        Expr::Not(operand) => has_sublink(operand.get()),
        Expr::Test(_, operand) => has_sublink(operand.get()),
        Expr::Coalesce(members) => any(members.as_slice()),
        Expr::Case {
            operand,
            arms,
            otherwise,
        } => {
            let first = match operand {
                Some(operand) => has_sublink(operand.get()),
                None => false,
            };
            let last = match otherwise {
                Some(otherwise) => has_sublink(otherwise.get()),
                None => false,
            };
            either(either(first, any_arm(arms.as_slice())), last)
        }
        Expr::Exists(_, _) => true,
        Expr::InSub(_, _, _) => true,
    }
}

fn either(a: bool, b: bool) -> bool
    ensures { result ≡ (a || b) }
{
    a || b
}

#[cycle(sublinks)]
fn any(exprs: &[Expr]) -> bool
    ensures { result ≡ list_any has_sublink exprs.now }
{
    'exprs: for expr in exprs {
        if has_sublink(expr) {
            return true;
        }
    }
    false
}

#[cycle(sublinks)]
fn any_term(terms: &[(bool, Expr)]) -> bool
    ensures { result ≡ list_any term_has_sublink terms.now }
{
    'terms: for (_, term) in terms {
        if has_sublink(term) {
            return true;
        }
    }
    false
}

#[cycle(sublinks)]
fn any_arm(arms: &[(Expr, Expr)]) -> bool
    ensures { result ≡ list_any arm_has_sublink arms.now }
{
    'arms: for (when, then) in arms {
        if has_sublink(when) || has_sublink(then) {
            return true;
        }
    }
    false
}
