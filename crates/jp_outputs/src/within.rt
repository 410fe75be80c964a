#![tactic(auto, using(crate::proofs::WithinLaws::equations))]

ghost use Rattle.std.specs.Prelude.{◌≡◌, ◌&&◌, IfOk, map};
ghost use Rattle.std.specs.List.{list_all};
ghost use Rattle.jp_query.specs.Parts.{arm_parts, term_part};
ghost use Rattle.jp_outputs.specs.Exprs.{lent_exprs};
ghost use Rattle.jp_outputs.specs.Within.{all_hold, block_within, names_within};

use crate::exprs::block_exprs;
use jp_base::{Memory, RelSet};
use jp_items::has_relation;
use jp_problem::sets::is_within;
use jp_query::Expr;
use jp_tree::Block;
use std::alloc::Global;

/// Whether the block names nothing but these relations, outside the queries of its sublinks.
pub fn names_only(alloc: Global, block: &Block, set: RelSet) -> Result<bool, Memory>
    ensures { IfOk result (λ b. b ≡ block_within set block.now) }
{
    let exprs = block_exprs(alloc, block)?;
    Ok(each_within(exprs.as_slice(), set))
}

fn each_within(exprs: &[&Expr], set: RelSet) -> bool
    ensures { result ≡ list_all (names_within set) (lent_exprs exprs.now) }
{
    let mut all = true;
    'exprs: for expr in exprs {
        all = both(all, names_within(expr, set));
    }
    all
}

/// Whether the expression names nothing but these relations, outside the queries of its sublinks.
#[cycle(within)]
fn names_within(expr: &Expr, set: RelSet) -> bool
    ensures { result ≡ names_within set expr.now }
{
    match expr {
        Expr::Col { rel, .. } => has_relation(set, *rel),
        Expr::Lit(..) => true,
        Expr::Place(inner, rels) => both(is_within(*rels, set), names_within(inner.get(), set)),
        Expr::Neg(operand) => names_within(operand.get(), set),
        Expr::Sum(terms) => terms_within(terms.as_slice(), set),
        Expr::Product(factors) => list_within(factors.as_slice(), set),
        Expr::Concat(parts) => list_within(parts.as_slice(), set),
        Expr::Compare(_, left, right) => {
            both(
                names_within(left.get(), set),
                names_within(right.get(), set),
            )
        }
        Expr::Between(operand, low, high) => both(
            names_within(operand.get(), set),
            both(names_within(low.get(), set), names_within(high.get(), set)),
        ),
        Expr::InList(operand, members) => both(
            names_within(operand.get(), set),
            list_within(members.as_slice(), set),
        ),
        Expr::And(members) => list_within(members.as_slice(), set),
        Expr::Or(members) => list_within(members.as_slice(), set),
        Expr::Not(operand) => names_within(operand.get(), set),
        Expr::Test(_, operand) => names_within(operand.get(), set),
        Expr::Coalesce(members) => list_within(members.as_slice(), set),
        Expr::Case {
            operand,
            arms,
            otherwise,
        } => {
            let operand = match operand {
                Some(operand) => names_within(operand.get(), set),
                None => true,
            };
            let otherwise = match otherwise {
                Some(otherwise) => names_within(otherwise.get(), set),
                None => true,
            };
            both(operand, both(arms_within(arms.as_slice(), set), otherwise))
        }
        Expr::Exists(..) => true,
        Expr::InSub(_, operand, _) => names_within(operand.get(), set),
    }
}

#[cycle(within)]
fn list_within(exprs: &[Expr], set: RelSet) -> bool
    ensures { result ≡ all_hold (map (names_within set) exprs.now) }
{
    let mut all = true;
    'exprs: for expr in exprs {
        all = both(all, names_within(expr, set));
    }
    all
}

#[cycle(within)]
fn terms_within(terms: &[(bool, Expr)], set: RelSet) -> bool
    ensures { result ≡ all_hold (map (names_within set) (map term_part terms.now)) }
{
    let mut all = true;
    'terms: for (_, term) in terms {
        all = both(all, names_within(term, set));
    }
    all
}

#[cycle(within)]
fn arms_within(arms: &[(Expr, Expr)], set: RelSet) -> bool
    ensures { result ≡ all_hold (map (names_within set) (arm_parts arms.now)) }
{
    let mut all = true;
    'arms: for (when, then) in arms {
        all = both(all, both(names_within(when, set), names_within(then, set)));
    }
    all
}

fn both(a: bool, b: bool) -> bool
    ensures { result ≡ (a && b) }
{
    a && b
}
