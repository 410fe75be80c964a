ghost use Rattle.std.specs.Prelude.{◌≡◌, ◌&&◌, true};
ghost use Rattle.std.specs.List.{list_any};
ghost use Rattle.jp_query.specs.Equality.{same_expr};
ghost use Rattle.jp_joins.specs.KeyPlaces.{IsKeyPlace, is_equality};

use jp_query::{CmpOp, Expr, is_same};

/// The place of the first condition that is the equality of the sides of the key.
pub fn key_place(conds: &[Expr], first: &Expr, second: &Expr) -> usize
    requires { list_any (is_equality first.now second.now) conds.now ≡ true }
    ensures { IsKeyPlace conds.now first.now second.now result }
{
    'conds: for place in 0..conds.len() {
        if is_equality(&conds[place], first, second) {
            return place;
        }
    }
    unreachable!()
}

/// Whether the condition is the equality of the two expressions, either of them first.
fn is_equality(cond: &Expr, first: &Expr, second: &Expr) -> bool
    ensures { result ≡ is_equality first.now second.now cond.now }
{
    match cond {
        Expr::Compare(CmpOp::Eq, left, right) => {
            are_same(first, second, left.get(), right.get())
                || are_same(second, first, left.get(), right.get())
        }
        _ => false,
    }
}

fn are_same(first: &Expr, second: &Expr, left: &Expr, right: &Expr) -> bool
    ensures { result ≡ (same_expr first.now left.now && same_expr second.now right.now) }
{
    is_same(first, left) && is_same(second, right)
}
