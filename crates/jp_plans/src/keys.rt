ghost use Rattle.std.specs.Prelude.{◌≡◌, ◌&&◌, map};
ghost use Rattle.std.specs.List.{list_any};
ghost use Rattle.std.specs.Option.{option_map};
ghost use Rattle.jp_items.specs.Scenes.{lent_sides};
ghost use Rattle.jp_lists.specs.Steps.{pair_of_sides};
ghost use Rattle.jp_problem.specs.KeyTests.{has_number, has_rel, lies_from};
ghost use Rattle.jp_problem.specs.Keys.{first_key, is_over};
ghost use Rattle.jp_problem.specs.Problems.{rels_of_item};
ghost use Rattle.jp_plans.specs.KeyWords.{key_here, key_of_two};

use jp_base::RelSet;
use jp_problem::sets::{is_within, meets, one};
use jp_problem::{Item, has_sublink};
use jp_query::{CmpOp, Expr, refs};

/// The sides of the first expression of the list that can be the key of a step, the side over the left items first.
pub fn key_sides<'e>(
    items: &[Item],
    left: RelSet,
    right: RelSet,
    list: &'e [Expr],
) -> Option<(&'e Expr, &'e Expr)>
    ensures { option_map lent_sides result ≡ option_map pair_of_sides (first_key (map rels_of_item items.now) left right list.now) }
{
    'list: for expr in list {
        if let Some(sides) = sides_in(items, left, right, expr) {
            return Some(sides);
        }
    }
    None
}

/// The sides of the expression if it can be the key.
fn sides_in<'e>(
    items: &[Item],
    left: RelSet,
    right: RelSet,
    expr: &'e Expr,
) -> Option<(&'e Expr, &'e Expr)>
    ensures { option_map lent_sides result ≡ key_here (map rels_of_item items.now) left right expr.now }
{
    match expr {
        Expr::Compare(CmpOp::Eq, first, second) => {
            sides_of_two(items, left, right, first.get(), second.get())
        }
        _ => None,
    }
}

/// The two expressions if their equality can be the key, that over the left items first.
fn sides_of_two<'e>(
    items: &[Item],
    left: RelSet,
    right: RelSet,
    first: &'e Expr,
    second: &'e Expr,
) -> Option<(&'e Expr, &'e Expr)>
    ensures { option_map lent_sides result ≡ key_of_two (map rels_of_item items.now) left right first.now second.now }
{
    if has_sublink(first) || has_sublink(second) {
        return None;
    }
    if is_over(items, left, first) && is_over(items, right, second) {
        return Some((first, second));
    }
    if is_over(items, left, second) && is_over(items, right, first) {
        return Some((second, first));
    }
    None
}

/// Whether the expression uses some item, and items of the set alone.
fn is_over(items: &[Item], set: RelSet, expr: &Expr) -> bool
    ensures { result ≡ is_over (map rels_of_item items.now) set expr.now }
{
    let rels = refs(expr);
    has_some(items, rels) && lies_in(items, set, rels)
}

/// Whether some item has one of the relations.
fn has_some(items: &[Item], rels: RelSet) -> bool
    ensures { result ≡ list_any (has_rel rels) items.now }
{
    items.iter().any(|item| meets(item.rels, rels))
}

/// Whether each item that has one of the relations lies in the set.
fn lies_in(items: &[Item], set: RelSet, rels: RelSet) -> bool
    ensures { result ≡ lies_from (map rels_of_item items.now) set rels 0 }
{
    'items: for i in 0..items.len() {
        if meets(items[i].rels, rels) && !holds(set, i) {
            return false;
        }
    }
    true
}

/// Whether the set has the number, which may be greater than any member's.
#[tactic(auto, using(jp_problem::proofs::KeyLaws::beyond))]
fn holds(set: RelSet, i: usize) -> bool
    ensures { result ≡ has_number set i }
{
    if i >= 64 {
        return false;
    }
    is_within(one(i as u8), set)
}
