ghost use Rattle.std.specs.Prelude.{◌≡◌, List, Some};
ghost use Rattle.std.specs.Cmp.{IsStrictWeakOrder};
ghost use Rattle.std.specs.declared.cmp.Ordering.{Ordering};
ghost use Rattle.std.specs.List.Sorted.{IsPermutation, IsStableBy};
ghost use Rattle.jp_base.specs.declared.values.Value.{Value};
ghost use Rattle.jp_base.specs.Values.{order_of};
ghost use Rattle.jp_query.specs.Ordering.{Line, Direction, AreInOrder, turned, key_order, is_before, sorted};

/// A law: any keys order all lines weakly, also lines that lack keys or have keys of different types. Two values of one
/// type are in SQL's order, turned where the key descends.
pub fn keys_order_all_lines()
    ensures weak { (keys : List Direction) → IsStrictWeakOrder (is_before keys) }
    ensures values { (key : Direction) (a b : Value) (order : Ordering) → order_of a b ≡ Some order → key_order key a b ≡ turned key.desc order }
{}

/// A law: the sort only moves lines, no later line is before an earlier one, and lines that the keys don't tell apart
/// keep their order.
pub fn sort_is_stable_and_in_order()
    ensures permutation { (keys : List Direction) (lines : List Line) → IsPermutation lines (sorted keys lines) }
    ensures order { (keys : List Direction) (lines : List Line) → AreInOrder keys (sorted keys lines) }
    ensures stable { (keys : List Direction) (lines : List Line) → IsStableBy (is_before keys) lines (sorted keys lines) }
{}
