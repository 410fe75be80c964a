ghost use Rattle.std.specs.Prelude.{◌≡◌, List};
ghost use Rattle.std.specs.List.Sorted.{IsSortedBy, IsStableBy};
ghost use Rattle.jp_query.specs.Ordering.{Line, Direction, is_before, sorted};

/// A law: the sort is the only one. A list in which no line stands right before one that the keys put before it, and in
/// which lines that the keys don't tell apart stand as they do in the lines, is the sorted list. Such a list is a
/// permutation of the lines, so that needs no premise.
pub fn sort_is_the_only_one()
    ensures { (keys : List Direction) (lines : List Line) (others : List Line) → IsSortedBy (is_before keys) others → IsStableBy (is_before keys) lines others → others ≡ sorted keys lines }
{}
