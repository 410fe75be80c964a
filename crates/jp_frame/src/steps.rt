ghost use Rattle.std.specs.Prelude.{◌≡◌, ℕ, ◌<◌, ◌↔◌, ◌^◌, Bool, true, List, filter, bit_or};
ghost use Rattle.std.specs.List.Sorted.{IsPermutation};
ghost use Rattle.jp_frame.specs.Maps.{Map, both};
ghost use Rattle.jp_frame.specs.Frames.{Frame, IsFrame};
ghost use Rattle.jp_frame.specs.Rows.{row_set, InRowSet};
ghost use Rattle.jp_frame.specs.Steps.{Step, IsLegal, AllDue, IsCandidate, IsEnough, step_test};
ghost use Rattle.jp_frame.specs.Methods.{ListsOnce, one_row, AllActive, IsEnoughAtScan, scan_test, matches, is_matched, matches_to, Method, IsAllowed, plain, list_of};
ghost use Rattle.jp_frame.specs.Trees.{Tree, set_of, IsLegalTree, rows_of};

/// The step law: the row set of the union of a legal step holds exactly the candidates of the step, made from the row sets
/// of its two sides, that make all due clauses true.
pub fn steps_give_the_row_set_of_the_union()
    ensures { (f : Frame) (left : ℕ) (right : ℕ) (step : Step) (m : Map) → IsFrame f → IsLegal f left right step → InRowSet f (bit_or left right) m ↔ (IsCandidate f left right step m × AllDue f left right m) }
{}

/// A law: the row set of one item holds the item's rows that make all active clauses true.
pub fn scans_give_the_row_set_of_their_item()
    ensures { (f : Frame) (i : ℕ) (m : Map) → IsFrame f → i < f.items → InRowSet f (2 ^ i) m ↔ ((r : ℕ) × (r < f.rows i) × (m ≡ one_row f.items i r) × AllActive f (2 ^ i) m) }
{}

/// A law: the clauses of the frame by themselves are enough at each step and at each scan.
pub fn clauses_by_themselves_are_enough()
    ensures step { (f : Frame) (left : ℕ) (right : ℕ) (step : Step) → IsFrame f → IsEnough f left right step (step_test f left right) }
    ensures scan { (f : Frame) (i : ℕ) → IsFrame f → IsEnoughAtScan f i (scan_test f i) }
{}

/// A law: from lists that hold each member of the two row sets once, the plain list of a legal step with enough clauses
/// holds each member of the row set of the union once.
pub fn plain_lists_hold_each_member_once()
    ensures { (f : Frame) (left : ℕ) (right : ℕ) (step : Step) (test : Map → Bool) (on_left : List Map) (on_right : List Map) → IsFrame f → IsLegal f left right step → IsEnough f left right step test → ListsOnce f left on_left → ListsOnce f right on_right → ListsOnce f (bit_or left right) (plain f step test on_left on_right) }
{}

/// A law: the list of each method that is allowed is a permutation of the plain list, whatever its inputs, and permuted
/// inputs only permute the plain list.
pub fn methods_give_the_plain_list_in_another_order()
    ensures inputs { (f : Frame) (step : Step) (test : Map → Bool) (on_left : List Map) (lefts : List Map) (on_right : List Map) (rights : List Map) → IsPermutation on_left lefts → IsPermutation on_right rights → IsPermutation (plain f step test on_left on_right) (plain f step test lefts rights) }
    ensures method { (f : Frame) (how : Method) (step : Step) (test : Map → Bool) (on_left : List Map) (on_right : List Map) → IsAllowed f how step → IsPermutation (plain f step test on_left on_right) (list_of f how step test on_left on_right) }
{}

/// A law: where a match has equal keys, it is enough to look at the maps of the other side that have the key of a map.
pub fn lookups_by_key_find_each_match()
    ensures left { (test : Map → Bool) (same_key : Map → Map → Bool) (on_right : List Map) (a : Map) → ((b : Map) → test (both a b) ≡ true → same_key a b ≡ true) → matches test (filter (same_key a) on_right) a ≡ matches test on_right a }
    ensures matched { (test : Map → Bool) (same_key : Map → Map → Bool) (on_right : List Map) (a : Map) → ((b : Map) → test (both a b) ≡ true → same_key a b ≡ true) → is_matched test (filter (same_key a) on_right) a ≡ is_matched test on_right a }
    ensures right { (test : Map → Bool) (same_key : Map → Map → Bool) (on_left : List Map) (b : Map) → ((a : Map) → test (both a b) ≡ true → same_key b a ≡ true) → matches_to test (filter (same_key b) on_left) b ≡ matches_to test on_left b }
{}

/// One bag: the list of every legal tree, with any methods that are allowed, is a permutation of the row set of its set, so
/// it holds each member once.
pub fn legal_trees_give_one_bag()
    ensures bag { (f : Frame) (tree : Tree) → IsFrame f → IsLegalTree f tree → IsPermutation (rows_of f tree) (row_set f (set_of tree)) }
    ensures once { (f : Frame) (tree : Tree) → IsFrame f → IsLegalTree f tree → ListsOnce f (set_of tree) (rows_of f tree) }
{}
