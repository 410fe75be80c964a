ghost use Rattle.std.specs.Prelude.{◌≡◌, ℕ, ◌<◌, ◌⊎◌, ◌↔◌, List, length};
ghost use Rattle.jp_base.specs.Sets.{Has};
ghost use Rattle.jp_frame.specs.Maps.{Map, at, NoneOn, NoneEverywhere, part};
ghost use Rattle.jp_frame.specs.Frames.{Frame, IsFrame};
ghost use Rattle.jp_frame.specs.Legal.{IsByPlace, IsHanging};
ghost use Rattle.jp_frame.specs.Rows.{Lives, row_set, InRowSet, Condition, IsRow};
ghost use Rattle.jp_frame.specs.Methods.{ListsOnce};

/// A law: the members of a row set are the maps that live on the set and meet its conditions, and the list of the row set
/// holds each of them once. So the bound of its recursion never bites.
pub fn row_sets_are_what_their_conditions_say()
    ensures members { (f : Frame) (set : ℕ) (m : Map) → IsFrame f → InRowSet f set m ↔ (Lives f set m × IsRow f set m) }
    ensures list { (f : Frame) (set : ℕ) → ListsOnce f set (row_set f set) }
{}

/// A law: the condition of a join on a map looks at the left and the right set of the join alone.
pub fn conditions_look_at_the_sets_of_their_join()
    ensures { (f : Frame) (s : ℕ) (m : Map) (n : Map) → IsFrame f → s < f.joins → length m ≡ length n → ((i : ℕ) → Has (f.left s) i ⊎ Has (f.right s) i → at m i ≡ at n i) → Condition f s m → Condition f s n }
{}

/// A law: at a place of a step by s a map is in the row set exactly where its part on the right set of s is in the row set
/// of that set and the conditions of all hanging joins hold. These parts are all members of the row set of the right set.
pub fn members_at_a_place_are_members_of_the_right_set()
    ensures parts { (f : Frame) (set : ℕ) (s : ℕ) (m : Map) → IsFrame f → IsByPlace f set s → Lives f set m → InRowSet f set m ↔ (InRowSet f (f.right s) (part (f.right s) m) × ((u : ℕ) → IsHanging f set s u → Condition f u m)) }
    ensures all { (f : Frame) (set : ℕ) (s : ℕ) (a : Map) → IsFrame f → IsByPlace f set s → InRowSet f (f.right s) a → (m : Map) × InRowSet f set m × (part (f.right s) m ≡ a) }
{}

/// A law: at a place of a step by s a map that is none on the right set of s meets the conditions of all hanging joins
/// exactly where it is none everywhere.
pub fn hanging_joins_are_none_with_the_right_set()
    ensures { (f : Frame) (set : ℕ) (s : ℕ) (m : Map) → IsFrame f → IsByPlace f set s → Lives f set m → NoneOn (f.right s) m → ((u : ℕ) → IsHanging f set s u → Condition f u m) ↔ NoneEverywhere m }
{}
