ghost use Rattle.std.specs.Prelude.{◌≡◌, ℕ, suc, ◌<◌, ◌⊎◌};
ghost use Rattle.jp_base.specs.Sets.{Has, Within, Meets, IsLeastMember};
ghost use Rattle.jp_frame.specs.Frames.{Frame, IsFrame, Left};
ghost use Rattle.jp_frame.specs.Legal.{IsDone, IsJoinable, IsByPlace, IsHanging, HangsOn, IsActive};

/// A law: where a joinable set meets the right set of a join that isn't done in it, its least item lies in that set.
pub fn joinable_sets_begin_in_the_right_set()
    ensures { (f : Frame) (set : ℕ) (s : ℕ) (i : ℕ) → IsFrame f → IsJoinable f set → s < f.joins → Meets set (f.right s) → (IsDone f set s → ⊥) → IsLeastMember set i → Has (f.right s) i }
{}

/// A law: the right set of each join is joinable, and a place of a step by it.
pub fn right_sets_are_joinable()
    ensures { (f : Frame) (s : ℕ) → IsFrame f → s < f.joins → IsByPlace f (f.right s) s }
{}

/// A law: at a place of a step by s each item outside the right set of s lies in the right set of a hanging join, and each
/// hanging join hangs on s or on a hanging join that begins before it. At a Semi or Anti join nothing hangs.
pub fn hanging_joins_cover_the_rest()
    ensures covered { (f : Frame) (set : ℕ) (s : ℕ) (i : ℕ) → IsFrame f → IsByPlace f set s → Has set i → ¬ Has (f.right s) i → (u : ℕ) × IsHanging f set s u × Has (f.right u) i }
    ensures hangs_on { (f : Frame) (set : ℕ) (s : ℕ) (u : ℕ) → IsFrame f → IsByPlace f set s → IsHanging f set s u → (t : ℕ) × (j : ℕ) × HangsOn f set s u t j }
    ensures only_right { (f : Frame) (set : ℕ) (s : ℕ) → IsFrame f → IsByPlace f set s → (f.kind s ≡ Left → ⊥) → Within set (f.right s) }
{}

/// A law: at a place of a step by s a clause whose needs lie in the set stands in the region of s, or its region is done
/// there. So the clauses that are active in the set are those of the region of s, and those active in the right set of s.
pub fn clauses_of_a_place_stand_in_its_region()
    ensures region { (f : Frame) (set : ℕ) (s : ℕ) (c : ℕ) → IsFrame f → IsByPlace f set s → c < f.clauses → Within (f.needs c) set → (f.region c ≡ suc s) ⊎ ((r : ℕ) × (f.region c ≡ suc r) × IsDone f set r) }
    ensures active { (f : Frame) (set : ℕ) (s : ℕ) (c : ℕ) → IsFrame f → IsByPlace f set s → IsActive f set c → f.region c ≡ suc s }
    ensures active_in_right { (f : Frame) (set : ℕ) (s : ℕ) (c : ℕ) → IsFrame f → IsByPlace f set s → IsActive f (f.right s) c → f.region c ≡ suc s }
    ensures of_region { (f : Frame) (set : ℕ) (s : ℕ) (c : ℕ) → IsFrame f → IsByPlace f set s → c < f.clauses → f.region c ≡ suc s → IsActive f set c × IsActive f (f.right s) c }
{}
