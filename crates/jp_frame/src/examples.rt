ghost use Rattle.std.specs.Prelude.{◌≡◌, ◌∷◌, [], Some, None};
ghost use Rattle.jp_frame.specs.Rows.{row_set};
ghost use Rattle.jp_frame.specs.Frames.{IsFrame};
ghost use Rattle.jp_frame.specs.Trees.{IsLegalTree, rows_of};
ghost use Rattle.jp_frame.specs.Examples.{two_left_joins, null_kept, semi_inside, hanging, bushy};

/// A law: the row sets of four small frames, written out by hand. Items 0, 1 and 2 are the bits of the sets.
pub fn small_frames_have_their_rows()
    ensures two { row_set two_left_joins 7 ≡ (Some 0 ∷ Some 0 ∷ Some 0 ∷ []) ∷ (Some 0 ∷ Some 0 ∷ Some 1 ∷ []) ∷ (Some 1 ∷ Some 1 ∷ None ∷ []) ∷ (Some 2 ∷ None ∷ None ∷ []) ∷ [] }
    ensures two_right { row_set two_left_joins 6 ≡ (None ∷ Some 0 ∷ Some 0 ∷ []) ∷ (None ∷ Some 0 ∷ Some 1 ∷ []) ∷ (None ∷ Some 1 ∷ None ∷ []) ∷ [] }
    ensures kept { row_set null_kept 7 ≡ (Some 0 ∷ Some 0 ∷ Some 0 ∷ []) ∷ (Some 0 ∷ Some 0 ∷ Some 1 ∷ []) ∷ (Some 1 ∷ Some 1 ∷ None ∷ []) ∷ (Some 2 ∷ None ∷ Some 0 ∷ []) ∷ (Some 2 ∷ None ∷ Some 1 ∷ []) ∷ [] }
    ensures semi { row_set semi_inside 7 ≡ (Some 0 ∷ Some 0 ∷ None ∷ []) ∷ (Some 1 ∷ None ∷ None ∷ []) ∷ [] }
    ensures semi_right { row_set semi_inside 6 ≡ (None ∷ Some 0 ∷ None ∷ []) ∷ [] }
    ensures hangs { row_set hanging 7 ≡ (Some 0 ∷ Some 0 ∷ Some 0 ∷ []) ∷ (Some 1 ∷ None ∷ None ∷ []) ∷ [] }
    ensures hangs_right { row_set hanging 6 ≡ (None ∷ Some 0 ∷ Some 0 ∷ []) ∷ (None ∷ Some 1 ∷ None ∷ []) ∷ [] }
{}

/// A law: the four meet the conditions of a frame.
pub fn small_frames_are_frames()
    ensures two { IsFrame two_left_joins }
    ensures kept { IsFrame null_kept }
    ensures semi { IsFrame semi_inside }
    ensures hangs { IsFrame hanging }
{}

/// A law: the tree that first hangs c on b is legal, and gives the same rows in the order of its methods.
pub fn a_hanging_join_may_come_first()
    ensures legal { IsLegalTree hanging bushy }
    ensures rows { rows_of hanging bushy ≡ (Some 1 ∷ None ∷ None ∷ []) ∷ (Some 0 ∷ Some 0 ∷ Some 0 ∷ []) ∷ [] }
{}
