ghost use Rattle.std.specs.Prelude.{◌≡◌, ◌++◌, [], ◌∷◌, if◌then◌else◌, List, map, All, Contains, true};
ghost use Rattle.std.specs.List.{AllPairs, list_any};
ghost use Rattle.std.specs.List.Sorted.{IsPermutation};
ghost use Rattle.jp_query.specs.Ordering.{Row, Line, outputs_of, same_rows, first_lines};
ghost use Rattle.jp_laws.specs.Lines.{IsDifferent, IsDifferentFrom, is_same, IsSubsequence};

/// A law: DISTINCT keeps exactly the first of the lines with the same outputs. Each kept line stands at a place before
/// which no line is the same, each line has a kept one that is the same, and no two kept lines are the same. The kept
/// lines stand in the order of the lines.
pub fn distinct_keeps_the_first_of_each()
    ensures firsts { (lines : List Line) (line : Line) → Contains (first_lines lines) line → (before : List Line) × (after : List Line) × (lines ≡ before ++ line ∷ after) × All (IsDifferentFrom line) before }
    ensures each { (lines : List Line) (line : Line) → Contains lines line → (kept : Line) × Contains (first_lines lines) kept × (same_rows kept.outputs line.outputs ≡ true) }
    ensures distinct { (lines : List Line) → AllPairs IsDifferent (first_lines lines) }
    ensures in_order { (lines : List Line) → IsSubsequence (first_lines lines) lines }
{}

/// A law: of one line more at the end, DISTINCT keeps that line where no kept line has its outputs.
pub fn distinct_grows_by_new_outputs()
    ensures { (lines : List Line) (line : Line) → first_lines (lines ++ line ∷ [])
        ≡ first_lines lines ++ (if list_any (is_same line) (first_lines lines) then [] else line ∷ []) }
{}

/// A law: which outputs DISTINCT keeps depends on the lines only as a bag. Which line of a group it keeps, and so by which
/// keys a row is sorted, depends on their order.
pub fn distinct_sees_its_lines_as_a_bag()
    ensures { (lines : List Line) (others : List Line) → IsPermutation lines others → IsPermutation (map outputs_of (first_lines lines)) (map outputs_of (first_lines others)) }
{}

/// A law: two rows are the same where they are equal, NULLs included.
pub fn same_rows_are_equal()
    ensures equal { (a : Row) (b : Row) → same_rows a b ≡ true → a ≡ b }
    ensures same { (a : Row) → same_rows a a ≡ true }
{}
