ghost use Rattle.std.specs.Prelude.{◌≡◌, ℕ, Bool, List, Some};
ghost use Rattle.jp_query.specs.declared.Expr.{Expr};
ghost use Rattle.jp_query.specs.declared.JoinKind.TheVariants as join;
ghost use Rattle.jp_frame.specs.Frames.{Frame};
ghost use Rattle.jp_frame.specs.Maps.{Map};
ghost use Rattle.jp_frame.specs.Methods.{list_of, Nest, Hash, HashRight, Merge};
ghost use Rattle.jp_frame.specs.Steps.{Inner, By};
ghost use Rattle.jp_joins.specs.Frames.{IsSameKind};
ghost use Rattle.jp_joins.specs.Meant.{Meant, is_match, list_holds, plain_list, right_list};
ghost use Rattle.jp_joins.specs.Sorting.{merged_list, stands_before};

/// A law: what `nest`, `hash`, `hash_right` and `merge` give is the list that a frame gives for the method. At an inner step a
/// match makes the step clauses true, at a step by a join the ON list of the join, and the step clauses are the filters. The
/// orders of a merge are those of the sides of its key.
pub fn lists_are_those_of_frames()
    ensures inner { (f : Frame) (meant : Meant) (left : List Map) (right : List Map) → meant.kind ≡ join.Inner
        → list_of f Nest Inner (is_match meant) left right ≡ plain_list meant left right }
    ensures inner_hash { (f : Frame) (meant : Meant) (left : List Map) (right : List Map) → meant.kind ≡ join.Inner
        → list_of f Hash Inner (is_match meant) left right ≡ plain_list meant left right }
    ensures inner_merge { (f : Frame) (meant : Meant) (first : Expr) (second : Expr) (left : List Map) (right : List Map) → meant.kind ≡ join.Inner → meant.key ≡ Some (first, second)
        → list_of f (Merge (stands_before meant first) (stands_before meant second)) Inner (is_match meant) left right ≡ merged_list meant left right }
    ensures by_join { (f : Frame) (s : ℕ) (meant : Meant) (left : List Map) (right : List Map) → IsSameKind (f.kind s) meant.kind → f.on s ≡ is_match meant
        → list_of f Nest (By s) (list_holds meant meant.filters) left right ≡ plain_list meant left right }
    ensures by_hash { (f : Frame) (s : ℕ) (meant : Meant) (left : List Map) (right : List Map) → IsSameKind (f.kind s) meant.kind → f.on s ≡ is_match meant
        → list_of f Hash (By s) (list_holds meant meant.filters) left right ≡ plain_list meant left right }
    ensures by_hash_right { (f : Frame) (s : ℕ) (meant : Meant) (left : List Map) (right : List Map) → f.on s ≡ is_match meant
        → list_of f HashRight (By s) (list_holds meant meant.filters) left right ≡ right_list meant left right }
    ensures by_merge { (f : Frame) (s : ℕ) (meant : Meant) (first : Expr) (second : Expr) (left : List Map) (right : List Map) → IsSameKind (f.kind s) meant.kind → f.on s ≡ is_match meant → meant.key ≡ Some (first, second)
        → list_of f (Merge (stands_before meant first) (stands_before meant second)) (By s) (list_holds meant meant.filters) left right ≡ merged_list meant left right }
{}
