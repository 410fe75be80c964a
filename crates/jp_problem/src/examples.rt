ghost use Rattle.std.specs.Prelude.{◌≡◌, List, [], ◌∷◌};
ghost use Rattle.jp_problem.specs.declared.types.Item.{Item};
ghost use Rattle.jp_problem.specs.Examples.{rows_of, sets_in, a_b_c, a_b_keeps_c, chain, chain_keeps_d};
ghost use Rattle.jp_problem.specs.Legal.{IsJoinable};
ghost use Rattle.jp_problem.specs.Problems.{problem_of};

/// Laws: the least left and right set of each join of small chains of left joins. The items a, b, c and d are the bits 1,
/// 2, 4 and 8.
pub fn worked_minimum_sets()
    ensures rejecting { sets_in a_b_c ≡ (1, 2) ∷ (2, 4) ∷ [] }
    ensures keeping { sets_in a_b_keeps_c ≡ (1, 2) ∷ (3, 4) ∷ [] }
    ensures rejecting_later { sets_in chain ≡ (1, 2) ∷ (2, 4) ∷ (4, 8) ∷ [] }
    ensures keeping_later { sets_in chain_keeps_d ≡ (1, 2) ∷ (2, 4) ∷ (7, 8) ∷ [] }
{}

/// Laws: which sets of their items can be joined by themselves.
pub fn worked_joinable_sets()
    ensures b_c_rejecting { (items : List Item) → IsJoinable (problem_of items (rows_of a_b_c)) 6 }
    ensures b_c_keeping { (items : List Item) → ¬ IsJoinable (problem_of items (rows_of a_b_keeps_c)) 6 }
    ensures b_c_keeping_later { (items : List Item) → IsJoinable (problem_of items (rows_of chain_keeps_d)) 6 }
    ensures c_d_keeping_later { (items : List Item) → ¬ IsJoinable (problem_of items (rows_of chain_keeps_d)) 12 }
    ensures b_c_d_keeping_later { (items : List Item) → ¬ IsJoinable (problem_of items (rows_of chain_keeps_d)) 14 }
    ensures c_d_rejecting_later { (items : List Item) → IsJoinable (problem_of items (rows_of chain)) 12 }
    ensures b_c_d_rejecting_later { (items : List Item) → IsJoinable (problem_of items (rows_of chain)) 14 }
    ensures b_d_rejecting_later { (items : List Item) → ¬ IsJoinable (problem_of items (rows_of chain)) 10 }
{}
