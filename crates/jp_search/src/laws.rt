ghost use Rattle.std.specs.Prelude.{◌≡◌, ◌⊎◌};
ghost use Rattle.jp_problem.specs.declared.types.Problem.{Problem};
ghost use Rattle.jp_problem.specs.Trees.{Tree, IsPlan};
ghost use Rattle.jp_search.specs.TreeOrder.{ComesBefore};

/// Laws: the order of trees is strict, and tells any two plans of a problem apart, so that a problem has one first plan.
pub fn plans_are_ordered()
    ensures strict { (problem : Problem) (a b : Tree) → ComesBefore problem a b → ¬ ComesBefore problem b a }
    ensures transitive { (problem : Problem) (a b c : Tree) → ComesBefore problem a b → ComesBefore problem b c → ComesBefore problem a c }
    ensures total { (problem : Problem) (a b : Tree) → IsPlan problem a → IsPlan problem b → (a ≡ b) ⊎ (ComesBefore problem a b ⊎ ComesBefore problem b a) }
{}
