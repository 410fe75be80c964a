ghost use Rattle.std.specs.Prelude.{◌≡◌, ◌⊎◌, Contains, bit_or};
ghost use Rattle.jp_base.specs.Sets.{Within};
ghost use Rattle.jp_problem.specs.declared.types.Clause.{Clause};
ghost use Rattle.jp_problem.specs.declared.types.Problem.{Problem};
ghost use Rattle.jp_problem.specs.declared.types.Special.{Special};
ghost use Rattle.jp_problem.specs.Made.{IsMade};

/// A law: where all that a clause of a made problem needs lies in the right side of a join, the clause has this join as its
/// region, or one that stands in that side.
pub fn clauses_of_a_side_stand_in_it()
    ensures { (problem : Problem) → IsMade problem → (c : Clause) (q : Special) → Contains problem.clauses c → Contains problem.joins q →
        Within c.req q.syn_right →
        (c.region ≡ q.no) ⊎ ((r : Special) × Contains problem.joins r × (r.no ≡ c.region) × Within (bit_or r.syn_left r.syn_right) q.syn_right) }
{}
