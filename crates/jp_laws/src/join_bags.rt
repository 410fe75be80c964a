ghost use Rattle.std.specs.Prelude.{ℕ, List, ◌++◌, map, filter};
ghost use Rattle.std.specs.List.Sorted.{IsPermutation};
ghost use Rattle.jp_query.specs.declared.JoinKind.{JoinKind};
ghost use Rattle.jp_query.specs.declared.JoinKind.TheVariants as join;
ghost use Rattle.jp_query.specs.Meaning.{Env, ValueIn, Tuples, holds, without, join_tuples, combined};
ghost use Rattle.jp_laws.specs.Bags.{AreOneBag};

/// A law: the bag of a join's tuples depends on its sides only as bags, whatever its kind.
pub fn a_join_sees_its_sides_as_bags()
    ensures { (kind : JoinKind) (on : List ValueIn) (l r : ℕ) (lefts other_lefts rights other_rights : List Env) →
        IsPermutation lefts other_lefts → IsPermutation rights other_rights →
        IsPermutation (join_tuples kind on l lefts r rights) (join_tuples kind on l other_lefts r other_rights) }
{}

/// A law: the bag of a FROM's tuples depends on its members only as bags.
pub fn a_from_sees_its_members_as_bags()
    ensures { (conds : List ValueIn) (env : Env) (members others : List Tuples) → AreOneBag env members others →
        IsPermutation (filter (holds conds) (combined members env)) (filter (holds conds) (combined others env)) }
{}

/// A law: the tuples of a Left join are those of the Inner join and, for each tuple of the Anti join, that tuple with the
/// right side absent.
pub fn left_is_inner_and_anti()
    ensures { (on : List ValueIn) (l r : ℕ) (lefts rights : List Env) →
        IsPermutation (join_tuples join.Left on l lefts r rights)
        (join_tuples join.Inner on l lefts r rights ++ map (without r) (join_tuples join.Anti on l lefts r rights)) }
{}
