ghost use Rattle.std.specs.Prelude.{◌≡◌, ℕ, bit_or, bit_and};
ghost use Rattle.jp_query.specs.Refs.{only, below_64};
ghost use Rattle.jp_strict.specs.Cases.{all_cases, alone_in, column_cases, in_case, relation_cases};

use jp_base::{RelNo, RelSet};

/// What is gone, in one case or in several that are tested at once.
#[derive(Clone, Copy)]
pub enum Absence {
    /// One case, of number 0: these relations are null-extended.
    Relations(RelSet),
    /// One case, of number 0: this column is NULL.
    Column(RelNo, u32),
    /// A case for each number of the set: the relation of that number alone is null-extended.
    Each(RelSet),
}

/// The cases in which an expression is surely NULL, surely not true, surely not false.
#[derive(Clone, Copy)]
pub struct Surely {
    pub null: RelSet,
    pub not_true: RelSet,
    pub not_false: RelSet,
}

/// Of the members of a list: in which cases some member is so, in which each is, and all cases once there is a member.
#[derive(Clone, Copy)]
pub struct Members {
    pub some: Surely,
    pub every: Surely,
    pub listed: RelSet,
}

/// The set without members.
pub fn nothing() -> RelSet
    ensures { result ≡ 0 }
{
    RelSet::empty()
}

pub fn both(a: RelSet, b: RelSet) -> RelSet
    ensures { result ≡ bit_or a b }
{
    a.union(b)
}

/// What two sets share.
pub fn common(a: RelSet, b: RelSet) -> RelSet
    ensures { result ≡ bit_and a b }
{
    a.minus(a.minus(b))
}

/// The set of one number, if it is below 64.
pub fn relation(rel: RelNo) -> RelSet
    ensures { result ≡ below_64 (only rel) }
{
    if rel < 64 {
        RelSet::one(rel)
    } else {
        nothing()
    }
}

/// The case of number 0 where the test passes, else none.
fn case_if(passes: bool) -> RelSet
    ensures { result ≡ in_case passes }
{
    if passes { relation(0) } else { nothing() }
}

impl Absence {
    /// All cases.
    pub fn all(&self) -> RelSet
        ensures { result ≡ all_cases self.now }
    {
        match self {
            Absence::Relations(_) => relation(0),
            Absence::Column(_, _) => relation(0),
            Absence::Each(rels) => *rels,
        }
    }

    /// The cases in which a column is gone.
    pub fn column(&self, rel: RelNo, col: u32) -> RelSet
        ensures { result ≡ column_cases self.now rel col }
    {
        match self {
            Absence::Relations(gone) => case_if(gone.meets(relation(rel))),
            Absence::Column(gone, at) => case_if(*gone == rel && *at == col),
            Absence::Each(rels) => common(*rels, relation(rel)),
        }
    }

    /// The cases in which no relation of a set is left.
    pub fn relations(&self, rels: RelSet) -> RelSet
        ensures { result ≡ relation_cases self.now rels }
    {
        match self {
            Absence::Relations(gone) => case_if(rels.within(*gone)),
            Absence::Column(_, _) => nothing(),
            Absence::Each(each) => alone(*each, rels),
        }
    }
}

/// The numbers of a set that alone hold all of another.
fn alone(each: RelSet, rels: RelSet) -> RelSet
    ensures { result ≡ alone_in each rels }
{
    match rels.first() {
        None => each,
        Some(first) => {
            let one = RelSet::one(first);
            if rels.within(one) {
                common(each, one)
            } else {
                nothing()
            }
        }
    }
}
