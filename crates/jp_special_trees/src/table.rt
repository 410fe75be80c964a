use jp_base::{ItemNo, JoinNo, RelNo};
use jp_query::JoinKind;

/// A column, or COALESCE of one and 0 or another one.
#[derive(Clone, Copy)]
pub enum Term {
    X(RelNo),
    Y(RelNo),
    XOrZero(RelNo),
    YOrZero(RelNo),
    XOrX(RelNo, RelNo),
}

#[derive(Clone, Copy)]
pub enum Cond {
    Eq(Term, Term),
    IsNull(Term),
    NullIn(Term),
    False,
}

/// A step of writing a tree down in post-order.
#[derive(Clone, Copy)]
pub enum Op {
    Leaf(RelNo),
    Join(JoinKind, &'static [Cond]),
    /// A FROM list of one member.
    From(&'static [Cond]),
}

/// A special join: its kind, its two sides, its two sets, its region and how many members its own list has.
pub struct Known {
    pub kind: JoinKind,
    pub sides: (&'static str, &'static str),
    pub sets: (&'static str, &'static str),
    pub region: JoinNo,
    pub members: usize,
}

/// A tree with its WHERE list and the relations of a placeholder among the outputs, and what is known of it: its items,
/// its joins, its clauses with region and requirement, the clauses that are tested at scans and at the steps of its spine,
/// the joinable sets, and legal steps, with 0 for an inner one. `whole` says that these are all.
pub struct Facts {
    pub tree: &'static [Op],
    pub conds: &'static [Cond],
    pub place: &'static str,
    pub items: &'static str,
    pub joins: &'static [Known],
    pub clauses: &'static [(Cond, JoinNo, &'static str)],
    pub scans: &'static [(ItemNo, &'static [Cond])],
    pub spine: &'static [(&'static str, &'static str, &'static [Cond])],
    pub joinable: &'static [&'static str],
    pub steps: &'static [(&'static str, &'static str, JoinNo)],
    pub whole: bool,
}
