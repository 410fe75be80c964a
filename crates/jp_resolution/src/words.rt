use jp_base::{RelNo, Txt, Ty};
use jp_query::{Expr, JoinTree, Output};
use sqlite_items::{Boxed, Items};

/// How many FROM entries and sublinks stand in a part of a statement, or begin before it.
#[derive(Clone, Copy, Debug, PartialEq, Eq)]
pub struct Counts {
    pub entries: u32,
    pub sublinks: u32,
}

/// A column of an entry.
#[derive(Drop)]
pub struct Column {
    pub name: Txt,
    pub ty: Ty,
    /// The greatest magnitude of its numbers; 0 where it holds none.
    pub bound: u128,
}

/// An entry of FROM.
#[derive(Drop)]
pub struct Entry {
    /// The alias, else the table's name. A sub-select without an alias has none.
    pub name: Option<Txt>,
    pub relation: RelNo,
    pub columns: Items<Column>,
}

/// An expression with its type and the greatest magnitude of its number.
#[derive(Drop)]
pub struct TypedExpr {
    /// None for a NULL literal, which takes the type that is needed where it stands.
    pub ty: Option<Ty>,
    pub expr: Boxed<Expr>,
    pub bound: u128,
}

/// What a select gives without ORDER BY.
#[derive(Drop)]
pub struct Selection {
    /// The entries of its FROM list, from left to right.
    pub entries: Items<Entry>,
    pub outputs: Items<Output>,
    /// The outputs as columns of an entry.
    pub columns: Items<Column>,
    pub distinct: bool,
    pub tree: Boxed<JoinTree>,
    /// The conditions of WHERE.
    pub conds: Items<Expr>,
}
