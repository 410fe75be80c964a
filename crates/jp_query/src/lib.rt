//! The typed query tree: what resolution makes of a statement, what the planner rewrites, and what its rows mean.
//!
//! In `specs/`, `Meaning` says which rows a query has, `Typing` and `Conditions` which queries are typed and bounded,
//! `Freshness` which are as resolution leaves them, and `Nullness` what surely holds of an expression where relations
//! are absent.
#![tactic(auto)]

mod copies;
mod equality;
mod examples;
mod laws;
mod references;
#[cfg(test)]
mod tests;
mod tree_examples;

pub use equality::is_same;
pub use examples::{worked_joins, worked_orders, worked_values};
use jp_base::{RelNo, RelSet, SubNo, Txt, Ty, Value};
pub use laws::{in_reads_as_said, tuples_have_the_relations};
pub use references::refs;
use sqlite_items::{Boxed, Items};
pub use tree_examples::{worked_conditions, worked_freshness, worked_nullness, worked_parts};

/// A comparison of two values of one type.
#[derive(Clone, Copy, Debug, PartialEq, Eq)]
pub enum CmpOp {
    Eq,
    Ne,
    Lt,
    Le,
    Gt,
    Ge,
}

/// The word after IS.
#[derive(Clone, Copy, Debug, PartialEq, Eq)]
pub enum IsTest {
    Null,
    NotNull,
    True,
    NotTrue,
    False,
    NotFalse,
    Unknown,
    NotUnknown,
}

/// How the two sides of a join are put together. Semi and Anti come only from sublinks: the right side gives no
/// columns.
#[derive(Clone, Copy, Debug, PartialEq, Eq)]
pub enum JoinKind {
    Inner,
    Left,
    Right,
    Full,
    Semi,
    Anti,
}

/// An expression. A list of conditions means their AND, and an empty one is true.
#[cycle(query)]
#[derive(Drop)]
pub enum Expr {
    /// Column `col`, from 0, of the relation `rel`. One of a relation outside its select is an outer reference.
    /// `nulled` are the numbers of the outer joins that may have made it NULL: a label, which changes no value.
    Col {
        rel: RelNo,
        col: u32,
        ty: Ty,
        nulled: RelSet,
    },
    Lit(Value, Ty),
    /// A placeholder: NULL where none of the relations is present, else the expression's value.
    Place(Boxed<Expr>, RelSet),
    Neg(Boxed<Expr>),
    /// The terms, each with whether it is subtracted.
    Sum(Items<(bool, Expr)>),
    Product(Items<Expr>),
    Concat(Items<Expr>),
    Compare(CmpOp, Boxed<Expr>, Boxed<Expr>),
    /// The operand, the low and the high end.
    Between(Boxed<Expr>, Boxed<Expr>, Boxed<Expr>),
    InList(Boxed<Expr>, Items<Expr>),
    And(Items<Expr>),
    Or(Items<Expr>),
    Not(Boxed<Expr>),
    Test(IsTest, Boxed<Expr>),
    Coalesce(Items<Expr>),
    /// With an operand the arms compare it with their first expression; without one their first expression is a
    /// condition.
    Case {
        operand: Option<Boxed<Expr>>,
        arms: Items<(Expr, Expr)>,
        otherwise: Option<Boxed<Expr>>,
    },
    /// A sublink: whether the query has a row.
    Exists(SubNo, Boxed<Query>),
    /// A sublink: whether the expression is equal to the one output of some row of the query.
    InSub(SubNo, Boxed<Expr>, Boxed<Query>),
}

/// The blank of a list that keeps places inline; no list that is seen holds it.
impl Default for Expr {
    ghost use Rattle.std.specs.Prelude.{◌≡◌};
    ghost use Rattle.jp_base.specs.declared.values.Value.TheVariants.{Null};
    ghost use Rattle.jp_base.specs.declared.values.Ty.TheVariants.{Text};
    ghost use Rattle.jp_query.specs.declared.Expr.TheViews.{roll-Expr};
    ghost use Rattle.jp_query.specs.Layers.{Expr-F};

    ghost is_default = { λ expr. expr ≡ roll-Expr (Expr-F.Lit Null Text) };

    fn default() -> Expr {
        Expr::Lit(Value::Null, Ty::Text)
    }
}

/// One column of a query's rows.
#[cycle(query)]
#[derive(Drop)]
pub struct Output {
    pub name: Txt,
    pub ty: Ty,
    pub expr: Expr,
}

/// One item of ORDER BY. `nulls_first` says where NULLs stand, whether that was written or follows from `desc`.
#[cycle(query)]
#[derive(Drop)]
pub struct Order {
    pub expr: Expr,
    pub desc: bool,
    pub nulls_first: bool,
}

/// Where a select takes its rows from. `rel` is the leaf's number in the statement, and `table` the table's place in
/// the catalogue, from 0.
#[cycle(query)]
#[derive(Drop)]
pub enum JoinTree {
    Base {
        rel: RelNo,
        name: Txt,
        table: u32,
    },
    Sub {
        rel: RelNo,
        name: Txt,
        query: Boxed<Query>,
    },
    Join {
        kind: JoinKind,
        left: Boxed<JoinTree>,
        right: Boxed<JoinTree>,
        on: Items<Expr>,
    },
    /// All combinations of the members that make the conditions true.
    From {
        members: Items<JoinTree>,
        conds: Items<Expr>,
    },
}

/// A select. `conds` is its WHERE list.
#[cycle(query)]
#[derive(Drop)]
pub struct Query {
    pub columns: Items<Output>,
    pub distinct: bool,
    pub tree: JoinTree,
    pub conds: Items<Expr>,
    pub order: Items<Order>,
}
