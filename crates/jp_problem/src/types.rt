ghost use Rattle.std.specs.Prelude.{◌≡◌, ◌++◌, ◌∷◌, [], OnOk};

use jp_base::{ItemNo, JoinNo, Memory, RelNo, RelSet};
use jp_query::{Expr, JoinKind};
use smallvec::SmallVec;
use sqlite_items::Items;
use std::alloc::Global;
use std::marker::Model;

/// What is left of a query block for the search of an order of its joins. Sets of items are sets of their numbers, which
/// are their places in `items`.
#[derive(Drop)]
pub struct Problem {
    pub items: Items<Item>,
    /// The special joins by ascending number.
    pub joins: Items<Special>,
    pub clauses: Items<Clause>,
    pub classes: Items<Class>,
}

/// A leaf of a block's tree.
#[derive(Drop)]
pub struct Item {
    pub kind: ItemKind,
    /// The relations that it gives rows to.
    pub rels: RelSet,
    /// How many rows it is said to have.
    pub rows: u64,
    /// What a scan of it costs.
    pub cost: u128,
    /// For a base table how many distinct values each of its columns is said to have; else empty.
    pub distinct: Items<u64>,
}

/// What an item takes its rows from. `block`, `left` and `right` are the numbers of blocks.
#[derive(Drop)]
pub enum ItemKind {
    Base {
        rel: RelNo,
        table: u32,
    },
    Sub {
        rel: RelNo,
        block: u32,
    },
    Full {
        left: u32,
        right: u32,
        on: Items<Expr>,
    },
}

/// A Left, Semi or Anti join (PostgreSQL's `SpecialJoinInfo`). `syn_left` and `syn_right` are the items of its two sides
/// as they are written, `min_left` and `min_right` the least sets of items that it needs to its left and to its right.
#[derive(Drop)]
pub struct Special {
    /// Its number, from 1: its place in post-order.
    pub no: JoinNo,
    pub kind: JoinKind,
    pub min_left: RelSet,
    pub min_right: RelSet,
    pub syn_left: RelSet,
    pub syn_right: RelSet,
    /// Whether its ON list isn't true where the items of `min_left` are absent.
    pub lhs_strict: bool,
    /// The innermost special join in whose right side it stands, or 0.
    pub region: JoinNo,
    /// Its own ON list: without the members that are clauses of its region.
    pub on: Items<Expr>,
}

/// A condition that isn't in the ON list of a special join.
#[derive(Drop)]
pub struct Clause {
    pub expr: Expr,
    /// The innermost special join in whose right side it stands, or 0.
    pub region: JoinNo,
    /// The items that have to be there before it is tested.
    pub req: RelSet,
    /// The place in the problem's classes of the class of which it is an equality.
    pub class: Option<u32>,
}

/// Expressions that the clauses of a region make equal.
#[derive(Drop)]
pub struct Class {
    pub region: JoinNo,
    /// The one that uses no item.
    pub constant: Option<Expr>,
    /// The others, each with the items that have to be there before it is evaluated.
    pub members: Items<(Expr, RelSet)>,
}

/// What a block's tree says of its items, its special joins and its conditions.
#[derive(Drop)]
pub struct Outline {
    /// The relations of each item.
    pub rels: Items<RelSet>,
    pub joins: Items<Written>,
    pub clauses: Items<Placed>,
    /// The items of the relations of each placeholder.
    pub placeholders: Items<RelSet>,
}

/// A special join as it is written, with its own ON list.
#[derive(Drop)]
pub struct Written {
    pub no: JoinNo,
    pub kind: JoinKind,
    pub syn_left: RelSet,
    pub syn_right: RelSet,
    pub region: JoinNo,
    pub on: Items<Expr>,
    /// The items that its ON list uses.
    pub uses: RelSet,
}

/// A condition that is a clause, with its region and the items that it uses.
#[derive(Drop)]
pub struct Placed {
    pub expr: Expr,
    pub region: JoinNo,
    pub uses: RelSet,
}

/// Where a part of a block's tree stands: how many items and how many special joins stand before it, and its region.
#[derive(Clone, Copy, Debug, PartialEq, Eq)]
pub struct Place {
    pub items: ItemNo,
    pub joins: JoinNo,
    pub region: JoinNo,
}

/// How a set of items grows: one that meets `met` takes in `taken`.
#[derive(Clone, Copy, Debug, PartialEq, Eq)]
pub struct Rule {
    pub met: RelSet,
    pub taken: RelSet,
}

/// The kind of a legal step: no special join comes to be done, or the one of this number.
#[derive(Clone, Copy, Debug, PartialEq, Eq)]
pub enum Step {
    Inner,
    By(JoinNo),
}

/// How a step is run.
#[derive(Clone, Copy, Debug, PartialEq, Eq)]
pub enum Method {
    Nest,
    Hash,
    HashRight,
    Merge,
}

/// What a step or a scan has together, and what was there before: the two parts of a step, and no part at a scan.
#[derive(Clone, Copy, Debug, PartialEq, Eq)]
pub struct Stage {
    pub whole: RelSet,
    pub left: Option<RelSet>,
    pub right: Option<RelSet>,
}

/// The few clauses that are tested at a step or a scan; seen as their list.
#[derive(Drop)]
pub struct StepClauses {
    list: SmallVec<Expr, 4>,
}

impl Model for StepClauses {
    ghost use Rattle.std.specs.Prelude.{List};
    ghost use Rattle.std.specs.Coded.{coded_list};
    ghost use Rattle.jp_query.specs.declared.Expr.{Expr};
    ghost use Rattle.jp_query.specs.contracts.Expr as expr;

    ghost Value = { List Expr };

    ghost coded = { coded_list expr.the_row.coded };

    ghost view = { λ s. s.list.items };
}

impl StepClauses {
    /// No clauses.
    pub(crate) fn new(alloc: Global) -> StepClauses
        ensures { result ≡ [] }
    {
        StepClauses {
            list: SmallVec::new(alloc),
        }
    }

    pub(crate) fn push(&mut self, clause: Expr) -> Result<(), Memory>
        ensures { OnOk result (self.new ≡ self.old ++ clause ∷ []) }
    {
        self.list.push(clause)?;
        Ok(())
    }

    /// The clauses, lent.
    pub fn items(&self) -> &[Expr]
        ensures { result.now ≡ self.now }
    {
        self.list.as_slice()
    }
}
