use jp_base::Txt;
use sqlite_items::{Boxed, Items};

// In each node `at` is the byte place of its first token in the source. Parentheses round a whole expression
// or a whole FROM item leave no node and don't count; a sub-select of FROM begins with its own parenthesis.
// Names that were written without quotes are folded to lower case, quoted ones keep their case.

/// A whole statement: `select [ORDER BY order {"," order}] [";"]`.
#[derive(Drop)]
pub struct Stmt {
    pub select: Select,
    /// The keys of ORDER BY, the first one deciding first; none where the clause is missing.
    pub order: Items<OrderAst>,
}

/// `SELECT [DISTINCT] target {"," target} FROM item {"," item} [WHERE expr]`.
#[cycle(tree)]
#[derive(Drop)]
pub struct Select {
    pub distinct: bool,
    /// At least one.
    pub targets: Items<Target>,
    /// At least one. A list of several stands for all combinations.
    pub items: Items<FromItem>,
    /// The condition of WHERE.
    pub cond: Option<Ast>,
}

/// A member of the select list.
#[cycle(tree)]
#[derive(Drop)]
pub enum Target {
    /// `*`: all columns of all FROM items.
    All { at: u32 },
    /// `name.*`: all columns of one FROM item.
    AllOf { name: Txt, at: u32 },
    /// `expr [[AS] name]`.
    One { expr: Ast, alias: Option<Txt> },
}

/// `expr [ASC | DESC] [NULLS (FIRST | LAST)]`. Without NULLS, NULL comes last ascending and first descending.
#[derive(Drop)]
pub struct OrderAst {
    pub expr: Ast,
    pub desc: bool,
    pub nulls_first: bool,
}

/// An item of FROM.
#[cycle(tree)]
#[derive(Drop)]
pub enum FromItem {
    /// `name [[AS] name]`: a table.
    Table {
        name: Txt,
        alias: Option<Txt>,
        at: u32,
    },
    /// `"(" select ")" [[AS] name]`.
    Sub {
        select: Boxed<Select>,
        alias: Option<Txt>,
        at: u32,
    },
    /// Two items joined. `on` is None exactly for Cross.
    Join {
        kind: JoinWord,
        left: Boxed<FromItem>,
        right: Boxed<FromItem>,
        on: Option<Ast>,
        at: u32,
    },
}

/// The word of a join. JOIN alone is INNER JOIN, and OUTER changes nothing.
#[derive(Clone, Copy, Debug, PartialEq, Eq)]
pub enum JoinWord {
    Cross,
    Inner,
    Left,
    Right,
    Full,
}

/// An expression as it is written. `NOT IN`, `NOT BETWEEN` and `NOT EXISTS` are `Not` over the plain form.
/// Chains of OR, AND, `||`, `+`, `-` and `*` are one node with a list, so that a long chain isn't deep.
#[cycle(tree)]
#[derive(Drop)]
pub enum Ast {
    /// A number without sign, at most 2^127-1.
    Number {
        value: i128,
        at: u32,
    },
    /// A text in single quotes; `''` in it is one quote of `value`.
    Text {
        value: Txt,
        at: u32,
    },
    /// TRUE or FALSE.
    Bool {
        value: bool,
        at: u32,
    },
    /// The literal NULL.
    Null {
        at: u32,
    },
    /// A column by its name alone.
    Name {
        name: Txt,
        at: u32,
    },
    /// `qualifier.name`: a column of the FROM item that the qualifier names.
    Qualified {
        qualifier: Txt,
        name: Txt,
        at: u32,
    },
    /// `- operand`, or `+ operand` where `minus` is false.
    Sign {
        minus: bool,
        operand: Boxed<Ast>,
        at: u32,
    },
    /// At least two terms, each with whether it is subtracted; the first never is.
    Sum {
        terms: Items<(bool, Ast)>,
        at: u32,
    },
    /// At least two factors.
    Product {
        factors: Items<Ast>,
        at: u32,
    },
    /// `a || b || ..`: at least two parts.
    Concat {
        parts: Items<Ast>,
        at: u32,
    },
    /// `left op right`.
    Compare {
        op: CmpWord,
        left: Boxed<Ast>,
        right: Boxed<Ast>,
        at: u32,
    },
    /// `operand BETWEEN low AND high`.
    Between {
        operand: Boxed<Ast>,
        low: Boxed<Ast>,
        high: Boxed<Ast>,
        at: u32,
    },
    /// `operand IN (list)`: at least one member.
    InList {
        operand: Boxed<Ast>,
        list: Items<Ast>,
        at: u32,
    },
    /// `operand IN (select)`.
    InSelect {
        operand: Boxed<Ast>,
        select: Boxed<Select>,
        at: u32,
    },
    /// At least two members.
    And {
        list: Items<Ast>,
        at: u32,
    },
    /// At least two members.
    Or {
        list: Items<Ast>,
        at: u32,
    },
    Not {
        operand: Boxed<Ast>,
        at: u32,
    },
    /// `operand IS [NOT] word`; `negated` says that NOT is written.
    Is {
        operand: Boxed<Ast>,
        negated: bool,
        word: IsWord,
        at: u32,
    },
    /// `EXISTS (select)`.
    Exists {
        select: Boxed<Select>,
        at: u32,
    },
    /// `COALESCE (list)`: at least one member.
    Coalesce {
        list: Items<Ast>,
        at: u32,
    },
    /// `CASE [operand] WHEN .. THEN .. {WHEN .. THEN ..} [ELSE otherwise] END`: at least one arm, each with
    /// what stands behind WHEN and behind THEN.
    Case {
        operand: Option<Boxed<Ast>>,
        arms: Items<(Ast, Ast)>,
        otherwise: Option<Boxed<Ast>>,
        at: u32,
    },
}

/// The word of a comparison: `=`, `<>` or `!=`, `<`, `<=`, `>`, `>=`.
#[derive(Clone, Copy, Debug, PartialEq, Eq)]
pub enum CmpWord {
    Eq,
    Ne,
    Lt,
    Le,
    Gt,
    Ge,
}

/// What `IS` tests for.
#[derive(Clone, Copy, Debug, PartialEq, Eq)]
pub enum IsWord {
    Null,
    True,
    False,
    Unknown,
}
