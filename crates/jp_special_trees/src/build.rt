use crate::table::{Cond, Op, Term};
use jp_base::{RelNo, RelSet, Txt, Ty, Value};
use jp_query::{CmpOp, Expr, IsTest, JoinKind, JoinTree, Output, Query};
use sqlite_items::{Boxed, Items};
use std::alloc::Global;
use std::test::Fail;

fn col(rel: RelNo, col: u32) -> Expr {
    Expr::Col {
        rel,
        col,
        ty: Ty::Number,
        nulled: RelSet::empty(),
    }
}

fn num(n: i128) -> Expr {
    Expr::Lit(Value::Num(n), Ty::Number)
}

fn term(al: Global, term: Term) -> Result<Expr, Fail> {
    match term {
        Term::X(rel) => Ok(col(rel, 0)),
        Term::Y(rel) => Ok(col(rel, 1)),
        Term::XOrZero(rel) => first_of(al, col(rel, 0), num(0)),
        Term::YOrZero(rel) => first_of(al, col(rel, 1), num(0)),
        Term::XOrX(rel, other) => first_of(al, col(rel, 0), col(other, 0)),
    }
}

/// COALESCE of two expressions.
fn first_of(al: Global, a: Expr, b: Expr) -> Result<Expr, Fail> {
    let mut members = Items::new(al);
    members.push(a)?;
    members.push(b)?;
    Ok(Expr::Coalesce(members))
}

pub fn condition(al: Global, cond: &Cond) -> Result<Expr, Fail> {
    match cond {
        Cond::Eq(a, b) => {
            let a = Boxed::new(al, term(al, *a)?)?;
            let b = Boxed::new(al, term(al, *b)?)?;
            Ok(Expr::Compare(CmpOp::Eq, a, b))
        }
        Cond::IsNull(a) => {
            let a = Boxed::new(al, term(al, *a)?)?;
            Ok(Expr::Test(IsTest::Null, a))
        }
        Cond::NullIn(a) => {
            let null = Boxed::new(al, Expr::Lit(Value::Null, Ty::Number))?;
            let mut members = Items::new(al);
            members.push(term(al, *a)?)?;
            Ok(Expr::InList(null, members))
        }
        Cond::False => Ok(Expr::Lit(Value::Bool(false), Ty::Boolean)),
    }
}

fn conditions(al: Global, conds: &[Cond]) -> Result<Items<Expr>, Fail> {
    let mut list = Items::new(al);
    for cond in conds {
        list.push(condition(al, cond)?)?;
    }
    Ok(list)
}

fn leaf(al: Global, rel: RelNo) -> Result<JoinTree, Fail> {
    let name = Txt::new(al, "t")?;
    Ok(JoinTree::Base {
        rel,
        name,
        table: rel as u32,
    })
}

fn join(
    al: Global,
    kind: JoinKind,
    left: JoinTree,
    right: JoinTree,
    on: Items<Expr>,
) -> Result<JoinTree, Fail> {
    let left = Boxed::new(al, left)?;
    let right = Boxed::new(al, right)?;
    Ok(JoinTree::Join {
        kind,
        left,
        right,
        on,
    })
}

fn from(al: Global, member: JoinTree, conds: Items<Expr>) -> Result<JoinTree, Fail> {
    let mut members = Items::new(al);
    members.push(member)?;
    Ok(JoinTree::From { members, conds })
}

/// The tree that a list in post-order says.
fn tree(al: Global, ops: &[Op]) -> Result<JoinTree, Fail> {
    let mut stack = Vec::new(al);
    for op in ops {
        let made = applied(al, op, &mut stack)?;
        stack.push(made)?;
    }
    top(&mut stack)
}

fn top(stack: &mut Vec<JoinTree>) -> Result<JoinTree, Fail> {
    match stack.pop() {
        Some(tree) => Ok(tree),
        None => Err(Fail::from("no tree")),
    }
}

fn applied(al: Global, op: &Op, stack: &mut Vec<JoinTree>) -> Result<JoinTree, Fail> {
    match op {
        Op::Leaf(rel) => leaf(al, *rel),
        Op::Join(kind, on) => {
            let right = top(stack)?;
            let left = top(stack)?;
            let on = conditions(al, on)?;
            join(al, *kind, left, right, on)
        }
        Op::From(conds) => {
            let member = top(stack)?;
            let conds = conditions(al, conds)?;
            from(al, member, conds)
        }
    }
}

/// A query of a tree and a WHERE list, with a placeholder of some relations, or no output.
pub fn query(al: Global, ops: &[Op], conds: &[Cond], place: RelSet) -> Result<Query, Fail> {
    let columns = outputs(al, place)?;
    let tree = tree(al, ops)?;
    let conds = conditions(al, conds)?;
    Ok(Query {
        columns,
        distinct: false,
        tree,
        conds,
        order: Items::new(al),
    })
}

fn outputs(al: Global, place: RelSet) -> Result<Items<Output>, Fail> {
    let mut columns = Items::new(al);
    if place != RelSet::empty() {
        let name = Txt::new(al, "o")?;
        let one = Boxed::new(al, num(1))?;
        columns.push(Output {
            name,
            ty: Ty::Number,
            expr: Expr::Place(one, place),
        })?;
    }
    Ok(columns)
}

/// The set of items, or of relations, of some letters.
pub fn set(letters: &str) -> RelSet {
    let mut all = RelSet::empty();
    for letter in letters.as_bytes() {
        all = all.union(one(*letter));
    }
    all
}

fn one(letter: u8) -> RelSet {
    match letter {
        b'a' => RelSet::one(0),
        b'b' => RelSet::one(1),
        b'c' => RelSet::one(2),
        b'd' => RelSet::one(3),
        _ => RelSet::empty(),
    }
}
