//! Trees as texts, for the tests: a node as its words and members, and behind `@` its place.

use jp_base::Txt;
use jp_parse::{Ast, CmpWord, FromItem, IsWord, JoinWord, OrderAst, Select, Stmt, Target};
use std::alloc::{AllocError, Global};

/// The text of a whole statement.
pub fn shown(alloc: Global, stmt: &Stmt) -> Result<String, AllocError> {
    let mut out = String::new(alloc);
    show_select(&mut out, &stmt.select)?;
    if !stmt.order.is_empty() {
        out.push_str(" order ")?;
        show_orders(&mut out, stmt.order.as_slice())?;
    }
    Ok(out)
}

fn show_orders(out: &mut String, orders: &[OrderAst]) -> Result<(), AllocError> {
    let mut first = true;
    for order in orders {
        if !first {
            out.push_str(" , ")?;
        }
        show_ast(out, &order.expr)?;
        out.push_str(if order.desc { " desc" } else { " asc" })?;
        out.push_str(if order.nulls_first { " first" } else { " last" })?;
        first = false;
    }
    Ok(())
}

fn show_place(out: &mut String, at: u32) -> Result<(), AllocError> {
    write!(out, "@{at}")
}

fn show_alias(out: &mut String, alias: &Option<Txt>) -> Result<(), AllocError> {
    match alias {
        Some(name) => {
            out.push_str(" as ")?;
            out.push_str(name.as_str())
        }
        None => Ok(()),
    }
}

#[cycle(shown)]
fn show_select(out: &mut String, select: &Select) -> Result<(), AllocError> {
    out.push_str("select ")?;
    if select.distinct {
        out.push_str("distinct ")?;
    }
    show_targets(out, select.targets.as_slice())?;
    out.push_str(" from ")?;
    show_items(out, select.items.as_slice())?;
    match &select.cond {
        Some(cond) => {
            out.push_str(" where ")?;
            show_ast(out, cond)
        }
        None => Ok(()),
    }
}

#[cycle(shown)]
fn show_targets(out: &mut String, targets: &[Target]) -> Result<(), AllocError> {
    let mut first = true;
    for target in targets {
        if !first {
            out.push_str(" , ")?;
        }
        show_target(out, target)?;
        first = false;
    }
    Ok(())
}

#[cycle(shown)]
fn show_target(out: &mut String, target: &Target) -> Result<(), AllocError> {
    match target {
        Target::All { at } => {
            out.push_str("*")?;
            show_place(out, *at)
        }
        Target::AllOf { name, at } => {
            out.push_str(name.as_str())?;
            out.push_str(".*")?;
            show_place(out, *at)
        }
        Target::One { expr, alias } => {
            show_ast(out, expr)?;
            show_alias(out, alias)
        }
    }
}

#[cycle(shown)]
fn show_items(out: &mut String, items: &[FromItem]) -> Result<(), AllocError> {
    let mut first = true;
    for item in items {
        if !first {
            out.push_str(" , ")?;
        }
        show_item(out, item)?;
        first = false;
    }
    Ok(())
}

fn kind_word(kind: JoinWord) -> &'static str {
    match kind {
        JoinWord::Cross => " cross ",
        JoinWord::Inner => " inner ",
        JoinWord::Left => " left ",
        JoinWord::Right => " right ",
        JoinWord::Full => " full ",
    }
}

#[cycle(shown)]
fn show_item(out: &mut String, item: &FromItem) -> Result<(), AllocError> {
    match item {
        FromItem::Table { name, alias, at } => {
            out.push_str(name.as_str())?;
            show_alias(out, alias)?;
            show_place(out, *at)
        }
        FromItem::Sub { select, alias, at } => {
            out.push_str("(")?;
            show_select(out, select.get())?;
            out.push_str(")")?;
            show_alias(out, alias)?;
            show_place(out, *at)
        }
        FromItem::Join {
            kind,
            left,
            right,
            on,
            at,
        } => {
            out.push_str("(")?;
            show_item(out, left.get())?;
            out.push_str(kind_word(*kind))?;
            show_item(out, right.get())?;
            match on {
                Some(cond) => {
                    out.push_str(" on ")?;
                    show_ast(out, cond)?;
                }
                None => {}
            }
            out.push_str(")")?;
            show_place(out, *at)
        }
    }
}

fn compare_word(op: CmpWord) -> &'static str {
    match op {
        CmpWord::Eq => " = ",
        CmpWord::Ne => " <> ",
        CmpWord::Lt => " < ",
        CmpWord::Le => " <= ",
        CmpWord::Gt => " > ",
        CmpWord::Ge => " >= ",
    }
}

fn test_word(word: IsWord) -> &'static str {
    match word {
        IsWord::Null => "null(",
        IsWord::True => "true(",
        IsWord::False => "false(",
        IsWord::Unknown => "unknown(",
    }
}

#[cycle(shown)]
fn show_members(out: &mut String, list: &[Ast]) -> Result<(), AllocError> {
    let mut first = true;
    for member in list {
        if !first {
            out.push_str(" , ")?;
        }
        show_ast(out, member)?;
        first = false;
    }
    Ok(())
}

#[cycle(shown)]
fn show_list(out: &mut String, word: &str, list: &[Ast]) -> Result<(), AllocError> {
    out.push_str(word)?;
    out.push_str("(")?;
    show_members(out, list)?;
    out.push_str(")")
}

#[cycle(shown)]
fn show_terms(out: &mut String, terms: &[(bool, Ast)]) -> Result<(), AllocError> {
    out.push_str("sum(")?;
    let mut first = true;
    for term in terms {
        if !first {
            out.push_str(" , ")?;
        }
        out.push_str(if term.0 { "- " } else { "+ " })?;
        show_ast(out, &term.1)?;
        first = false;
    }
    out.push_str(")")
}

#[cycle(shown)]
fn show_arms(out: &mut String, arms: &[(Ast, Ast)]) -> Result<(), AllocError> {
    let mut first = true;
    for arm in arms {
        if !first {
            out.push_str(" ")?;
        }
        out.push_str("when ")?;
        show_ast(out, &arm.0)?;
        out.push_str(" then ")?;
        show_ast(out, &arm.1)?;
        first = false;
    }
    Ok(())
}

/// A word with an operand behind it, and a parenthesis.
#[cycle(shown)]
fn show_one(out: &mut String, word: &str, operand: &Ast) -> Result<(), AllocError> {
    out.push_str(word)?;
    show_ast(out, operand)?;
    out.push_str(")")
}

/// A word with a select behind it, and a parenthesis.
#[cycle(shown)]
fn show_inner(out: &mut String, word: &str, select: &Select) -> Result<(), AllocError> {
    out.push_str(word)?;
    show_select(out, select)?;
    out.push_str(")")
}

#[cycle(shown)]
fn show_ast(out: &mut String, ast: &Ast) -> Result<(), AllocError> {
    match ast {
        Ast::Sign { minus, operand, at } => {
            show_one(
                out,
                if *minus { "sign(- " } else { "sign(+ " },
                operand.get(),
            )?;
            show_place(out, *at)
        }
        Ast::Sum { terms, at } => {
            show_terms(out, terms.as_slice())?;
            show_place(out, *at)
        }
        Ast::Product { factors, at } => {
            show_list(out, "product", factors.as_slice())?;
            show_place(out, *at)
        }
        Ast::Concat { parts, at } => {
            show_list(out, "cat", parts.as_slice())?;
            show_place(out, *at)
        }
        Ast::And { list, at } => {
            show_list(out, "and", list.as_slice())?;
            show_place(out, *at)
        }
        Ast::Or { list, at } => {
            show_list(out, "or", list.as_slice())?;
            show_place(out, *at)
        }
        Ast::Not { operand, at } => {
            show_one(out, "not(", operand.get())?;
            show_place(out, *at)
        }
        _ => show_test(out, ast),
    }
}

/// Comparisons and tests.
#[cycle(shown)]
fn show_test(out: &mut String, ast: &Ast) -> Result<(), AllocError> {
    match ast {
        Ast::Compare {
            op,
            left,
            right,
            at,
        } => {
            show_one(out, "(", left.get())?;
            out.push_str(compare_word(*op))?;
            show_one(out, "(", right.get())?;
            show_place(out, *at)
        }
        Ast::Between {
            operand,
            low,
            high,
            at,
        } => {
            show_ast(out, operand.get())?;
            show_one(out, " between (", low.get())?;
            show_one(out, " and (", high.get())?;
            show_place(out, *at)
        }
        Ast::InList { operand, list, at } => {
            show_ast(out, operand.get())?;
            show_list(out, " in ", list.as_slice())?;
            show_place(out, *at)
        }
        Ast::InSelect {
            operand,
            select,
            at,
        } => {
            show_ast(out, operand.get())?;
            show_inner(out, " in (", select.get())?;
            show_place(out, *at)
        }
        Ast::Is {
            operand,
            negated,
            word,
            at,
        } => {
            out.push_str(if *negated { "is not " } else { "is " })?;
            show_one(out, test_word(*word), operand.get())?;
            show_place(out, *at)
        }
        _ => show_choice(out, ast),
    }
}

/// EXISTS, COALESCE and CASE.
#[cycle(shown)]
fn show_choice(out: &mut String, ast: &Ast) -> Result<(), AllocError> {
    match ast {
        Ast::Exists { select, at } => {
            show_inner(out, "exists(", select.get())?;
            show_place(out, *at)
        }
        Ast::Coalesce { list, at } => {
            show_list(out, "coalesce", list.as_slice())?;
            show_place(out, *at)
        }
        Ast::Case {
            operand,
            arms,
            otherwise,
            at,
        } => {
            out.push_str("case(")?;
            match operand {
                Some(operand) => {
                    show_ast(out, operand.get())?;
                    out.push_str(" ")?;
                }
                None => {}
            }
            show_arms(out, arms.as_slice())?;
            match otherwise {
                Some(otherwise) => {
                    out.push_str(" else ")?;
                    show_ast(out, otherwise.get())?;
                }
                None => {}
            }
            out.push_str(")")?;
            show_place(out, *at)
        }
        _ => show_atom(out, ast),
    }
}

/// Literals and columns.
fn show_atom(out: &mut String, ast: &Ast) -> Result<(), AllocError> {
    match ast {
        Ast::Number { value, at } => {
            write!(out, "{value}")?;
            show_place(out, *at)
        }
        Ast::Text { value, at } => {
            out.push_str("'")?;
            out.push_str(value.as_str())?;
            out.push_str("'")?;
            show_place(out, *at)
        }
        Ast::Bool { value, at } => {
            out.push_str(if *value { "true" } else { "false" })?;
            show_place(out, *at)
        }
        Ast::Null { at } => {
            out.push_str("null")?;
            show_place(out, *at)
        }
        Ast::Name { name, at } => {
            out.push_str(name.as_str())?;
            show_place(out, *at)
        }
        Ast::Qualified {
            qualifier,
            name,
            at,
        } => {
            out.push_str(qualifier.as_str())?;
            out.push_str(".")?;
            out.push_str(name.as_str())?;
            show_place(out, *at)
        }
        _ => Ok(()),
    }
}
