#![tactic(auto, using(crate::proofs::NameLaws::equations))]

ghost use Rattle.std.specs.Prelude.{◌≡◌, ◌++◌, ◌∷◌, [], IfOk, OnOk, map, slice_get};
ghost use Rattle.std.specs.List.{flat_map, list_any};
ghost use Rattle.jp_prepared.specs.Names.{below, column_name, names_of, names_of_table, output_name};
ghost use Rattle.jp_session.specs.Names.{arm_names, column_at, expr_names, is_earlier, order_names, output_names, printed, printed_at, printed_text, query_names, term_names, tree_names};

use jp_base::{Memory, RelNo, Txt};
use jp_catalog::{Catalog, Columns};
use jp_query::{Expr, JoinTree, Order, Output, Query};
use jp_tree::RelName;
use sqlite_items::Items;
use std::alloc::Global;

/// How the relations of a query and their columns are printed, ascending by the relations' numbers: those of all leaves, in
/// sub-selects and sublinks too. Where an earlier relation has the same name, `_` and the relation's number stand behind it.
pub fn names_of(alloc: Global, catalog: &Catalog, query: &Query) -> Result<Items<RelName>, Memory>
    ensures { IfOk result (λ names. names ≡ names_of catalog.now query.now) }
{
    let mut leaves = Vec::new(alloc);
    push_query(alloc, catalog, query, &mut leaves)?;
    let names = printed_names(alloc, leaves.as_slice())?;
    Ok(names)
}

fn printed_names(alloc: Global, leaves: &[RelName]) -> Result<Items<RelName>, Memory>
    ensures { IfOk result (λ names. names ≡ flat_map (printed_at leaves.now) (below 64)) }
{
    let mut names = Items::new(alloc);
    'relations: for rel in 0..64 {
        push_name(alloc, leaves, rel, &mut names)?;
    }
    Ok(names)
}

/// Puts the printed name of the relation at the end, if there is one of this number.
fn push_name(
    alloc: Global,
    leaves: &[RelName],
    rel: RelNo,
    names: &mut Items<RelName>,
) -> Result<(), Memory>
    ensures { OnOk result (names.new ≡ names.old ++ printed_at leaves.now rel) }
{
    'leaves: for leaf in leaves {
        if leaf.rel == rel {
            names.push(printed(alloc, leaves, leaf)?)?;
            return Ok(());
        }
    }
    Ok(())
}

fn printed(alloc: Global, leaves: &[RelName], leaf: &RelName) -> Result<RelName, Memory>
    ensures { IfOk result (λ name. name ≡ printed leaves.now leaf.now) }
{
    let name = printed_text(alloc, leaves, leaf)?;
    let columns = copies(alloc, leaf.columns.as_slice())?;
    Ok(RelName {
        rel: leaf.rel,
        name,
        columns,
    })
}

fn printed_text(alloc: Global, leaves: &[RelName], leaf: &RelName) -> Result<Txt, Memory>
    ensures { IfOk result (λ text. text ≡ printed_text leaves.now leaf.now) }
{
    if is_repeated(leaves, leaf) {
        let name = leaf.name.as_str();
        let rel = leaf.rel;
        let text = format!(in alloc; "{name}_{rel}")?;
        let text = Txt::new(alloc, text.as_str())?;
        Ok(text)
    } else {
        let text = leaf.name.copy(alloc)?;
        Ok(text)
    }
}

/// Whether an earlier relation has the same name.
fn is_repeated(leaves: &[RelName], leaf: &RelName) -> bool
    ensures { result ≡ list_any (is_earlier leaf.now) leaves.now }
{
    leaves.iter().any(|other| is_earlier(leaf, other))
}

/// Whether the other one has a lesser number and the same name.
fn is_earlier(leaf: &RelName, other: &RelName) -> bool
    ensures { result ≡ is_earlier leaf.now other.now }
{
    other.rel < leaf.rel && other.name.as_str() == leaf.name.as_str()
}

fn copies(alloc: Global, texts: &[Txt]) -> Result<Items<Txt>, Memory>
    ensures { IfOk result (λ copies. copies ≡ texts.now) }
{
    let mut copies = Items::new(alloc);
    'texts: for text in texts {
        copies.push(text.copy(alloc)?)?;
    }
    Ok(copies)
}

/// Puts the leaves of a query at the end, at every depth, with the names of their columns.
#[cycle(leaves)]
fn push_query(
    alloc: Global,
    catalog: &Catalog,
    query: &Query,
    leaves: &mut Vec<RelName>,
) -> Result<(), Memory>
    ensures { OnOk result (leaves.new.items ≡ leaves.old.items ++ query_names catalog.now query.now) }
{
    push_outputs(alloc, catalog, query.columns.as_slice(), leaves)?;
    push_tree(alloc, catalog, &query.tree, leaves)?;
    push_list(alloc, catalog, query.conds.as_slice(), leaves)?;
    push_orders(alloc, catalog, query.order.as_slice(), leaves)?;
    Ok(())
}

#[cycle(leaves)]
fn push_tree(
    alloc: Global,
    catalog: &Catalog,
    tree: &JoinTree,
    leaves: &mut Vec<RelName>,
) -> Result<(), Memory>
    ensures { OnOk result (leaves.new.items ≡ leaves.old.items ++ tree_names catalog.now tree.now) }
{
    match tree {
        JoinTree::Base { rel, name, table } => {
            let columns = table_columns(alloc, catalog, *table)?;
            push_leaf(alloc, *rel, name, columns, leaves)?;
            Ok(())
        }
        JoinTree::Sub { rel, name, query } => {
            let columns = output_columns(alloc, query.get().columns.as_slice())?;
            push_leaf(alloc, *rel, name, columns, leaves)?;
            push_query(alloc, catalog, query.get(), leaves)?;
            Ok(())
        }
        JoinTree::Join {
            left,
            right,
            on,
            ..
        } => {
            push_tree(alloc, catalog, left.get(), leaves)?;
            push_tree(alloc, catalog, right.get(), leaves)?;
            push_list(alloc, catalog, on.as_slice(), leaves)?;
            Ok(())
        }
        JoinTree::From { members, conds } => {
            push_trees(alloc, catalog, members.as_slice(), leaves)?;
            push_list(alloc, catalog, conds.as_slice(), leaves)?;
            Ok(())
        }
    }
}

#[cycle(leaves)]
fn push_trees(
    alloc: Global,
    catalog: &Catalog,
    trees: &[JoinTree],
    leaves: &mut Vec<RelName>,
) -> Result<(), Memory>
    ensures { OnOk result (leaves.new.items ≡ leaves.old.items ++ flat_map (tree_names catalog.now) trees.now) }
{
    'trees: for tree in trees {
        push_tree(alloc, catalog, tree, leaves)?;
    }
    Ok(())
}

fn push_leaf(
    alloc: Global,
    rel: RelNo,
    name: &Txt,
    columns: Items<Txt>,
    leaves: &mut Vec<RelName>,
) -> Result<(), Memory>
    ensures { OnOk result (leaves.new.items ≡ leaves.old.items ++ record { rel = rel; name = name.now; columns = columns } ∷ []) }
{
    let name = name.copy(alloc)?;
    leaves.push(RelName { rel, name, columns })?;
    Ok(())
}

/// The names of a table's columns, if the table is there.
fn table_columns(alloc: Global, catalog: &Catalog, table: u32) -> Result<Items<Txt>, Memory>
    ensures { IfOk result (λ names. names ≡ names_of_table (slice_get catalog.now.tables table)) }
{
    match catalog.tables.get_index(table as usize) {
        Some((_, def)) => {
            let names = column_names(alloc, &def.columns)?;
            Ok(names)
        }
        None => Ok(Items::new(alloc)),
    }
}

fn column_names(alloc: Global, columns: &Columns) -> Result<Items<Txt>, Memory>
    ensures { IfOk result (λ names. names ≡ map column_name columns.now) }
{
    let mut names = Items::new(alloc);
    'columns: for at in 0..columns.len() {
        push_column(alloc, columns, at, &mut names)?;
    }
    Ok(names)
}

/// The name of the column at a place, if there is one.
fn push_column(
    alloc: Global,
    columns: &Columns,
    at: usize,
    names: &mut Items<Txt>,
) -> Result<(), Memory>
    ensures { OnOk result (names.new ≡ names.old ++ column_at columns.now at) }
{
    match columns.get_index(at) {
        Some((name, _)) => {
            names.push(name.copy(alloc)?)?;
            Ok(())
        }
        None => Ok(()),
    }
}

fn output_columns(alloc: Global, outputs: &[Output]) -> Result<Items<Txt>, Memory>
    ensures { IfOk result (λ names. names ≡ map output_name outputs.now) }
{
    let mut names = Items::new(alloc);
    'outputs: for output in outputs {
        names.push(output.name.copy(alloc)?)?;
    }
    Ok(names)
}

#[cycle(leaves)]
fn push_expr(
    alloc: Global,
    catalog: &Catalog,
    expr: &Expr,
    leaves: &mut Vec<RelName>,
) -> Result<(), Memory>
    ensures { OnOk result (leaves.new.items ≡ leaves.old.items ++ expr_names catalog.now expr.now) }
{
    match expr {
        Expr::Col { .. } | Expr::Lit(_, _) => Ok(()),
        Expr::Place(operand, _)
        | Expr::Neg(operand)
        | Expr::Not(operand)
        | Expr::Test(_, operand) => push_expr(alloc, catalog, operand.get(), leaves),
        Expr::Sum(terms) => push_terms(alloc, catalog, terms.as_slice(), leaves),
        Expr::Product(list)
        | Expr::Concat(list)
        | Expr::And(list)
        | Expr::Or(list)
        | Expr::Coalesce(list) => push_list(alloc, catalog, list.as_slice(), leaves),
        Expr::Compare(_, left, right) => {
            push_expr(alloc, catalog, left.get(), leaves)?;
            push_expr(alloc, catalog, right.get(), leaves)?;
            Ok(())
        }
        Expr::Between(operand, low, high) => {
            push_expr(alloc, catalog, operand.get(), leaves)?;
            push_expr(alloc, catalog, low.get(), leaves)?;
            push_expr(alloc, catalog, high.get(), leaves)?;
            Ok(())
        }
        Expr::InList(operand, list) => {
            push_expr(alloc, catalog, operand.get(), leaves)?;
            push_list(alloc, catalog, list.as_slice(), leaves)?;
            Ok(())
        }
        Expr::Case {
            operand,
            arms,
            otherwise,
        } => {
            match operand {
                Some(operand) => push_expr(alloc, catalog, operand.get(), leaves)?,
                None => {}
            }
            push_arms(alloc, catalog, arms.as_slice(), leaves)?;
            match otherwise {
                Some(otherwise) => push_expr(alloc, catalog, otherwise.get(), leaves)?,
                None => {}
            }
            Ok(())
        }
        Expr::Exists(_, query) => push_query(alloc, catalog, query.get(), leaves),
        Expr::InSub(_, operand, query) => {
            push_expr(alloc, catalog, operand.get(), leaves)?;
            push_query(alloc, catalog, query.get(), leaves)?;
            Ok(())
        }
    }
}

#[cycle(leaves)]
fn push_list(
    alloc: Global,
    catalog: &Catalog,
    exprs: &[Expr],
    leaves: &mut Vec<RelName>,
) -> Result<(), Memory>
    ensures { OnOk result (leaves.new.items ≡ leaves.old.items ++ flat_map (expr_names catalog.now) exprs.now) }
{
    'exprs: for expr in exprs {
        push_expr(alloc, catalog, expr, leaves)?;
    }
    Ok(())
}

#[cycle(leaves)]
fn push_terms(
    alloc: Global,
    catalog: &Catalog,
    terms: &[(bool, Expr)],
    leaves: &mut Vec<RelName>,
) -> Result<(), Memory>
    ensures { OnOk result (leaves.new.items ≡ leaves.old.items ++ flat_map (term_names catalog.now) terms.now) }
{
    'terms: for term in terms {
        push_expr(alloc, catalog, &term.1, leaves)?;
    }
    Ok(())
}

#[cycle(leaves)]
fn push_arms(
    alloc: Global,
    catalog: &Catalog,
    arms: &[(Expr, Expr)],
    leaves: &mut Vec<RelName>,
) -> Result<(), Memory>
    ensures { OnOk result (leaves.new.items ≡ leaves.old.items ++ flat_map (arm_names catalog.now) arms.now) }
{
    'arms: for arm in arms {
        push_expr(alloc, catalog, &arm.0, leaves)?;
        push_expr(alloc, catalog, &arm.1, leaves)?;
    }
    Ok(())
}

#[cycle(leaves)]
fn push_outputs(
    alloc: Global,
    catalog: &Catalog,
    outputs: &[Output],
    leaves: &mut Vec<RelName>,
) -> Result<(), Memory>
    ensures { OnOk result (leaves.new.items ≡ leaves.old.items ++ flat_map (output_names catalog.now) outputs.now) }
{
    'outputs: for output in outputs {
        push_expr(alloc, catalog, &output.expr, leaves)?;
    }
    Ok(())
}

#[cycle(leaves)]
fn push_orders(
    alloc: Global,
    catalog: &Catalog,
    orders: &[Order],
    leaves: &mut Vec<RelName>,
) -> Result<(), Memory>
    ensures { OnOk result (leaves.new.items ≡ leaves.old.items ++ flat_map (order_names catalog.now) orders.now) }
{
    'orders: for order in orders {
        push_expr(alloc, catalog, &order.expr, leaves)?;
    }
    Ok(())
}
