#![tactic(auto, using(crate::proofs::NameLaws::names_equations))]

ghost use Rattle.std.specs.Prelude.{◌≡◌, ◌<◌, ◌++◌, IfOk, OnOk, find, slice_get, string_bytes};
ghost use Rattle.std.specs.Option.{option_copied};
ghost use Rattle.jp_tree.specs.Prepared.{is_name_of};
ghost use Rattle.jp_explain.specs.Names.{column_name, is_member, is_still_first, member_text, or_nothing, qualified, relation_name, relation_names};

use crate::pieces::{gap, push};
use jp_base::{Memory, RelNo, RelSet, Txt};
use jp_tree::RelName;

/// Puts the name of a relation at the end.
pub fn push_relation(names: &[RelName], rel: RelNo, text: &mut String) -> Result<(), Memory>
    ensures { OnOk result (string_bytes text.new ≡ string_bytes text.old ++ relation_name names.now rel) }
{
    match name_of(names, rel) {
        Some(name) => {
            push(name.name.as_str(), text)?;
            Ok(())
        }
        None => Ok(()),
    }
}

/// Puts a column at the end, behind its relation's name.
pub fn push_column(names: &[RelName], rel: RelNo, col: u32, text: &mut String) -> Result<(), Memory>
    ensures { OnOk result (string_bytes text.new ≡ string_bytes text.old ++ qualified names.now rel col) }
{
    push_relation(names, rel, text)?;
    push(".", text)?;
    push_column_name(names, rel, col, text)?;
    Ok(())
}

fn push_column_name(
    names: &[RelName],
    rel: RelNo,
    col: u32,
    text: &mut String,
) -> Result<(), Memory>
    ensures { OnOk result (string_bytes text.new ≡ string_bytes text.old ++ column_name names.now rel col) }
{
    match name_of(names, rel) {
        Some(name) => push_of(name.columns.as_slice(), col, text),
        None => Ok(()),
    }
}

fn push_of(columns: &[Txt], col: u32, text: &mut String) -> Result<(), Memory>
    ensures { OnOk result (string_bytes text.new ≡ string_bytes text.old ++ or_nothing (slice_get columns.now col)) }
{
    match columns.get(col as usize) {
        Some(column) => push(column.as_str(), text),
        None => Ok(()),
    }
}

fn name_of(names: &[RelName], rel: RelNo) -> Option<&RelName>
    ensures { option_copied result ≡ find (is_name_of rel) names.now }
{
    names.iter().find(|name| name.rel == rel)
}

/// Puts the names of a set of relations at the end, in ascending order and separated by commas.
pub fn push_relations(names: &[RelName], rels: RelSet, text: &mut String) -> Result<(), Memory>
    ensures { OnOk result (string_bytes text.new ≡ string_bytes text.old ++ relation_names names.now rels) }
{
    let mut first = true;
    'rels: for rel in 0..64 {
        first = push_member(names, rels, rel, first, text)?;
    }
    Ok(())
}

/// Puts the name of a relation at the end if the set has it, and tells whether the next name is still the first one.
fn push_member(
    names: &[RelName],
    rels: RelSet,
    rel: RelNo,
    first: bool,
    text: &mut String,
) -> Result<bool, Memory>
    requires { rel < 64 }
    ensures text { OnOk result (string_bytes text.new ≡ string_bytes text.old ++ member_text names.now rels first rel) }
    ensures first { IfOk result (λ next. next ≡ is_still_first rels first rel) }
{
    if !is_member(rels, rel) {
        return Ok(first);
    }
    push(gap(first, ", "), text)?;
    push_relation(names, rel, text)?;
    Ok(false)
}

fn is_member(set: RelSet, i: RelNo) -> bool
    requires { i < 64 }
    ensures { result ≡ is_member set i }
{
    set.has(i)
}
