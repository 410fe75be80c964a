#![tactic(auto, using(crate::proofs::SublinkLaws::sublink_equations))]

ghost use Rattle.std.specs.Prelude.{◌≡◌, ◌<◌, ◌++◌, [], false, IfOk, OnOk, length, string_bytes, if◌then◌else◌};
ghost use Rattle.jp_tree.specs.Prepared.{IsWhole};
ghost use Rattle.jp_explain.specs.Plans.{blocks_of_sublink, explain_text, is_of_sublink, sublink_text, sublinks_from};

use crate::pieces::{push, push_number};
use crate::plans::push_block;
use jp_base::{Memory, SubNo};
use jp_tree::Prepared;
use std::alloc::Global;

/// A planned statement as text: the plan of the statement, and behind it that of each sublink that stays. A plan's line has
/// the method and the kind of a step, or an item's name, with the rows and the cost that it is estimated at; below it stand
/// its conditions, and two spaces deeper its parts. Memory is the only error.
pub fn explain_text(alloc: Global, prepared: &Prepared, verbose: bool) -> Result<String, Memory>
    requires whole { IsWhole prepared.now }
    requires plain { verbose ≡ false }
    ensures { IfOk result (λ text. string_bytes text ≡ explain_text prepared.now) }
{
    let mut text = String::new(alloc);
    push_block(alloc, prepared, 0, "", &mut text)?;
    push_sublinks(alloc, prepared, &mut text)?;
    Ok(text)
}

/// Puts the blocks of the sublinks at the end, by ascending number.
fn push_sublinks(alloc: Global, prepared: &Prepared, text: &mut String) -> Result<(), Memory>
    requires { IsWhole prepared.now }
    ensures { OnOk result (string_bytes text.new ≡ string_bytes text.old ++ sublinks_from prepared.now 0 256) }
{
    'subs: for sub in 0..256 {
        push_sublink(alloc, prepared, sub, text)?;
    }
    Ok(())
}

/// Puts the blocks of a sublink at the end.
fn push_sublink(
    alloc: Global,
    prepared: &Prepared,
    sub: u16,
    text: &mut String,
) -> Result<(), Memory>
    requires { IsWhole prepared.now }
    ensures { OnOk result (string_bytes text.new ≡ string_bytes text.old ++ blocks_of_sublink prepared.now sub 0 prepared.now.blocks) }
{
    'each: for (number, block) in prepared.blocks.as_slice().iter().enumerate() {
        push_if_named(alloc, prepared, sub, number, block.sub, text)?;
    }
    Ok(())
}

/// Puts a block at the end if it is that of the sublink.
fn push_if_named(
    alloc: Global,
    prepared: &Prepared,
    sub: u16,
    number: usize,
    named: Option<SubNo>,
    text: &mut String,
) -> Result<(), Memory>
    requires whole { IsWhole prepared.now }
    requires there { number < length prepared.now.blocks }
    ensures { OnOk result (string_bytes text.new ≡ string_bytes text.old ++ (if is_of_sublink sub named then sublink_text prepared.now sub number else [])) }
{
    if !is_of_sublink(sub, named) {
        return Ok(());
    }
    push("#", text)?;
    push_number(u128::from(sub), text)?;
    push(":\n", text)?;
    push_block(alloc, prepared, number, "  ", text)?;
    Ok(())
}

fn is_of_sublink(sub: u16, named: Option<SubNo>) -> bool
    ensures { result ≡ is_of_sublink sub named }
{
    match named {
        Some(number) => u16::from(number) == sub,
        None => false,
    }
}
