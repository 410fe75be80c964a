ghost use Rattle.std.specs.Prelude.{◌≡◌, ◌<◌, length};
ghost use Rattle.jp_problem.specs.Made.{IsSearchable};

use jp_base::{ItemNo, Memory};
use jp_problem::{Method, Problem};
use jp_search::{Steps, best};
use jp_tree::{PlanId, PlanNode, Pool};
use std::alloc::Global;
use std::marker::Brand;
use std::sync::ledger::{Blank, Ledger};

/// The plan of a problem: an item by its number, a step by its two sides in parentheses, with its method between them where
/// it isn't Nest.
pub fn shape_of(alloc: Global, problem: &Problem) -> Result<String, Memory>
    requires { IsSearchable problem.now }
{
    counted_shape::<Brand>(alloc, problem, Blank::new(1))
}

fn counted_shape<L: Ledger>(
    alloc: Global,
    problem: &Problem,
    blank: Blank,
) -> Result<String, Memory>
    requires searchable { IsSearchable problem.now }
    requires name { blank.name ≡ L.name }
    requires parts { blank.parts ≡ L.parts }
    requires one { 0 < blank.parts }
{
    let mut pool = Pool::new(alloc);
    let mut steps = Steps::<L>::new(blank);
    let id = best(alloc, problem, &mut pool, &mut steps)?;
    let mut text = String::new(alloc);
    write_shape(&pool, id, &mut text)?;
    Ok(text)
}

fn write_shape(pool: &Pool, id: PlanId, text: &mut String) -> Result<(), Memory>
    requires { id < length pool.now.nodes }
{
    match pool.node(id) {
        PlanNode::Scan(item) => write_item(item, text),
        PlanNode::Join {
            method,
            left,
            right,
            ..
        } => {
            text.push_str("(")?;
            write_shape(pool, left, text)?;
            text.push_str(word_of(method))?;
            write_shape(pool, right, text)?;
            text.push_str(")")?;
            Ok(())
        }
    }
}

fn word_of(method: Method) -> &'static str {
    match method {
        Method::Nest => " ",
        Method::Hash => " hash ",
        Method::HashRight => " hash right ",
        Method::Merge => " merge ",
    }
}

fn write_item(item: ItemNo, text: &mut String) -> Result<(), Memory> {
    text.push_str(match item {
        0 => "0",
        1 => "1",
        2 => "2",
        _ => "more",
    })?;
    Ok(())
}
