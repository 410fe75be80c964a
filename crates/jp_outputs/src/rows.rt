ghost use Rattle.std.specs.Prelude.{◌≡◌, IfOk, map};
ghost use Rattle.jp_items.specs.Scenes.{GivesScene, IsScene, listing_in};
ghost use Rattle.jp_items.specs.Sights.{sight_env};
ghost use Rattle.jp_joins.specs.Lending.{numbers_in_all};
ghost use Rattle.jp_joins.specs.Meant.{GivesRows};
ghost use Rattle.jp_joins.specs.Tuples.{maps_of};
ghost use Rattle.jp_lists.specs.Lists.{listed_line, rows_of_lines};
ghost use Rattle.jp_outputs.specs.Exprs.{lent_exprs};
ghost use Rattle.jp_outputs.specs.Values.{AreEvaluable, line_of};

use crate::exprs::{key_exprs, output_exprs};
use crate::values::{Asked, to_ask, values_at};
use jp_base::{Memory, Row, SubNo};
use jp_items::{Lines, Scene, SceneStep, lent_scene};
use jp_joins::{Tuple, TupleEnv};
use jp_query::JoinKind;
use jp_tree::Block;
use std::alloc::Global;

/// The rows of the block's outputs at the tuples: under DISTINCT the first of each same row, sorted stably by ORDER BY.
pub fn block_rows<'t, S: Fn(Tuple<'t>, SubNo) -> Result<Vec<Row>, Memory>>(
    alloc: Global,
    scene: &Scene<'_>,
    block: &Block,
    subs: &S,
    tuples: &[Tuple<'t>],
) -> Result<Vec<Row>, Memory>
    requires can { S.IsAlwaysCallable subs.now }
    requires gives { GivesScene scene.now (S.post subs.now) }
    requires scene { IsScene scene.now block.now }
    ensures { IfOk result (λ v. v.items ≡ rows_of_lines block.now (map (listed_line scene.now.prepared.now.blocks (listing_in scene.now) block.now) (map (sight_env scene.now.sight) (maps_of tuples.now)))) }
{
    let exprs = output_exprs(alloc, block.columns.as_slice())?;
    let outputs = to_ask(alloc, exprs)?;
    let exprs = key_exprs(alloc, block.order.as_slice())?;
    let keys = to_ask(alloc, exprs)?;
    let step = step_in(scene);
    let lines = lines_at(alloc, &step, subs, &outputs, &keys, tuples)?;
    let rows = lines.arranged(alloc, block.distinct, block.order.as_slice())?;
    Ok(rows)
}

/// A step of the scene that tests nothing.
fn step_in<'e>(scene: &Scene<'e>) -> SceneStep<'e>
    ensures { result.scene ≡ scene.now }
{
    SceneStep {
        scene: lent_scene(scene),
        kind: JoinKind::Inner,
        key: None,
        on: &[],
        filters: &[],
    }
}

/// The lines of the tuples, in their order.
fn lines_at<'t, E: TupleEnv, S: Fn(Tuple<'t>, SubNo) -> Result<Vec<Row>, Memory>>(
    alloc: Global,
    env: &E,
    subs: &S,
    outputs: &Asked<'_>,
    keys: &Asked<'_>,
    tuples: &[Tuple<'t>],
) -> Result<Lines, Memory>
    requires can { S.IsAlwaysCallable subs.now }
    requires gives { GivesRows (E.meant env.now) (S.post subs.now) }
    requires output_numbers { outputs.now.numbers.items ≡ numbers_in_all (lent_exprs outputs.now.exprs.items) }
    requires key_numbers { keys.now.numbers.items ≡ numbers_in_all (lent_exprs keys.now.exprs.items) }
    requires outputs { AreEvaluable (E.meant env.now) (lent_exprs outputs.now.exprs.items) }
    requires keys { AreEvaluable (E.meant env.now) (lent_exprs keys.now.exprs.items) }
    ensures { IfOk result (λ lines. lines ≡ map (line_of (E.meant env.now) (lent_exprs outputs.now.exprs.items) (lent_exprs keys.now.exprs.items)) (maps_of tuples.now)) }
{
    let mut lines = Lines::new(alloc);
    'tuples: for tuple in tuples {
        let row = values_at(alloc, env, subs, outputs, *tuple)?;
        let sorted_by = values_at(alloc, env, subs, keys, *tuple)?;
        lines.push(row, sorted_by)?;
    }
    Ok(lines)
}
