ghost use Rattle.std.specs.Prelude.{ℕ, List, map};
ghost use Rattle.jp_query.specs.declared.Query.{Query};
ghost use Rattle.jp_query.specs.Meaning.{Row, Env};
ghost use Rattle.jp_problem.specs.Made.{IsBlock};
ghost use Rattle.jp_problem.specs.Shapes.{block_shape, items_in};
ghost use Rattle.jp_spine.specs.ItemTuples.{HoldItems, tuples_in};

/// A law: the tuples of each item's own tree, around which the same relations have rows as around the block, are rows that
/// hold the items.
pub fn tuples_of_items_hold_them()
    ensures { (tables : ℕ → List Row) (query : Query) (outer : Env) → IsBlock query → HoldItems tables query (map (tuples_in tables outer) (items_in (block_shape query))) outer }
{}
