ghost use Rattle.std.specs.Prelude.{List, length, ◌≤◌};
ghost use Rattle.jp_query.specs.declared.Query.{Query};
ghost use Rattle.jp_problem.specs.declared.types.Item.{Item};
ghost use Rattle.jp_problem.specs.Made.{IsBlock};
ghost use Rattle.jp_problem.specs.Problems.{AreItemsOf};

/// A law: a block has from 1 to 16 items. Each holds a base table of its own, and a typed query has at most 16 of these.
pub fn a_block_has_few_items()
    ensures some { (query : Query) (items : List Item) → IsBlock query → AreItemsOf query items → 1 ≤ length items }
    ensures few { (query : Query) (items : List Item) → IsBlock query → AreItemsOf query items → length items ≤ 16 }
{}
