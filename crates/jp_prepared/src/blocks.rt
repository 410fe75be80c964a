ghost use Rattle.std.specs.Prelude.{ℕ, List, [], Option};
ghost use Rattle.std.specs.List.{AllZip};
ghost use Rattle.jp_catalog.specs.Sound.{IsSound};
ghost use Rattle.jp_catalog.specs.declared.types.Catalog.{Catalog};
ghost use Rattle.jp_query.specs.declared.Query.{Query};
ghost use Rattle.jp_query.specs.Conditions.{IsBounded, IsTyped};
ghost use Rattle.jp_resolution.specs.Schemas.{schema_of};
ghost use Rattle.jp_folding.specs.Folding.{folded};
ghost use Rattle.jp_problem.specs.declared.types.Item.{Item};
ghost use Rattle.jp_tree.specs.declared.pool.PlanNode.{PlanNode};
ghost use Rattle.jp_tree.specs.declared.prepared.Block.{Block};
ghost use Rattle.jp_prepared.specs.Planned.{IsItem};
ghost use Rattle.jp_prepared.specs.Searched.{AreMadeBehind, CanBeSearched};
ghost use Rattle.jp_prepared.specs.Sources.{AreSources, IsSourceAt, Source, items_of_block};

use jp_folded::folding_keeps_typed_queries;

/// A law: where the blocks behind a block are made, the problem of that block with its items is one that the search takes.
pub fn blocks_can_be_searched()
    ensures { (catalog : Catalog) (query : Query) (sources : List Source) (block_at : ℕ → Option Block) (nodes : List PlanNode) (number : ℕ) (source : Source) (items : List Item) →
        IsSound catalog → IsTyped (schema_of catalog) [] query → IsBounded (schema_of catalog) [] query → AreSources (folded query) sources →
        AreMadeBehind catalog sources block_at nodes number → IsSourceAt sources number source →
        AllZip (IsItem catalog sources block_at nodes number) (items_of_block source.query) items → CanBeSearched source.query items }
{
    folding_keeps_typed_queries();
}
