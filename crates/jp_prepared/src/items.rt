ghost use Rattle.std.specs.Prelude.{ℕ, List, Option};
ghost use Rattle.std.specs.List.{AllZip};
ghost use Rattle.jp_catalog.specs.declared.types.Catalog.{Catalog};
ghost use Rattle.jp_query.specs.declared.Query.{Query};
ghost use Rattle.jp_problem.specs.declared.types.Item.{Item};
ghost use Rattle.jp_problem.specs.Problems.{AreItemsOf};
ghost use Rattle.jp_tree.specs.declared.pool.PlanNode.{PlanNode};
ghost use Rattle.jp_tree.specs.declared.prepared.Block.{Block};
ghost use Rattle.jp_prepared.specs.Planned.{IsItem};
ghost use Rattle.jp_prepared.specs.Sources.{Source, items_of_block};

/// A law: the items of a block have the relations of its tree.
pub fn items_have_the_relations()
    ensures { (catalog : Catalog) (sources : List Source) (block_at : ℕ → Option Block) (nodes : List PlanNode) (number : ℕ) (query : Query) (items : List Item) →
        AllZip (IsItem catalog sources block_at nodes number) (items_of_block query) items → AreItemsOf query items }
{}
