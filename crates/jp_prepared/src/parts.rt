ghost use Rattle.std.specs.Prelude.{◌≡◌, ◌≤◌, ◌+◌, ℕ, List, [], Contains, Some, slice_get, sum_by};
ghost use Rattle.jp_catalog.specs.declared.types.Catalog.{Catalog};
ghost use Rattle.jp_catalog.specs.declared.types.TableDef.{TableDef};
ghost use Rattle.jp_query.specs.declared.JoinTree.{JoinTree, out-JoinTree};
ghost use Rattle.jp_query.specs.declared.Query.{Query};
ghost use Rattle.jp_query.specs.declared.Expr.TheOpen.{JoinTree-F};
ghost use Rattle.jp_query.specs.Conditions.{IsBounded, IsTyped};
ghost use Rattle.jp_resolution.specs.Schemas.{schema_of};
ghost use Rattle.jp_folding.specs.Folding.{folded};
ghost use Rattle.jp_problem.specs.InnerBlocks.{IsBlockOf};
ghost use Rattle.jp_problem.specs.Made.{IsBlock};
ghost use Rattle.jp_prepared.specs.Nests.{nest};
ghost use Rattle.jp_prepared.specs.Sources.{AreSources, IsSourceAt, Source, items_of_block, queries_of_items};

use jp_folded::folding_keeps_typed_queries;

/// A law: each base leaf of a block of a statement names a table of the catalogue.
pub fn tables_of_items_are_there()
    ensures { (catalog : Catalog) (query : Query) (sources : List Source) (number : ℕ) (source : Source) (leaf : JoinTree) (rel : ℕ) (name : List ℕ) (table : ℕ) →
        IsTyped (schema_of catalog) [] query → IsBounded (schema_of catalog) [] query → AreSources (folded query) sources → IsSourceAt sources number source →
        Contains (items_of_block source.query) leaf → out-JoinTree leaf ≡ JoinTree-F.Base rel name table →
        (entry : List ℕ × TableDef) × (slice_get catalog.tables table ≡ Some entry) }
{
    folding_keeps_typed_queries();
}

/// A law: the blocks of a block are blocks.
pub fn blocks_of_a_block_are_blocks()
    ensures { (query : Query) (block : Query) → IsBlock query → IsBlockOf query block → IsBlock block }
{}

/// A law: a block makes itself and what the blocks of its items make, at most 192 in all without those of sublinks. Leaves
/// that stand in no sublink have numbers of their own below 64, and there are at most three blocks for each.
pub fn a_block_makes_few_blocks()
    ensures is { (query : Query) → nest query ≡ 1 + sum_by nest (queries_of_items query) }
    ensures few { (query : Query) → IsBlock query → nest query ≤ 192 }
{}
