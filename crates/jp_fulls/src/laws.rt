ghost use Rattle.std.specs.Prelude.{◌≡◌, ℕ, List, [], ◌∷◌, All, Contains, map};
ghost use Rattle.jp_query.specs.declared.Expr.{Expr};
ghost use Rattle.jp_query.specs.declared.JoinKind.TheVariants as join;
ghost use Rattle.jp_query.specs.Meaning.{Env, join_tuples};
ghost use Rattle.jp_query.specs.Refs.{union};
ghost use Rattle.jp_problem.specs.declared.types.Item.{Item};
ghost use Rattle.jp_problem.specs.declared.types.ItemKind.TheVariants as kind;
ghost use Rattle.jp_tree.specs.declared.prepared.Block.{Block};
ghost use Rattle.jp_framed.specs.Environments.{env_from};
ghost use Rattle.jp_lists.specs.Lists.{kind_source, listed_value, only_rows};
ghost use Rattle.jp_lists.specs.Steps.{tree_list};
ghost use Rattle.jp_tree.specs.PlanTrees.{tree_at};
ghost use Rattle.jp_items.specs.Scenes.{IsScene, listing_in, run_of, tables_in};
ghost use Rattle.jp_items.specs.Sights.{env_around, sources_in};
ghost use Rattle.jp_items.specs.declared.scene.Scene.{Scene};
ghost use Rattle.jp_fulls.specs.Fulls.{HasNoRowsBeside, IsAround, IsFullScene, alone_maps, full_envs, matched_maps};
ghost use Rattle.jp_fulls.specs.Sides.{IsSceneOfSides, side_rels};

/// A law: the tuples that `full_tuples` gives stand, as `full_rows` shows them, for the Full join of what the rows of the
/// sides stand for.
pub fn full_rows_are_those_of_a_full_join()
    ensures { (scene : Scene) (on : List Expr) (left_rels : ℕ) (right_rels : ℕ) (lefts : List Env) (rights : List Env) →
        IsFullScene scene on → scene.sight.layout.now ≡ right_rels ∷ left_rels ∷ [] → sources_in scene.sight ≡ map (only_rows right_rels) rights ∷ map (only_rows left_rels) lefts ∷ [] →
        All (IsAround (env_around scene.sight.around) left_rels) lefts → All (IsAround (env_around scene.sight.around) right_rels) rights →
        full_envs left_rels (env_from 0 scene.sight.layout.now (sources_in scene.sight) (env_around scene.sight.around)) (matched_maps scene on) (alone_maps scene on)
        ≡ join_tuples join.Full (map (listed_value scene.prepared.now.blocks (listing_in scene)) on) left_rels lefts right_rels rights }
{}

/// A law: the maps of a block's plan stand in its scene for the tuples that the block lists, over the relations of the block.
/// So `side_rows` makes of them what a side of a Full item is.
pub fn a_side_has_the_tuples_that_its_block_lists()
    ensures tuples { (scene : Scene) (block : Block) (is : IsScene scene block) →
        map (env_from 0 scene.sight.layout.now (sources_in scene.sight) (env_around scene.sight.around)) (tree_list (run_of scene) block.problem (tree_at scene.prepared.now.pool.nodes block.plan))
        ≡ (listing_in scene is.number is.outer).tuples }
    ensures relations { (scene : Scene) (block : Block) (is : IsScene scene block) → union scene.sight.layout.now ≡ side_rels scene is.number }
{}

/// A law: the scene of a Full item's sides is one in which `full_tuples` can be run with the item's ON list. The tuples that
/// it then gives stand, as `full_rows` shows them, for the rows of the item, and no relation of the item has a row around it.
pub fn the_sides_of_a_full_item_can_be_joined()
    ensures test { (scene : Scene) (block : Block) (item : Item) (left : ℕ) (right : ℕ) (on : List Expr) →
        IsSceneOfSides scene block left right → Contains block.problem.items item → item.kind ≡ kind.Full left right on → IsFullScene scene on }
    ensures rows { (scene : Scene) (block : Block) (item : Item) (left : ℕ) (right : ℕ) (on : List Expr) →
        IsSceneOfSides scene block left right → Contains block.problem.items item → item.kind ≡ kind.Full left right on →
        full_envs (side_rels scene left) (env_from 0 scene.sight.layout.now (sources_in scene.sight) (env_around scene.sight.around)) (matched_maps scene on) (alone_maps scene on)
        ≡ kind_source scene.prepared.now.blocks (tables_in scene) (listing_in scene) (env_around scene.sight.around) item.kind }
    ensures beside { (scene : Scene) (block : Block) (item : Item) (left : ℕ) (right : ℕ) →
        IsSceneOfSides scene block left right → Contains block.problem.items item → HasNoRowsBeside (union scene.sight.layout.now) item.rels (env_around scene.sight.around) }
{}
