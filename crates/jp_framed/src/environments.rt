ghost use Rattle.std.specs.Prelude.{◌≡◌, ℕ, List, Some, slice_get};
ghost use Rattle.jp_base.specs.Sets.{Has};
ghost use Rattle.jp_frame.specs.Maps.{Map, at};
ghost use Rattle.jp_framed.specs.Environments.{Setting, source_at, row_at, env_of};
ghost use Rattle.jp_framed.specs.Framing.{AreApart};

/// A law: in the environment of a map the relations of an item have the rows of the item's place, and the relations of no
/// item have their outer rows.
pub fn a_map_gives_relations_their_rows()
    ensures own { (rels : List ℕ) (setting : Setting) (m : Map) (i : ℕ) (set : ℕ) (rel : ℕ) → AreApart rels → slice_get rels i ≡ Some set → Has set rel →
        env_of rels setting m rel ≡ row_at (source_at setting.sources i) (at m i) rel }
    ensures others { (rels : List ℕ) (setting : Setting) (m : Map) (rel : ℕ) → ((i : ℕ) (set : ℕ) → slice_get rels i ≡ Some set → ¬ Has set rel) →
        env_of rels setting m rel ≡ setting.outer rel }
{}
