ghost use Rattle.std.specs.Prelude.{◌≡◌, ℕ, ◌<◌, List, map, filter, length, Contains, Some, slice_get};
ghost use Rattle.std.specs.List.{flat_map};
ghost use Rattle.jp_query.specs.declared.Expr.{Expr};
ghost use Rattle.jp_query.specs.declared.JoinKind.TheVariants as join;
ghost use Rattle.jp_query.specs.Meaning.{holds, with_rows, without, join_tuples};
ghost use Rattle.jp_problem.specs.Blocks.{rels_at};
ghost use Rattle.jp_frame.specs.Frames.{Left, Semi, Anti};
ghost use Rattle.jp_frame.specs.Maps.{Map, both, NoneOn};
ghost use Rattle.jp_frame.specs.Methods.{one_row, rows_of_item, matches, joined_rows};
ghost use Rattle.jp_framed.specs.Environments.{Setting, value_by, source_at, row_at, env_of, LiesOn, HasNoOwnRows};
ghost use Rattle.jp_framed.specs.Framing.{AreApart, list_holds};

/// A law: the environment of two maps on different items is that of the first, with the second one's rows for its items. A
/// map that is none on some items leaves their relations absent. The map of one row has the row's relations, where the
/// outer environment gives the items' relations no rows.
pub fn environments_follow_their_maps()
    ensures both { (rels : List ℕ) (setting : Setting) (right : ℕ) (a : Map) (b : Map) → AreApart rels → NoneOn right a → LiesOn right b →
        env_of rels setting (both a b) ≡ with_rows (rels_at rels right) (env_of rels setting a) (env_of rels setting b) }
    ensures alone { (rels : List ℕ) (setting : Setting) (right : ℕ) (a : Map) → AreApart rels → NoneOn right a → env_of rels setting a ≡ without (rels_at rels right) (env_of rels setting a) }
    ensures one { (rels : List ℕ) (setting : Setting) (items : ℕ) (i : ℕ) (set : ℕ) (r : ℕ) → AreApart rels → i < items → slice_get rels i ≡ Some set → HasNoOwnRows rels setting.outer →
        env_of rels setting (one_row items i r) ≡ with_rows set setting.outer (row_at (source_at setting.sources i) (Some r)) }
{}

/// A law: the maps of an item's rows stand for its rows, in their order, and the lists of filtered and joined maps are those
/// of the filtered and joined tuples that the maps stand for. The left maps are none on the right items, and the right maps
/// have rows of these alone. `l` is whatever relations the left tuples have.
pub fn joins_of_maps_are_joins_of_tuples()
    ensures scanned { (rels : List ℕ) (setting : Setting) (items : ℕ) (i : ℕ) (set : ℕ) → AreApart rels → i < items → slice_get rels i ≡ Some set → HasNoOwnRows rels setting.outer →
        map (env_of rels setting) (rows_of_item items i 0 (length (source_at setting.sources i))) ≡ map (with_rows set setting.outer) (source_at setting.sources i) }
    ensures filtered { (rels : List ℕ) (setting : Setting) (conds : List Expr) (maps : List Map) →
        map (env_of rels setting) (filter (list_holds rels setting conds) maps) ≡ filter (holds (map (value_by setting.sublinks) conds)) (map (env_of rels setting) maps) }
    ensures inner { (rels : List ℕ) (setting : Setting) (conds : List Expr) (l : ℕ) (right : ℕ) (on_left : List Map) (on_right : List Map) → AreApart rels →
        ((a : Map) → Contains on_left a → NoneOn right a) → ((b : Map) → Contains on_right b → LiesOn right b) →
        map (env_of rels setting) (flat_map (matches (list_holds rels setting conds) on_right) on_left) ≡ join_tuples join.Inner (map (value_by setting.sublinks) conds) l (map (env_of rels setting) on_left) (rels_at rels right) (map (env_of rels setting) on_right) }
    ensures left { (rels : List ℕ) (setting : Setting) (conds : List Expr) (l : ℕ) (right : ℕ) (on_left : List Map) (on_right : List Map) → AreApart rels →
        ((a : Map) → Contains on_left a → NoneOn right a) → ((b : Map) → Contains on_right b → LiesOn right b) →
        map (env_of rels setting) (flat_map (joined_rows Left (list_holds rels setting conds) on_right) on_left) ≡ join_tuples join.Left (map (value_by setting.sublinks) conds) l (map (env_of rels setting) on_left) (rels_at rels right) (map (env_of rels setting) on_right) }
    ensures semi { (rels : List ℕ) (setting : Setting) (conds : List Expr) (l : ℕ) (right : ℕ) (on_left : List Map) (on_right : List Map) → AreApart rels →
        ((a : Map) → Contains on_left a → NoneOn right a) → ((b : Map) → Contains on_right b → LiesOn right b) →
        map (env_of rels setting) (flat_map (joined_rows Semi (list_holds rels setting conds) on_right) on_left) ≡ join_tuples join.Semi (map (value_by setting.sublinks) conds) l (map (env_of rels setting) on_left) (rels_at rels right) (map (env_of rels setting) on_right) }
    ensures anti { (rels : List ℕ) (setting : Setting) (conds : List Expr) (l : ℕ) (right : ℕ) (on_left : List Map) (on_right : List Map) → AreApart rels →
        ((a : Map) → Contains on_left a → NoneOn right a) → ((b : Map) → Contains on_right b → LiesOn right b) →
        map (env_of rels setting) (flat_map (joined_rows Anti (list_holds rels setting conds) on_right) on_left) ≡ join_tuples join.Anti (map (value_by setting.sublinks) conds) l (map (env_of rels setting) on_left) (rels_at rels right) (map (env_of rels setting) on_right) }
{}
