ghost use Rattle.std.specs.Prelude.{◌≡◌, ℕ, List, map, true, false, is_some, All, Contains};
ghost use Rattle.jp_base.specs.Sets.{Has};
ghost use Rattle.jp_base.specs.declared.values.Value.TheVariants as value;
ghost use Rattle.jp_query.specs.declared.Expr.{Expr};
ghost use Rattle.jp_query.specs.Meaning.{Row, Env, cell_in, holds, value_of, value_given, truth_of, truth_given};
ghost use Rattle.jp_query.specs.Nullness.{Gone, surely_of, rejects, nonnull_items, forced_null};
ghost use Rattle.jp_query.specs.Operators.{is_true, is_false};
ghost use Rattle.jp_query.specs.Typing.{IsTypedExpr, are_conditions, type_of};
ghost use Rattle.jp_strict.specs.Absence.{IsGoneIn};
ghost use Rattle.jp_strict.specs.Cells.{HasTypedCells};

/// A law: where relations are absent or a column is NULL, a typed expression is as its tests say, with its sublinks in
/// place and with given rows for them.
pub fn tests_of_nullness_are_sound()
    ensures null { (tables : ℕ → List Row) (gone : Gone) (env : Env) (expr : Expr) → IsGoneIn gone env → IsTypedExpr expr →
        (surely_of gone expr).null ≡ true → value_of tables expr env ≡ value.Null }
    ensures not_true { (tables : ℕ → List Row) (gone : Gone) (env : Env) (expr : Expr) → IsGoneIn gone env → IsTypedExpr expr →
        (surely_of gone expr).not_true ≡ true → is_true (truth_of tables expr env) ≡ false }
    ensures not_false { (tables : ℕ → List Row) (gone : Gone) (env : Env) (expr : Expr) → IsGoneIn gone env → IsTypedExpr expr →
        (surely_of gone expr).not_false ≡ true → is_false (truth_of tables expr env) ≡ false }
    ensures null_given { (rows : ℕ → List Row) (gone : Gone) (env : Env) (expr : Expr) → IsGoneIn gone env → IsTypedExpr expr →
        (surely_of gone expr).null ≡ true → value_given rows expr env ≡ value.Null }
    ensures not_true_given { (rows : ℕ → List Row) (gone : Gone) (env : Env) (expr : Expr) → IsGoneIn gone env → IsTypedExpr expr →
        (surely_of gone expr).not_true ≡ true → is_true (truth_given rows expr env) ≡ false }
    ensures not_false_given { (rows : ℕ → List Row) (gone : Gone) (env : Env) (expr : Expr) → IsGoneIn gone env → IsTypedExpr expr →
        (surely_of gone expr).not_false ≡ true → is_false (truth_given rows expr env) ≡ false }
{}

/// A law: where something is gone, a list of conditions that rejects its nulls doesn't hold.
pub fn a_list_that_rejects_nulls_does_not_hold()
    ensures value { (tables : ℕ → List Row) (gone : Gone) (env : Env) (conds : List Expr) → IsGoneIn gone env → are_conditions (map type_of conds) ≡ true →
        rejects gone conds ≡ true → holds (map (value_of tables) conds) env ≡ false }
    ensures given { (rows : ℕ → List Row) (gone : Gone) (env : Env) (conds : List Expr) → IsGoneIn gone env → are_conditions (map type_of conds) ≡ true →
        rejects gone conds ≡ true → holds (map (value_given rows) conds) env ≡ false }
{}

/// A law: where a list of conditions holds, each relation whose nulls it rejects is present.
pub fn nonnull_items_are_present()
    ensures value { (tables : ℕ → List Row) (env : Env) (conds : List Expr) → are_conditions (map type_of conds) ≡ true →
        holds (map (value_of tables) conds) env ≡ true → (i : ℕ) → Has (nonnull_items conds) i → is_some (env i) ≡ true }
    ensures given { (rows : ℕ → List Row) (env : Env) (conds : List Expr) → are_conditions (map type_of conds) ≡ true →
        holds (map (value_given rows) conds) env ≡ true → (i : ℕ) → Has (nonnull_items conds) i → is_some (env i) ≡ true }
{}

/// A law: where a list of conditions holds, each column that it forces to be NULL is NULL. The columns outside sublinks have
/// cells of their types: a number is neither true nor false, so IS UNKNOWN would be true of it.
pub fn forced_columns_are_null()
    ensures value { (tables : ℕ → List Row) (env : Env) (conds : List Expr) → are_conditions (map type_of conds) ≡ true → All (HasTypedCells env) conds →
        holds (map (value_of tables) conds) env ≡ true → (rel col : ℕ) → Contains (forced_null conds) (rel, col) → cell_in (env rel) col ≡ value.Null }
    ensures given { (rows : ℕ → List Row) (env : Env) (conds : List Expr) → are_conditions (map type_of conds) ≡ true → All (HasTypedCells env) conds →
        holds (map (value_given rows) conds) env ≡ true → (rel col : ℕ) → Contains (forced_null conds) (rel, col) → cell_in (env rel) col ≡ value.Null }
{}
