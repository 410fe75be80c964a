ghost use Rattle.std.specs.Prelude.{◌≡◌, ℕ, ◌<◌, List, Some, None};
ghost use Rattle.jp_base.specs.Sets.{Has};
ghost use Rattle.jp_base.specs.declared.values.Value.TheVariants as value;
ghost use Rattle.jp_query.specs.declared.Expr.{Expr};
ghost use Rattle.jp_query.specs.declared.Expr.TheVariants as expr;
ghost use Rattle.jp_query.specs.Meaning.{Row, Env, value_of};

/// A law: a placeholder is NULL where none of its relations is present.
pub fn placeholder_is_null_where_absent()
    ensures { (tables : ℕ → List Row) (inner : Expr) (rels : ℕ) (env : Env) → ((i : ℕ) → Has rels i → env i ≡ None) → value_of tables (expr.Place inner rels) env ≡ value.Null }
{}

/// A law: a placeholder has the value of its expression where one of its relations is present.
pub fn placeholder_has_its_value_where_present()
    ensures { (tables : ℕ → List Row) (inner : Expr) (rels : ℕ) (env : Env) (i : ℕ) (row : Row) → i < 64 → Has rels i → env i ≡ Some row → value_of tables (expr.Place inner rels) env ≡ value_of tables inner env }
{}
