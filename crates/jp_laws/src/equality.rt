ghost use Rattle.std.specs.Prelude.{◌≡◌, ◌↔◌, Contains, true};
ghost use Rattle.jp_query.specs.declared.Expr.{Expr};
ghost use Rattle.jp_query.specs.declared.Order.{Order, out-Order};
ghost use Rattle.jp_query.specs.declared.Output.{Output, out-Output};
ghost use Rattle.jp_query.specs.declared.Query.{Query, out-Query};
ghost use Rattle.jp_query.specs.Equality.{same_expr};
ghost use Rattle.jp_query.specs.Freshness.{IsFresh, Sublink};
ghost use Rattle.jp_query.specs.Subexpressions.{expressions_in, sublinks_of};

/// A law: expressions are the same exactly where they are equal, if their sublinks of one number are equal. So it is in a
/// fresh query, for any two expressions in it.
pub fn same_expressions_are_equal()
    ensures itself { (expr : Expr) → same_expr expr expr ≡ true }
    ensures equal { (a : Expr) (b : Expr) → ((s : Sublink) (t : Sublink) → Contains (sublinks_of a) s → Contains (sublinks_of b) t → s.number ≡ t.number → s.node ≡ t.node) → same_expr a b ≡ true → a ≡ b }
    ensures fresh { (query : Query) (a : Expr) (b : Expr) → IsFresh query → Contains (expressions_in query) a → Contains (expressions_in query) b → (same_expr a b ≡ true) ↔ (a ≡ b) }
{}

/// A law: the expressions of a query's outputs, WHERE list and ORDER BY items stand in the query.
pub fn what_a_query_lists_stands_in_it()
    ensures outputs { (query : Query) (output : Output) → Contains (out-Query query).columns output → Contains (expressions_in query) (out-Output output).expr }
    ensures conditions { (query : Query) (cond : Expr) → Contains (out-Query query).conds cond → Contains (expressions_in query) cond }
    ensures order { (query : Query) (order : Order) → Contains (out-Query query).order order → Contains (expressions_in query) (out-Order order).expr }
{}
