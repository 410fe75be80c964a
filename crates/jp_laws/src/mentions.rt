ghost use Rattle.std.specs.Prelude.{◌≡◌, ◌↔◌, ℕ, Contains, true};
ghost use Rattle.jp_query.specs.declared.Query.{Query};
ghost use Rattle.jp_query.specs.Conditions.{are_distinct};
ghost use Rattle.jp_query.specs.Mentions.{tables_mentioned};
ghost use Rattle.jp_query.specs.Parts.{tables_in};

/// A law: the tables that a query mentions are those of its base leaves, at every depth and in sublinks, each once.
pub fn mentioned_tables_are_those_of_the_leaves()
    ensures same { (query : Query) (table : ℕ) → Contains (tables_mentioned query) table ↔ Contains (tables_in query) table }
    ensures once { (query : Query) → are_distinct (tables_mentioned query) ≡ true }
{}
