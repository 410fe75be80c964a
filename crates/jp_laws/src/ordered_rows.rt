ghost use Rattle.std.specs.Prelude.{ℕ, List, map};
ghost use Rattle.jp_query.specs.declared.Query.{Query, out-Query};
ghost use Rattle.jp_query.specs.InOrder.{IsInOrder, StandFor, lines_of, directions_of};
ghost use Rattle.jp_query.specs.Meaning.{Env, meaning};
ghost use Rattle.jp_query.specs.Ordering.{Row, Line, outputs_of, sorted};

/// A law: the rows of a query are in the order of its ORDER BY, under DISTINCT too. So are the outputs of any lines that
/// stand for its rows, once these are sorted.
pub fn rows_are_in_order()
    ensures meaning { (tables : ℕ → List Row) (query : Query) (env : Env) → IsInOrder tables query env (meaning tables query env) }
    ensures sorted { (tables : ℕ → List Row) (query : Query) (env : Env) (lines : List Line) →
        StandFor (out-Query query).distinct (lines_of tables query env) lines →
        IsInOrder tables query env (map outputs_of (sorted (directions_of query) lines)) }
{}
