ghost use Rattle.std.specs.Prelude.{◌≡◌, ℕ, List};
ghost use Rattle.std.specs.List.Sorted.{IsPermutation};
ghost use Rattle.jp_query.specs.declared.Query.{Query, out-Query};
ghost use Rattle.jp_query.specs.InOrder.{IsInOrder, passing_tuples, lines_of, directions_of};
ghost use Rattle.jp_query.specs.Meaning.{Env, meaning};
ghost use Rattle.jp_query.specs.Ordering.{Row, Line};
ghost use Rattle.jp_laws.specs.Bags.{lines_at, rows_from};

/// A law: the bag of a query's rows depends on its lines only as a bag, under DISTINCT too, and the rows made of any order
/// of its lines are in its order.
pub fn a_query_sees_its_lines_as_a_bag()
    ensures rows { (tables : ℕ → List Row) (query : Query) (env : Env) (lines : List Line) → IsPermutation (lines_of tables query env) lines →
        IsPermutation (meaning tables query env) (rows_from query lines) }
    ensures in_order { (tables : ℕ → List Row) (query : Query) (env : Env) (lines : List Line) → IsPermutation (lines_of tables query env) lines →
        IsInOrder tables query env (rows_from query lines) }
{}

/// A law: the same of the tuples of a query's tree that make its conditions hold.
pub fn a_query_sees_its_tuples_as_a_bag()
    ensures rows { (tables : ℕ → List Row) (query : Query) (env : Env) (tuples : List Env) → IsPermutation (passing_tuples tables query env) tuples →
        IsPermutation (meaning tables query env) (rows_from query (lines_at tables query tuples)) }
    ensures in_order { (tables : ℕ → List Row) (query : Query) (env : Env) (tuples : List Env) → IsPermutation (passing_tuples tables query env) tuples →
        IsInOrder tables query env (rows_from query (lines_at tables query tuples)) }
{}

/// A law: two queries whose lines are one bag, both with DISTINCT or both without, have one bag of rows. Where their ORDER
/// BY items go in the same directions, the rows of the second are in the order of the first.
pub fn queries_of_the_same_lines_have_the_same_rows()
    ensures rows { (tables : ℕ → List Row) (query other : Query) (env : Env) → (out-Query other).distinct ≡ (out-Query query).distinct →
        IsPermutation (lines_of tables query env) (lines_of tables other env) →
        IsPermutation (meaning tables query env) (meaning tables other env) }
    ensures in_order { (tables : ℕ → List Row) (query other : Query) (env : Env) → (out-Query other).distinct ≡ (out-Query query).distinct →
        IsPermutation (lines_of tables query env) (lines_of tables other env) → directions_of other ≡ directions_of query →
        IsInOrder tables query env (meaning tables other env) }
{}
