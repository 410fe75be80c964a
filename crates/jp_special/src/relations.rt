ghost use Rattle.std.specs.Prelude.{◌≡◌, ◌<◌, ◌≤◌, length};
ghost use Rattle.jp_query.specs.Meaning.{has};
ghost use Rattle.jp_query.specs.Nullness.{Gone, is_rejecting, rejects};
ghost use Rattle.jp_problem.specs.Blocks.{rels_at};

use jp_base::RelSet;
use jp_problem::sets::{both, nothing, set_if};
use jp_query::Expr;
use jp_strict::rejects_null;

/// The relations of the items of a set.
pub fn rels_at(rels: &[RelSet], set: RelSet) -> RelSet
    requires few { length rels.now ≤ 64 }
    ensures { result ≡ rels_at rels.now set }
{
    let mut found = nothing();
    'items: for (i, rel) in rels.iter().enumerate() {
        found = both(found, set_if(has(set, i), *rel));
    }
    found
}

pub fn has(set: RelSet, i: usize) -> bool
    requires { i < 64 }
    ensures { result ≡ has set i }
{
    set.has(i as u8)
}

/// Whether a condition list isn't true where these relations are absent.
pub fn rejects(on: &[Expr], gone: RelSet) -> bool
    ensures { result ≡ rejects (Gone.relations gone) on.now }
{
    on.iter().any(|e| is_rejecting(e, gone))
}

fn is_rejecting(e: &Expr, gone: RelSet) -> bool
    ensures { result ≡ is_rejecting (Gone.relations gone) e.now }
{
    rejects_null(e, gone)
}
