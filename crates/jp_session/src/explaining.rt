ghost use Rattle.std.specs.Prelude.{◌≡◌, IfOk, false, string_bytes};
ghost use Rattle.jp_explain.specs.Plans.{explain_text};
ghost use Rattle.jp_tree.specs.Prepared.{IsWhole};

use jp_base::Memory;
use jp_explain::explain_text;
use jp_tree::Prepared;
use std::alloc::Global;

/// The plan of a prepared statement as text. Memory is the only error.
pub fn explain_query(alloc: Global, prepared: &Prepared, verbose: bool) -> Result<String, Memory>
    requires whole { IsWhole prepared.now }
    requires plain { verbose ≡ false }
    ensures { IfOk result (λ text. string_bytes text ≡ explain_text prepared.now) }
{
    let text = explain_text(alloc, prepared, verbose)?;
    Ok(text)
}
