ghost use Rattle.std.specs.Prelude.{◌≡◌, ◌≤◌, List, length, true};
ghost use Rattle.jp_ast.specs.Seen.{Seen};
ghost use Rattle.jp_ast.specs.SeenTokens.{AllFit};
ghost use Rattle.jp_ast.specs.Grammar.{Derives};
ghost use Rattle.jp_statements.specs.Layers.{Stmt};
ghost use Rattle.jp_statements.specs.Whole.{is_whole};
ghost use Rattle.jp_statements.specs.Entries.{entries_in_statement};
ghost use Rattle.jp_statements.specs.Sources.{IsOfSource};

/// A law: a statement that tokens derive is whole where their numbers fit, and has no more entries of FROM than there
/// are tokens.
pub fn each_derived_statement_is_whole()
    ensures whole { (ts : List Seen) (s : Stmt) → AllFit ts → Derives ts s → is_whole s ≡ true }
    ensures few { (ts : List Seen) (s : Stmt) → Derives ts s → entries_in_statement s ≤ length ts }
{}

/// A law: a statement of a source of at most 65,536 bytes is whole, and has at most as many entries of FROM.
pub fn each_statement_of_a_source_is_whole()
    ensures whole { (s : Stmt) → IsOfSource s → is_whole s ≡ true }
    ensures few { (s : Stmt) → IsOfSource s → entries_in_statement s ≤ 65536 }
{}
