ghost use Rattle.std.specs.Prelude.{◌≡◌, ℕ, List, Result};
ghost use Rattle.jp_ast.specs.declared.tree.Stmt.{Stmt as Statement};
ghost use Rattle.jp_ast.specs.declared.errors.ParseError.{ParseError as Refusal};
ghost use Rattle.jp_lex.specs.declared.token.TokenKind.{TokenKind as Kind};
ghost use Rattle.jp_lex.specs.Cutting.{Form};
ghost use Rattle.jp_ast.specs.Seen.{Seen, content_of, folded};
ghost use Rattle.jp_ast.specs.Grammar.{Derives};
ghost use Rattle.jp_ast.specs.Place.{Stuck};
ghost use Rattle.jp_ast.specs.Answer.{ReadAs, ParsedAs, Says};
ghost use Rattle.jp_parse.specs.Readers.{parsed};
ghost use Rattle.jp_parse.specs.Verdict.{answer};

/// A law: the reader of tokens answers the statement that they derive, or the place where they stop being the
/// beginning of one. Each list derives at most one statement and stops at one place. So the answer to tokens is also
/// a function of them, which is never want of memory.
pub fn each_list_is_read_as_it_derives()
    ensures read { (ts : List Seen) → ReadAs ts (parsed ts) }
    ensures answered { (ts : List Seen) → ParsedAs ts (answer ts) × Says (answer ts) }
    ensures one { (ts : List Seen) (s t : Statement) → Derives ts s → Derives ts t → s ≡ t }
    ensures place { (ts : List Seen) (n m : ℕ) → Stuck ts n → Stuck ts m → n ≡ m }
{}

/// A law: but for want of memory each list of tokens has one answer.
pub fn each_list_has_one_answer()
    ensures { (ts : List Seen) (r q : Result Statement Refusal) → ParsedAs ts r → ParsedAs ts q → Says r → Says q → r ≡ q }
{}

/// A law: the grammar sees of each token the content that its form says, a word in lower case.
pub fn content_is_that_of_the_form()
    ensures { (kind : Kind) (text content : List ℕ) → Form kind text content → content_of kind text ≡ folded kind content }
{}
