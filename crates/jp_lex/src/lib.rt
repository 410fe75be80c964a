//! Cuts the source of a statement into tokens.
#![tactic(auto)]

ghost use Rattle.std.specs.Prelude.{◌≡◌, ◌⊎◌, ◌≤◌, List, length, Ok, Err, IfOk, IfErr, MatchResult};
ghost use Rattle.jp_lex.specs.Answer.{answer};
ghost use Rattle.jp_lex.specs.Cutting.{Bytes, Lexeme, lexemes, Cut, Refusal, Tokens, Refused, AreSlices, Ascend};
ghost use Rattle.jp_lex.specs.declared.token.LexError.{LexError as Reason};

mod chars;
mod cut;
mod scan;
mod token;

use cut::cut;
use std::alloc::Global;
use std::str;
pub use token::{LexError, Token, TokenKind};

/// Cuts the source of a statement into its tokens, or says where the cutting fails first. Comments and white
/// space between tokens leave nothing. A source that isn't UTF-8 is refused at its first invalid byte, before any
/// token is read.
///
/// Words and quoted identifiers are no names yet: a word is to be folded to lower case, and of a doubled quote one
/// counts. `LexError::Memory` says that memory was refused, and nothing of the source.
///
/// The rules are those of PostgreSQL's scan.l, cut down: no signs, fractions, escapes, parameters or dollar quotes,
/// one set of symbols, and names of more than 63 bytes are refused in place of being cut.
pub fn tokens(alloc: Global, src: &[u8]) -> Result<Vec<Token<'_>>, LexError>
    requires { length src.now ≤ 65536 }
    ensures tokens { IfOk result (λ v. Tokens src.now (lexemes v.items)) }
    ensures refused { IfErr result (λ e. (e ≡ LexError.Memory) ⊎ Refused src.now e) }

    // So there is no other answer but for want of memory.
    ensures only_tokens { (ts : List Lexeme) → Tokens src.now ts →
        MatchResult result (λ v. lexemes v.items ≡ ts) (λ e. e ≡ LexError.Memory) }
    ensures only_refusal { (e : Reason) → Refused src.now e →
        MatchResult result (λ v. ⊥) (λ f. (f ≡ LexError.Memory) ⊎ (f ≡ e)) }

    ensures slices { IfOk result (λ v. AreSlices src.now (lexemes v.items)) }
    ensures ascending { IfOk result (λ v. Ascend (lexemes v.items)) }
{
    match str::from_utf8(src) {
        Ok(text) => cut(alloc, text),
        Err(error) => Err(LexError::BadByte(error.valid_up_to() as u32)),
    }
}

/// A law: each source is cut or refused at a place, in one way alone.
pub fn one_cutting()
    ensures some { (src : Bytes) → ((ts : List Lexeme) × Cut 0 src ts) ⊎ ((e : Reason) × Refusal 0 src e) }
    ensures tokens { (src : Bytes) (ts us : List Lexeme) → Tokens src ts → Tokens src us → ts ≡ us }
    ensures refusal { (src : Bytes) (e f : Reason) → Refused src e → Refused src f → e ≡ f }
    ensures apart { (src : Bytes) (ts : List Lexeme) (e : Reason) → Tokens src ts → Refused src e → ⊥ }
{}

/// A law: `answer` is the cutting as a function. It gives each source its tokens or its refusal, and no other.
pub fn each_source_is_cut_as_answered()
    ensures answer { (src : Bytes) → MatchResult (answer src) (Tokens src) (Refused src) }
    ensures tokens { (src : Bytes) (ts : List Lexeme) → Tokens src ts → answer src ≡ Ok ts }
    ensures refusal { (src : Bytes) (e : Reason) → Refused src e → answer src ≡ Err e }
{}
