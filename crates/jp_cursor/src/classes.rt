//! What the grammar takes a token for.

ghost use Rattle.std.specs.Prelude.{◌≡◌, map};
ghost use Rattle.std.specs.Str.{bytes_eq};
ghost use Rattle.jp_lex.specs.Chars.{lower};
ghost use Rattle.jp_lex.specs.Cutting.{lexeme};
ghost use Rattle.jp_ast.specs.declared.class.Class.TheVariants as k;
ghost use Rattle.jp_ast.specs.Seen.{seen};
ghost use Rattle.jp_ast.specs.Classes as spec;
ghost use Rattle.jp_ast.specs.Nodes as nodes;
ghost use Rattle.jp_cursor.specs.Reading.{begins_join};

use jp_ast::{Class, CmpWord, IsWord};
use jp_lex::{Token, TokenKind};

/// The reserved words, and the names that are words by their place.
const WORDS: [(&[u8], Class); 47] = [
    (b"all", Class::All),
    (b"and", Class::And),
    (b"as", Class::As),
    (b"asc", Class::Asc),
    (b"between", Class::Between),
    (b"case", Class::Case),
    (b"coalesce", Class::Coalesce),
    (b"cross", Class::Cross),
    (b"desc", Class::Desc),
    (b"distinct", Class::Distinct),
    (b"else", Class::Else),
    (b"end", Class::End),
    (b"exists", Class::Exists),
    (b"false", Class::False),
    (b"from", Class::From),
    (b"full", Class::Full),
    (b"group", Class::Group),
    (b"having", Class::Having),
    (b"in", Class::In),
    (b"inner", Class::Inner),
    (b"is", Class::Is),
    (b"join", Class::Join),
    (b"lateral", Class::Lateral),
    (b"left", Class::Left),
    (b"limit", Class::Limit),
    (b"natural", Class::Natural),
    (b"not", Class::Not),
    (b"null", Class::Null),
    (b"offset", Class::Offset),
    (b"on", Class::On),
    (b"or", Class::Or),
    (b"order", Class::Order),
    (b"outer", Class::Outer),
    (b"right", Class::Right),
    (b"select", Class::Select),
    (b"then", Class::Then),
    (b"true", Class::True),
    (b"union", Class::Union),
    (b"using", Class::Using),
    (b"when", Class::When),
    (b"where", Class::Where),
    (b"with", Class::With),
    (b"by", Class::By),
    (b"nulls", Class::Nulls),
    (b"first", Class::First),
    (b"last", Class::Last),
    (b"unknown", Class::Unknown),
];

const SYMBOLS: [(&[u8], Class); 16] = [
    (b"<>", Class::Ne),
    (b"!=", Class::Ne),
    (b"<=", Class::Le),
    (b">=", Class::Ge),
    (b"||", Class::Bars),
    (b"(", Class::Open),
    (b")", Class::Close),
    (b",", Class::Comma),
    (b".", Class::Dot),
    (b";", Class::Semicolon),
    (b"+", Class::Plus),
    (b"-", Class::Minus),
    (b"*", Class::Star),
    (b"=", Class::Eq),
    (b"<", Class::Lt),
    (b">", Class::Gt),
];

/// The text in lower case is the word.
fn is_folded(mut word: &[u8], mut text: &[u8]) -> bool
    ensures { result ≡ bytes_eq word.entry.now (map lower text.entry.now) }
{
    'bytes: while let ([a, word_rest @ ..], [b, text_rest @ ..]) = (word, text) {
        if *a != b.to_ascii_lowercase() {
            return false;
        }
        word = word_rest;
        text = text_rest;
    }
    word.is_empty() && text.is_empty()
}

fn found_folded(mut table: &[(&[u8], Class)], text: &[u8]) -> Class
    ensures { result ≡ spec.found (map (λ e. (e.0.now, e.1)) table.entry.now) k.Name (map lower text.now) }
{
    'entries: while let [entry, rest @ ..] = table {
        if is_folded(entry.0, text) {
            return entry.1;
        }
        table = rest;
    }
    Class::Name
}

fn found(mut table: &[(&[u8], Class)], text: &[u8]) -> Class
    ensures { result ≡ spec.found (map (λ e. (e.0.now, e.1)) table.entry.now) k.Nothing text.now }
{
    'entries: while let [entry, rest @ ..] = table {
        if entry.0 == text {
            return entry.1;
        }
        table = rest;
    }
    Class::Nothing
}

#[tactic(auto, unfolding(jp_ast::specs::Classes::words))]
fn word_class(text: &[u8]) -> Class
    ensures { result ≡ spec.found spec.words k.Name (map lower text.now) }
{
    found_folded(&WORDS, text)
}

#[tactic(auto, unfolding(jp_ast::specs::Classes::symbols))]
fn symbol_class(text: &[u8]) -> Class
    ensures { result ≡ spec.found spec.symbols k.Nothing text.now }
{
    found(&SYMBOLS, text)
}

#[tactic(auto, unfolding(jp_ast::specs::Classes::class))]
pub fn class_of(token: &Token<'_>) -> Class
    ensures { result ≡ spec.class (seen (lexeme token.now)) }
{
    match token.kind {
        TokenKind::Word => word_class(token.text.as_bytes()),
        TokenKind::Quoted => Class::Name,
        TokenKind::Number => Class::Number,
        TokenKind::Text => Class::Text,
        TokenKind::Symbol => symbol_class(token.text.as_bytes()),
    }
}

#[tactic(auto, unfolding(jp_ast::specs::Classes::same))]
pub fn same(a: Class, b: Class) -> bool
    ensures { result ≡ spec.same a b }
{
    a == b
}

pub fn is_name(class: Class) -> bool
    ensures { result ≡ spec.is_name class }
{
    matches!(
        class,
        Class::Name | Class::By | Class::Nulls | Class::First | Class::Last | Class::Unknown
    )
}

/// `+` or `-`.
pub fn is_sign(class: Class) -> bool
    ensures { result ≡ nodes.is_sign class }
{
    matches!(class, Class::Plus | Class::Minus)
}

pub fn is_minus(class: Class) -> bool
    ensures { result ≡ nodes.is_minus class }
{
    matches!(class, Class::Minus)
}

pub fn is_comparison(class: Class) -> bool
    ensures { result ≡ nodes.is_comparison class }
{
    matches!(
        class,
        Class::Eq | Class::Ne | Class::Lt | Class::Le | Class::Gt | Class::Ge
    )
}

pub fn comparison(class: Class) -> CmpWord
    ensures { result ≡ nodes.comparison class }
{
    match class {
        Class::Ne => CmpWord::Ne,
        Class::Lt => CmpWord::Lt,
        Class::Le => CmpWord::Le,
        Class::Gt => CmpWord::Gt,
        Class::Ge => CmpWord::Ge,
        _ => CmpWord::Eq,
    }
}

/// What may stand behind IS.
pub fn is_test(class: Class) -> bool
    ensures { result ≡ nodes.is_test class }
{
    matches!(
        class,
        Class::Null | Class::True | Class::False | Class::Unknown
    )
}

pub fn test_word(class: Class) -> IsWord
    ensures { result ≡ nodes.test_word class }
{
    match class {
        Class::True => IsWord::True,
        Class::False => IsWord::False,
        Class::Unknown => IsWord::Unknown,
        _ => IsWord::Null,
    }
}

/// What a join begins with.
pub fn begins_join(class: Class) -> bool
    ensures { result ≡ begins_join class }
{
    matches!(
        class,
        Class::Cross | Class::Inner | Class::Left | Class::Right | Class::Full | Class::Join
    )
}
