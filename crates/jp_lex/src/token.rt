/// What a token is, by its first byte.
#[derive(Clone, Copy, Debug, PartialEq, Eq)]
pub enum TokenKind {
    /// A name or a reserved word that isn't quoted.
    Word,
    /// An identifier in double quotes.
    Quoted,
    /// A whole number, without a sign.
    Number,
    /// A text in single quotes.
    Text,
    /// An operator or a mark, as `<=` or `,`.
    Symbol,
}

/// A token of a source.
#[derive(Clone, Copy, Debug)]
pub struct Token<'a> {
    pub kind: TokenKind,
    /// The token's slice of the source, quotes included.
    pub text: &'a str,
    /// The place of its first byte in the source.
    pub at: u32,
}

/// Why a source has no tokens; the number is a byte place.
#[derive(Clone, Copy, Debug, PartialEq, Eq)]
pub enum LexError {
    /// A byte that no token begins with, the first quote of an empty quoted identifier, a letter or `_` directly after a number, or the first byte that isn't UTF-8.
    BadByte(u32),
    /// A text without its closing quote.
    OpenString(u32),
    /// A quoted identifier without its closing quote.
    OpenIdent(u32),
    /// A comment `/*` without its `*/`.
    OpenComment(u32),
    /// A word or quoted identifier whose name has more than 63 bytes.
    NameTooLong(u32),
    /// A number above 2^127-1.
    NumberTooWide(u32),
    /// Memory was refused.
    Memory,
}
