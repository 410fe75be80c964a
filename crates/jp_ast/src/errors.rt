/// Why tokens are no statement; the number is a byte place in the source.
#[derive(Clone, Copy, Debug, PartialEq, Eq)]
pub enum ParseError {
    /// No statement begins with the tokens up to and with the one at this place, though one begins with those
    /// before it. The end of the last token where more tokens are missing, and 0 where there is no token.
    Syntax(u32),
    /// This `(` or CASE opens more than 64 places. It is told before the grammar is tried.
    TooDeep(u32),
    /// Memory was refused.
    Memory,
}
