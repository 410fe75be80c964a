/// What the grammar takes a token for. The content of names, numbers and texts stands beside it.
#[derive(Clone, Copy, Debug, PartialEq, Eq)]
pub enum Class {
    // reserved words
    All,
    And,
    As,
    Asc,
    Between,
    Case,
    Coalesce,
    Cross,
    Desc,
    Distinct,
    Else,
    End,
    Exists,
    False,
    From,
    Full,
    Group,
    Having,
    In,
    Inner,
    Is,
    Join,
    Lateral,
    Left,
    Limit,
    Natural,
    Not,
    Null,
    Offset,
    On,
    Or,
    Order,
    Outer,
    Right,
    Select,
    Then,
    True,
    Union,
    Using,
    When,
    Where,
    With,
    // names that are words by their place
    By,
    Nulls,
    First,
    Last,
    Unknown,
    /// Any other name. A quoted name is always one.
    Name,
    Number,
    Text,
    // symbols
    /// `<>` or `!=`
    Ne,
    /// `<=`
    Le,
    /// `>=`
    Ge,
    /// `||`
    Bars,
    /// `(`
    Open,
    /// `)`
    Close,
    /// `,`
    Comma,
    /// `.`
    Dot,
    /// `;`
    Semicolon,
    /// `+`
    Plus,
    /// `-`
    Minus,
    /// `*`
    Star,
    /// `=`
    Eq,
    /// `<`
    Lt,
    /// `>`
    Gt,
    /// No token of the grammar, or none at all.
    Nothing,
}
