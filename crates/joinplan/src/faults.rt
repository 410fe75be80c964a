ghost use Rattle.std.specs.Prelude.{◌≡◌};
ghost use Rattle.joinplan.specs.Refusals.{lex_refusal, parse_refusal, resolve_refusal, statement_fault};

use crate::refusal::Refusal;
use jp_ast::ParseError;
use jp_lex::LexError;
use jp_resolution::ResolveError;

/// What is wrong in a statement, where a token, a rule of the grammar or a name says so.
#[derive(Clone, Copy, Debug, PartialEq, Eq)]
pub enum StatementFault {
    BadByte,
    OpenString,
    OpenIdent,
    OpenComment,
    NameTooLong,
    NumberTooWide,
    Syntax,
    UnknownTable,
    UnknownColumn,
    AmbiguousColumn,
    AliasRepeated,
    TypeMismatch,
    NotOneColumn,
    OrderNotSelected,
    BadPosition,
}

/// The words of a line on standard error.
pub fn fault_words(fault: StatementFault) -> &'static str
    ensures { result.now ≡ statement_fault fault }
{
    match fault {
        StatementFault::BadByte => "bad byte",
        StatementFault::OpenString => "open string",
        StatementFault::OpenIdent => "open identifier",
        StatementFault::OpenComment => "open comment",
        StatementFault::NameTooLong => "name too long",
        StatementFault::NumberTooWide => "number too wide",
        StatementFault::Syntax => "syntax",
        StatementFault::UnknownTable => "unknown table",
        StatementFault::UnknownColumn => "unknown column",
        StatementFault::AmbiguousColumn => "ambiguous column",
        StatementFault::AliasRepeated => "alias repeated",
        StatementFault::TypeMismatch => "type mismatch",
        StatementFault::NotOneColumn => "not one column",
        StatementFault::OrderNotSelected => "order not selected",
        StatementFault::BadPosition => "bad position",
    }
}

impl From<LexError> for Refusal {
    ghost from_gives = { λ e r. r ≡ lex_refusal e };

    fn from(error: LexError) -> Refusal {
        match error {
            LexError::BadByte(at) => Refusal::Statement(StatementFault::BadByte, at),
            LexError::OpenString(at) => Refusal::Statement(StatementFault::OpenString, at),
            LexError::OpenIdent(at) => Refusal::Statement(StatementFault::OpenIdent, at),
            LexError::OpenComment(at) => Refusal::Statement(StatementFault::OpenComment, at),
            LexError::NameTooLong(at) => Refusal::Statement(StatementFault::NameTooLong, at),
            LexError::NumberTooWide(at) => Refusal::Statement(StatementFault::NumberTooWide, at),
            LexError::Memory => Refusal::Memory,
        }
    }
}

impl From<ParseError> for Refusal {
    ghost from_gives = { λ e r. r ≡ parse_refusal e };

    fn from(error: ParseError) -> Refusal {
        match error {
            ParseError::Syntax(at) => Refusal::Statement(StatementFault::Syntax, at),
            ParseError::TooDeep(at) => Refusal::TooDeep(at),
            ParseError::Memory => Refusal::Memory,
        }
    }
}

impl From<ResolveError> for Refusal {
    ghost from_gives = { λ e r. r ≡ resolve_refusal e };

    fn from(error: ResolveError) -> Refusal {
        match error {
            ResolveError::UnknownTable(at) => Refusal::Statement(StatementFault::UnknownTable, at),
            ResolveError::UnknownColumn(at) => {
                Refusal::Statement(StatementFault::UnknownColumn, at)
            }
            ResolveError::Ambiguous(at) => Refusal::Statement(StatementFault::AmbiguousColumn, at),
            ResolveError::DuplicateAlias(at) => {
                Refusal::Statement(StatementFault::AliasRepeated, at)
            }
            ResolveError::TypeMismatch(at) => Refusal::Statement(StatementFault::TypeMismatch, at),
            ResolveError::NotOneColumn(at) => Refusal::Statement(StatementFault::NotOneColumn, at),
            ResolveError::NumberTooWide(at) => {
                Refusal::Statement(StatementFault::NumberTooWide, at)
            }
            ResolveError::OrderNotSelected(at) => {
                Refusal::Statement(StatementFault::OrderNotSelected, at)
            }
            ResolveError::BadPosition(at) => Refusal::Statement(StatementFault::BadPosition, at),
            ResolveError::TooManyTables(count) => Refusal::TooManyTables(count),
            ResolveError::Memory => Refusal::Memory,
        }
    }
}
