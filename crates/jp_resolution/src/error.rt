ghost use Rattle.std.specs.Prelude.{◌≡◌};
ghost use Rattle.jp_resolution.specs.declared.error.ResolveError.TheVariants as refusal;

use jp_base::Memory;
use std::alloc::{AllocError, AllocFailed};

/// Why a statement stands for no query. Each but `TooManyTables` and `Memory` has the byte place of the first token of the
/// node that it speaks of.
#[derive(Clone, Copy, Debug, PartialEq, Eq)]
pub enum ResolveError {
    /// The catalogue has no table of this name, or no visible entry has this qualifier.
    UnknownTable(u32),
    UnknownColumn(u32),
    /// A name takes several columns, or several outputs with different expressions.
    Ambiguous(u32),
    /// An entry has the name of an earlier one of its FROM list.
    DuplicateAlias(u32),
    TypeMismatch(u32),
    /// The sub-select of IN has no column or several.
    NotOneColumn(u32),
    /// A number may pass 2^127-1.
    NumberTooWide(u32),
    /// Under DISTINCT an ORDER BY item is no selected expression.
    OrderNotSelected(u32),
    /// An ORDER BY item is a literal, but not the number of an output.
    BadPosition(u32),
    /// So many entries, which is more than there may be.
    TooManyTables(u32),
    /// Memory was refused.
    Memory,
}

impl From<Memory> for ResolveError {
    ghost from_gives = { λ _ e. e ≡ refusal.Memory };

    fn from(_: Memory) -> ResolveError {
        ResolveError::Memory
    }
}

impl From<AllocError> for ResolveError {
    ghost from_gives = { λ _ e. e ≡ refusal.Memory };

    fn from(_: AllocError) -> ResolveError {
        ResolveError::Memory
    }
}

impl<T: Drop> From<AllocFailed<T>> for ResolveError {
    ghost from_gives = { λ _ e. e ≡ refusal.Memory };

    fn from(_: AllocFailed<T>) -> ResolveError {
        ResolveError::Memory
    }
}
