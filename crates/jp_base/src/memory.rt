ghost use Rattle.std.specs.Prelude.{◌≡◌};
ghost use Rattle.jp_base.specs.declared.memory.Memory.{Memory};

use std::alloc::{AllocError, AllocFailed};

/// Memory was refused.
#[derive(Clone, Copy, Debug, PartialEq, Eq)]
pub struct Memory;

impl From<AllocError> for Memory {
    ghost from_gives = { λ _ m. m ≡ record {} };

    fn from(_: AllocError) -> Memory {
        Memory
    }
}

impl<T: Drop> From<AllocFailed<T>> for Memory {
    ghost from_gives = { λ _ m. m ≡ record {} };

    fn from(_: AllocFailed<T>) -> Memory {
        Memory
    }
}
