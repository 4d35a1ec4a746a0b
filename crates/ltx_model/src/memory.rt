//! Want of memory, the one failure that any call which allocates may meet.
//! `?` makes it of each error that std's allocating calls answer.

use std::alloc::{AllocError, AllocFailed};

/// Memory was wanted and not given.
#[derive(Clone, Copy, Debug, PartialEq, Eq)]
pub struct NoMemory;

impl From<AllocError> for NoMemory {
    ghost use Rattle.std.specs.Prelude.{◌≡◌};
    ghost use Rattle.ltx_model.specs.Memory.{no_memory};

    ghost from_gives = { λ _ e. e ≡ no_memory };

    fn from(_refused: AllocError) -> NoMemory {
        NoMemory
    }
}

impl<T: Drop> From<AllocFailed<T>> for NoMemory {
    ghost use Rattle.std.specs.Prelude.{◌≡◌};
    ghost use Rattle.ltx_model.specs.Memory.{no_memory};

    ghost from_gives = { λ _ e. e ≡ no_memory };

    // The value that found no place is dropped.
    fn from(_refused: AllocFailed<T>) -> NoMemory {
        NoMemory
    }
}
