//! Why bytes give no frame: they are the body of none, or memory was wanting.

ghost use Rattle.std.specs.Prelude.{◌≡◌};
ghost use Rattle.ltx_frame.specs.declared.unread.Unread.TheVariants.{Memory};

use ltx_model::memory::NoMemory;
use std::alloc::AllocFailed;

#[derive(Debug, Drop)]
pub(crate) enum Unread {
    Memory,
    NoFrame,
}

impl From<NoMemory> for Unread {
    ghost from_gives = { λ _ e. e ≡ Memory };

    fn from(_e: NoMemory) -> Unread {
        Unread::Memory
    }
}

impl<T: Drop> From<AllocFailed<T>> for Unread {
    ghost from_gives = { λ _ e. e ≡ Memory };

    // The value that found no place is dropped.
    fn from(_e: AllocFailed<T>) -> Unread {
        Unread::Memory
    }
}
