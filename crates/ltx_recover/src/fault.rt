//! Why frames were not recovered.

use ltx_model::memory::NoMemory;
use thiserror::Error;

/// Why frames were not recovered.
#[derive(Debug, Drop, PartialEq, Eq, Error)]
pub enum RecoverFault {
    /// An event is not lawful, the first such one: the place of its frame's gate in bytes from the log's start, and the
    /// event's number in the frame, counted from 0.
    #[error("event {event} of the frame at {at} is not lawful")]
    Damaged { at: u64, event: u64 },
    /// There was no memory.
    #[error("there was no memory")]
    NoMemory,
}

impl From<NoMemory> for RecoverFault {
    ghost use Rattle.std.specs.Prelude.{◌≡◌};
    ghost use Rattle.ltx_recover.specs.declared.fault.RecoverFault.TheVariants as faults;

    ghost from_gives = { λ _ e. e ≡ faults.NoMemory };

    fn from(_wanted: NoMemory) -> RecoverFault {
        RecoverFault::NoMemory
    }
}
