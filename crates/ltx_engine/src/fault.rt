//! Why an engine was not opened, or a line not answered.

use ltx_log::OpenFault;
use ltx_model::memory::NoMemory;
use ltx_recover::RecoverFault;
use thiserror::Error;

/// Why a disk was not opened. A fault of the disk that comes first goes before the others.
#[derive(Debug, Drop, PartialEq, Eq, Error)]
pub enum EngineOpenFault {
    /// The disk is neither blank nor a log.
    #[error("this is no log")]
    NotALog,
    /// The log is damaged at this gate's place, in bytes from its start. With an event, counted from 0 in the frame behind the
    /// gate, this is the first one that is not lawful; without, the gate is the first open one that stands over no frame.
    #[error("the log is damaged at {at}")]
    Damaged { at: u64, event: Option<u64> },
    /// The disk failed.
    #[error("the disk failed")]
    DiskFault,
    /// There was no memory.
    #[error("there was no memory")]
    NoMemory,
}

impl From<OpenFault> for EngineOpenFault {
    ghost use Rattle.std.specs.Prelude.{◌≡◌};
    ghost use Rattle.ltx_engine.specs.Faults.{of_log};

    ghost from_gives = { λ fault e. e ≡ of_log fault };

    fn from(fault: OpenFault) -> EngineOpenFault {
        match fault {
            OpenFault::NotALog => EngineOpenFault::NotALog,
            OpenFault::Damaged { at } => EngineOpenFault::Damaged { at, event: None },
            OpenFault::DiskFault => EngineOpenFault::DiskFault,
            OpenFault::NoMemory => EngineOpenFault::NoMemory,
        }
    }
}

impl From<RecoverFault> for EngineOpenFault {
    ghost use Rattle.std.specs.Prelude.{◌≡◌};
    ghost use Rattle.ltx_engine.specs.Faults.{of_recovery};

    ghost from_gives = { λ fault e. e ≡ of_recovery fault };

    fn from(fault: RecoverFault) -> EngineOpenFault {
        match fault {
            RecoverFault::Damaged { at, event } => EngineOpenFault::Damaged {
                at,
                event: Some(event),
            },
            RecoverFault::NoMemory => EngineOpenFault::NoMemory,
        }
    }
}

impl From<NoMemory> for EngineOpenFault {
    ghost use Rattle.std.specs.Prelude.{◌≡◌};
    ghost use Rattle.ltx_engine.specs.declared.fault.EngineOpenFault.TheVariants as faults;

    ghost from_gives = { λ _ e. e ≡ faults.NoMemory };

    fn from(_wanted: NoMemory) -> EngineOpenFault {
        EngineOpenFault::NoMemory
    }
}

/// Why a line was not answered.
#[derive(Debug, Drop, PartialEq, Eq, Error)]
pub enum EngineFault {
    /// A flush must write, and an earlier flush met a fault of the disk.
    #[error("the log is closed")]
    Closed,
    /// The disk failed.
    #[error("the disk failed")]
    DiskFault,
    /// There was no memory.
    #[error("there was no memory")]
    NoMemory,
}
