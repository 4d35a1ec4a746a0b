//! What was found on a disk.

use ltx_model::base::Recovered;

/// Why a disk gives no rows.
#[derive(Clone, Copy, Debug, PartialEq, Eq)]
pub enum Refusal {
    /// The disk is neither blank nor a log.
    NotALog,
    /// The log is damaged at this gate's place, in bytes from its start. With an event, counted from 0 in the frame behind the
    /// gate, this is the first one that is not lawful; without, the gate is the first open one that stands over no frame.
    Damaged { at: u64, event: Option<u64> },
}

/// What a disk gives: the rows, the epoch and the last number of its log, or why there are none.
#[derive(Debug, Drop)]
pub enum Found {
    Recovered(Recovered),
    Refused(Refusal),
}
