//! Why a log was not opened, or a frame not appended.

use thiserror::Error;

/// Why a disk was not opened as a log. A fault of the disk that comes first goes before the others.
#[derive(Debug, Drop, PartialEq, Eq, Error)]
pub enum OpenFault {
    /// The disk is neither blank nor a log.
    #[error("this is no log")]
    NotALog,
    /// An open gate at this place, in bytes from the log's start, stands over no frame; it is the first such one.
    #[error("the log is damaged at {at}")]
    Damaged { at: u64 },
    /// The disk failed.
    #[error("the disk failed")]
    DiskFault,
    /// There was no memory.
    #[error("there was no memory")]
    NoMemory,
}

/// Why a frame was not appended. They are tested in this order.
#[derive(Debug, Drop, PartialEq, Eq, Error)]
pub enum AppendFault {
    /// An earlier append met a fault of the disk.
    #[error("the log is closed")]
    Closed,
    /// The log would be longer than its limit.
    #[error("the log is full")]
    LimitLog,
    /// There was no memory.
    #[error("there was no memory")]
    NoMemory,
    /// The disk failed.
    #[error("the disk failed")]
    DiskFault,
}
