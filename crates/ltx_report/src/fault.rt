//! Why a disk was not read, or a text not printed.

/// Why a disk was not read.
#[derive(Clone, Copy, Debug, PartialEq, Eq)]
pub enum DeviceFault {
    /// The disk failed.
    Disk,
    /// There was no memory.
    NoMemory,
}

/// Why a text was not printed whole.
#[derive(Clone, Copy, Debug, PartialEq, Eq)]
pub enum PrintFault {
    /// The sink failed.
    Sink,
    /// There was no memory.
    NoMemory,
}
