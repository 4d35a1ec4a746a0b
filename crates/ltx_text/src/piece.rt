//! What a reader of lines gives, and why it gives nothing.

/// What comes next in a script.
#[derive(Debug, Drop)]
pub enum Piece {
    /// A line of at most 4,096 bytes, without its line feed.
    Line(Vec<u8>),
    /// A line of more than 4,096 bytes, which was skipped.
    TooLong,
    /// No line is left, and the source is at its end.
    End,
}

/// Why there is no piece.
#[derive(Clone, Copy, Debug, PartialEq, Eq)]
pub enum TextFault {
    /// The source failed.
    ReadFault,
    /// More bytes were taken from the source than the limit allows.
    TooMuch,
    /// Memory was wanted and not given.
    NoMemory,
}
