//! How a run ended.

/// The exit status of a run or a check. 0: all was answered and every line was well formed, or the transcript is one that its order
/// explains; 1: all was answered and some line was malformed; 2: the words are no command; 3: want of memory; 4: the source failed;
/// 5: the sink failed; 9: the script has more than 4,294,967,295 bytes, or the transcript more than 268,435,456; 11: the transcript
/// has a fault.
#[derive(Clone, Copy, Debug, PartialEq, Eq)]
pub struct Status {
    pub number: u8,
}

/// Why a run stopped before the end of its script, or a check before its verdict was printed.
#[derive(Clone, Copy, Debug, PartialEq, Eq)]
pub(crate) enum Stop {
    NoMemory,
    Source,
    Sink,
    TooMuch,
}
