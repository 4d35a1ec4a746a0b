//! What a frame tells of one transaction.

use ltx_model::numbers::Tx;
use ltx_model::writes::{Target, WriteList};

/// An event of the log: a batch got its place, or a transaction committed. A commit names its epoch and its writes, which
/// stand in strictly rising order of table and key, and a batch where it was put.
#[derive(Debug, Drop)]
pub enum Event {
    Slot {
        tx: Tx,
    },
    Short {
        tx: Tx,
        epoch: u32,
        writes: WriteList,
    },
    Batch {
        tx: Tx,
        epoch: u32,
        target: Target,
        writes: WriteList,
    },
}
