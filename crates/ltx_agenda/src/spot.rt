//! Where a member lies: its lane, and the place there.

/// A lane and a place in it, both counted from 0.
#[derive(Clone, Copy, Debug, PartialEq, Eq)]
pub struct Spot {
    pub lane: u64,
    pub place: u64,
}
