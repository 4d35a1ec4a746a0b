//! The one fault of a device.

/// A device did not do what it was asked. Its count of faults says how often that came.
#[derive(Clone, Copy, Debug, PartialEq, Eq)]
pub struct Failed;
