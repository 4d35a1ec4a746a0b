//! The own writes of an open transaction.
#![tactic(auto)]

pub mod buffer;
mod merge;
mod places;
