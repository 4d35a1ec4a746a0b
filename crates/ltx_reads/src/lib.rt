//! The records of commits: who looked a key up and who wrote it, in the order of commits.
#![tactic(auto)]

mod entry;
mod kept;
mod looks;
mod merge;
mod places;
pub mod records;
mod scanners;
mod sites;
mod stamps;
