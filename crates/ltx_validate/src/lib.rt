//! The check of a short at its commit.
#![tactic(auto)]

pub mod check;
mod difference;
mod range;
