//! The versions of a key, each with its mark.
#![tactic(auto)]

pub mod chain;
pub mod marked;
mod run;
