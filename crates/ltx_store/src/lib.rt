//! The multiversion store: 64 tables of keys with their versions.
#![tactic(auto)]

mod newest;
pub mod scanned;
pub mod store;
mod table;
