//! Which batches have declared which tables for writing, and who holds them.
#![tactic(auto)]

pub mod preserve;
