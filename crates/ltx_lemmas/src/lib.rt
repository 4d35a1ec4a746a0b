//! Lemmas on the definitions of `ltx_model` that need no history: lists, keys, rows, and what a run of transactions gives.
//!
//! The proofs of other crates cite them one by one from this crate's proof files. The functions here have empty bodies and carry
//! the main ones as contracts.
#![tactic(auto)]

pub mod places;
pub mod serial_runs;
