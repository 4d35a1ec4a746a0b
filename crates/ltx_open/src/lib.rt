//! The open transactions of a run, each with its notes and its own writes.
//!
//! `opens` keeps them by session, `open` is one of them, `kind` what tells shorts from batches, and
//! `stage` what it is just now.
#![tactic(auto)]

mod kind;
pub mod open;
pub mod opens;
pub mod stage;
