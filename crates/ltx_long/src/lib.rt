//! An open batch: what it declared and what it noted of its operations.
#![tactic(auto)]

pub mod long;
