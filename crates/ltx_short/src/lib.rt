//! An open short transaction: what it noted of its operations.
#![tactic(auto)]

pub mod short;
