//! The laws of the serial order: what holds in every legal history. Each is the contract of a function with an empty body.
#![tactic(auto)]

pub mod answers;
pub mod batch_witnesses;
pub mod bounds;
pub mod closed_epochs;
pub mod commits;
pub mod epochs;
pub mod floor;
pub mod marks;
pub mod preserve;
pub mod printed;
pub mod priority;
pub mod recovery;
pub mod refusals;
pub mod serial_order;
pub mod states;
pub mod versions;
pub mod witnesses;
