//! The events of what is not durable yet, until a frame of the log has them.
#![tactic(auto)]

mod copies;
pub mod events;
mod limits;
