//! The core with its log: each line of a run is answered, and what is flushed is in the log before it is said to be durable.
#![tactic(auto)]

mod answer;
pub mod crashes;
mod engine;
mod fault;
mod flush;
mod open;

pub use engine::Engine;
pub use fault::{EngineFault, EngineOpenFault};
pub use ltx_model::replies::Entry;
pub use open::{Opening, start};
