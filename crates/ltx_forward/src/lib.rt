//! What is decided of the commit of a live batch: where it is placed, whom it waits for, and why it is refused.
#![tactic(auto)]

mod contradict;
pub mod decide;
mod earliest;
mod late;
pub mod overtake;
mod own;
mod range;
mod wait;
mod witness;
