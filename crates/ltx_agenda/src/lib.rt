//! The agenda: the committed transactions and the live batches, in serial order.
#![tactic(auto)]

pub mod agenda;
mod flat;
mod lanes;
mod mark;
mod run;
mod seats;
pub mod spot;
