//! What a disk gives when its log is recovered, and how that is printed.
#![tactic(auto)]

mod fault;
mod found;
mod print;
mod read;

pub use fault::{DeviceFault, PrintFault};
pub use found::{Found, Refusal};
pub use print::{print_recovered, print_refusal, put_refusal};
pub use read::recover_log;
