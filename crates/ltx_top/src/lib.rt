//! The top calls: a script is answered line by line, and each entry is printed before more of the script is read; a transcript is
//! read to its end and checked.
#![tactic(auto)]

mod call;
mod check_call;
mod ending;
mod entries;
mod input;
mod output;
mod pieces;
mod reply;
mod responder;
mod runner;
mod serving;
mod status;
mod words;

pub use call::run;
pub use check_call::run_check;
pub use status::Status;
