//! One event of the engine at a time: a command, its reply and the state after it.
//!
//! `state` is what a core keeps and lends. `step` hands a command to its event: `begin`, `operate`,
//! `commit` (`commit_short`, `commit_batch` with `decide`, `commit_home` and `commit_at`), `end` and
//! `epoch`, and `flush` tells what a flush writes.
//! `install` fills the store, `record` the records of commits, and `areas` tells who is live.
#![tactic(auto)]

mod areas;
mod begin;
mod commit;
mod commit_at;
mod commit_batch;
mod commit_home;
mod commit_short;
mod decide;
mod end;
mod epoch;
mod flush;
mod install;
mod operate;
mod record;
mod state;
mod step;

pub use state::Core;
