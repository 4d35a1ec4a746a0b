//! The commits of a history: who was committed, how, and where.

ghost use Rattle.std.specs.Prelude.{◌≡◌, ◌++◌, ◌∷◌, [], ℕ, IfOk, OnOk};
ghost use Rattle.std.specs.List.{cons_option, find};
ghost use Rattle.std.specs.Ordering.{nat_cmp};
ghost use Rattle.std.specs.BTreeMap.{get};
ghost use Rattle.ltx_model.specs.Lists.{or_else};
ghost use Rattle.ltx_check.specs.Marks.{commits_of, is_commit_of, in_order, kept_if};

use crate::desk::Seats;
use ltx_model::memory::NoMemory;
use ltx_model::numbers::Tx;
use ltx_model::replies::Entry;
use std::alloc::Global;
use std::collections::BTreeMap;

/// How a transaction was committed.
#[derive(Clone, Copy, Debug, PartialEq, Eq)]
pub(crate) enum Way {
    /// A short.
    Short,
    /// A batch, with no target printed.
    Home,
    /// A batch that is printed as forwarded before a target.
    Forwarded,
}

/// A commit: whose it is, how it was done, and the place of its entry in the history, counted from 0.
#[derive(Clone, Copy, Debug)]
pub(crate) struct Commit {
    pub number: Tx,
    pub way: Way,
    pub place: usize,
}

/// Appends a commit, where there is one.
fn push_some(commits: &mut Vec<Commit>, commit: Option<Commit>) -> Result<(), NoMemory>
    ensures { OnOk result (commits.new.items ≡ commits.old.items ++ cons_option commit []) }
{
    match commit {
        None => Ok(()),
        Some(commit) => {
            commits.push(commit)?;
            Ok(())
        }
    }
}

/// The commits of a history, in time.
pub(crate) fn commits_of(alloc: Global, entries: &[Entry]) -> Result<Vec<Commit>, NoMemory>
    ensures { IfOk result (λ commits. commits.items ≡ commits_of entries.now) }
{
    let mut seats = Seats::new(alloc);
    let mut commits = Vec::new(alloc);
    for (place, entry) in entries.iter().enumerate() {
        push_some(&mut commits, seats.commit_by(place, entry))?;
        seats.take(entry)?;
    }
    Ok(commits)
}

/// Keeps a commit under its number, where none is kept yet.
fn note(by_number: &mut BTreeMap<u64, Commit>, commit: Commit) -> Result<(), NoMemory>
    ensures { OnOk result ((n : ℕ) → get nat_cmp by_number.new n ≡ or_else (get nat_cmp by_number.old n) (kept_if (is_commit_of n commit) commit)) }
{
    match by_number.entry(commit.number.number()) {
        Err(_) => Err(NoMemory),
        Ok(entry) => {
            let _ = entry.or_insert(commit);
            Ok(())
        }
    }
}

/// For each number its first commit.
fn numbered(alloc: Global, commits: &[Commit]) -> Result<BTreeMap<u64, Commit>, NoMemory>
    ensures { IfOk result (λ by_number. (n : ℕ) → get nat_cmp by_number n ≡ find (is_commit_of n) commits.now) }
{
    let mut by_number = BTreeMap::new(alloc);
    for commit in commits {
        note(&mut by_number, *commit)?;
    }
    Ok(by_number)
}

/// The commit that is kept under a number.
fn commit_of(by_number: &BTreeMap<u64, Commit>, tx: Tx) -> Option<Commit>
    ensures { result ≡ get nat_cmp by_number.now tx }
{
    match by_number.get(&tx.number()) {
        Some(commit) => Some(*commit),
        None => None,
    }
}

/// The commits with these numbers, in this order.
pub(crate) fn in_order(
    alloc: Global,
    commits: &[Commit],
    order: &[Tx],
) -> Result<Vec<Commit>, NoMemory>
    ensures { IfOk result (λ run. run.items ≡ in_order commits.now order.now) }
{
    let by_number = numbered(alloc, commits)?;
    let mut run = Vec::new(alloc);
    for tx in order {
        push_some(&mut run, commit_of(&by_number, *tx))?;
    }
    Ok(run)
}
