//! Where commits stand in the serial order, beside their times and their numbers.

ghost use Rattle.std.specs.Prelude.{◌≡◌, ◌∷◌, [], ℕ, List, Option, IfOk, not};
ghost use Rattle.std.specs.List.{list_any};
ghost use Rattle.ltx_check.specs.Replays.{Finds, least_of};
ghost use Rattle.ltx_check.specs.declared.commits.Commit.{Commit};
ghost use Rattle.ltx_check.specs.Marks.{AgainstAt, AreApart, IsBehind, commits_of, in_order, is_against, is_batch, batch_number, is_over};

use crate::commits::{Commit, Way, commits_of, in_order};
use crate::replay::{least, unless};
use ltx_model::memory::NoMemory;
use ltx_model::numbers::Tx;
use ltx_model::replies::Entry;
use std::alloc::Global;

/// Of the commits that stand further back in the order: the least number of a batch, and the place of the earliest one.
#[derive(Clone, Copy, Debug)]
struct Behind {
    batch: Option<u64>,
    earliest: Option<usize>,
}

/// The number of a batch.
fn batch_number(commit: &Commit) -> Option<u64>
    ensures { result ≡ batch_number (is_batch commit.now.way) commit.now.number }
{
    match commit.way {
        Way::Short => None,
        Way::Home | Way::Forwarded => Some(commit.number.number()),
    }
}

/// The least of two numbers, where there are any.
fn least_number(a: Option<u64>, b: Option<u64>) -> Option<u64>
    ensures { result ≡ least_of a b }
{
    match (a, b) {
        (None, b) => b,
        (Some(a), None) => Some(a),
        (Some(a), Some(b)) => Some(a.min(b)),
    }
}

/// Whether a number is there, and is less than that of a batch.
fn is_smaller(other: Option<u64>, number: u64) -> bool
    ensures { result ≡ is_over number other }
{
    match other {
        None => false,
        Some(other) => other < number,
    }
}

/// Whether a place is there, and is less than that of a short.
fn is_earlier(other: Option<usize>, place: usize) -> bool
    ensures { result ≡ is_over place other }
{
    match other {
        None => false,
        Some(other) => other < place,
    }
}

impl Behind {
    /// What stands behind the last commit.
    fn nothing() -> Behind
        ensures { IsBehind result [] }
    {
        Behind {
            batch: None,
            earliest: None,
        }
    }

    /// With one commit more, in front of the others.
    fn with(&self, commit: &Commit) -> Behind
        ensures { (run : List Commit) → IsBehind self.now run → IsBehind result (commit.now ∷ run) }
    {
        Behind {
            batch: least_number(batch_number(commit), self.batch),
            earliest: least(Some(commit.place), self.earliest),
        }
    }

    /// Whether the commit may stand before these.
    fn allows(&self, commit: &Commit) -> bool
        ensures { (run : List Commit) → IsBehind self.now run → result ≡ not (list_any (is_against commit.now) run) }
    {
        match commit.way {
            Way::Short => !is_earlier(self.earliest, commit.place),
            Way::Home => !is_smaller(self.batch, commit.number.number()),
            Way::Forwarded => true,
        }
    }
}

/// The place of the earliest commit that stands before one that it may not stand before.
fn first_against(run: &[Commit]) -> Option<usize>
    ensures { Finds (AreApart run.now) (AgainstAt run.now) result }
{
    let mut behind = Behind::nothing();
    let mut first = None;
    for at in (0..run.len()).rev() {
        let commit = run[at];
        first = least(unless(behind.allows(&commit), commit.place), first);
        behind = behind.with(&commit);
    }
    first
}

/// The place of the first entry that commits what stands in the order before something that it may not stand before.
pub(crate) fn first_out_of_place(
    alloc: Global,
    entries: &[Entry],
    order: &[Tx],
) -> Result<Option<usize>, NoMemory>
    ensures { IfOk result (λ found. Finds (AreApart (in_order (commits_of entries.now) order.now)) (AgainstAt (in_order (commits_of entries.now) order.now)) found) }
{
    let commits = commits_of(alloc, entries)?;
    let run = in_order(alloc, &commits, order)?;
    Ok(first_against(&run))
}
