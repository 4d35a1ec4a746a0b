//! One kept commit.

ghost use Rattle.std.specs.Prelude.{◌≡◌, IfOk};
ghost use Rattle.ltx_reads.specs.Looks.{spanned};

use crate::looks;
use ltx_model::bytes::Key;
use ltx_model::copies::copies_of;
use ltx_model::looked::Noted;
use ltx_model::memory::NoMemory;
use ltx_model::numbers::{Table, Tx};
use ltx_model::writes::Write;
use std::alloc::Global;
use std::marker::Model;

/// A commit: its stamp, the transaction's number, whether it is a batch, the number of the commit, and what
/// was noted and written.
#[derive(Debug, Drop)]
pub(crate) struct Entry {
    stamp: u64,
    number: Tx,
    batch: bool,
    mark: u64,
    notes: Vec<Noted>,
    writes: Vec<Write>,
}

impl Model for Entry {
    ghost use Rattle.ltx_reads.specs.Stamped.{Stamped};

    ghost Value = { Stamped };

    ghost view = { λ e. record { stamp = e.stamp; commit = record { number = e.number; batch = e.batch; mark = e.mark; notes = e.notes.items; writes = e.writes.items } } };
}

impl Entry {
    /// An entry with copies of these notes and writes.
    pub(crate) fn of(
        alloc: Global,
        stamp: u64,
        number: Tx,
        batch: bool,
        mark: u64,
        notes: &[Noted],
        writes: &[Write],
    ) -> Result<Entry, NoMemory>
        ensures { IfOk result (λ entry. entry ≡ record { stamp = stamp; commit = record { number = number; batch = batch; mark = mark; notes = notes.now; writes = writes.now } }) }
    {
        Ok(Entry {
            stamp,
            number,
            batch,
            mark,
            notes: copies_of_notes(alloc, notes)?,
            writes: copies_of(alloc, writes)?,
        })
    }

    /// Its stamp.
    pub(crate) fn stamp(&self) -> u64
        ensures { result ≡ self.now.stamp }
    {
        self.stamp
    }

    /// The transaction's number.
    pub(crate) fn number(&self) -> Tx
        ensures { result ≡ self.now.commit.number }
    {
        self.number
    }

    /// Whether it is a batch.
    pub(crate) fn is_batch(&self) -> bool
        ensures { result ≡ self.now.commit.batch }
    {
        self.batch
    }

    /// The number of the commit.
    pub(crate) fn mark(&self) -> u64
        ensures { result ≡ self.now.commit.mark }
    {
        self.mark
    }

    /// Whether it scanned a range that holds the key, which it had not written before.
    pub(crate) fn spanned(&self, table: Table, key: &Key) -> bool
        ensures { result ≡ spanned (record { table = table; key = key.now }) self.now }
    {
        looks::span(&self.notes, table, key)
    }

    /// What it noted.
    pub(crate) fn notes(&self) -> &[Noted]
        ensures { result.now ≡ self.now.commit.notes }
    {
        &self.notes
    }

    /// What it wrote.
    pub(crate) fn writes(&self) -> &[Write]
        ensures { result.now ≡ self.now.commit.writes }
    {
        &self.writes
    }
}

/// Copies of the notes, in their order.
fn copies_of_notes(alloc: Global, notes: &[Noted]) -> Result<Vec<Noted>, NoMemory>
    ensures { IfOk result (λ copies. copies.items ≡ notes.now) }
{
    let mut copies = Vec::with_capacity(alloc, notes.len())?;
    for note in notes {
        copies.push(note.copy(alloc)?)?;
    }
    Ok(copies)
}
