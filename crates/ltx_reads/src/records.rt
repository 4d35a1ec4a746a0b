//! The kept committed transactions, with their look-ups, their writes and the numbers of their commits.

ghost use Rattle.std.specs.Prelude.{◌≡◌, ◌==◌, ◌<◌, ◌+◌, ◌&&◌, [], OnOk, OnErr, IfOk, IfSome, IfNone, false, true, option_map, option_copied};
ghost use Rattle.std.specs.List.{find, list_any};
ghost use Rattle.ltx_model.specs.Limits.{last_number};
ghost use Rattle.ltx_model.specs.Records.{is_kept, mark_kept, has_written, covering, writers, recorded, forgotten, IsNextWritten, HasNoNextWritten};
ghost use Rattle.ltx_reads.specs.Nexts.{IsNext};
ghost use Rattle.ltx_reads.specs.Batches.{late_batches};
ghost use Rattle.ltx_reads.specs.Noted.{HasNoted};

use crate::entry::Entry;
use crate::kept;
use crate::sites::Sites;
use ltx_model::bytes::Key;
use ltx_model::looked::{Looked, Noted};
use ltx_model::memory::NoMemory;
use ltx_model::numbers::{Table, Tx};
use ltx_model::writes::Write;
use std::alloc::Global;
use std::marker::Model;

/// The records of commits.
#[derive(Debug, Drop)]
pub struct Records {
    alloc: Global,
    kept: Vec<Entry>,
    commits: u64,
    // The stamp of the commit to be noted next.
    next: u64,
    sites: Sites,
}

// Clauses see what is kept, in the order of commits, and how many commits were noted.
impl Model for Records {
    ghost use Rattle.std.specs.Prelude.{map};
    ghost use Rattle.ltx_model.specs.Records as model;
    ghost use Rattle.ltx_reads.specs.Sites.{AreIndexed};

    ghost Value = { model.Records };

    ghost view = { λ r. record { kept = map (λ e. e.commit) r.kept.items; commits = r.commits } };

    ghost invariant = { λ r. AreIndexed r.kept.items r.next r.sites };
}

impl Records {
    /// No records, and no commit noted. It takes no memory.
    pub fn new(alloc: Global) -> Records
        ensures kept { result.kept ≡ [] }
        ensures commits { result.commits ≡ 0 }
    {
        Records {
            alloc,
            kept: Vec::new(alloc),
            commits: 0,
            next: 0,
            sites: Sites::new(alloc),
        }
    }

    /// How many commits were noted, forgotten ones and those that were only counted included.
    pub fn commits(&self) -> u64
        ensures { result ≡ self.now.commits }
    {
        self.commits
    }

    /// Counts a commit that is not kept.
    pub fn count(&mut self)
        requires limit { self.old.commits < last_number }
        ensures kept { self.new.kept ≡ self.old.kept }
        ensures commits { self.new.commits ≡ self.old.commits + 1 }
    {
        self.commits += 1;
    }

    /// Notes the commit of a short, and keeps its look-ups and writes. After NoMemory nothing has changed.
    pub fn add_short<T: Looked>(&mut self, tx: &T, writes: &[Write]) -> Result<(), NoMemory>
        requires stranger { is_kept self.old (T.tx_of tx.now) ≡ false }
        requires limit { self.old.commits < last_number }
        ensures noted { OnOk result (HasNoted self.old (T.tx_of tx.now) false (T.noted_of tx.now) writes.now self.new) }
        ensures err { OnErr result (self.new ≡ self.old) }
    {
        self.add(tx.tx(), false, tx.noted(), writes)
    }

    /// Notes the commit of a batch, and keeps its look-ups and writes. After NoMemory nothing has changed.
    pub fn add_long<T: Looked>(&mut self, tx: &T, writes: &[Write]) -> Result<(), NoMemory>
        requires stranger { is_kept self.old (T.tx_of tx.now) ≡ false }
        requires limit { self.old.commits < last_number }
        ensures noted { OnOk result (HasNoted self.old (T.tx_of tx.now) true (T.noted_of tx.now) writes.now self.new) }
        ensures err { OnErr result (self.new ≡ self.old) }
    {
        self.add(tx.tx(), true, tx.noted(), writes)
    }

    /// Notes a commit, and keeps copies of these. After NoMemory nothing has changed.
    fn add(
        &mut self,
        number: Tx,
        batch: bool,
        notes: &[Noted],
        writes: &[Write],
    ) -> Result<(), NoMemory>
        requires limit { self.old.commits < last_number }
        ensures noted { OnOk result (self.new ≡ recorded number batch notes.now writes.now self.old) }
        ensures err { OnErr result (self.new ≡ self.old) }
    {
        let mark = self.commits + 1;
        let stamp = self.next;
        let Some(next) = stamp.checked_add(1) else {
            return Err(NoMemory);
        };
        let entry = Entry::of(self.alloc, stamp, number, batch, mark, notes, writes)?;
        self.next = next;
        self.sites.note(&entry)?;
        self.kept.push(entry)?;
        self.commits = mark;
        Ok(())
    }

    /// The number of a kept transaction's commit: how many commits were noted up to and with it. None
    /// exactly where it is not kept.
    pub fn mark(&self, tx: Tx) -> Option<u64>
        ensures { result ≡ mark_kept self.now tx }
    {
        kept::mark_of(kept::of_tx(&self.kept, tx))
    }

    /// The number of its commit, where the transaction is kept and is a batch.
    pub fn batch_mark(&self, tx: Tx) -> Option<u64>
        ensures { result ≡ option_map (λ r. r.mark) (find (λ r. r.batch && (r.number == tx)) self.now.kept) }
    {
        kept::mark_of(kept::of_batch(&self.kept, tx))
    }

    /// The kept transactions that looked the key up, in the order of their commits.
    pub fn covering(&self, table: Table, key: &Key) -> Result<Vec<Tx>, NoMemory>
        ensures { IfOk result (λ txs. txs.items ≡ covering self.now (record { table = table; key = key.now })) }
    {
        self.sites.lookers(self.alloc, &self.kept, table, key)
    }

    /// The kept transactions that wrote the key, in the order of their commits.
    pub fn writers(&self, table: Table, key: &Key) -> Result<Vec<Tx>, NoMemory>
        ensures { IfOk result (λ txs. txs.items ≡ writers self.now (record { table = table; key = key.now })) }
    {
        let stamps = self.sites.writers.stamps(table, key);
        kept::numbers(self.alloc, &self.kept, stamps)
    }

    /// The kept batches that wrote the key and whose commits have a number above this one, in the order
    /// of their commits.
    pub fn batches_writing(&self, table: Table, key: &Key, above: u64) -> Result<Vec<Tx>, NoMemory>
        ensures { IfOk result (λ txs. txs.items ≡ late_batches self.now (record { table = table; key = key.now }) above) }
    {
        let stamps = self.sites.batches.stamps(table, key);
        kept::late_numbers(self.alloc, &self.kept, stamps, above)
    }

    /// The least key of the table that a kept transaction wrote and that is at least `from`, or above
    /// it where `strict`. None where there is no such key.
    pub fn after(&self, table: Table, from: &[u8], strict: bool) -> Option<&Key>
        ensures some { IfSome result (λ key. IsNextWritten self.now table from.now strict key.now) }
        ensures none { IfNone result (HasNoNextWritten self.now table from.now strict) }
    {
        self.next_written(table, from, strict)
    }

    /// As `after`.
    fn next_written(&self, table: Table, from: &[u8], strict: bool) -> Option<&Key>
        ensures { IsNext from.now strict (λ key. list_any (has_written (record { table = table; key = key })) self.now.kept) (option_copied result) }
    {
        self.sites
            .writers
            .next_kept(table, from, strict, &self.kept)
    }

    /// Forgets these transactions.
    pub fn purge(&mut self, below: &[Tx])
        ensures { self.new ≡ forgotten below.now self.old }
    {
        self.kept.retain(|entry| !is_among(below, entry.number()));
    }

    /// Forgets all that is kept. It is called when the last live batch has ended.
    pub fn clear(&mut self)
        ensures kept { self.new.kept ≡ [] }
        ensures commits { self.new.commits ≡ self.old.commits }
    {
        self.kept.clear();
        self.sites = Sites::new(self.alloc);
    }
}

/// Whether the transaction is one of these.
fn is_among(txs: &[Tx], tx: Tx) -> bool
    ensures { result ≡ list_any (λ n. n == tx) txs.now }
{
    txs.contains(&tx)
}
