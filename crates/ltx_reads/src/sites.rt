//! Where the stamps of commits stand: by the keys that were got and written, and by the tables that were scanned.

ghost use Rattle.std.specs.Prelude.{◌≡◌, [], map, IfOk, OnOk, OnErr};
ghost use Rattle.std.specs.List.{list_any};
ghost use Rattle.ltx_reads.specs.Looks.{note_gets, note_scans};
ghost use Rattle.ltx_reads.specs.Noted.{is_among};
ghost use Rattle.ltx_reads.specs.Places.{stamps_at, scans_at, IsStampedBy, HasSameStamps, MayHaveStamp};
ghost use Rattle.ltx_reads.specs.Stamped.{kept_of, AreRising};
ghost use Rattle.ltx_reads.specs.Sites.{IsNoted, MayBeNoted, lookers_in};

use crate::entry::Entry;
use crate::kept;
use crate::looks::{got_key, is_scan};
use crate::places::Places;
use crate::scanners::Scanners;
use ltx_model::bytes::Key;
use ltx_model::looked::Noted;
use ltx_model::memory::NoMemory;
use ltx_model::numbers::{Table, Tx};
use ltx_model::writes::Write;
use std::alloc::Global;

/// The stamps of commits: by the keys that they got, by the tables in which they scanned, and by the
/// keys that they wrote. Those of batches stand once more, since these are asked for alone.
#[derive(Debug, Drop)]
pub(crate) struct Sites {
    pub(crate) readers: Places,
    pub(crate) scanners: Scanners,
    pub(crate) writers: Places,
    pub(crate) batches: Places,
}

impl Sites {
    /// No stamps.
    pub(crate) fn new(alloc: Global) -> Sites
        ensures readers { result.readers ≡ [] }
        ensures scanners { result.scanners ≡ [] }
        ensures writers { result.writers ≡ [] }
        ensures batches { result.batches ≡ [] }
    {
        Sites {
            readers: Places::new(alloc),
            scanners: Scanners::new(alloc),
            writers: Places::new(alloc),
            batches: Places::new(alloc),
        }
    }

    /// The numbers of the kept commits that looked the key up, in their order.
    pub(crate) fn lookers(
        &self,
        alloc: Global,
        kept: &[Entry],
        table: Table,
        key: &Key,
    ) -> Result<Vec<Tx>, NoMemory>
        requires { AreRising kept.now }
        ensures { IfOk result (λ txs. txs.items ≡ map (λ e. e.commit.number) (kept_of kept.now (lookers_in kept.now self.now (record { table = table; key = key.now })))) }
    {
        let readers = kept::kept_stamps(alloc, kept, self.readers.stamps(table, key))?;
        let scanners = kept::spanning_stamps(alloc, kept, self.scanners.stamps(table), table, key)?;
        kept::numbers_of_both(alloc, kept, &readers, &scanners)
    }

    /// Puts the entry's stamp where it belongs. After NoMemory it may stand at some of these keys.
    pub(crate) fn note(&mut self, entry: &Entry) -> Result<(), NoMemory>
        ensures noted { OnOk result (IsNoted entry.now self.old self.new) }
        ensures err { OnErr result (MayBeNoted entry.now.stamp self.old self.new) }
    {
        push_gets(&mut self.readers, entry.notes(), entry.stamp())?;
        push_scans(&mut self.scanners, entry.notes(), entry.stamp())?;
        push_writes(&mut self.writers, entry.writes(), entry.stamp())?;
        if entry.is_batch() {
            push_writes(&mut self.batches, entry.writes(), entry.stamp())?;
        }
        Ok(())
    }
}

/// Puts the stamp at each key written. After NoMemory it may stand at some of them.
fn push_writes(places: &mut Places, writes: &[Write], stamp: u64) -> Result<(), NoMemory>
    ensures stamped { OnOk result (IsStampedBy (λ cell. is_among cell writes.now) stamp (stamps_at places.old) (stamps_at places.new)) }
    ensures err { OnErr result (MayHaveStamp stamp (stamps_at places.old) (stamps_at places.new)) }
{
    for write in writes {
        places.push(write.table, &write.key, stamp)?;
    }
    Ok(())
}

/// Puts the stamp at each key that was got. After NoMemory it may stand at some of them.
fn push_gets(places: &mut Places, notes: &[Noted], stamp: u64) -> Result<(), NoMemory>
    ensures stamped { OnOk result (IsStampedBy (λ cell. list_any (note_gets cell) notes.now) stamp (stamps_at places.old) (stamps_at places.new)) }
    ensures err { OnErr result (MayHaveStamp stamp (stamps_at places.old) (stamps_at places.new)) }
{
    for note in notes {
        push_get(places, note, stamp)?;
    }
    Ok(())
}

/// Puts the stamp at the key that was got, if any was. After NoMemory all keys are as before.
fn push_get(places: &mut Places, note: &Noted, stamp: u64) -> Result<(), NoMemory>
    ensures stamped { OnOk result (IsStampedBy (λ cell. note_gets cell note.now) stamp (stamps_at places.old) (stamps_at places.new)) }
    ensures kept { OnErr result (HasSameStamps (stamps_at places.old) (stamps_at places.new)) }
{
    let Some(key) = got_key(&note.reach) else {
        return Ok(());
    };
    places.push(note.table, key, stamp)
}

/// Puts the stamp at each table that was scanned. After NoMemory it may stand at some of them.
fn push_scans(scanners: &mut Scanners, notes: &[Noted], stamp: u64) -> Result<(), NoMemory>
    ensures stamped { OnOk result (IsStampedBy (λ cell. list_any (note_scans cell) notes.now) stamp (scans_at scanners.old) (scans_at scanners.new)) }
    ensures err { OnErr result (MayHaveStamp stamp (scans_at scanners.old) (scans_at scanners.new)) }
{
    for note in notes {
        push_scan(scanners, note, stamp)?;
    }
    Ok(())
}

/// Puts the stamp at the table, if it was scanned. After NoMemory all tables are as before.
fn push_scan(scanners: &mut Scanners, note: &Noted, stamp: u64) -> Result<(), NoMemory>
    ensures stamped { OnOk result (IsStampedBy (λ cell. note_scans cell note.now) stamp (scans_at scanners.old) (scans_at scanners.new)) }
    ensures kept { OnErr result (HasSameStamps (scans_at scanners.old) (scans_at scanners.new)) }
{
    if is_scan(&note.reach) {
        return scanners.push(note.table, stamp);
    }
    Ok(())
}
