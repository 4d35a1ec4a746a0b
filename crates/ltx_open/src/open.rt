//! One open transaction: its kind with its number and notes, and its own writes.
//!
//! It is answered from the rows at a mark with its own writes over them. What it saw of the store
//! is noted; its writes stay with it until it commits.

ghost use Rattle.std.specs.Prelude.{◌≡◌, ◌<◌, ◌≤◌, true, false, [], ◌∷◌, length, nat_le, IfOk, OnOk, OnErr, Some, None, ℕ, List, Option, option_copied};
ghost use Rattle.ltx_model.specs.declared.commands.Op.TheVariants.{Get, Scan};
ghost use Rattle.ltx_model.specs.declared.looked.Reach.TheVariants.{Nothing};
ghost use Rattle.ltx_model.specs.declared.replies.Reply.TheVariants.{Done, LimitOps};
ghost use Rattle.ltx_model.specs.Limits.{last_number, most_operations};
ghost use Rattle.ltx_model.specs.Keys.{IsRising, put_in_order};
ghost use Rattle.ltx_model.specs.NoteLists.{no_notes, with_note};
ghost use Rattle.ltx_model.specs.Notes.{AreNotes};
ghost use Rattle.ltx_model.specs.Operations.{cell_of_write};
ghost use Rattle.ltx_model.specs.Records.{is_kept};
ghost use Rattle.ltx_model.specs.States.{Step};
ghost use Rattle.ltx_model.specs.Verdicts.{IsVerdict};
ghost use Rattle.ltx_reads.specs.Noted.{HasNoted};
ghost use Rattle.ltx_store.specs.Kept.{rows_at, latest_rows};
ghost use Rattle.ltx_store.specs.Scans.{look_of_version};
ghost use Rattle.ltx_validate.specs.Verdicts.{verdict_of, AreMarkedAt, AreHolders};
ghost use Rattle.ltx_open.specs.declared.stage.Stage.TheVariants as stages;
ghost use Rattle.ltx_open.specs.Views.{is_batch, gone_live, long_of};
ghost use Rattle.ltx_open.specs.Seen.{answered, put_by};
ghost use Rattle.ltx_open.specs.Operations.{HasDone};
ghost use Rattle.ltx_open.specs.Same.{IsSameOpen};

use crate::kind::Kind;
use crate::stage::{Declared, Stage};
use ltx_buffer::buffer::Buffer;
use ltx_chain::chain::Version;
use ltx_long::long::LongTx;
use ltx_model::bytes::{Bound, Key, Value};
use ltx_model::commands::Op;
use ltx_model::memory::NoMemory;
use ltx_model::numbers::{Table, Tx};
use ltx_model::replies::Reply;
use ltx_model::rows::RowList;
use ltx_model::writes::{Look, Write};
use ltx_preserve::preserve::Preserve;
use ltx_reads::records::Records;
use ltx_short::short::ShortTx;
use ltx_store::scanned::Scanned;
use ltx_store::store::Store;
use ltx_validate::check::Verdict;
use std::alloc::Global;
use std::marker::Model;

/// An open transaction.
#[derive(Debug, Drop)]
pub struct Open {
    kind: Kind,
    own: Buffer,
}

// Clauses see its number, its notes, and its own writes.
impl Model for Open {
    ghost use Rattle.ltx_open.specs.Views.{OpenView, number_of, notes_of, stage_of};

    ghost Value = { OpenView };

    ghost view = { λ a. record { number = number_of a.kind; stage = stage_of a.kind; notes = notes_of a.kind; own = a.own } };
}

impl Open {
    /// A short that has done nothing, which takes no memory.
    pub fn short(alloc: Global, tx: Tx) -> Open
        ensures number { result.number ≡ tx }
        ensures stage { result.stage ≡ stages.Short }
        ensures notes { result.notes ≡ no_notes }
        ensures writes { result.own.writes ≡ [] }
    {
        Open {
            kind: Kind::Short(ShortTx::new(alloc, tx)),
            own: Buffer::new(alloc),
        }
    }

    /// A pending batch, which takes no memory.
    pub fn batch(alloc: Global, tx: Tx, declared: Declared) -> Open
        ensures number { result.number ≡ tx }
        ensures stage { result.stage ≡ stages.Pending declared }
        ensures notes { result.notes.notes ≡ [] }
        ensures writes { result.own.writes ≡ [] }
    {
        let Declared {
            writes,
            reads,
            from,
        } = declared;
        Open {
            kind: Kind::Long(LongTx::new(alloc, tx, writes, reads, from)),
            own: Buffer::new(alloc),
        }
    }

    /// What it is.
    pub fn stage(&self) -> Stage
        ensures { result ≡ self.now.stage }
    {
        self.kind.stage()
    }

    /// A pending batch becomes live at this mark; what is live or a short stays as it is.
    pub fn go_live(&mut self, mark: u64)
        ensures { self.new ≡ gone_live mark self.old }
    {
        self.kind.go_live(mark);
    }

    /// Its number.
    pub fn number(&self) -> Tx
        ensures { result ≡ self.now.number }
    {
        self.kind.number()
    }

    /// Its own writes, in order of table and key, one for each key.
    pub fn writes(&self) -> &[Write]
        ensures value { result.now ≡ self.now.own.writes }
        ensures rising { IsRising cell_of_write self.now.own.writes }
    {
        self.own.writes()
    }

    /// Its own writes, out of it, in order of table and key, one for each key.
    pub fn into_writes(self) -> Vec<Write>
        ensures value { result.items ≡ self.own.writes }
        ensures rising { IsRising cell_of_write self.own.writes }
    {
        let Open { own, .. } = self;
        own.into_writes()
    }

    /// Notes its commit. After NoMemory nothing has changed.
    pub fn record(&self, records: &mut Records) -> Result<(), NoMemory>
        requires stranger { is_kept records.old self.now.number ≡ false }
        requires limit { records.old.commits < last_number }
        ensures noted { OnOk result (HasNoted records.old self.now.number (is_batch self.now.stage) self.now.notes.notes self.now.own.writes records.new) }
        ensures err { OnErr result (records.new ≡ records.old) }
    {
        self.kind.record(records, self.own.writes())
    }

    /// The batch that it is, with its notes. None where it is a short.
    pub fn long(&self) -> Option<&LongTx>
        ensures { option_copied result ≡ long_of self.now }
    {
        self.kind.long()
    }

    /// The verdict on a short's tables by these holders, and on its look-ups over the latest rows. A
    /// batch passes.
    pub fn verdict(&self, store: &Store, preserve: &Preserve) -> Result<Verdict, NoMemory>
        ensures { IfOk result (λ verdict. self.now.stage ≡ stages.Short → (steps : List Step) → AreNotes steps self.now.notes.notes → AreMarkedAt (λ mark. rows_at mark store.now) steps self.now.notes.marks → (holder : ℕ → Option ℕ) → AreHolders preserve.now holder → IsVerdict holder (latest_rows store.now) steps (verdict_of verdict)) }
    {
        self.kind.verdict(store, preserve)
    }

    /// An operation on the rows at a mark, with the own writes over them, unless it has done as many
    /// as it may do. After NoMemory it is as before, but for room.
    pub fn operate(
        &mut self,
        alloc: Global,
        store: &Store,
        mark: u64,
        op: &Op,
    ) -> Result<Reply, NoMemory>
        ensures full { IfOk result (λ reply. most_operations ≤ length self.old.notes.notes → (reply ≡ LimitOps) × (self.new ≡ self.old)) }
        ensures done { IfOk result (λ reply. length self.old.notes.notes < most_operations → HasDone store.now mark self.old op.now reply self.new) }
        ensures kept { OnErr result (IsSameOpen self.old self.new) }
    {
        if self.kind.is_full() {
            return Ok(Reply::LimitOps);
        }
        self.kind.set_mark(mark)?;
        self.answer(alloc, store, mark, op)
    }

    /// The operation, whose notes are of the mark.
    fn answer(
        &mut self,
        alloc: Global,
        store: &Store,
        mark: u64,
        op: &Op,
    ) -> Result<Reply, NoMemory>
        requires limit { length self.old.notes.notes < most_operations }
        requires marked { self.old.stage ≡ stages.Short → self.old.notes.mark ≡ mark }
        ensures done { IfOk result (λ reply. HasDone store.now mark self.old op.now reply self.new) }
        ensures kept { OnErr result (IsSameOpen self.old self.new) }
    {
        match op {
            Op::Get { table, key } => self.get(store, mark, *table, key),
            Op::Scan { table, low, high } => self.scan(alloc, store, mark, *table, low, high),
            Op::Put { table, key, value } => self.write(Write {
                table: *table,
                key: key.copy()?,
                put: Some(value.copy()?),
            }),
            Op::Del { table, key } => self.write(Write {
                table: *table,
                key: key.copy()?,
                put: None,
            }),
        }
    }

    /// Gets the key's value: that of the own write, or else that of the version seen at the mark.
    fn get(&mut self, store: &Store, mark: u64, table: Table, key: &Key) -> Result<Reply, NoMemory>
        requires limit { length self.old.notes.notes < most_operations }
        requires marked { self.old.stage ≡ stages.Short → self.old.notes.mark ≡ mark }
        ensures done { IfOk result (λ reply. HasDone store.now mark self.old (Get table key.now) reply self.new) }
        ensures kept { OnErr result (IsSameOpen self.old self.new) }
    {
        if let Some(write) = self.own.own(table, key) {
            let reply = answer_of(write.put.as_ref())?;
            self.kind.note_get(table, key.copy()?, None, true)?;
            return Ok(reply);
        }
        let seen = store.get_at(table, key, mark);
        let reply = answer_by(seen)?;
        let look = look_by(key, seen)?;
        self.kind.note_get(table, key.copy()?, look, false)?;
        Ok(reply)
    }

    /// Scans a range of the table: the rows at the mark, with the own writes over them.
    fn scan(
        &mut self,
        alloc: Global,
        store: &Store,
        mark: u64,
        table: Table,
        low: &Bound,
        high: &Bound,
    ) -> Result<Reply, NoMemory>
        requires limit { length self.old.notes.notes < most_operations }
        requires marked { self.old.stage ≡ stages.Short → self.old.notes.mark ≡ mark }
        ensures done { IfOk result (λ reply. HasDone store.now mark self.old (Scan table low.now high.now) reply self.new) }
        ensures kept { OnErr result (IsSameOpen self.old self.new) }
    {
        let Scanned { rows, looks } = store.scan_at(alloc, table, low, high, mark)?;
        let rows = self.own.merge(alloc, table, low, high, rows)?;
        let own = self.own.keys_between(alloc, table, low, high)?;
        self.kind
            .note_scan(table, low.copy()?, high.copy()?, looks, own)?;
        Ok(Reply::Rows {
            rows: RowList::from_vec(rows),
        })
    }

    /// Notes the write and keeps it with the own ones.
    fn write(&mut self, write: Write) -> Result<Reply, NoMemory>
        requires limit { length self.old.notes.notes < most_operations }
        ensures answer { IfOk result (λ reply. reply ≡ Done) }
        ensures number { OnOk result (self.new.number ≡ self.old.number) }
        ensures stage { OnOk result (self.new.stage ≡ self.old.stage) }
        ensures noted { OnOk result (self.new.notes ≡ with_note self.old.notes (record { table = write.table; reach = Nothing; write = Some write.key })) }
        ensures own { OnOk result (self.new.own.writes ≡ put_in_order cell_of_write write self.old.own.writes) }
        ensures kept { OnErr result (IsSameOpen self.old self.new) }
    {
        self.own.reserve_one()?;
        self.kind.note_write(write.table, write.key.copy()?)?;
        self.own.put(write);
        Ok(Reply::Done)
    }
}

/// What a get answers of the value.
fn answer_of(value: Option<&Value>) -> Result<Reply, NoMemory>
    ensures { IfOk result (λ reply. reply ≡ answered (option_copied value.entry)) }
{
    match value {
        Some(value) => Ok(Reply::Found {
            value: value.copy()?,
        }),
        None => Ok(Reply::Absent),
    }
}

/// What a get answers of the version that it sees.
fn answer_by(seen: Option<&Version>) -> Result<Reply, NoMemory>
    ensures { IfOk result (λ reply. reply ≡ answered (put_by (option_copied seen.entry))) }
{
    match seen {
        Some(version) => answer_of(version.put.as_ref()),
        None => Ok(Reply::Absent),
    }
}

/// The look of the key by the version that is seen.
fn look_by(key: &Key, seen: Option<&Version>) -> Result<Option<Look>, NoMemory>
    ensures { IfOk result (λ look. look ≡ look_of_version key.now (option_copied seen.entry)) }
{
    match seen {
        Some(version) => Ok(Some(Look {
            key: key.copy()?,
            writer: version.writer,
            gone: version.put.is_none(),
        })),
        None => Ok(None),
    }
}
