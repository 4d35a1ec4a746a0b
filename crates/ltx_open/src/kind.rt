//! The kind of an open transaction, with its number and its notes.

ghost use Rattle.std.specs.Prelude.{◌≡◌, ◌<◌, nat_le, false, [], ◌∷◌, length, OnOk, OnErr, IfOk, ℕ, List, Option, Some, None, option_copied};
ghost use Rattle.ltx_model.specs.Limits.{last_number, most_operations};
ghost use Rattle.ltx_model.specs.NoteLists.{with_note};
ghost use Rattle.ltx_model.specs.Notes.{AreNotes};
ghost use Rattle.ltx_model.specs.Records.{is_kept};
ghost use Rattle.ltx_model.specs.States.{Step};
ghost use Rattle.ltx_model.specs.declared.looked.Reach.TheVariants.{Nothing, Point, Range};
ghost use Rattle.ltx_model.specs.Verdicts.{IsVerdict};
ghost use Rattle.ltx_reads.specs.Noted.{HasNoted};
ghost use Rattle.ltx_store.specs.Kept.{rows_at, latest_rows};
ghost use Rattle.ltx_validate.specs.Verdicts.{verdict_of, AreMarkedAt, AreHolders};
ghost use Rattle.ltx_open.specs.declared.stage.Stage.TheVariants as stages;
ghost use Rattle.ltx_open.specs.Views.{is_batch, number_of, notes_of, stage_of, live_at, long_by};

use crate::stage::{Declared, Stage};
use ltx_long::long::LongTx;
use ltx_model::bytes::{Bound, Key};
use ltx_model::looked::Looked;
use ltx_model::memory::NoMemory;
use ltx_model::numbers::{Table, Tx};
use ltx_model::writes::{Look, Write};
use ltx_preserve::preserve::Preserve;
use ltx_reads::records::Records;
use ltx_short::short::ShortTx;
use ltx_store::store::Store;
use ltx_validate::check::{Verdict, check_short};

/// How many operations a transaction may have.
const MOST: u32 = 65_536;

/// An open transaction's kind.
#[derive(Debug, Drop)]
pub(crate) enum Kind {
    Short(ShortTx),
    Long(LongTx),
}

impl Kind {
    /// Its number.
    pub(crate) fn number(&self) -> Tx
        ensures { result ≡ number_of self.now }
    {
        match self {
            Kind::Short(tx) => tx.tx(),
            Kind::Long(tx) => tx.tx(),
        }
    }

    /// Whether it has as many operations as it may have.
    pub(crate) fn is_full(&self) -> bool
        ensures { result ≡ nat_le most_operations (length (notes_of self.now).notes) }
    {
        match self {
            Kind::Short(tx) => tx.count() >= MOST,
            Kind::Long(tx) => tx.count() >= MOST,
        }
    }

    /// What it is.
    pub(crate) fn stage(&self) -> Stage
        ensures { result ≡ stage_of self.now }
    {
        match self {
            Kind::Short(_) => Stage::Short,
            Kind::Long(tx) => {
                let declared = Declared {
                    writes: tx.writes(),
                    reads: tx.reads(),
                    from: tx.from(),
                };
                match tx.mark() {
                    None => Stage::Pending(declared),
                    Some(mark) => Stage::Live(declared, mark),
                }
            }
        }
    }

    /// The next notes of a short are of this mark; a batch's are all of its slot's. After NoMemory
    /// nothing has changed.
    pub(crate) fn set_mark(&mut self, mark: u64) -> Result<(), NoMemory>
        ensures number { number_of self.new ≡ number_of self.old }
        ensures stage { stage_of self.new ≡ stage_of self.old }
        ensures marked { OnOk result (stage_of self.old ≡ stages.Short → (notes_of self.new).mark ≡ mark) }
        ensures notes { (notes_of self.new).notes ≡ (notes_of self.old).notes }
        ensures marks { (notes_of self.new).marks ≡ (notes_of self.old).marks }
    {
        match self {
            Kind::Short(tx) => tx.set_mark(mark),
            Kind::Long(_) => Ok(()),
        }
    }

    /// A pending batch becomes live at this mark; what is live or a short stays as it is.
    pub(crate) fn go_live(&mut self, mark: u64)
        ensures number { number_of self.new ≡ number_of self.old }
        ensures stage { stage_of self.new ≡ live_at mark (stage_of self.old) }
        ensures notes { notes_of self.new ≡ notes_of self.old }
    {
        if let Kind::Long(tx) = self {
            if tx.mark().is_none() {
                tx.go_live(mark);
            }
        }
    }

    /// Notes a get. After NoMemory nothing has changed.
    pub(crate) fn note_get(
        &mut self,
        table: Table,
        key: Key,
        look: Option<Look>,
        own: bool,
    ) -> Result<(), NoMemory>
        requires limit { length (notes_of self.old).notes < most_operations }
        ensures number { number_of self.new ≡ number_of self.old }
        ensures stage { stage_of self.new ≡ stage_of self.old }
        ensures noted { OnOk result (notes_of self.new ≡ with_note (notes_of self.old) (record { table = table; reach = Point key look own; write = None })) }
        ensures kept { OnErr result (self.new ≡ self.old) }
    {
        match self {
            Kind::Short(tx) => tx.note_get(table, key, look, own),
            Kind::Long(tx) => tx.note_get(table, key, look, own),
        }
    }

    /// Notes a scan. After NoMemory nothing has changed.
    pub(crate) fn note_scan(
        &mut self,
        table: Table,
        low: Bound,
        high: Bound,
        looks: Vec<Look>,
        own: Vec<Key>,
    ) -> Result<(), NoMemory>
        requires limit { length (notes_of self.old).notes < most_operations }
        ensures number { number_of self.new ≡ number_of self.old }
        ensures stage { stage_of self.new ≡ stage_of self.old }
        ensures noted { OnOk result (notes_of self.new ≡ with_note (notes_of self.old) (record { table = table; reach = Range low high looks.items own.items; write = None })) }
        ensures kept { OnErr result (self.new ≡ self.old) }
    {
        match self {
            Kind::Short(tx) => tx.note_scan(table, low, high, looks, own),
            Kind::Long(tx) => tx.note_scan(table, low, high, looks, own),
        }
    }

    /// Notes a put or a deletion. After NoMemory nothing has changed.
    pub(crate) fn note_write(&mut self, table: Table, key: Key) -> Result<(), NoMemory>
        requires limit { length (notes_of self.old).notes < most_operations }
        ensures number { number_of self.new ≡ number_of self.old }
        ensures stage { stage_of self.new ≡ stage_of self.old }
        ensures noted { OnOk result (notes_of self.new ≡ with_note (notes_of self.old) (record { table = table; reach = Nothing; write = Some key })) }
        ensures kept { OnErr result (self.new ≡ self.old) }
    {
        match self {
            Kind::Short(tx) => tx.note_write(table, key),
            Kind::Long(tx) => tx.note_write(table, key),
        }
    }

    /// Notes its commit, with these writes. After NoMemory nothing has changed.
    pub(crate) fn record(&self, records: &mut Records, writes: &[Write]) -> Result<(), NoMemory>
        requires stranger { is_kept records.old (number_of self.now) ≡ false }
        requires limit { records.old.commits < last_number }
        ensures noted { OnOk result (HasNoted records.old (number_of self.now) (is_batch (stage_of self.now)) (notes_of self.now).notes writes.now records.new) }
        ensures err { OnErr result (records.new ≡ records.old) }
    {
        match self {
            Kind::Short(tx) => records.add_short(tx, writes),
            Kind::Long(tx) => records.add_long(tx, writes),
        }
    }

    /// The batch, or None where it is a short.
    pub(crate) fn long(&self) -> Option<&LongTx>
        ensures { option_copied result ≡ long_by (stage_of self.now) (number_of self.now) (notes_of self.now) }
    {
        match self {
            Kind::Short(_) => None,
            Kind::Long(tx) => Some(tx),
        }
    }

    /// The verdict on a short's tables by these holders, and on its look-ups over the latest rows. A
    /// batch passes.
    pub(crate) fn verdict(&self, store: &Store, preserve: &Preserve) -> Result<Verdict, NoMemory>
        ensures { IfOk result (λ verdict. stage_of self.now ≡ stages.Short → (steps : List Step) → AreNotes steps (notes_of self.now).notes → AreMarkedAt (λ mark. rows_at mark store.now) steps (notes_of self.now).marks → (holder : ℕ → Option ℕ) → AreHolders preserve.now holder → IsVerdict holder (latest_rows store.now) steps (verdict_of verdict)) }
    {
        match self {
            Kind::Short(tx) => check_short(tx, store, preserve),
            Kind::Long(_) => Ok(Verdict::Pass),
        }
    }
}
