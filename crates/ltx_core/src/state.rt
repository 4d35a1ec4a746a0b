//! The state of a run: what a core keeps, and what it lends.
//!
//! It keeps the counters, the agenda with the number of commits, the versions of all keys, the
//! batches that have begun, each open transaction, what is recorded of commits beside live
//! batches, and the events that are not durable yet. The number of commits is the newest mark.

ghost use Rattle.std.specs.Prelude.{◌≡◌, [], ℕ, not, List, filter, IfOk, is_some};
ghost use Rattle.ltx_model.specs.declared.replies.Entry.{Entry};
ghost use Rattle.ltx_model.specs.States.{Base, base_of, active_of, latest, order};
ghost use Rattle.ltx_model.specs.Histories.{state};
ghost use Rattle.ltx_model.specs.Holders.{is_entered};
ghost use Rattle.ltx_model.specs.Listings.{numbers_of};
ghost use Rattle.ltx_model.specs.Records.{AreRecordsOf};
ghost use Rattle.ltx_store.specs.Kept.{latest_rows};
ghost use Rattle.ltx_core.specs.Stands.{StandsFor};

use crate::install::load;
use ltx_agenda::agenda::Agenda;
use ltx_events::events::Events;
use ltx_forward::decide::Live;
use ltx_model::base::Recovered;
use ltx_model::memory::NoMemory;
use ltx_model::numbers::{Session, Tx};
use ltx_open::opens::Opens;
use ltx_preserve::preserve::Preserve;
use ltx_reads::records::Records;
use ltx_store::store::Store;
use std::alloc::Global;
use std::marker::Model;

/// The last epoch that a run may reach.
pub(crate) const LAST_EPOCH: u32 = 4_294_967_294;

/// The state of a run.
#[derive(Debug, Drop)]
pub struct Core {
    pub(crate) alloc: Global,
    pub(crate) epoch: u32,
    pub(crate) durable: u32,
    pub(crate) last: u64,
    pub(crate) agenda: Agenda,
    pub(crate) commits: u64,
    /// The number of the last commit of a batch, or 0.
    pub(crate) batch: u64,
    pub(crate) store: Store,
    pub(crate) preserve: Preserve,
    pub(crate) opens: Opens,
    /// What was looked up and written by those who committed while a batch was live.
    pub(crate) records: Records,
    /// The batches that have begun, pending or live, in the order of their begins, with their areas.
    pub(crate) areas: Vec<Live>,
    /// The slots and commits of the epochs that are not durable yet.
    pub(crate) events: Events,
}

impl Model for Core {
    ghost use Rattle.ltx_core.specs.Views.{CoreView};
    ghost use Rattle.ltx_core.specs.Steps.{IsCore};

    ghost Value = { CoreView };

    ghost view = { λ c. record { counters = record { epoch = c.epoch; last = c.last }; list = c.agenda.list; room = c.agenda.room; commits = c.commits; batch = c.batch; store = c.store; preserve = c.preserve; opens = c.opens; records = c.records; areas = c.areas.items; log = record { durable = c.durable; events = c.events } } };

    ghost invariant = { λ c. IsCore (record { counters = record { epoch = c.epoch; last = c.last }; list = c.agenda.list; room = c.agenda.room; commits = c.commits; batch = c.batch; store = c.store; preserve = c.preserve; opens = c.opens; records = c.records; areas = c.areas.items; log = record { durable = c.durable; events = c.events } }) };
}

impl Core {
    /// A core that has answered nothing yet, over these rows, this durable epoch and this last number.
    pub fn new(alloc: Global, base: Recovered) -> Result<Core, NoMemory>
        ensures stands { IfOk result (λ core. (gate : ℕ) → StandsFor core (base_of base gate) []) }
    {
        let durable = base.epoch();
        let last = base.last();
        Ok(Core {
            alloc,
            epoch: durable + 1,
            durable,
            last,
            agenda: Agenda::new(alloc),
            commits: 0,
            batch: 0,
            store: load(alloc, base.into_rows())?,
            preserve: Preserve::new(alloc),
            opens: Opens::new(alloc),
            records: Records::new(alloc),
            areas: Vec::new(alloc),
            events: Events::new(alloc),
        })
    }

    /// The committed transactions in the serial order: the members of the agenda without the slots
    /// of live batches.
    pub fn order(&self) -> Result<Vec<Tx>, NoMemory>
        ensures value { IfOk result (λ txs. (base : Base) (history : List Entry) → StandsFor self.now base history → txs.items ≡ order (state base history)) }
    {
        without_slots(self.alloc, &self.agenda.list(self.alloc)?, &self.preserve)
    }

    /// The agenda: the committed transactions and the slots of live batches, in order.
    pub fn agenda(&self) -> &Agenda
        ensures value { result.now.list ≡ self.now.list }
        ensures numbers { (base : Base) (history : List Entry) → StandsFor self.now base history → result.now.list ≡ numbers_of (state base history) }
    {
        &self.agenda
    }

    /// The store: its rows at the newest mark are the latest rows.
    pub fn store(&self) -> &Store
        ensures value { result.now ≡ self.now.store }
        ensures rows { (base : Base) (history : List Entry) → StandsFor self.now base history → latest_rows result.now ≡ latest (state base history) }
    {
        &self.store
    }

    /// The records of commits: each committed member that stands from the lowest place on that a live batch can reach is kept,
    /// with all that it looked up and wrote.
    pub fn records(&self) -> &Records
        ensures value { result.now ≡ self.now.records }
        ensures kept { (base : Base) (history : List Entry) → StandsFor self.now base history → AreRecordsOf (state base history) result.now }
    {
        &self.records
    }

    /// The current epoch.
    pub fn epoch(&self) -> u32
        ensures counter { result ≡ self.now.counters.epoch }
        ensures value { (base : Base) (history : List Entry) → StandsFor self.now base history → result ≡ (state base history).epoch }
    {
        self.epoch
    }

    /// The epoch through which everything is durable.
    pub fn durable(&self) -> u32
        ensures kept { result ≡ self.now.log.durable }
        ensures value { (base : Base) (history : List Entry) → StandsFor self.now base history → result ≡ (state base history).durable }
    {
        self.durable
    }

    /// Whether the session has an open transaction.
    pub fn has_tx(&self, session: Session) -> bool
        ensures value { (base : Base) (history : List Entry) → StandsFor self.now base history → result ≡ is_some (active_of (state base history) session) }
    {
        self.opens.has(session)
    }
}

/// Those of the numbers that are not entered as batches that have begun.
fn without_slots(alloc: Global, members: &[Tx], preserve: &Preserve) -> Result<Vec<Tx>, NoMemory>
    ensures { IfOk result (λ txs. txs.items ≡ filter (λ n. not (is_entered preserve.now n)) members.now) }
{
    let mut txs = Vec::new(alloc);
    for tx in members {
        if !preserve.has(*tx) {
            txs.push(*tx)?;
        }
    }
    Ok(txs)
}
