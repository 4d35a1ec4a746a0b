//! What an engine keeps, and what it tells of its core.

ghost use Rattle.std.specs.Prelude.{◌≡◌, List, IfOk, is_some};
ghost use Rattle.ltx_model.specs.declared.replies.Entry.{Entry};
ghost use Rattle.ltx_model.specs.States.{Base, active_of, order};
ghost use Rattle.ltx_model.specs.Histories.{state};
ghost use Rattle.ltx_engine.specs.Stands.{StandsFor};

use ltx_core::Core;
use ltx_log::Log;
use ltx_model::memory::NoMemory;
use ltx_model::numbers::{Session, Tx};
use ltx_outside::Disk;
use std::alloc::Global;
use std::marker::Model;

/// A core, and the log of its flushes on a lent disk.
#[derive(Drop)]
pub struct Engine<'d, D: Disk> {
    pub(crate) alloc: Global,
    pub(crate) core: Core,
    pub(crate) log: Log<'d, D>,
}

impl<'d, D: Disk> Model for Engine<'d, D> {
    ghost use Rattle.ltx_engine.specs.Views.{EngineView};
    ghost use Rattle.ltx_engine.specs.Steps.{IsRunning};

    ghost Value = { EngineView };

    ghost view = { λ e. record { core = e.core; log = e.log } };

    ghost invariant = { λ e. IsRunning (record { core = e.core; log = e.log }) };
}

impl<'d, D: Disk> Engine<'d, D> {
    /// The core: its store, agenda and records are those of the history.
    pub fn core(&self) -> &Core
        ensures { result.now ≡ self.now.core }
    {
        &self.core
    }

    /// Gives the disk back as it is. It calls no device.
    pub fn into_disk(self) -> &'d mut D
        ensures name { result.ghost_name ≡ self.entry.log.loan }
        ensures content { D.content result.now ≡ self.entry.log.content }
        ensures crashes { D.crashes result.now ≡ self.entry.log.crashes }
        ensures faults { D.faults result.now ≡ self.entry.log.faults }
    {
        let Engine { log, .. } = self;
        log.into_disk()
    }

    /// The committed transactions in the serial order.
    pub fn order(&self) -> Result<Vec<Tx>, NoMemory>
        ensures value { IfOk result (λ txs. (base : Base) (history : List Entry) → StandsFor self.now base history → txs.items ≡ order (state base history)) }
    {
        self.core.order()
    }

    /// The current epoch.
    pub fn epoch(&self) -> u32
        ensures counter { result ≡ self.now.core.counters.epoch }
        ensures value { (base : Base) (history : List Entry) → StandsFor self.now base history → result ≡ (state base history).epoch }
    {
        self.core.epoch()
    }

    /// The epoch through which everything is durable: the log has its commits, and those of the epochs before it.
    pub fn durable(&self) -> u32
        ensures kept { result ≡ self.now.core.log.durable }
        ensures value { (base : Base) (history : List Entry) → StandsFor self.now base history → result ≡ (state base history).durable }
    {
        self.core.durable()
    }

    /// Whether the session has an open transaction.
    pub fn has_tx(&self, session: Session) -> bool
        ensures value { (base : Base) (history : List Entry) → StandsFor self.now base history → result ≡ is_some (active_of (state base history) session) }
    {
        self.core.has_tx(session)
    }
}
