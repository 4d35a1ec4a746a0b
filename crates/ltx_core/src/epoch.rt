//! The next epoch: every pending batch becomes live, with a slot in the agenda.

ghost use Rattle.std.specs.Prelude.{◌≡◌, ◌≤◌, ◌+◌, ◌++◌, map};
ghost use Rattle.ltx_model.specs.declared.commands.Command.TheVariants.{Epoch};
ghost use Rattle.ltx_model.specs.Frames.{SlotEvent};
ghost use Rattle.ltx_core.specs.Views.{pending};
ghost use Rattle.ltx_core.specs.Epochs.{pending_numbers, AreNew};
ghost use Rattle.ltx_core.specs.Steps.{IsAnswered};

use crate::state::{Core, LAST_EPOCH};
use ltx_agenda::agenda::Agenda;
use ltx_events::events::Events;
use ltx_model::replies::Reply;
use ltx_preserve::preserve::Preserve;

impl Core {
    /// The next epoch, where there is one. The pending batches get their slots in the order of their
    /// numbers, read what is committed by now, and hold their tables. The epoch that ends is closed:
    /// the next flush may write its events. It takes no memory.
    pub(crate) fn advance(&mut self) -> Reply
        ensures { IsAnswered self.old Epoch result self.new }
    {
        if self.epoch == LAST_EPOCH {
            return Reply::LimitEpoch;
        }
        self.epoch += 1;
        append_slots(&mut self.agenda, &self.preserve);
        self.events.close();
        keep_slots(&mut self.events, &self.preserve);
        self.opens.go_live(self.commits);
        self.preserve.go_live_all();
        Reply::Advanced { epoch: self.epoch }
    }
}

/// Appends a slot for each pending batch.
fn append_slots(agenda: &mut Agenda, preserve: &Preserve)
    requires room { pending preserve.now ≤ agenda.old.room }
    requires fresh { AreNew agenda.old.list (pending_numbers preserve.now) }
    ensures list { agenda.new.list ≡ agenda.old.list ++ pending_numbers preserve.now }
    ensures room { agenda.new.room + pending preserve.now ≡ agenda.old.room }
{
    for place in 0..preserve.len() {
        if let Some(tx) = preserve.pending_at(place) {
            agenda.append_slot(tx);
        }
    }
}

/// Keeps the slot of each pending batch for the log.
fn keep_slots(events: &mut Events, preserve: &Preserve)
    requires room { pending preserve.now ≤ events.old.room }
    ensures closed { events.new.closed ≡ events.old.closed }
    ensures present { events.new.present ≡ events.old.present ++ map SlotEvent (pending_numbers preserve.now) }
    ensures room { events.new.room + pending preserve.now ≡ events.old.room }
    ensures last { events.new.last ≡ events.old.last }
{
    for place in 0..preserve.len() {
        if let Some(tx) = preserve.pending_at(place) {
            events.slot(tx);
        }
    }
}
