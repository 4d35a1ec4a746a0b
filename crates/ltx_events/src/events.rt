//! Events that are not durable yet, for the core.
//!
//! They stand in one vector, in time. Those of closed epochs stand in front, and a count tells how many they are. The
//! frame of a flush copies them, and when it is durable they are forgotten.

ghost use Rattle.std.specs.Prelude.{◌≡◌, ◌+◌, ◌<◌, ◌≤◌, ◌^◌, [], ◌∷◌, ◌++◌, length, drop, vec_capacity, OnOk, OnErr, IfOk};
ghost use Rattle.std.specs.List.{AllByRecursion};
ghost use Rattle.ltx_model.specs.Limits.{most_operations};
ghost use Rattle.ltx_model.specs.Keys.{IsRising};
ghost use Rattle.ltx_model.specs.Operations.{cell_of_write};
ghost use Rattle.ltx_model.specs.Frames.{SlotEvent, ShortEvent, BatchEvent};
ghost use Rattle.ltx_model.specs.Played.{IsCommitUpTo};
ghost use Rattle.ltx_model.specs.Spellings.{IsLogEpoch};
ghost use Rattle.ltx_frame.specs.Events.{target_of, event_of, events_of, frame_of};
ghost use Rattle.ltx_frame.specs.Orders.{epoch_past};
ghost use Rattle.ltx_events.specs.Kept.{IsKept, AreInTime};

use crate::copies::copies_of;
use crate::limits;
use ltx_frame::event::Event;
use ltx_frame::frame::Frame;
use ltx_model::memory::NoMemory;
use ltx_model::numbers::Tx;
use ltx_model::writes::{Target, WriteList};
use std::alloc::Global;
use std::marker::Model;

/// Events that are not durable yet, in time: first those of closed epochs, then those of the present one.
#[derive(Debug, Drop)]
pub struct Events {
    events: Vec<Event>,
    closed: usize,
    room: usize,
    last: u32,
}

// Clauses see the events of closed epochs and those of the present one, how many more can be kept without taking
// memory, and the epoch of the last commit.
impl Model for Events {
    ghost use Rattle.std.specs.Prelude.{vec_capacity};
    ghost use Rattle.ltx_events.specs.Kept.{Unsealed, AreUnsealed, unsealed_of};

    ghost Value = { Unsealed };

    ghost view = { λ e. unsealed_of e.events.items e.closed e.room e.last };

    ghost invariant = { λ e. AreUnsealed e.events.items (vec_capacity e.events) e.closed e.room e.last };
}

impl Events {
    /// No events, which takes no memory.
    pub fn new(alloc: Global) -> Events
        ensures closed { result.closed ≡ [] }
        ensures present { result.present ≡ [] }
        ensures room { result.room ≡ 0 }
        ensures last { result.last ≡ 0 }
    {
        Events {
            events: Vec::new(alloc),
            closed: 0,
            room: 0,
            last: 0,
        }
    }

    /// Makes room for so many more events. After NoMemory the events and the room are as before.
    pub fn reserve(&mut self, more: usize) -> Result<(), NoMemory>
        ensures closed { self.new.closed ≡ self.old.closed }
        ensures present { self.new.present ≡ self.old.present }
        ensures last { self.new.last ≡ self.old.last }
        ensures made { OnOk result (more ≤ self.new.room) }
        ensures kept { self.old.room ≤ self.new.room }
        ensures err { OnErr result (self.new.room ≡ self.old.room) }
        ensures fits { length (self.new.closed ++ self.new.present) + self.new.room < 2 ^ 64 }
    {
        if more <= self.room {
            return Ok(());
        }
        if self.events.len().checked_add(more).is_none() {
            return Err(NoMemory);
        }
        self.events.reserve(more)?;
        self.room = more;
        Ok(())
    }

    /// Keeps that a batch got its place, without taking memory.
    pub fn slot(&mut self, tx: Tx)
        requires room { 0 < self.old.room }
        ensures closed { self.new.closed ≡ self.old.closed }
        ensures present { self.new.present ≡ self.old.present ++ SlotEvent tx ∷ [] }
        ensures room { self.new.room + 1 ≡ self.old.room }
        ensures last { self.new.last ≡ self.old.last }
    {
        let last = self.last;
        self.push(Event::Slot { tx }, last);
    }

    /// Keeps the commit of a short, without taking memory. The writes stand in strictly rising order of table and key.
    pub fn short(&mut self, tx: Tx, epoch: u32, writes: WriteList)
        requires room { 0 < self.old.room }
        requires epoch { 1 ≤ epoch }
        requires climbs { self.old.last ≤ epoch }
        requires count { length writes ≤ most_operations }
        requires rising { IsRising cell_of_write writes }
        ensures closed { self.new.closed ≡ self.old.closed }
        ensures present { self.new.present ≡ self.old.present ++ ShortEvent tx epoch writes ∷ [] }
        ensures room { self.new.room + 1 ≡ self.old.room }
        ensures last { self.new.last ≡ epoch }
    {
        self.push(Event::Short { tx, epoch, writes }, epoch);
    }

    /// Keeps the commit of a batch, and where it was put, without taking memory. The writes stand in strictly rising
    /// order of table and key.
    pub fn batch(&mut self, tx: Tx, epoch: u32, target: Target, writes: WriteList)
        requires room { 0 < self.old.room }
        requires epoch { 1 ≤ epoch }
        requires climbs { self.old.last ≤ epoch }
        requires count { length writes ≤ most_operations }
        requires rising { IsRising cell_of_write writes }
        ensures closed { self.new.closed ≡ self.old.closed }
        ensures present { self.new.present ≡ self.old.present ++ BatchEvent tx epoch (target_of target) writes ∷ [] }
        ensures room { self.new.room + 1 ≡ self.old.room }
        ensures last { self.new.last ≡ epoch }
    {
        let event = Event::Batch {
            tx,
            epoch,
            target,
            writes,
        };
        self.push(event, epoch);
    }

    /// Keeps an event behind the others, after which the last commit is of this epoch.
    fn push(&mut self, event: Event, last: u32)
        requires room { 0 < self.old.room }
        requires kept { IsKept (event_of event) }
        requires climbs { self.old.last ≤ last }
        requires past { last ≡ epoch_past self.old.last (event_of event) }
        ensures closed { self.new.closed ≡ self.old.closed }
        ensures present { self.new.present ≡ self.old.present ++ event_of event ∷ [] }
        ensures room { self.new.room + 1 ≡ self.old.room }
        ensures last { self.new.last ≡ last }
    {
        self.events.push_reserved(event);
        self.room -= 1;
        self.last = last;
    }

    /// An epoch begins: the events that there are belong to closed epochs. It takes no memory.
    pub fn close(&mut self)
        ensures closed { self.new.closed ≡ self.old.closed ++ self.old.present }
        ensures present { self.new.present ≡ [] }
        ensures room { self.new.room ≡ self.old.room }
        ensures last { self.new.last ≡ self.old.last }
    {
        self.closed = self.events.len();
    }

    /// The frame of an epoch with a copy of each event of closed epochs. No commit among them is of a later epoch.
    pub fn sealed(&self, alloc: Global, epoch: u32) -> Result<Frame, NoMemory>
        requires epoch { IsLogEpoch epoch }
        requires closed { AllByRecursion (IsCommitUpTo epoch) self.now.closed }
        ensures frame { IfOk result (λ frame. frame ≡ record { epoch = epoch; events = self.now.closed }) }
    {
        let (closed, _) = self.events.split_at(self.closed);
        Ok(framed(epoch, copies_of(alloc, closed)?))
    }

    /// Forgets the events of closed epochs, which are durable, without taking memory. The last commit may be among them.
    pub fn forget(&mut self)
        ensures closed { self.new.closed ≡ [] }
        ensures present { self.new.present ≡ self.old.present }
        ensures room { self.new.room ≡ self.old.room }
        ensures last { self.new.last ≡ self.old.last }
    {
        drop_front(&mut self.events, self.closed);
        self.closed = 0;
    }
}

/// The frame of an epoch and these events, which are in time up to it.
fn framed(epoch: u32, events: Vec<Event>) -> Frame
    requires epoch { IsLogEpoch epoch }
    requires time { AreInTime epoch (events_of events.items) }
    ensures { result ≡ frame_of epoch events.items }
{
    limits::events(&events);
    match Frame::new(epoch, events) {
        Ok(frame) => frame,
        Err(_) => unreachable!(),
    }
}

/// Drops so many events in front.
fn drop_front(events: &mut Vec<Event>, count: usize)
    requires within { count ≤ length events.old.items }
    ensures items { events.new.items ≡ drop count events.old.items }
    ensures capacity { vec_capacity events.new ≡ vec_capacity events.old }
{
    events.drain(..count);
}

#[cfg(test)]
mod tests {
    use super::Events;
    use ltx_model::bytes::Key;
    use ltx_model::numbers::{Table, Tx};
    use ltx_model::writes::{Target, Write, WriteList};
    use std::test::Fail;

    #[test]
    fn each_frame_has_the_events_of_its_epochs(rt: HostRuntime) -> Result<(), Fail> {
        let alloc = rt.alloc();
        let batch = Tx::new(1).expect(&rt, "a number");
        let short = Tx::new(2).expect(&rt, "a number");
        let write = Write {
            table: Table::new(0).expect(&rt, "a table"),
            key: Key::from_slice(alloc, b"x")?.expect(&rt, "a key"),
            put: None,
        };
        let mut events = Events::new(alloc);
        events.reserve(3)?;
        events.slot(batch);
        events.short(short, 1, WriteList::from_vec(vec![in alloc; write]?));
        events.close();
        let target = Target::Before(short);
        events.batch(batch, 2, target, WriteList::from_vec(Vec::new(alloc)));
        assert_eq!(rt; events.sealed(alloc, 1)?.events().len(), 2);
        events.forget();
        events.close();
        assert_eq!(rt; events.sealed(alloc, 2)?.events().len(), 1);
        Ok(())
    }
}
