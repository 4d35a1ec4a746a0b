//! The list that events give when they are played, one after another.

ghost use Rattle.std.specs.Prelude.{◌≡◌, ◌≢◌, [], ◌∷◌, ◌++◌, map, true, false, None, OnOk, OnErr, IfOk};
ghost use Rattle.std.specs.List.{list_any};
ghost use Rattle.ltx_model.specs.Played.{PlayedSlot, PlayedCommit, is_played, commit_there, without_played, put_before, batch_played, after_event, after_events};
ghost use Rattle.ltx_model.specs.Recovery.{is_played_slot, is_target_played, is_lawful_move, unlawful_in};
ghost use Rattle.ltx_frame.specs.Events.{target_of, event_of, events_of};
ghost use Rattle.ltx_recover.specs.Members.{member_of};
ghost use Rattle.ltx_recover.specs.Orders.{shown};
ghost use Rattle.ltx_recover.specs.Stamps.{stamped_in, stamped_all};

use crate::member::{Member, Members};
use crate::stamp::{Stamp, put_stamps};
use ltx_agenda::agenda::Agenda;
use ltx_frame::event::Event;
use ltx_model::memory::NoMemory;
use ltx_model::numbers::Tx;
use ltx_model::writes::{Target, WriteList};
use std::alloc::Global;
use std::marker::Model;

/// Slots and committed transactions, in serial order. Each is appended to the agenda as a slot, so that all stand in lanes
/// there, where a number is found without a walk.
#[derive(Drop)]
pub(crate) struct Order<'a> {
    agenda: Agenda,
    members: Members<'a>,
}

// Clauses see the list.
impl<'a> Model for Order<'a> {
    ghost use Rattle.std.specs.Prelude.{List};
    ghost use Rattle.ltx_model.specs.Played.{Played};
    ghost use Rattle.ltx_recover.specs.Members.{member_of};
    ghost use Rattle.ltx_recover.specs.Orders.{played_of, IsOrder};

    ghost Value = { List Played };

    ghost view = { λ o. played_of (member_of o.members) o.agenda.list };

    ghost invariant = { λ o. IsOrder (member_of o.members) o.agenda.list };
}

impl<'a> Order<'a> {
    /// An empty list, which takes no memory.
    pub(crate) fn new(alloc: Global) -> Order<'a>
        ensures { result ≡ [] }
    {
        Order {
            agenda: Agenda::new(alloc),
            members: Members::new(alloc),
        }
    }

    /// Whether the number stands in the list.
    fn has(&self, tx: Tx) -> bool
        ensures { result ≡ list_any (is_played tx) self.now }
    {
        self.members.get(tx).is_some()
    }

    /// Whether the number stands in the list as the slot of a batch.
    fn has_slot(&self, tx: Tx) -> bool
        ensures { result ≡ list_any (is_played_slot tx) self.now }
    {
        match self.members.get(tx) {
            Some(Member::Slot) => true,
            Some(Member::Committed(_)) => false,
            None => false,
        }
    }

    /// Whether a batch that stands in the list may be put there: at its own place, or before a member that stands before it.
    fn has_target(&self, tx: Tx, target: Target) -> bool
        requires { list_any (is_played tx) self.now ≡ true }
        ensures { result ≡ is_target_played self.now tx (target_of target) }
    {
        match target {
            Target::Home => true,
            Target::Before(target) => self.has(target) && self.agenda.before(target, tx),
        }
    }

    /// Appends the slot of a batch. After NoMemory the list is as before.
    fn append_slot(&mut self, tx: Tx) -> Result<(), NoMemory>
        requires { list_any (is_played tx) self.old ≡ false }
        ensures ok { OnOk result (self.new ≡ self.old ++ PlayedSlot tx ∷ []) }
        ensures err { OnErr result (self.new ≡ self.old) }
    {
        self.agenda.reserve(1)?;
        self.members.put(tx, Member::Slot)?;
        self.agenda.append_slot(tx);
        Ok(())
    }

    /// Appends a committed transaction. After NoMemory the list is as before.
    fn append_commit(&mut self, tx: Tx, writes: &'a WriteList) -> Result<(), NoMemory>
        requires { list_any (is_played tx) self.old ≡ false }
        ensures ok { OnOk result (self.new ≡ self.old ++ PlayedCommit tx writes.now ∷ []) }
        ensures err { OnErr result (self.new ≡ self.old) }
    {
        self.agenda.reserve(1)?;
        self.members.put(tx, Member::Committed(writes))?;
        self.agenda.append_slot(tx);
        Ok(())
    }

    /// Commits a batch where its slot stands. After NoMemory the list is as before.
    fn commit_home(&mut self, tx: Tx, writes: &'a WriteList) -> Result<(), NoMemory>
        requires { list_any (is_played tx) self.old ≡ true }
        ensures ok { OnOk result (self.new ≡ map (commit_there tx writes.now) self.old) }
        ensures err { OnErr result (self.new ≡ self.old) }
    {
        self.members.put(tx, Member::Committed(writes))
    }

    /// Commits a batch, moved immediately before another member. After NoMemory the list is as before.
    fn commit_before(&mut self, tx: Tx, target: Tx, writes: &'a WriteList) -> Result<(), NoMemory>
        requires member { list_any (is_played tx) self.old ≡ true }
        requires target { list_any (is_played target) self.old ≡ true }
        requires differ { tx ≢ target }
        ensures ok { OnOk result (self.new ≡ put_before (PlayedCommit tx writes.now) target (without_played tx self.old)) }
        ensures err { OnErr result (self.new ≡ self.old) }
    {
        self.agenda.reserve_before(target)?;
        self.members.put(tx, Member::Committed(writes))?;
        self.agenda.move_before(tx, target);
        Ok(())
    }

    /// Commits a batch whose target was tested. After NoMemory the list is as before.
    fn commit(&mut self, tx: Tx, target: Target, writes: &'a WriteList) -> Result<(), NoMemory>
        requires member { list_any (is_played tx) self.old ≡ true }
        requires target { is_target_played self.old tx (target_of target) ≡ true }
        ensures ok { OnOk result (self.new ≡ batch_played tx writes.now (target_of target) self.old) }
        ensures err { OnErr result (self.new ≡ self.old) }
    {
        match target {
            Target::Home => self.commit_home(tx, writes),
            Target::Before(target) => self.commit_before(tx, target, writes),
        }
    }

    /// Plays an event behind a frame of this epoch, where the event is lawful, and answers whether it is. Else the list stays.
    fn play(&mut self, closed: u32, event: &'a Event) -> Result<bool, NoMemory>
        ensures lawful { IfOk result (λ lawful. lawful ≡ is_lawful_move closed self.old (event_of event.now)) }
        ensures played { IfOk result (λ lawful. lawful ≡ true → self.new ≡ after_event self.old (event_of event.now)) }
    {
        match event {
            Event::Slot { tx } => {
                if self.has(*tx) {
                    return Ok(false);
                }
                self.append_slot(*tx)?;
                Ok(true)
            }
            Event::Short { tx, epoch, writes } => {
                if self.has(*tx) || *epoch <= closed {
                    return Ok(false);
                }
                self.append_commit(*tx, writes)?;
                Ok(true)
            }
            Event::Batch {
                tx,
                epoch,
                target,
                writes,
            } => {
                if !self.has_slot(*tx) || !self.has_target(*tx, *target) || *epoch <= closed {
                    return Ok(false);
                }
                self.commit(*tx, *target, writes)?;
                Ok(true)
            }
        }
    }

    /// Plays the events of a frame behind a frame of this epoch, up to the first one that is not lawful. It answers that
    /// one's number, counted from 0, or None where all are lawful.
    pub(crate) fn play_all(
        &mut self,
        closed: u32,
        events: &'a [Event],
    ) -> Result<Option<u64>, NoMemory>
        ensures found { IfOk result (λ found. found ≡ unlawful_in closed self.old 0 (events_of events.now)) }
        ensures played { IfOk result (λ found. found ≡ None → self.new ≡ after_events self.old (events_of events.now)) }
    {
        let _ = events.len();
        let mut number = 0u64;
        let mut rest = events;
        while let Some((event, later)) = rest.split_first() {
            if !self.play(closed, event)? {
                return Ok(Some(number));
            }
            number += 1;
            rest = later;
        }
        Ok(None)
    }

    /// The writes of the committed transactions, in list order.
    pub(crate) fn stamps(&self, alloc: Global) -> Result<Vec<Stamp<'a>>, NoMemory>
        ensures { IfOk result (λ stamps. stamped_in stamps.items ≡ stamped_all self.now) }
    {
        let list = self.agenda.list(alloc)?;
        let mut stamps = Vec::new(alloc);
        for tx in &list {
            put_member(&self.members, *tx, &mut stamps)?;
        }
        Ok(stamps)
    }
}

/// Appends the writes of a member, where it is committed.
fn put_member<'a>(
    members: &Members<'a>,
    tx: Tx,
    stamps: &mut Vec<Stamp<'a>>,
) -> Result<(), NoMemory>
    ensures { OnOk result (stamped_in stamps.new.items ≡ stamped_in stamps.old.items ++ stamped_all (shown tx (member_of members.now tx) ∷ [])) }
{
    match members.get(tx) {
        Some(Member::Committed(writes)) => put_stamps(tx, writes.items(), stamps),
        Some(Member::Slot) => Ok(()),
        None => Ok(()),
    }
}
