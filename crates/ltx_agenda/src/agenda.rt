//! The agenda, for the core.
//!
//! While a batch is live, what is appended stands in lanes, where each member is found by its
//! number and another may be put before it. When the last live batch has ended, all that stands
//! there is settled: nobody asks for it again, and it is one vector of numbers, in order.

ghost use Rattle.std.specs.Prelude.{◌≡◌, ◌≢◌, ◌+◌, ◌^◌, ◌<◌, ◌≤◌, ◌↔◌, ℕ, [], ◌∷◌, ◌++◌, length, OnOk, OnErr, IfOk, IfSome, IfNone, IsTrue, true, false, slice_get, slice_index_or};
ghost use Rattle.ltx_model.specs.Listings.{is_member, without, insert_before, place_of};
ghost use Rattle.ltx_agenda.specs.declared.spot.Spot.{Spot};
ghost use Rattle.ltx_agenda.specs.Lanes.{at_end, lanes_without, lanes_insert};
ghost use Rattle.ltx_agenda.specs.Placed.{HasRoomBefore, IsSpot, IsEarlier};

use crate::flat::{lengthen, place, put_before, recount, spot_of, take_out};
use crate::lanes::Lanes;
use crate::spot::Spot;
use ltx_model::memory::NoMemory;
use ltx_model::numbers::Tx;
use std::alloc::Global;
use std::marker::Model;

/// The members in serial order.
#[derive(Debug, Drop)]
pub struct Agenda {
    settled: Vec<Tx>,
    lens: Vec<usize>,
    open: usize,
    lanes: Lanes,
    room: usize,
}

// Clauses see the list, how many more can be appended without taking memory, the runs that stand in
// lanes, each with the room to put a member before one of its own, and the list as its lanes.
impl Model for Agenda {
    ghost use Rattle.std.specs.Prelude.{vec_capacity, ◌++◌};
    ghost use Rattle.ltx_agenda.specs.Runs.{rows_of};
    ghost use Rattle.ltx_agenda.specs.Lanes.{cut, lanes_from};
    ghost use Rattle.ltx_agenda.specs.Placed.{Listed, IsAgenda};

    ghost Value = { Listed };

    ghost view = { λ a. record { list = a.settled.items ++ a.lanes.list; room = a.room; runs = a.lanes.runs; lanes = cut a.settled.items a.lens.items (lanes_from a.lanes.ends (rows_of a.lanes.runs)) } };

    ghost invariant = { λ a. IsAgenda a.settled.items (vec_capacity a.settled) a.lens.items (vec_capacity a.lens) a.open a.lanes a.room };
}

impl Agenda {
    /// An empty list, which takes no memory.
    pub fn new(alloc: Global) -> Agenda
        ensures list { result.list ≡ [] }
        ensures room { result.room ≡ 0 }
        ensures lanes { result.lanes ≡ [] ∷ [] }
    {
        Agenda {
            settled: Vec::new(alloc),
            lens: Vec::new(alloc),
            open: 0,
            lanes: Lanes::new(alloc),
            room: 0,
        }
    }

    /// Makes room for so many more members. After NoMemory the list and the room are as before.
    pub fn reserve(&mut self, more: usize) -> Result<(), NoMemory>
        ensures list { self.new.list ≡ self.old.list }
        ensures made { OnOk result (more ≤ self.new.room) }
        ensures kept { self.old.room ≤ self.new.room }
        ensures err { OnErr result (self.new.room ≡ self.old.room) }
        ensures fits { length self.new.list + self.new.room < 2 ^ 64 }
        ensures runs { self.new.runs ≡ self.old.runs }
        ensures lanes { self.new.lanes ≡ self.old.lanes }
    {
        if more <= self.room {
            return Ok(());
        }
        let Some(needed) = self.lanes.len().checked_add(more) else {
            return Err(NoMemory);
        };
        let Some(closings) = self.lanes.slots().checked_add(more) else {
            return Err(NoMemory);
        };
        self.settled.reserve(needed)?;
        self.lens.reserve(closings)?;
        self.lanes.reserve(more)?;
        self.room = more;
        Ok(())
    }

    /// Appends a committed short, without taking memory.
    pub fn append(&mut self, tx: Tx)
        requires room { 1 ≤ self.old.room }
        requires absent { is_member self.old.list tx ≡ false }
        ensures list { self.new.list ≡ self.old.list ++ tx ∷ [] }
        ensures room { self.new.room + 1 ≡ self.old.room }
        ensures lanes { self.new.lanes ≡ at_end self.old.lanes tx }
    {
        if self.lanes.is_empty() {
            self.settled.push_reserved(tx);
            self.open += 1;
            self.room -= 1;
        } else {
            self.lanes.append(tx, false);
            self.room -= 1;
        }
    }

    /// Appends the slot of a batch that becomes live, without taking memory. It ends the open lane,
    /// and opens another.
    pub fn append_slot(&mut self, tx: Tx)
        requires room { 1 ≤ self.old.room }
        requires absent { is_member self.old.list tx ≡ false }
        ensures list { self.new.list ≡ self.old.list ++ tx ∷ [] }
        ensures room { self.new.room + 1 ≡ self.old.room }
        ensures lanes { self.new.lanes ≡ at_end self.old.lanes tx ++ [] ∷ [] }
    {
        self.lanes.append(tx, true);
        self.room -= 1;
    }

    /// Takes a member out.
    pub fn drop_tx(&mut self, tx: Tx)
        requires member { is_member self.old.list tx ≡ true }
        ensures list { self.new.list ≡ without self.old.list tx }
        ensures room { self.new.room ≡ self.old.room }
        ensures lanes { self.new.lanes ≡ lanes_without self.old.lanes tx }
    {
        if self.lanes.has(tx) {
            self.lanes.drop_tx(tx);
        } else {
            self.open = recount(&mut self.lens, &self.settled, tx);
            take_out(&mut self.settled, tx);
        }
    }

    /// Settles all members, without taking memory. It is called when the last live batch has ended,
    /// and takes as long as what was appended while a batch was live.
    pub fn settle(&mut self)
        ensures list { self.new.list ≡ self.old.list }
        ensures room { self.new.room ≡ self.old.room }
        ensures lanes { self.new.lanes ≡ self.old.lanes }
        ensures runs { self.new.runs ≡ [] }
    {
        self.open = self.lanes.close_lanes(&mut self.lens, self.open);
        self.lanes.empty_into(&mut self.settled);
    }

    /// Makes room for one member immediately before the target. After NoMemory nothing that
    /// clauses see has changed.
    pub fn reserve_before(&mut self, target: Tx) -> Result<(), NoMemory>
        requires member { is_member self.old.list target ≡ true }
        ensures list { self.new.list ≡ self.old.list }
        ensures room { self.new.room ≡ self.old.room }
        ensures lanes { self.new.lanes ≡ self.old.lanes }
        ensures made { OnOk result (HasRoomBefore self.new.runs target) }
        ensures kept { OnOk result ((n : ℕ) → HasRoomBefore self.old.runs n → HasRoomBefore self.new.runs n) }
        ensures err { OnErr result (self.new ≡ self.old) }
    {
        if self.lanes.has(target) {
            self.lanes.reserve_before(target)?;
        }
        Ok(())
    }

    /// Moves a member to the place immediately before another, without taking memory.
    pub fn move_before(&mut self, tx: Tx, target: Tx)
        requires member { is_member self.old.list tx ≡ true }
        requires target { is_member self.old.list target ≡ true }
        requires differ { tx ≢ target }
        requires room { HasRoomBefore self.old.runs target }
        ensures list { self.new.list ≡ insert_before tx target (without self.old.list tx) }
        ensures room { self.new.room ≡ self.old.room }
        ensures lanes { self.new.lanes ≡ lanes_insert tx target (lanes_without self.old.lanes tx) }
    {
        if self.lanes.has(tx) {
            if self.lanes.has(target) {
                self.lanes.move_before(tx, target);
                return;
            }
        }
        self.move_settled(tx, target);
    }

    /// Moves a member, one of the two being settled: it settles all of them.
    fn move_settled(&mut self, tx: Tx, target: Tx)
        requires member { is_member self.old.list tx ≡ true }
        requires target { is_member self.old.list target ≡ true }
        requires differ { tx ≢ target }
        ensures list { self.new.list ≡ insert_before tx target (without self.old.list tx) }
        ensures room { self.new.room ≡ self.old.room }
        ensures lanes { self.new.lanes ≡ lanes_insert tx target (lanes_without self.old.lanes tx) }
    {
        let _ = self.lanes.close_lanes(&mut self.lens, self.open);
        self.lanes.empty_into(&mut self.settled);
        let open = recount(&mut self.lens, &self.settled, tx);
        take_out(&mut self.settled, tx);
        let place = place(&self.settled, target);
        self.open = if lengthen(&mut self.lens, place) {
            open
        } else {
            open + 1
        };
        put_before(&mut self.settled, tx, target);
    }

    /// Whether a member stands before another one.
    pub fn before(&self, a: Tx, b: Tx) -> bool
        requires first { is_member self.now.list a ≡ true }
        requires second { is_member self.now.list b ≡ true }
        ensures { IsTrue result ↔ (place_of self.now.list a < place_of self.now.list b) }
    {
        match (self.lanes.seat(a), self.lanes.seat(b)) {
            (Some(x), Some(y)) => x.is_before(y),
            (Some(_), None) => false,
            (None, Some(_)) => true,
            (None, None) => place(&self.settled, a) < place(&self.settled, b),
        }
    }

    /// Whether it is a member.
    pub fn has(&self, tx: Tx) -> bool
        ensures { result ≡ is_member self.now.list tx }
    {
        if self.lanes.has(tx) {
            return true;
        }
        self.settled.contains(&tx)
    }

    /// The lane in which it stands, and the place there, or None where it is no member. It walks
    /// only where the member is settled.
    pub fn spot(&self, tx: Tx) -> Option<Spot>
        ensures some { IfSome result (IsSpot self.now tx) }
        ensures order { IfSome result (λ s. (b : ℕ) (t : Spot) → IsSpot self.now b t → IsEarlier s t ↔ (place_of self.now.list tx < place_of self.now.list b)) }
        ensures none { IfNone result (is_member self.now.list tx ≡ false) }
    {
        if let Some(spot) = self.lanes.spot(tx) {
            let lane = self.lens.len() as u64 + spot.lane;
            if spot.lane == 0 {
                let place = self.open as u64 + spot.place;
                return Some(Spot { lane, place });
            }
            return Some(Spot {
                lane,
                place: spot.place,
            });
        }
        let place = place(&self.settled, tx);
        if place == self.settled.len() {
            return None;
        }
        Some(spot_of(&self.lens, place))
    }

    /// How many members stand in a lane: 0 where there is no such lane.
    pub fn lane_len(&self, lane: u64) -> u64
        ensures { result ≡ length (slice_index_or self.now.lanes lane []) }
    {
        let lane = lane as usize;
        let closed = self.lens.len();
        if lane < closed {
            return self.lens[lane] as u64;
        }
        let members = self.lanes.lane_len(lane - closed);
        if lane == closed {
            return (self.open + members) as u64;
        }
        members as u64
    }

    /// How many members there are.
    pub fn len(&self) -> usize
        ensures { result ≡ length self.now.list }
    {
        self.settled.len() + self.lanes.len()
    }

    /// The member at a place.
    pub fn at(&self, place: usize) -> Option<Tx>
        ensures { result ≡ slice_get self.now.list place }
    {
        if place < self.settled.len() {
            return Some(self.settled[place]);
        }
        self.lanes.at(place - self.settled.len())
    }

    /// The members in order.
    pub fn list(&self, alloc: Global) -> Result<Vec<Tx>, NoMemory>
        ensures { IfOk result (λ all. all.items ≡ self.now.list) }
    {
        let mut all = Vec::new(alloc);
        all.reserve(self.len())?;
        all.extend_from_slice(&self.settled)?;
        self.lanes.copy_to(&mut all);
        Ok(all)
    }
}

#[cfg(test)]
mod tests {
    use super::Agenda;
    use crate::spot::Spot;
    use ltx_model::numbers::Tx;
    use std::test::Fail;

    #[test]
    fn what_was_appended_stands_in_order_and_settles(rt: HostRuntime) -> Result<(), Fail> {
        let (Some(a), Some(b), Some(c)) = (Tx::new(1), Tx::new(2), Tx::new(3)) else {
            return Err(Fail::from(3u64));
        };
        let mut agenda = Agenda::new(rt.alloc());
        agenda.reserve(3)?;
        agenda.append(a);
        agenda.append_slot(b);
        agenda.append(c);
        agenda.settle();
        assert!(rt; agenda.has(c));
        assert_eq!(rt; agenda.len(), 3);
        assert_eq!(rt; agenda.at(1), Some(b));
        assert_eq!(rt; agenda.list(rt.alloc())?, vec![in rt.alloc(); a, b, c]?);
        Ok(())
    }

    #[test]
    fn a_batch_is_moved_and_another_dropped(rt: HostRuntime) -> Result<(), Fail> {
        let (Some(a), Some(b), Some(c)) = (Tx::new(1), Tx::new(2), Tx::new(3)) else {
            return Err(Fail::from(3u64));
        };
        let mut agenda = Agenda::new(rt.alloc());
        agenda.reserve(3)?;
        agenda.append_slot(a);
        agenda.append(b);
        agenda.append_slot(c);
        agenda.reserve_before(b)?;
        agenda.move_before(c, b);
        assert!(rt; agenda.before(c, b));
        agenda.drop_tx(a);
        assert_eq!(rt; agenda.list(rt.alloc())?, vec![in rt.alloc(); c, b]?);
        Ok(())
    }

    #[test]
    fn slots_end_lanes_and_a_forwarded_batch_goes_into_its_targets(
        rt: HostRuntime,
    ) -> Result<(), Fail> {
        let (Some(a), Some(b), Some(c)) = (Tx::new(1), Tx::new(2), Tx::new(3)) else {
            return Err(Fail::from(3u64));
        };
        let mut agenda = Agenda::new(rt.alloc());
        agenda.reserve(3)?;
        agenda.append_slot(a);
        agenda.append(b);
        agenda.append_slot(c);
        assert_eq!(rt; agenda.spot(b), Some(Spot { lane: 1, place: 0 }));
        agenda.reserve_before(a)?;
        agenda.move_before(c, a);
        assert_eq!(rt; agenda.spot(a), Some(Spot { lane: 0, place: 1 }));
        assert_eq!(rt; agenda.lane_len(1), 1);
        agenda.settle();
        assert_eq!(rt; agenda.spot(b), Some(Spot { lane: 1, place: 0 }));
        assert_eq!(rt; agenda.lane_len(0), 2);
        Ok(())
    }
}
