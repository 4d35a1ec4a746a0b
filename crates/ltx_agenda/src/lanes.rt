//! The members that a live batch may still have moved, in runs.
//!
//! A run is one member that was appended, and those that were put before it since. A table tells
//! each member's run and its place there, so two members are compared without a walk, and a member
//! that goes or comes moves those of one run.

ghost use Rattle.std.specs.Prelude.{◌≡◌, ◌≢◌, ◌+◌, ◌<◌, ◌≤◌, ◌↔◌, ℕ, List, [], ◌∷◌, ◌++◌, length, OnOk, OnErr, IsTrue, IsSome, IfSome, IfNone, Some, None, true, false, slice_get, slice_index_or, insert, remove, slice_set, ◌^◌, vec_capacity};
ghost use Rattle.ltx_model.specs.Listings.{is_member, without, insert_before};
ghost use Rattle.ltx_agenda.specs.Runs.{rows_of, members_of, at};
ghost use Rattle.ltx_agenda.specs.Seats.{seat_of, spare_of};
ghost use Rattle.ltx_agenda.specs.Lanes.{lanes_without, lanes_insert, lanes_from, closed, lane_no, start_no};
ghost use Rattle.ltx_agenda.specs.Placed.{IsPlaced, HasRoomBefore, IsReseated, SitsAt, LiesAt, apart, seat_at, run_at};

use crate::mark::{Mark, next_mark, restart};
use crate::run::Run;
use crate::seats::{Seat, Seats};
use crate::spot::Spot;
use ltx_model::memory::NoMemory;
use ltx_model::numbers::Tx;
use std::alloc::Global;
use std::marker::Model;

/// Members in serial order, each found by its number.
#[derive(Debug, Drop)]
pub struct Lanes {
    alloc: Global,
    runs: Vec<Run>,
    marks: Vec<Mark>,
    seats: Seats,
    room: usize,
    count: usize,
}

// Clauses see the list, how many more can be appended without taking memory, and the runs.
impl Model for Lanes {
    ghost use Rattle.std.specs.Prelude.{vec_capacity};
    ghost use Rattle.ltx_agenda.specs.Runs.{rows_of, members_of};
    ghost use Rattle.ltx_agenda.specs.Marks.{ends_of};
    ghost use Rattle.ltx_agenda.specs.Placed.{Standing, IsSeated};

    ghost Value = { Standing };

    ghost view = { λ a. record { list = members_of (rows_of a.runs.items); room = a.room; runs = a.runs.items; ends = ends_of a.marks.items } };

    ghost invariant = { λ a. IsSeated a.runs.items (vec_capacity a.runs) a.marks.items (vec_capacity a.marks) a.seats a.room a.count };
}

impl Lanes {
    /// An empty list, which takes no memory.
    pub fn new(alloc: Global) -> Lanes
        ensures list { result.list ≡ [] }
        ensures room { result.room ≡ 0 }
        ensures runs { result.runs ≡ [] }
        ensures ends { result.ends ≡ [] }
    {
        Lanes {
            alloc,
            runs: Vec::new(alloc),
            marks: Vec::new(alloc),
            seats: Seats::new(alloc),
            room: 0,
            count: 0,
        }
    }

    /// Makes room for so many more members. After NoMemory the list and the room are as before.
    pub fn reserve(&mut self, more: usize) -> Result<(), NoMemory>
        ensures list { self.new.list ≡ self.old.list }
        ensures made { OnOk result (more ≤ self.new.room) }
        ensures kept { self.old.room ≤ self.new.room }
        ensures err { OnErr result (self.new.room ≡ self.old.room) }
        ensures runs { self.new.runs ≡ self.old.runs }
        ensures ends { self.new.ends ≡ self.old.ends }
    {
        if more <= self.room {
            return Ok(());
        }
        if self.count.checked_add(more).is_none() {
            return Err(NoMemory);
        }
        self.runs.reserve(more)?;
        self.marks.reserve(more)?;
        self.seats.reserve(more)?;
        self.room = more;
        Ok(())
    }

    /// Appends a member, which may end the open lane, without taking memory.
    pub fn append(&mut self, tx: Tx, ends: bool)
        requires room { 0 < self.old.room }
        requires absent { is_member self.old.list tx ≡ false }
        ensures list { self.new.list ≡ self.old.list ++ tx ∷ [] }
        ensures room { self.new.room + 1 ≡ self.old.room }
        ensures as_many { length self.old.ends ≡ length (rows_of self.old.runs) }
        ensures rows { rows_of self.new.runs ≡ rows_of self.old.runs ++ (tx ∷ []) ∷ [] }
        ensures ends { self.new.ends ≡ self.old.ends ++ ends ∷ [] }
    {
        let seat = Seat {
            run: self.runs.len(),
            at: 0,
        };
        let mark = next_mark(&self.marks, &self.runs, ends);
        self.seats.put_new(tx.number(), seat);
        self.runs.push_reserved(Run::of(self.alloc, tx));
        self.marks.push_reserved(mark);
        self.room -= 1;
        self.count += 1;
    }

    /// Takes a member out.
    pub fn drop_tx(&mut self, tx: Tx)
        requires member { is_member self.old.list tx ≡ true }
        ensures list { self.new.list ≡ without self.old.list tx }
        ensures room { self.new.room ≡ self.old.room }
        ensures rows { rows_of self.new.runs ≡ lanes_without (rows_of self.old.runs) tx }
        ensures ends { self.new.ends ≡ self.old.ends }
    {
        let seat = seat_of_member(&self.seats, tx.number());
        close_up(&mut self.runs, &mut self.seats, seat, tx.number());
        restart(&mut self.marks, &self.runs, seat.run);
        self.seats.take(tx.number());
        self.count -= 1;
    }

    /// Makes room for one member immediately before the target. After NoMemory nothing that
    /// clauses see has changed.
    pub fn reserve_before(&mut self, target: Tx) -> Result<(), NoMemory>
        requires member { is_member self.old.list target ≡ true }
        ensures list { self.new.list ≡ self.old.list }
        ensures room { self.new.room ≡ self.old.room }
        ensures rows { rows_of self.new.runs ≡ rows_of self.old.runs }
        ensures ends { self.new.ends ≡ self.old.ends }
        ensures made { OnOk result (HasRoomBefore self.new.runs target) }
        ensures kept { OnOk result ((n : ℕ) → HasRoomBefore self.old.runs n → HasRoomBefore self.new.runs n) }
        ensures err { OnErr result (self.new ≡ self.old) }
    {
        let seat = seat_of_member(&self.seats, target.number());
        let run = &mut self.runs[seat.run];
        run.reserve_one()?;
        Ok(())
    }

    /// Moves a member to the place immediately before another, without taking memory.
    pub fn move_before(&mut self, tx: Tx, target: Tx)
        requires member { is_member self.old.list tx ≡ true }
        requires target { is_member self.old.list target ≡ true }
        requires differ { tx ≢ target }
        requires room { HasRoomBefore self.old.runs target }
        ensures list { self.new.list ≡ insert_before tx target (without self.old.list tx) }
        ensures room { self.new.room ≡ self.old.room }
        ensures rows { rows_of self.new.runs ≡ lanes_insert tx target (lanes_without (rows_of self.old.runs) tx) }
        ensures ends { self.new.ends ≡ self.old.ends }
    {
        let from = seat_of_member(&self.seats, tx.number());
        close_up(&mut self.runs, &mut self.seats, from, tx.number());
        restart(&mut self.marks, &self.runs, from.run);
        let to = seat_of_member(&self.seats, target.number());
        open_up(&mut self.runs, &mut self.seats, to, tx);
        restart(&mut self.marks, &self.runs, to.run);
    }

    /// Where a member stands: its run, and the place there.
    pub fn seat(&self, tx: Tx) -> Option<Seat>
        ensures some { IfSome result (SitsAt self.now tx) }
        ensures none { IfNone result (is_member self.now.list tx ≡ false) }
    {
        self.seats.get(tx.number())
    }

    /// Whether it is a member.
    pub fn has(&self, tx: Tx) -> bool
        ensures value { result ≡ is_member self.now.list tx }
        ensures as_many { length self.now.ends ≡ length (rows_of self.now.runs) }
        ensures listed { self.now.list ≡ members_of (rows_of self.now.runs) }
        ensures nowhere { result ≡ false → HasRoomBefore self.now.runs tx }
    {
        self.seats.get(tx.number()).is_some()
    }

    /// Where a member lies: its lane, counted from that of the first run, and the place there among
    /// those in runs.
    pub fn spot(&self, tx: Tx) -> Option<Spot>
        ensures some { IfSome result (LiesAt self.now tx) }
        ensures none { IfNone result (is_member self.now.list tx ≡ false) }
        ensures number { 0 < tx }
        ensures many { length self.now.ends < 2 ^ 63 }
    {
        let seat = self.seats.get(tx.number())?;
        let mark = self.marks[seat.run];
        Some(Spot {
            lane: mark.lane as u64,
            place: (mark.start + seat.at) as u64,
        })
    }

    /// How many members stand in a lane, counted from that of the first run.
    pub fn lane_len(&self, lane: usize) -> usize
        ensures value { result ≡ length (slice_index_or (lanes_from self.now.ends (rows_of self.now.runs)) lane []) }
        ensures most { result ≤ length self.now.list }
    {
        let mut len = 0;
        for (run, mark) in self.marks.iter().enumerate() {
            if mark.lane == lane {
                len += self.runs[run].len();
            }
        }
        len
    }

    /// How many runs end their lanes.
    pub fn slots(&self) -> usize
        ensures { result ≡ lane_no 0 self.now.ends (length self.now.ends) }
    {
        next_mark(&self.marks, &self.runs, false).lane
    }

    /// Appends the lengths of the closed lanes to a list that has room for them, where so many stand
    /// in the first lane before the first run. It answers how many stand in the open lane.
    pub fn close_lanes(&self, lens: &mut Vec<usize>, before: usize) -> usize
        requires room { length lens.old.items + lane_no 0 self.now.ends (length self.now.ends) ≤ vec_capacity lens.old }
        requires bounded { before + length self.now.list < 2 ^ 64 }
        ensures as_many { length self.now.ends ≡ length (rows_of self.now.runs) }
        ensures listed { self.now.list ≡ members_of (rows_of self.now.runs) }
        ensures lens { lens.new.items ≡ lens.old.items ++ closed before self.now.ends (rows_of self.now.runs) }
        ensures capacity { vec_capacity lens.new ≡ vec_capacity lens.old }
        ensures open { result ≡ start_no before self.now.ends (rows_of self.now.runs) (length self.now.ends) }
    {
        let mut open = before;
        for (run, mark) in self.marks.iter().enumerate() {
            open += self.runs[run].len();
            if mark.ends {
                lens.push_reserved(open);
                open = 0;
            }
        }
        open
    }

    /// Whether there is no run.
    pub fn is_empty(&self) -> bool
        ensures value { IsTrue result ↔ (self.now.runs ≡ []) }
        ensures list { IsTrue result → self.now.list ≡ [] }
        ensures ends { IsTrue result → self.now.ends ≡ [] }
    {
        self.runs.is_empty()
    }

    /// How many members there are.
    pub fn len(&self) -> usize
        ensures { result ≡ length self.now.list }
    {
        self.count
    }

    /// The member at a place.
    pub fn at(&self, place: usize) -> Option<Tx>
        ensures { result ≡ slice_get self.now.list place }
    {
        let mut left = place;
        for run in &self.runs {
            let len = run.len();
            if left < len {
                return run.get(left);
            }
            left -= len;
        }
        None
    }

    /// Appends the members to a list that has room for them.
    pub fn copy_to(&self, flat: &mut Vec<Tx>)
        requires room { length flat.old.items + length self.now.list ≤ vec_capacity flat.old }
        ensures items { flat.new.items ≡ flat.old.items ++ self.now.list }
        ensures capacity { vec_capacity flat.old ≤ vec_capacity flat.new }
    {
        for run in &self.runs {
            run.copy_to(flat);
        }
    }

    /// Moves the members to the end of a list that has room for them. The room stays.
    pub fn empty_into(&mut self, flat: &mut Vec<Tx>)
        requires room { length flat.old.items + length self.old.list ≤ vec_capacity flat.old }
        ensures items { flat.new.items ≡ flat.old.items ++ self.old.list }
        ensures capacity { vec_capacity flat.old ≤ vec_capacity flat.new }
        ensures list { self.new.list ≡ [] }
        ensures runs { self.new.runs ≡ [] }
        ensures ends { self.new.ends ≡ [] }
        ensures room { self.new.room ≡ self.old.room }
    {
        let before = flat.len();
        self.copy_to(flat);
        unseat(&mut self.seats, &flat[before..]);
        self.runs.clear();
        self.marks.clear();
        self.count = 0;
    }
}

/// Takes the seats of some members away.
fn unseat(seats: &mut Seats, members: &[Tx])
    ensures left { (n : ℕ) (s : Seat) → seat_of seats.new n ≡ Some s → (seat_of seats.old n ≡ Some s) × (is_member members.now n ≡ false) }
    ensures spare { spare_of seats.old ≤ spare_of seats.new }
{
    for tx in members {
        seats.take(tx.number());
    }
}

/// The seat of a number that has one.
fn seat_of_member(seats: &Seats, number: u64) -> Seat
    requires { IsSome (seat_of seats.now number) }
    ensures { seat_of seats.now number ≡ Some result }
{
    seats.get(number).unwrap_or(Seat { run: 0, at: 0 })
}

/// Takes the member at a seat out of its run, and moves those behind it up. The number's own seat
/// stays in the table.
fn close_up(runs: &mut Vec<Run>, seats: &mut Seats, seat: Seat, number: u64)
    requires placed { IsPlaced (rows_of runs.old.items) (seat_of seats.old) }
    requires seated { seat_of seats.old number ≡ Some seat }
    requires number { 0 < number }
    ensures placed { IsPlaced (rows_of runs.new.items) (apart number (seat_of seats.new)) }
    ensures seated { seat_of seats.new number ≡ Some seat }
    ensures list { members_of (rows_of runs.new.items) ≡ without (members_of (rows_of runs.old.items)) number }
    ensures row { rows_of runs.new.items ≡ slice_set (rows_of runs.old.items) seat.run (remove (slice_index_or (rows_of runs.old.items) seat.run []) seat.at) }
    ensures rows { rows_of runs.new.items ≡ lanes_without (rows_of runs.old.items) number }
    ensures there { seat.run < length runs.old.items }
    ensures rooms { (n : ℕ) → 0 < n → HasRoomBefore runs.old.items n → HasRoomBefore runs.new.items n }
    ensures capacity { vec_capacity runs.new ≡ vec_capacity runs.old }
    ensures runs { length runs.new.items ≡ length runs.old.items }
    ensures spare { spare_of seats.old ≤ spare_of seats.new }
{
    let run = &mut runs[seat.run];
    run.remove(seat.at);
    reseat(seats, &runs[seat.run], seat.run, seat.at);
}

/// Puts a number that has an old seat into a run, before the member at a seat.
fn open_up(runs: &mut Vec<Run>, seats: &mut Seats, seat: Seat, tx: Tx)
    requires placed { IsPlaced (rows_of runs.old.items) (apart tx (seat_of seats.old)) }
    requires seated { IsSome (seat_of seats.old tx) }
    requires number { 0 < tx }
    requires here { 0 < at (rows_of runs.old.items) seat.run seat.at }
    requires room { 0 < (run_at runs.old.items seat.run).room }
    ensures placed { IsPlaced (rows_of runs.new.items) (seat_of seats.new) }
    ensures capacity { vec_capacity runs.new ≡ vec_capacity runs.old }
    ensures row { rows_of runs.new.items ≡ slice_set (rows_of runs.old.items) seat.run (insert (slice_index_or (rows_of runs.old.items) seat.run []) seat.at tx) }
    ensures rows { rows_of runs.new.items ≡ lanes_insert tx (at (rows_of runs.old.items) seat.run seat.at) (rows_of runs.old.items) }
    ensures there { seat.run < length runs.old.items }
    ensures list { members_of (rows_of runs.new.items) ≡ insert_before tx (at (rows_of runs.old.items) seat.run seat.at) (members_of (rows_of runs.old.items)) }
    ensures runs { length runs.new.items ≡ length runs.old.items }
    ensures spare { spare_of seats.old ≤ spare_of seats.new }
{
    let run = &mut runs[seat.run];
    run.insert(seat.at, tx);
    reseat(seats, &runs[seat.run], seat.run, seat.at);
}

/// Gives the members of a run from a place on their seats anew.
fn reseat(seats: &mut Seats, run: &Run, at: usize, from: usize)
    requires start { from ≤ length run.now.items }
    requires seated { (k : ℕ) → from ≤ k → 0 < slice_index_or run.now.items k 0 → IsSome (seat_of seats.old (slice_index_or run.now.items k 0)) }
    requires once { (j k : ℕ) → 0 < slice_index_or run.now.items j 0 → slice_index_or run.now.items j 0 ≡ slice_index_or run.now.items k 0 → j ≡ k }
    ensures anew { IsReseated run.now.items at from (length run.now.items) (seat_of seats.old) (seat_of seats.new) }
    ensures spare { spare_of seats.old ≤ spare_of seats.new }
{
    for k in from..run.len() {
        if let Some(tx) = run.get(k) {
            seats.put_again(tx.number(), Seat { run: at, at: k });
        }
    }
}
