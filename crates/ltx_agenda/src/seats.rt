//! Where each member stands, by its number.

ghost use Rattle.std.specs.Prelude.{◌≡◌, ◌↔◌, IsTrue, ◌≢◌, ◌<◌, ◌≤◌, ◌+◌, ◌⊎◌, ℕ, Some, None, IsSome, OnOk, OnErr};
ghost use Rattle.ltx_agenda.specs.Seats.{seat_of, spare_of};

use ltx_model::memory::NoMemory;
use std::alloc::Global;
use std::collections::HashMap;

/// A run and a place in it.
#[derive(Clone, Copy, Debug, PartialEq, Eq)]
pub struct Seat {
    pub run: usize,
    pub at: usize,
}

impl Seat {
    /// Whether it comes first: in an earlier run, or earlier in the same one.
    pub fn is_before(self, other: Seat) -> bool
        ensures { IsTrue result ↔ ((self.run < other.run) ⊎ ((self.run ≡ other.run) × (self.at < other.at))) }
    {
        self.run < other.run || (self.run == other.run && self.at < other.at)
    }
}

/// The seats of all members.
#[derive(Debug, Drop)]
pub struct Seats {
    by_number: HashMap<u64, Seat>,
}

impl Seats {
    /// No seats, which takes no memory.
    pub fn new(alloc: Global) -> Seats
        ensures { (n : ℕ) → seat_of result n ≡ None }
    {
        Seats {
            by_number: HashMap::new(alloc),
        }
    }

    /// The seat of a number.
    pub fn get(&self, number: u64) -> Option<Seat>
        ensures { result ≡ seat_of self.now number }
    {
        self.by_number.get(&number).copied()
    }

    /// Makes room for more numbers.
    pub fn reserve(&mut self, more: usize) -> Result<(), NoMemory>
        ensures kept { (n : ℕ) → seat_of self.new n ≡ seat_of self.old n }
        ensures made { OnOk result (more ≤ spare_of self.new) }
        ensures spare { spare_of self.old ≤ spare_of self.new }
    {
        self.by_number.reserve(more)?;
        Ok(())
    }

    /// Seats a number that has no seat yet, without taking memory.
    pub fn put_new(&mut self, number: u64, seat: Seat)
        requires room { 0 < spare_of self.old }
        ensures here { seat_of self.new number ≡ Some seat }
        ensures others { (n : ℕ) → n ≢ number → seat_of self.new n ≡ seat_of self.old n }
        ensures spare { spare_of self.old ≤ spare_of self.new + 1 }
    {
        let _ = self.by_number.insert(number, seat);
    }

    /// Gives a number that has a seat another one.
    pub fn put_again(&mut self, number: u64, seat: Seat)
        requires seated { IsSome (seat_of self.old number) }
        ensures here { seat_of self.new number ≡ Some seat }
        ensures others { (n : ℕ) → n ≢ number → seat_of self.new n ≡ seat_of self.old n }
        ensures spare { spare_of self.old ≤ spare_of self.new }
    {
        if let Some(held) = self.by_number.get_mut(&number) {
            *held = seat;
        }
    }

    /// Takes a number's seat away.
    pub fn take(&mut self, number: u64)
        ensures here { seat_of self.new number ≡ None }
        ensures others { (n : ℕ) → n ≢ number → seat_of self.new n ≡ seat_of self.old n }
        ensures spare { spare_of self.old ≤ spare_of self.new }
    {
        let _ = self.by_number.remove(&number);
    }
}
