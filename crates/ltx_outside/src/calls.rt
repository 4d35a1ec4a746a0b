//! The calls of a device in memory: their number, and those that are to fail.

ghost use Rattle.std.specs.Prelude.{◌≡◌, ◌≤◌, ◌↔◌, IsErr, IsTrue};
ghost use Rattle.ltx_outside.specs.Faults.{next_count};
ghost use Rattle.ltx_outside.specs.Memory.{CountsCall, is_to_fail, no_calls};

use crate::failed::Failed;
use std::marker::Model;

/// How many calls were made, the numbers of those that fail, counted from 1, and how many failed.
#[derive(Debug, Drop)]
pub struct Calls {
    made: u64,
    failing: Vec<u64>,
    faults: u64,
}

impl Model for Calls {
    ghost use Rattle.ltx_outside.specs.Memory.{CallCounts};

    ghost Value = { CallCounts };

    ghost view = { λ c. record { made = c.made; failing = c.failing.items; faults = c.faults } };
}

impl Calls {
    /// No call yet.
    pub fn new(failing: Vec<u64>) -> Calls
        ensures { result ≡ no_calls failing.items }
    {
        Calls {
            made: 0,
            failing,
            faults: 0,
        }
    }

    /// How many calls were made.
    pub fn made(&self) -> u64
        ensures { result ≡ self.now.made }
    {
        self.made
    }

    /// Counts one more call, which fails where its number is one of those that are to fail.
    pub fn next(&mut self) -> Result<(), Failed>
        ensures planned { IsErr result ↔ IsTrue (is_to_fail self.new) }
        ensures counted { CountsCall self.old self.new result }
    {
        self.made = self.made.saturating_add(1);
        if self.failing.contains(&self.made) {
            return Err(self.fault());
        }
        Ok(())
    }

    /// Counts a fault.
    pub fn fault(&mut self) -> Failed
        ensures rose { self.new.faults ≡ next_count self.old.faults }
        ensures later { self.old.faults ≤ self.new.faults }
        ensures kept { (self.new.made ≡ self.old.made) × (self.new.failing ≡ self.old.failing) }
    {
        self.faults = self.faults.saturating_add(1);
        Failed
    }
}
