//! Stamps of commits, by which kept commits are found. Each commit has a stamp above all earlier ones.

ghost use Rattle.std.specs.Prelude.{◌≡◌, ◌∷◌, [], IfOk, OnOk, OnErr};
ghost use Rattle.ltx_reads.specs.Stamped.{is_last, with_stamp};

use ltx_model::memory::NoMemory;
use std::alloc::Global;
use std::marker::Model;

/// Some stamps, in rising order.
#[derive(Debug, Drop)]
pub(crate) struct Stamps {
    items: Vec<u64>,
}

impl Model for Stamps {
    ghost use Rattle.std.specs.Prelude.{ℕ, List};

    ghost Value = { List ℕ };

    ghost view = { λ s. s.items.items };
}

impl Stamps {
    /// No stamps, which take no memory.
    pub(crate) fn new(alloc: Global) -> Stamps
        ensures { result ≡ [] }
    {
        Stamps {
            items: Vec::new(alloc),
        }
    }

    /// One stamp.
    pub(crate) fn of_one(alloc: Global, stamp: u64) -> Result<Stamps, NoMemory>
        ensures { IfOk result (λ stamps. stamps ≡ stamp ∷ []) }
    {
        let mut items = Vec::new(alloc);
        items.push(stamp)?;
        Ok(Stamps { items })
    }

    /// The stamps.
    pub(crate) fn items(&self) -> &[u64]
        ensures { result.now ≡ self.now }
    {
        &self.items
    }

    /// Puts the stamp behind the others, where it is not yet the last one. After NoMemory nothing has
    /// changed.
    pub(crate) fn push(&mut self, stamp: u64) -> Result<(), NoMemory>
        ensures pushed { OnOk result (self.new ≡ with_stamp self.old stamp) }
        ensures kept { OnErr result (self.new ≡ self.old) }
    {
        if !is_last(&self.items, stamp) {
            self.items.push(stamp)?;
        }
        Ok(())
    }
}

/// Whether the last stamp is this one.
fn is_last(stamps: &[u64], stamp: u64) -> bool
    ensures { result ≡ is_last stamps.now stamp }
{
    match stamps.last() {
        Some(last) => *last == stamp,
        None => false,
    }
}
