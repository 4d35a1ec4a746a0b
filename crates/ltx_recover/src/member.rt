//! What each number of the list is, by its number.

ghost use Rattle.std.specs.Prelude.{◌≡◌, ◌≢◌, ℕ, Some, None, OnOk, OnErr};
ghost use Rattle.ltx_recover.specs.Members.{member_of};

use ltx_model::memory::NoMemory;
use ltx_model::numbers::Tx;
use ltx_model::writes::WriteList;
use std::alloc::Global;
use std::collections::HashMap;

/// A member of the list: the slot of a batch, or a committed transaction with its writes.
#[derive(Clone, Copy, Debug)]
pub(crate) enum Member<'a> {
    Slot,
    Committed(&'a WriteList),
}

/// The members, each found by its number.
#[derive(Drop)]
pub(crate) struct Members<'a> {
    by_number: HashMap<u64, Member<'a>>,
}

impl<'a> Members<'a> {
    /// No members, which takes no memory.
    pub(crate) fn new(alloc: Global) -> Members<'a>
        ensures { (n : ℕ) → member_of result n ≡ None }
    {
        Members {
            by_number: HashMap::new(alloc),
        }
    }

    /// The member of a number, or None where there is none.
    pub(crate) fn get(&self, tx: Tx) -> Option<Member<'a>>
        ensures { result ≡ member_of self.now tx }
    {
        self.by_number.get(&tx.number()).copied()
    }

    /// Puts a member at a number, in the place of the one that stood there. After NoMemory all is as before.
    pub(crate) fn put(&mut self, tx: Tx, member: Member<'a>) -> Result<(), NoMemory>
        ensures here { OnOk result (member_of self.new tx ≡ Some member.entry) }
        ensures others { OnOk result ((n : ℕ) → n ≢ tx → member_of self.new n ≡ member_of self.old n) }
        ensures err { OnErr result ((n : ℕ) → member_of self.new n ≡ member_of self.old n) }
    {
        self.by_number.insert(tx.number(), member)?;
        Ok(())
    }
}
