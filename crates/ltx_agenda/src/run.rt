//! A run of the agenda: a member that was appended, and those that were put before it since.

ghost use Rattle.std.specs.Prelude.{◌≡◌, ◌<◌, ◌≤◌, ◌+◌, [], ◌∷◌, ◌++◌, length, insert, remove, OnOk, OnErr, slice_get, vec_capacity};

use ltx_model::memory::NoMemory;
use ltx_model::numbers::Tx;
use std::alloc::Global;
use std::marker::Model;

/// Members that stand together. The last of them, while it is there, needs no memory.
#[derive(Debug, Drop)]
pub struct Run {
    front: Vec<Tx>,
    home: Option<Tx>,
}

// Clauses see the members, and how many more can be inserted without taking memory.
impl Model for Run {
    ghost use Rattle.std.specs.Prelude.{vec_capacity, ◌-◌, ◌++◌, length};
    ghost use Rattle.ltx_agenda.specs.Runs.{Held, as_list};

    ghost Value = { Held };

    ghost view = { λ r. record { items = r.front.items ++ as_list r.home; room = vec_capacity r.front - length r.front.items } };
}

impl Run {
    /// A run of one member, which takes no memory.
    pub fn of(alloc: Global, tx: Tx) -> Run
        ensures items { result.items ≡ tx ∷ [] }
    {
        Run {
            front: Vec::new(alloc),
            home: Some(tx),
        }
    }

    /// How many members there are.
    pub fn len(&self) -> usize
        ensures { result ≡ length self.now.items }
    {
        match self.home {
            Some(_) => self.front.len() + 1,
            None => self.front.len(),
        }
    }

    /// The member at a place.
    pub fn get(&self, at: usize) -> Option<Tx>
        ensures { result ≡ slice_get self.now.items at }
    {
        match self.front.get(at) {
            Some(tx) => Some(*tx),
            None if at == self.front.len() => self.home,
            None => None,
        }
    }

    /// Makes room for one member. After NoMemory nothing has changed.
    pub fn reserve_one(&mut self) -> Result<(), NoMemory>
        ensures items { self.new.items ≡ self.old.items }
        ensures made { OnOk result (0 < self.new.room) }
        ensures kept { self.old.room ≤ self.new.room }
        ensures err { OnErr result (self.new ≡ self.old) }
    {
        self.front.reserve(1)?;
        Ok(())
    }

    /// Puts a member immediately before the one at a place, without taking memory.
    pub fn insert(&mut self, at: usize, tx: Tx)
        requires place { at < length self.old.items }
        requires room { 0 < self.old.room }
        ensures items { self.new.items ≡ insert self.old.items at tx }
        ensures room { self.new.room + 1 ≡ self.old.room }
    {
        let _ = self.front.insert(at, tx);
    }

    /// Takes the member at a place out.
    pub fn remove(&mut self, at: usize)
        requires place { at < length self.old.items }
        ensures items { self.new.items ≡ remove self.old.items at }
        ensures room { self.old.room ≤ self.new.room }
    {
        if at < self.front.len() {
            let _ = self.front.remove(at);
        } else {
            self.home = None;
        }
    }

    /// Appends the members to a list that has room for them.
    pub fn copy_to(&self, flat: &mut Vec<Tx>)
        requires room { length flat.old.items + length self.now.items ≤ vec_capacity flat.old }
        ensures items { flat.new.items ≡ flat.old.items ++ self.now.items }
        ensures capacity { vec_capacity flat.old ≤ vec_capacity flat.new }
    {
        let _ = flat.extend_from_slice(&self.front);
        if let Some(tx) = self.home {
            flat.push_reserved(tx);
        }
    }
}
