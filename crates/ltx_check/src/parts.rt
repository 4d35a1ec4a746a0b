//! Where the answered operations of each transaction stand in a history.

ghost use Rattle.std.specs.Prelude.{◌≡◌, ◌++◌, ◌==◌, ◌∷◌, [], ℕ, map, IfOk, OnOk};
ghost use Rattle.ltx_check.specs.Replays.{places_at, place_if, is_number, told_of};

use crate::desk::Seats;
use ltx_model::memory::NoMemory;
use ltx_model::numbers::Tx;
use ltx_model::replies::Entry;
use std::alloc::Global;
use std::collections::BTreeMap;
use std::marker::Model;

/// Places of entries, counted from 0.
#[derive(Debug, Drop)]
pub(crate) struct Places {
    items: Vec<usize>,
}

impl Model for Places {
    ghost use Rattle.std.specs.Prelude.{ℕ, List};

    ghost Value = { List ℕ };

    ghost view = { λ p. p.items.items };
}

impl Places {
    /// No places.
    fn new(alloc: Global) -> Places
        ensures { result ≡ [] }
    {
        Places {
            items: Vec::new(alloc),
        }
    }

    /// Appends a place.
    fn push(&mut self, place: usize) -> Result<(), NoMemory>
        ensures { OnOk result (self.new ≡ self.old ++ place ∷ []) }
    {
        self.items.push(place)?;
        Ok(())
    }

    /// The places.
    pub fn items(&self) -> &[usize]
        ensures { result.now ≡ self.now }
    {
        &self.items
    }
}

/// The places of a number.
pub(crate) fn places_of(parts: &BTreeMap<u64, Places>, tx: Tx) -> &[usize]
    ensures { result.now ≡ places_at parts.now tx }
{
    match parts.get(&tx.number()) {
        Some(places) => places.items(),
        None => &[],
    }
}

/// Adds a place to those of a number.
fn note(
    alloc: Global,
    parts: &mut BTreeMap<u64, Places>,
    tx: Tx,
    place: usize,
) -> Result<(), NoMemory>
    ensures { OnOk result ((q : ℕ) → places_at parts.new q ≡ places_at parts.old q ++ place_if (tx == q) place) }
{
    let number = tx.number();
    let mut places = match parts.remove(&number) {
        Some(places) => places,
        None => Places::new(alloc),
    };
    places.push(place)?;
    match parts.insert(number, places) {
        Ok(_) => Ok(()),
        Err(_) => Err(NoMemory),
    }
}

/// Adds a place to those of a number, where there is one.
fn note_some(
    alloc: Global,
    parts: &mut BTreeMap<u64, Places>,
    number: Option<Tx>,
    place: usize,
) -> Result<(), NoMemory>
    ensures { OnOk result ((q : ℕ) → places_at parts.new q ≡ places_at parts.old q ++ place_if (is_number q number) place) }
{
    match number {
        None => Ok(()),
        Some(tx) => note(alloc, parts, tx, place),
    }
}

/// For each transaction the places of the entries that are answered in it.
pub(crate) fn parts_of(alloc: Global, entries: &[Entry]) -> Result<BTreeMap<u64, Places>, NoMemory>
    ensures { IfOk result (λ parts. (n : ℕ) → places_at parts n ≡ map (λ x. x.place) (told_of entries.now n)) }
{
    let mut parts = BTreeMap::new(alloc);
    let mut seats = Seats::new(alloc);
    for (place, entry) in entries.iter().enumerate() {
        note_some(alloc, &mut parts, seats.answered_by(entry), place)?;
        seats.take(entry)?;
    }
    Ok(parts)
}
