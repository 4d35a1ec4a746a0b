//! A leaf of the index: a sorted run of at most 128 pairs, with the keys in one vector and their
//! values in another, at equal places. Each is an ordered map of its own, but for its limit.

ghost use Rattle.std.specs.Prelude.{◌≡◌, ◌≤◌, [], IsSome, IsOk, IfOk, IfErr, IfSome, IfNone, OnOk, OnErr, IsTrue, not, vec_len, insert, ◌<◌, ◌++◌, ◌∷◌, ◌↔◌, length, take, drop};
ghost use Rattle.std.specs.Borrow.{LendsIf, sem};
ghost use Rattle.std.specs.List.{zip};
ghost use Rattle.std.specs.List.Sorted.{IsStrictlySortedBy};
ghost use Rattle.std.specs.Option.{option_copied, option_copied_mut};
ghost use Rattle.ltx_model.specs.Keys.{key_cmp};
ghost use Rattle.ltx_index.specs.Pairs.{IsInOrder, value_at, with_value, with_pair, without_key, pairs_from};
ghost use Rattle.ltx_model.specs.NextKeys.{reaches};
ghost use Rattle.ltx_index.specs.Places.{IsFoundAt, IsGapAt, IsStartAt};
ghost use Rattle.ltx_index.specs.Leaves.{first_key};
ghost use Rattle.ltx_index.specs.Heads.{head_of};
ghost use Rattle.ltx_index.specs.contracts.leaf.Leaf.{the_row};

use crate::keys::Keys;
use ltx_model::bytes::Key;
use ltx_model::memory::NoMemory;
use std::alloc::Global;
use std::marker::Model;

/// How many pairs a leaf holds at most, so that the cost of an insert does not grow with the map.
const MOST: usize = 128;

/// A sorted run of pairs.
#[derive(Debug, Drop)]
pub struct Leaf<V> {
    keys: Keys,
    values: Vec<V>,
}

impl<V> Model for Leaf<V> {
    ghost use Rattle.std.specs.Prelude.{ℕ, List};
    ghost use Rattle.std.specs.List.{zip};
    ghost use Rattle.ltx_index.specs.Places.{IsRun};

    ghost Value = { List (List ℕ × V) };

    ghost view = { λ l. zip l.keys l.values.items };

    ghost invariant = { λ l. IsRun l.keys l.values.items };
}

impl<V> Leaf<V> {
    /// A run of one pair. For want of memory it hands the pair back.
    pub fn of_pair(alloc: Global, key: Key, value: V) -> Result<Leaf<V>, (Key, V)>
    where
        V: Drop,
        ensures leaf { IfOk result (λ leaf. leaf ≡ (key, value) ∷ []) }
        ensures back { IfErr result (λ pair. pair ≡ (key, value)) }
    {
        let mut values = Vec::new(alloc);
        if values.reserve(1).is_err() {
            return Err((key, value));
        }
        match Keys::of_key(alloc, key) {
            Ok(keys) => {
                values.push_reserved(value);
                Ok(Leaf { keys, values })
            }
            Err(key) => Err((key, value)),
        }
    }

    /// Whether there is no pair.
    pub fn is_empty(&self) -> bool
        ensures { IsTrue result ↔ (length self.now ≡ 0) }
    {
        self.keys.len() == 0
    }

    /// The run begins below the bound, or at it where strict. The bound's head is at hand.
    pub fn begins_short(&self, of_from: u64, from: &[u8], strict: bool) -> bool
        requires { of_from ≡ head_of from.now }
        ensures { result ≡ not (reaches from.now strict (first_key self.now)) }
    {
        self.keys.begins_short(of_from, from, strict)
    }

    /// The value at the key.
    pub fn get(&self, key: &Key) -> Option<&V>
        ensures value { option_copied result ≡ value_at self.now key.now }
        ensures in_order { IsInOrder self.now }
    {
        match self.keys.place(key) {
            Ok(at) => self.values.get(at),
            Err(_) => None,
        }
    }

    /// The value at the key, to be written over.
    pub fn get_mut(&mut self, key: &Key) -> Option<&mut V>
        ensures* lends { sem 𝓛 (LendsIf (the_row V.row) V.row self.entry result (with_value self.old key.now) self.old) }
        ensures value { option_copied_mut result ≡ value_at self.old key.now }
        ensures in_order { IsInOrder self.old }
    {
        match self.keys.place(key) {
            Ok(at) => self.values.get_mut(at),
            Err(_) => None,
        }
    }

    /// The keys and the values from the least key on that is at least `from`, or above it where
    /// `strict`.
    pub fn parts_from(&self, from: &[u8], strict: bool) -> (&[Key], &[V])
        ensures parts { zip result.0.now result.1.now ≡ pairs_from self.now from.now strict }
    {
        let at = self.keys.start(from, strict);
        let (_, keys) = self.keys.items().split_at(at);
        let (_, values) = self.values.split_at(at);
        (keys, values)
    }

    /// All keys and all values.
    pub fn parts(&self) -> (&[Key], &[V])
        ensures { self.now ≡ zip result.0.now result.1.now }
    {
        (self.keys.items(), &self.values)
    }

    /// Puts the value at the key and gives the one that stood there. Where the run is full, and
    /// for want of memory, it hands the pair of a new key back, and the run is as before.
    pub fn insert(&mut self, key: Key, value: V) -> Result<Option<V>, (Key, V)>
    where
        V: Drop,
        ensures old { IfOk result (λ before. before ≡ value_at self.old key) }
        ensures put { IfOk result (λ _. self.new ≡ with_pair self.old key value) }
        ensures back { IfErr result (λ pair. pair ≡ (key, value)) }
        ensures kept { OnErr result (self.new ≡ self.old) }
        ensures overwrites { IsSome (value_at self.old key) → IsOk result }
        ensures in_order { IsInOrder self.new }
    {
        match self.keys.place(&key) {
            Ok(at) => {
                // The key that stands there stays.
                drop(key);
                Ok(Some(std::mem::replace(&mut self.values[at], value)))
            }
            Err(at) => {
                if self.keys.len() >= MOST {
                    return Err((key, value));
                }
                put_at(&mut self.keys, &mut self.values, at, key, value)?;
                Ok(None)
            }
        }
    }

    /// Takes the key's pair out and gives its value.
    pub fn remove(&mut self, key: &Key) -> Option<V>
        ensures value { result ≡ value_at self.old key.now }
        ensures taken { self.new ≡ without_key self.old key.now }
        ensures absent { IfNone result (self.new ≡ self.old) }
        ensures in_order { IsInOrder self.new }
    {
        match self.keys.place(key) {
            Ok(at) => {
                self.keys.remove(at);
                Some(self.values.remove(at))
            }
            Err(_) => None,
        }
    }

    /// Splits a full run and gives its upper half; none where it is not full. For want of memory
    /// the run is as before.
    pub fn split_full(&mut self) -> Result<Option<Leaf<V>>, NoMemory>
    where
        V: Drop,
        ensures full { IfOk result (λ upper. IsSome upper ↔ (length self.old ≡ 128)) }
        ensures halves { IfOk result (λ upper. IfSome upper (λ upper. self.old ≡ self.new ++ upper)) }
        ensures filled { IfOk result (λ upper. IfSome upper (λ upper. (0 < length self.new) × (0 < length upper))) }
        ensures whole { IfOk result (λ upper. IfNone upper (self.new ≡ self.old)) }
        ensures kept { OnErr result (self.new ≡ self.old) }
    {
        if self.keys.len() < MOST {
            return Ok(None);
        }
        let (keys, values) = split_at(&mut self.keys, &mut self.values, MOST / 2)?;
        Ok(Some(Leaf { keys, values }))
    }
}

/// Puts the key into its gap and the value into the same place, or leaves both for want of memory.
fn put_at<V: Drop>(
    keys: &mut Keys,
    values: &mut Vec<V>,
    at: usize,
    key: Key,
    value: V,
) -> Result<(), (Key, V)>
    requires gap { IsGapAt keys.old key at }
    requires in_values { at ≤ vec_len values.old }
    ensures key_put { IfOk result (λ _. keys.new ≡ insert keys.old at key) }
    ensures value_put { IfOk result (λ _. values.new.items ≡ insert values.old.items at value) }
    ensures back { IfErr result (λ pair. pair ≡ (key, value)) }
    ensures kept { OnErr result ((keys.new ≡ keys.old) × (values.new.items ≡ values.old.items)) }
{
    if values.reserve(1).is_err() {
        return Err((key, value));
    }
    if let Err(key) = keys.insert(at, key) {
        return Err((key, value));
    }
    // There is room for it.
    let _ = values.insert(at, value);
    Ok(())
}

/// Takes what stands from the place on out of both, or leaves both for want of memory.
fn split_at<V: Drop>(
    keys: &mut Keys,
    values: &mut Vec<V>,
    at: usize,
) -> Result<(Keys, Vec<V>), NoMemory>
    requires in_keys { at ≤ length keys.old }
    requires in_values { at ≤ vec_len values.old }
    ensures keys_kept { OnOk result (keys.new ≡ take at keys.old) }
    ensures values_kept { OnOk result (values.new.items ≡ take at values.old.items) }
    ensures keys_taken { IfOk result (λ upper. upper.0 ≡ drop at keys.old) }
    ensures values_taken { IfOk result (λ upper. upper.1.items ≡ drop at values.old.items) }
    ensures kept { OnErr result ((keys.new ≡ keys.old) × (values.new.items ≡ values.old.items)) }
{
    let mut upper = values.split_off(at)?;
    match keys.split_off(at) {
        Ok(others) => Ok((others, upper)),
        Err(_) => {
            // They go back into the room that they left.
            let _ = values.append(&mut upper);
            Err(NoMemory)
        }
    }
}
