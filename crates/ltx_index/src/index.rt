//! The ordered map from keys to values. Its pairs stand in leaves, one after the other: sorted
//! runs of at most 128 pairs, none of them empty. So an insert moves pairs of one leaf alone, and
//! once in some 64 inserts the heads of the later leaves.

ghost use Rattle.std.specs.Prelude.{◌≡◌, ◌<◌, ◌≤◌, [], ◌∷◌, ◌++◌, None, insert, vec_len, IsSome, IsOk, IfOk, IfErr, OnErr, drop};
ghost use Rattle.std.specs.Borrow.{LendsIf, sem};
ghost use Rattle.std.specs.Map.Iter.{deref_pair};
ghost use Rattle.std.specs.Vec.{vec_capacity};
ghost use Rattle.std.specs.Option.{option_copied, option_copied_mut, option_map};
ghost use Rattle.ltx_index.specs.Pairs.{IsInOrder, value_at, with_value, with_pair, without_key, first_from, pairs_from};
ghost use Rattle.ltx_index.specs.Leaves.{AreLeaves, IsHome};
ghost use Rattle.ltx_index.specs.contracts.index.Index.{the_row};

use crate::head::head;
use crate::leaf::Leaf;
use crate::walk::Walk;
use ltx_model::bytes::Key;
use std::alloc::Global;
use std::marker::Model;

/// An ordered map from keys, in the order of their bytes, to values.
#[derive(Debug, Drop)]
pub struct Index<V> {
    alloc: Global,
    leaves: Vec<Leaf<V>>,
}

impl<V> Model for Index<V> {
    ghost use Rattle.std.specs.Prelude.{ℕ, List};
    ghost use Rattle.ltx_index.specs.Leaves.{pairs_of, AreLeaves};

    ghost Value = { List (List ℕ × V) };

    ghost view = { λ i. pairs_of i.leaves.items };

    ghost invariant = { λ i. AreLeaves i.leaves.items };
}

impl<V: Drop> Index<V> {
    /// An empty map, which takes no memory.
    pub fn new(alloc: Global) -> Index<V>
        ensures { result ≡ [] }
    {
        Index {
            alloc,
            leaves: Vec::new(alloc),
        }
    }

    /// The value at the key; None exactly where none stands there.
    pub fn get(&self, key: &Key) -> Option<&V>
        ensures value { option_copied result ≡ value_at self.now key.now }
        ensures in_order { IsInOrder self.now }
    {
        let at = home(&self.leaves, key.bytes(), true);
        self.leaves.get(at)?.get(key)
    }

    /// The value at the key, to be changed in place; None exactly where none stands there.
    pub fn get_mut(&mut self, key: &Key) -> Option<&mut V>
        ensures* lends { sem 𝓛 (LendsIf (the_row V.row) V.row self.entry result (with_value self.old key.now) self.old) }
        ensures value { option_copied_mut result ≡ value_at self.old key.now }
        ensures in_order { IsInOrder self.old }
    {
        let at = home(&self.leaves, key.bytes(), true);
        match self.leaves.get_mut(at) {
            Some(leaf) => leaf.get_mut(key),
            None => None,
        }
    }

    /// The pair with the least key that is at least `from`, or above it where `strict`; None
    /// exactly where there is no such key.
    pub fn after(&self, from: &[u8], strict: bool) -> Option<(&Key, &V)>
        ensures pair { option_map deref_pair result ≡ first_from self.now from.now strict }
        ensures in_order { IsInOrder self.now }
    {
        self.walk(from, strict).next()
    }

    /// A walk along the pairs whose keys are at least `from`, or above it where `strict`.
    pub fn walk<'a>(&'a self, from: &[u8], strict: bool) -> Walk<'a, V>
        ensures pairs { result ≡ pairs_from self.now from.now strict }
        ensures in_order { IsInOrder self.now }
    {
        let at = home(&self.leaves, from, strict);
        match behind(&self.leaves, at).split_first() {
            Some((leaf, later)) => {
                let (keys, values) = leaf.parts_from(from, strict);
                Walk::along(keys, values, later)
            }
            None => Walk::along(&[], &[], &[]),
        }
    }

    /// Puts the value at the key and gives the one that stood there. For want of memory alone it
    /// hands the pair back, and the map is then as before. Where a value stands at the key it
    /// takes no memory.
    pub fn insert(&mut self, key: Key, value: V) -> Result<Option<V>, (Key, V)>
        ensures old { IfOk result (λ before. before ≡ value_at self.old key) }
        ensures put { IfOk result (λ _. self.new ≡ with_pair self.old key value) }
        ensures back { IfErr result (λ pair. pair ≡ (key, value)) }
        ensures kept { OnErr result (self.new ≡ self.old) }
        ensures overwrites { IsSome (value_at self.old key) → IsOk result }
        ensures in_order { IsInOrder self.new }
    {
        match self.put(key, value) {
            Ok(old) => Ok(old),
            Err((key, value)) => {
                self.make_room(&key);
                self.put(key, value)
            }
        }
    }

    /// Puts the pair into the key's leaf. Where that is full, and for want of memory, it hands the
    /// pair of a new key back.
    fn put(&mut self, key: Key, value: V) -> Result<Option<V>, (Key, V)>
        ensures old { IfOk result (λ before. before ≡ value_at self.old key) }
        ensures put { IfOk result (λ _. self.new ≡ with_pair self.old key value) }
        ensures back { IfErr result (λ pair. pair ≡ (key, value)) }
        ensures kept { OnErr result (self.new ≡ self.old) }
        ensures overwrites { IsSome (value_at self.old key) → IsOk result }
        ensures in_order { IsInOrder self.new }
    {
        let at = home(&self.leaves, key.bytes(), true);
        match self.leaves.get_mut(at) {
            Some(leaf) => leaf.insert(key, value),
            None => push_leaf(self.alloc, &mut self.leaves, key, value),
        }
    }

    /// Splits the key's leaf where it is full; the pairs stay as they are.
    fn make_room(&mut self, key: &Key)
        ensures { self.new ≡ self.old }
    {
        let at = home(&self.leaves, key.bytes(), true);
        if self.leaves.reserve(1).is_err() {
            return;
        }
        if let Some(leaf) = self.leaves.get_mut(at) {
            if let Ok(Some(upper)) = leaf.split_full() {
                insert_leaf(&mut self.leaves, at + 1, upper);
            }
        }
    }

    /// Takes the key's pair out and gives its value; None exactly where none stood there.
    pub fn remove(&mut self, key: &Key) -> Option<V>
        ensures value { result ≡ value_at self.old key.now }
        ensures taken { self.new ≡ without_key self.old key.now }
        ensures in_order { IsInOrder self.new }
    {
        let at = home(&self.leaves, key.bytes(), true);
        let leaf = self.leaves.get_mut(at)?;
        let value = leaf.remove(key)?;
        if !leaf.is_empty() {
            return Some(value);
        }
        let _ = self.leaves.remove(at);
        Some(value)
    }
}

/// The leaf that holds the bound's place: the last one that begins short of it, or the first leaf.
fn home<V>(leaves: &[Leaf<V>], from: &[u8], strict: bool) -> usize
    requires { AreLeaves leaves.now }
    ensures { IsHome leaves.now from.now strict result }
{
    let of_from = head(from);
    leaves
        .partition_point(|leaf| leaf.begins_short(of_from, from, strict))
        .saturating_sub(1)
}

/// The leaves from a place on.
fn behind<V>(leaves: &[Leaf<V>], at: usize) -> &[Leaf<V>]
    ensures { result.now ≡ drop at leaves.now }
{
    if at > leaves.len() {
        return &[];
    }
    let (_, later) = leaves.split_at(at);
    later
}

/// Puts the leaf into its place, where there is room for it.
fn insert_leaf<V: Drop>(leaves: &mut Vec<Leaf<V>>, at: usize, leaf: Leaf<V>)
    requires in_range { at ≤ vec_len leaves.old }
    requires room { vec_len leaves.old < vec_capacity leaves.old }
    ensures { leaves.new.items ≡ insert leaves.old.items at leaf }
{
    let _ = leaves.insert(at, leaf);
}

/// Puts the pair into a leaf of its own after all others.
fn push_leaf<V: Drop>(
    alloc: Global,
    leaves: &mut Vec<Leaf<V>>,
    key: Key,
    value: V,
) -> Result<Option<V>, (Key, V)>
    ensures pushed { IfOk result (λ before. (before ≡ None) × (leaves.new.items ≡ leaves.old.items ++ ((key, value) ∷ []) ∷ [])) }
    ensures back { IfErr result (λ pair. pair ≡ (key, value)) }
    ensures kept { OnErr result (leaves.new.items ≡ leaves.old.items) }
{
    if leaves.reserve(1).is_err() {
        return Err((key, value));
    }
    let leaf = Leaf::of_pair(alloc, key, value)?;
    leaves.push_reserved(leaf);
    Ok(None)
}

#[cfg(test)]
mod tests {
    use super::*;
    use std::test::Fail;

    fn key(rt: &HostRuntime, number: u16) -> Result<Key, Fail> {
        let mut bytes = Vec::new(rt.alloc());
        for byte in number.to_be_bytes() {
            bytes.push(byte)?;
        }
        Key::from_bytes(bytes).map_err(|_| Fail::new("not a key"))
    }

    #[test]
    fn each_call_once(rt: HostRuntime) -> Result<(), Fail> {
        let mut map: Index<u32> = Index::new(rt.alloc());
        let two = key(&rt, 2)?;
        assert!(rt; map.insert(key(&rt, 2)?, 20).is_ok());
        assert!(rt; map.insert(key(&rt, 1)?, 10).is_ok());
        if let Some(value) = map.get_mut(&two) {
            *value = 21;
        }
        assert_eq!(rt; map.get(&two).copied(), Some(21));
        let first = map.after(&[0, 1], false).map(|(_, value)| *value);
        let next = map.after(&[0, 1], true).map(|(_, value)| *value);
        assert_eq!(rt; first, Some(10));
        assert_eq!(rt; next, Some(21));
        assert_eq!(rt; map.remove(&two), Some(21));
        assert!(rt; map.get(&two).is_none());
        Ok(())
    }

    // With memory at hand no insert is refused, also where leaves are full.
    #[test]
    fn takes_more_than_a_leaf_holds(rt: HostRuntime) -> Result<(), Fail> {
        let mut map: Index<u16> = Index::new(rt.alloc());
        for turn in 0..1000u16 {
            let number = turn.wrapping_mul(7) % 1000;
            assert!(rt; map.insert(key(&rt, number)?, number).is_ok());
        }
        for number in 0..1000u16 {
            let from = number.to_be_bytes();
            let found = map.after(&from, false).map(|(_, value)| *value);
            assert_eq!(rt; found, Some(number));
        }
        for number in 0..1000u16 {
            assert_eq!(rt; map.remove(&key(&rt, number)?), Some(number));
        }
        assert!(rt; map.after(&[], false).is_none());
        Ok(())
    }
}
