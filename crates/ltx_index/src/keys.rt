//! The keys of a leaf in rising order, each with its head beside it.

ghost use Rattle.std.specs.Prelude.{◌≡◌, ◌≤◌, ◌<◌, [], ◌∷◌, ◌++◌, IfOk, IfErr, OnOk, OnErr, vec_len, insert, remove, length, take, drop, not};
ghost use Rattle.std.specs.Vec.{vec_capacity};
ghost use Rattle.std.specs.List.Sorted.{IsStrictlySortedBy};
ghost use Rattle.ltx_model.specs.Keys.{key_cmp};
ghost use Rattle.ltx_model.specs.NextKeys.{reaches};
ghost use Rattle.ltx_index.specs.Places.{AreBelow, IsFoundAt, IsGapAt, IsStartAt};
ghost use Rattle.ltx_index.specs.Heads.{head_of, first_of, low_of};

use crate::head::head;
use ltx_model::bytes::{Key, compare_bytes};
use ltx_model::memory::NoMemory;
use std::alloc::Global;
use std::cmp::Ordering;
use std::marker::Model;

/// Keys in rising order.
#[derive(Debug, Drop)]
pub(crate) struct Keys {
    // The head of the first key, which tells most leaves apart.
    low: u64,
    heads: Vec<u64>,
    keys: Vec<Key>,
}

impl Model for Keys {
    ghost use Rattle.std.specs.Prelude.{ℕ, List};
    ghost use Rattle.ltx_index.specs.Heads.{AreHeaded};

    ghost Value = { List (List ℕ) };

    ghost view = { λ k. k.keys.items };

    ghost invariant = { λ k. AreHeaded k.keys.items k.heads.items k.low };
}

impl Keys {
    /// One key. For want of memory it is handed back.
    pub(crate) fn of_key(alloc: Global, key: Key) -> Result<Keys, Key>
        ensures keys { IfOk result (λ keys. keys ≡ key ∷ []) }
        ensures back { IfErr result (λ back. back ≡ key) }
    {
        let mut keys = Vec::new(alloc);
        let mut heads = Vec::new(alloc);
        if keys.reserve(1).is_err() || heads.reserve(1).is_err() {
            return Err(key);
        }
        let low = head(key.bytes());
        heads.push_reserved(low);
        keys.push_reserved(key);
        Ok(Keys { low, heads, keys })
    }

    /// The keys.
    pub(crate) fn items(&self) -> &[Key]
        ensures value { result.now ≡ self.now }
        ensures in_order { IsStrictlySortedBy key_cmp self.now }
    {
        &self.keys
    }

    /// How many there are.
    pub(crate) fn len(&self) -> usize
        ensures { result ≡ length self.now }
    {
        self.keys.len()
    }

    /// The first key's bytes; none where there is no key.
    pub(crate) fn first(&self) -> &[u8]
        ensures { result.now ≡ first_of self.now }
    {
        match self.keys.first() {
            Some(key) => key.bytes(),
            None => &[],
        }
    }

    /// Where the key is, or where it would go.
    pub(crate) fn place(&self, key: &Key) -> Result<usize, usize>
        ensures found { IfOk result (IsFoundAt self.now key.now) }
        ensures absent { IfErr result (IsGapAt self.now key.now) }
    {
        place_from(&self.keys, self.count_below(key.bytes()), key)
    }

    /// Where the keys begin that reach the bound.
    pub(crate) fn start(&self, from: &[u8], strict: bool) -> usize
        ensures { IsStartAt self.now from.now strict result }
    {
        start_from(&self.keys, self.count_below(from), from, strict)
    }

    /// The first key is below the bound, or at it where strict. The bound's head is at hand.
    pub(crate) fn begins_short(&self, of_from: u64, from: &[u8], strict: bool) -> bool
        requires { of_from ≡ head_of from.now }
        ensures { result ≡ not (reaches from.now strict (first_of self.now)) }
    {
        match self.low.cmp(&of_from) {
            Ordering::Less => true,
            Ordering::Greater => false,
            Ordering::Equal => falls_short(self.first(), from, strict),
        }
    }

    /// Puts the key into its gap. For want of memory it is handed back.
    pub(crate) fn insert(&mut self, at: usize, key: Key) -> Result<(), Key>
        requires gap { IsGapAt self.old key at }
        ensures put { OnOk result (self.new ≡ insert self.old at key) }
        ensures back { IfErr result (λ back. back ≡ key) }
        ensures kept { OnErr result (self.new ≡ self.old) }
    {
        if self.keys.reserve(1).is_err() || self.heads.reserve(1).is_err() {
            return Err(key);
        }
        let of_key = head(key.bytes());
        put_reserved(&mut self.heads, at, of_key);
        put_reserved(&mut self.keys, at, key);
        self.low = low_of(&self.heads);
        Ok(())
    }

    /// Takes a key out.
    pub(crate) fn remove(&mut self, at: usize)
        requires { at < length self.old }
        ensures { self.new ≡ remove self.old at }
    {
        let _ = self.heads.remove(at);
        let _ = self.keys.remove(at);
        self.low = low_of(&self.heads);
    }

    /// Takes out the keys from a place on. After NoMemory nothing has changed.
    pub(crate) fn split_off(&mut self, at: usize) -> Result<Keys, NoMemory>
        requires { at ≤ length self.old }
        ensures lower { OnOk result (self.new ≡ take at self.old) }
        ensures upper { IfOk result (λ upper. upper ≡ drop at self.old) }
        ensures kept { OnErr result (self.new ≡ self.old) }
    {
        let mut keys = self.keys.split_off(at)?;
        match self.heads.split_off(at) {
            Ok(heads) => {
                self.low = low_of(&self.heads);
                Ok(Keys {
                    low: low_of(&heads),
                    heads,
                    keys,
                })
            }
            Err(_) => {
                // They go back into the room that they left.
                let _ = self.keys.append(&mut keys);
                Err(NoMemory)
            }
        }
    }

    /// How many keys have lesser heads: they are below the bound.
    fn count_below(&self, from: &[u8]) -> usize
        ensures within { result ≤ length self.now }
        ensures below { AreBelow from.now (take result self.now) }
    {
        let of_from = head(from);
        self.heads.partition_point(|h| *h < of_from)
    }
}

/// Puts the item into its place, where there is room for it.
fn put_reserved<T: Drop>(items: &mut Vec<T>, at: usize, item: T)
    requires in_range { at ≤ vec_len items.old }
    requires room { vec_len items.old < vec_capacity items.old }
    ensures { items.new.items ≡ insert items.old.items at item }
{
    let _ = items.insert(at, item);
}

/// The first of heads, and that of no bytes where there is none.
fn low_of(heads: &[u64]) -> u64
    ensures { result ≡ low_of heads.now }
{
    match heads.first() {
        Some(low) => *low,
        None => head(&[]),
    }
}

/// Where the key is, or where it would go, where so many keys are below it. Mostly the next one tells.
fn place_from(keys: &[Key], from: usize, key: &Key) -> Result<usize, usize>
    requires in_order { IsStrictlySortedBy key_cmp keys.now }
    requires within { from ≤ length keys.now }
    requires below { AreBelow key.now (take from keys.now) }
    ensures found { IfOk result (IsFoundAt keys.now key.now) }
    ensures absent { IfErr result (IsGapAt keys.now key.now) }
{
    let Some(next) = keys.get(from) else {
        return Err(from);
    };
    match next.compare(key) {
        Ordering::Equal => Ok(from),
        Ordering::Greater => Err(from),
        Ordering::Less => place(keys, key),
    }
}

/// Where the key is, or where it would go.
#[inline(never)]
fn place(keys: &[Key], key: &Key) -> Result<usize, usize>
    requires { IsStrictlySortedBy key_cmp keys.now }
    ensures found { IfOk result (IsFoundAt keys.now key.now) }
    ensures absent { IfErr result (IsGapAt keys.now key.now) }
{
    keys.binary_search_by(|k| k.compare(key))
}

/// Where the keys begin that reach the bound, where so many are below it. Mostly the next one tells.
fn start_from(keys: &[Key], at: usize, from: &[u8], strict: bool) -> usize
    requires in_order { IsStrictlySortedBy key_cmp keys.now }
    requires within { at ≤ length keys.now }
    requires below { AreBelow from.now (take at keys.now) }
    ensures { IsStartAt keys.now from.now strict result }
{
    let Some(next) = keys.get(at) else {
        return at;
    };
    if falls_short(next.bytes(), from, strict) {
        start(keys, from, strict)
    } else {
        at
    }
}

/// Where the keys begin that reach the bound.
#[inline(never)]
fn start(keys: &[Key], from: &[u8], strict: bool) -> usize
    requires { IsStrictlySortedBy key_cmp keys.now }
    ensures { IsStartAt keys.now from.now strict result }
{
    keys.partition_point(|k| falls_short(k.bytes(), from, strict))
}

/// The key is below the bound, or at it where strict.
fn falls_short(key: &[u8], from: &[u8], strict: bool) -> bool
    ensures { result ≡ not (reaches from.now strict key.now) }
{
    match compare_bytes(from, key) {
        Ordering::Less => false,
        Ordering::Equal => strict,
        Ordering::Greater => true,
    }
}
