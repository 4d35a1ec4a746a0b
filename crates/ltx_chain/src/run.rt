//! Versions with the newest one apart, so that a key with one version needs no vector.

ghost use Rattle.std.specs.Prelude.{◌≡◌, ◌+◌, ◌≤◌, ◌<◌, ℕ, [], ◌∷◌, ◌++◌, length, take, drop, filter, OnOk, OnErr, option_copied};
ghost use Rattle.ltx_chain.specs.Versions.{AreBelow, IsRising, is_at_most, latest, visible, kept_from};
ghost use Rattle.ltx_chain.specs.Runs.{all_of, sees, IsRun};

use crate::chain::Version;
use ltx_model::memory::NoMemory;
use std::alloc::Global;
use std::marker::Model;

/// A run of versions: the newest one, and those before it.
#[derive(Debug, Drop)]
pub(crate) struct Run {
    newest: Option<Version>,
    older: Vec<Version>,
}

// Without a newest one there are none, and then there is room for it.
impl Model for Run {
    ghost use Rattle.std.specs.Prelude.{vec_capacity, ◌-◌, ◌+◌, length};
    ghost use Rattle.ltx_chain.specs.Versions.{Versions};
    ghost use Rattle.ltx_chain.specs.Runs.{all_of, spare_of, IsRun};

    ghost Value = { Versions };

    ghost view = { λ r. record { items = all_of r.older.items r.newest; room = spare_of r.newest + (vec_capacity r.older - length r.older.items) } };

    ghost invariant = { λ r. IsRun r.older.items r.newest };
}

impl Run {
    /// A run without versions, and with room for one.
    pub(crate) fn new(alloc: Global) -> Run
        ensures items { result.items ≡ [] }
        ensures room { 0 < result.room }
    {
        Run {
            newest: None,
            older: Vec::new(alloc),
        }
    }

    /// Makes room for a version. After NoMemory nothing has changed.
    pub(crate) fn reserve_one(&mut self) -> Result<(), NoMemory>
        ensures items { self.new.items ≡ self.old.items }
        ensures made { OnOk result (0 < self.new.room) }
        ensures kept { self.old.room ≤ self.new.room }
        ensures err { OnErr result (self.new ≡ self.old) }
    {
        if self.newest.is_some() {
            self.older.reserve(1)?;
        }
        Ok(())
    }

    /// Adds a version to those of lower marks, without taking memory.
    pub(crate) fn install(&mut self, version: Version)
        requires room { 0 < self.old.room }
        requires above { AreBelow version.mark self.old.items }
        ensures items { self.new.items ≡ self.old.items ++ version ∷ [] }
        ensures room { self.new.room + 1 ≡ self.old.room }
    {
        if let Some(before) = self.newest.replace(version) {
            self.older.push_reserved(before);
        }
    }

    /// The version of the highest mark.
    pub(crate) fn latest(&self) -> Option<&Version>
        ensures last { option_copied result ≡ latest self.now.items }
        ensures rising { IsRising self.now.items }
    {
        self.newest.as_ref()
    }

    /// The version that is seen at a mark.
    pub(crate) fn visible(&self, mark: u64) -> Option<&Version>
        ensures { option_copied result ≡ visible mark self.now.items }
    {
        if is_seen(&self.newest, mark) {
            self.newest.as_ref()
        } else {
            seen(&self.older, mark)
        }
    }

    /// Drops each version that is seen at no mark from this one on.
    pub(crate) fn prune(&mut self, mark: u64)
        ensures kept { self.new.items ≡ kept_from mark self.old.items }
        ensures seen { (m : ℕ) → mark ≤ m → visible m self.new.items ≡ visible m self.old.items }
        ensures room { self.old.room ≤ self.new.room }
    {
        let hidden = count_hidden(&self.older, &self.newest, mark);
        self.older.drain(..hidden);
    }
}

/// How many of the older versions are seen at no mark from this one on.
fn count_hidden(older: &[Version], newest: &Option<Version>, mark: u64) -> usize
    requires { IsRun older.now newest.now }
    ensures within { result ≤ length older.now }
    ensures kept { all_of (drop result older.now) newest.now ≡ kept_from mark (all_of older.now newest.now) }
{
    if is_seen(newest, mark) {
        older.len()
    } else {
        count_seen(older, mark).saturating_sub(1)
    }
}

/// There is a version, and it has at most this mark.
fn is_seen(newest: &Option<Version>, mark: u64) -> bool
    ensures { result ≡ sees mark newest.now }
{
    match newest {
        Some(version) => version.mark <= mark,
        None => false,
    }
}

/// The last version that has at most this mark.
fn seen(versions: &[Version], mark: u64) -> Option<&Version>
    requires { IsRising versions.now }
    ensures { option_copied result ≡ visible mark versions.now }
{
    versions[..count_seen(versions, mark)].last()
}

/// How many versions have at most this mark.
fn count_seen(versions: &[Version], mark: u64) -> usize
    requires { IsRising versions.now }
    ensures count { result ≡ length (filter (is_at_most mark) versions.now) }
    ensures seen { take result versions.now ≡ filter (is_at_most mark) versions.now }
{
    versions.partition_point(|version| version.mark <= mark)
}
