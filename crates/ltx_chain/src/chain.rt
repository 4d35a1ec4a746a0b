//! The versions of one key, for the store.
//!
//! A mark is a number of commits: a version's mark counts the commits up to and with the one that
//! wrote it. The versions stand in rising order of their marks, and who looks at a mark sees the
//! last version whose mark is at most that. Room is made before a commit, so that the commit
//! itself takes no memory.

ghost use Rattle.std.specs.Prelude.{◌≡◌, ◌+◌, ◌≤◌, ◌<◌, ℕ, [], ◌∷◌, ◌++◌, OnOk, OnErr, IfOk, option_copied};
ghost use Rattle.ltx_chain.specs.Versions.{AreBelow, IsRising, latest, visible, kept_from};

use crate::run::Run;
use ltx_model::bytes::Value;
use ltx_model::memory::NoMemory;
use ltx_model::numbers::Tx;
use std::alloc::Global;
use std::marker::Model;

/// What a commit made of a key: the value that it put, or none where it deleted the key.
#[derive(Debug, Drop)]
pub struct Version {
    pub writer: Tx,
    pub mark: u64,
    pub put: Option<Value>,
}

/// The versions of a key, behind one pointer, so that a key that moves takes them along cheaply.
#[derive(Debug, Drop)]
pub struct Chain {
    alloc: Global,
    run: Option<Box<Run>>,
}

// Clauses see the versions, and how many more can be installed without taking memory.
impl Model for Chain {
    ghost use Rattle.ltx_chain.specs.Versions.{Versions};
    ghost use Rattle.ltx_chain.specs.Runs.{in_box};

    ghost Value = { Versions };

    ghost view = { λ c. in_box c.run };
}

impl Chain {
    /// A chain without versions, which takes no memory.
    pub fn new(alloc: Global) -> Chain
        ensures items { result.items ≡ [] }
        ensures room { result.room ≡ 0 }
    {
        Chain { alloc, run: None }
    }

    /// Makes room for a version. After NoMemory nothing has changed.
    pub fn reserve_one(&mut self) -> Result<(), NoMemory>
        ensures items { self.new.items ≡ self.old.items }
        ensures made { OnOk result (0 < self.new.room) }
        ensures kept { self.old.room ≤ self.new.room }
        ensures err { OnErr result (self.new ≡ self.old) }
    {
        match &mut self.run {
            Some(run) => run.reserve_one(),
            None => {
                self.run = Some(Box::new(self.alloc, Run::new(self.alloc))?);
                Ok(())
            }
        }
    }

    /// Adds a version to those of lower marks, without taking memory.
    pub fn install(&mut self, version: Version)
        requires room { 0 < self.old.room }
        requires above { AreBelow version.mark self.old.items }
        ensures items { self.new.items ≡ self.old.items ++ version ∷ [] }
        ensures room { self.new.room + 1 ≡ self.old.room }
    {
        if let Some(run) = &mut self.run {
            run.install(version);
        }
    }

    /// The version of the highest mark.
    pub fn latest(&self) -> Option<&Version>
        ensures last { option_copied result ≡ latest self.now.items }
        ensures rising { IsRising self.now.items }
    {
        match &self.run {
            Some(run) => run.latest(),
            None => None,
        }
    }

    /// The version that is seen at a mark.
    pub fn visible(&self, mark: u64) -> Option<&Version>
        ensures { option_copied result ≡ visible mark self.now.items }
    {
        match &self.run {
            Some(run) => run.visible(mark),
            None => None,
        }
    }

    /// Drops each version that is seen at no mark from this one on.
    pub fn prune(&mut self, mark: u64)
        ensures kept { self.new.items ≡ kept_from mark self.old.items }
        ensures seen { (m : ℕ) → mark ≤ m → visible m self.new.items ≡ visible m self.old.items }
        ensures room { self.old.room ≤ self.new.room }
    {
        if let Some(run) = &mut self.run {
            run.prune(mark);
        }
    }
}

#[cfg(test)]
mod tests {
    use super::{Chain, Version};
    use ltx_model::bytes::Value;
    use ltx_model::numbers::Tx;
    use std::test::Fail;

    fn put(rt: &HostRuntime, mark: u64) -> Result<Version, Fail>
        ensures { IfOk result (λ version. version.mark ≡ mark) }
    {
        let Some(writer) = Tx::new(mark.saturating_add(1)) else {
            return Err(Fail::from(mark));
        };
        let Ok(value) = Value::from_bytes(Vec::new(rt.alloc())) else {
            return Err(Fail::from(mark));
        };
        Ok(Version {
            writer,
            mark,
            put: Some(value),
        })
    }

    fn mark_of(version: Option<&Version>) -> Option<u64> {
        version.map(|v| v.mark)
    }

    #[test]
    fn each_mark_sees_its_version(rt: HostRuntime) -> Result<(), Fail> {
        let mut chain = Chain::new(rt.alloc());
        chain.reserve_one()?;
        chain.install(put(&rt, 0)?);
        chain.reserve_one()?;
        chain.install(put(&rt, 5)?);
        assert_eq!(rt; mark_of(chain.visible(4)), Some(0));
        assert_eq!(rt; mark_of(chain.latest()), Some(5));
        chain.prune(5);
        assert_eq!(rt; mark_of(chain.visible(4)), None);
        assert_eq!(rt; mark_of(chain.visible(5)), Some(5));
        Ok(())
    }
}
