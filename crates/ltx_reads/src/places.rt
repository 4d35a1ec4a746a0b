//! Stamps by key: for each key of each table the stamps of the commits that did something with it.

ghost use Rattle.std.specs.Prelude.{◌≡◌, ◌<◌, ◌≤◌, length, [], ◌∷◌, option_copied, IfOk, OnOk, OnErr};
ghost use Rattle.ltx_model.specs.Keys.{same_cell};
ghost use Rattle.ltx_index.specs.Pairs.{with_pair};
ghost use Rattle.ltx_reads.specs.Nexts.{IsNext};
ghost use Rattle.ltx_reads.specs.Stamped.{has_kept, AreRising};
ghost use Rattle.ltx_reads.specs.Places.{stamps_in, stamps_at, IsStampedIn, IsStampedBy, HasSameStamps};

use crate::entry::Entry;
use crate::kept;
use crate::stamps::Stamps;
use ltx_index::index::Index;
use ltx_model::bytes::Key;
use ltx_model::memory::NoMemory;
use ltx_model::numbers::Table;
use std::alloc::Global;
use std::marker::Model;

/// Keys of tables with their stamps. Tables that nothing was put into take no memory.
#[derive(Debug, Drop)]
pub(crate) struct Places {
    alloc: Global,
    tables: Vec<Index<Stamps>>,
}

impl Model for Places {
    ghost use Rattle.std.specs.Prelude.{List};
    ghost use Rattle.ltx_reads.specs.Places.{Pairs};

    ghost Value = { List Pairs };

    ghost view = { λ p. p.tables.items };
}

impl Places {
    /// No stamps.
    pub(crate) fn new(alloc: Global) -> Places
        ensures { result ≡ [] }
    {
        Places {
            alloc,
            tables: Vec::new(alloc),
        }
    }

    /// The stamps at the key.
    pub(crate) fn stamps(&self, table: Table, key: &Key) -> &[u64]
        ensures { result.now ≡ stamps_at self.now (record { table = table; key = key.now }) }
    {
        match self.tables.get(usize::from(table.number())) {
            Some(index) => stamps_in(index, key),
            None => &[],
        }
    }

    /// The least key of the table that has the stamp of a kept commit and is at least `from`, or above it
    /// where `strict`.
    pub(crate) fn next_kept(
        &self,
        table: Table,
        from: &[u8],
        strict: bool,
        kept: &[Entry],
    ) -> Option<&Key>
        requires { AreRising kept.now }
        ensures { IsNext from.now strict (λ key. has_kept kept.now (stamps_at self.now (record { table = table; key = key }))) (option_copied result) }
    {
        match self.tables.get(usize::from(table.number())) {
            Some(index) => next_in(index, from, strict, kept),
            None => None,
        }
    }

    /// Puts the stamp at the key, where it is not yet the last one there. After NoMemory all keys are
    /// as before.
    pub(crate) fn push(&mut self, table: Table, key: &Key, stamp: u64) -> Result<(), NoMemory>
        ensures stamped { OnOk result (IsStampedBy (same_cell (record { table = table; key = key.now })) stamp (stamps_at self.old) (stamps_at self.new)) }
        ensures kept { OnErr result (HasSameStamps (stamps_at self.old) (stamps_at self.new)) }
    {
        self.make_tables()?;
        push_stamp(
            self.alloc,
            &mut self.tables[usize::from(table.number())],
            key,
            stamp,
        )
    }

    /// Makes a place for each table. The keys stay as they are, after NoMemory too.
    fn make_tables(&mut self) -> Result<(), NoMemory>
        ensures made { OnOk result (64 ≤ length self.new) }
        ensures same { HasSameStamps (stamps_at self.old) (stamps_at self.new) }
    {
        for _t in self.tables.len()..usize::from(Table::COUNT) {
            self.tables.push(Index::new(self.alloc))?;
        }
        Ok(())
    }
}

/// The stamps at a key of one table.
fn stamps_in<'i>(index: &'i Index<Stamps>, key: &Key) -> &'i [u64]
    ensures { result.now ≡ stamps_in index.now key.now }
{
    match index.get(key) {
        Some(stamps) => stamps.items(),
        None => &[],
    }
}

/// The least key of one table that has the stamp of a kept commit and reaches the bound.
fn next_in<'i>(
    index: &'i Index<Stamps>,
    from: &[u8],
    strict: bool,
    kept: &[Entry],
) -> Option<&'i Key>
    requires { AreRising kept.now }
    ensures { IsNext from.now strict (λ key. has_kept kept.now (stamps_in index.now key)) (option_copied result) }
{
    let mut walk = index.walk(from, strict);
    while let Some((key, stamps)) = walk.next() {
        if kept::has_any(kept, stamps.items()) {
            return Some(key);
        }
    }
    None
}

/// Puts the stamp at a key of one table. After NoMemory the table is as before.
fn push_stamp(
    alloc: Global,
    index: &mut Index<Stamps>,
    key: &Key,
    stamp: u64,
) -> Result<(), NoMemory>
    ensures stamped { OnOk result (IsStampedIn key.now stamp index.old index.new) }
    ensures kept { OnErr result (index.new ≡ index.old) }
{
    if let Some(stamps) = index.get_mut(key) {
        return stamps.push(stamp);
    }
    let stamps = Stamps::of_one(alloc, stamp)?;
    put(index, key.copy()?, stamps)
}

/// Puts stamps at a key. After NoMemory the table is as before.
fn put(index: &mut Index<Stamps>, key: Key, stamps: Stamps) -> Result<(), NoMemory>
    ensures put { OnOk result (index.new ≡ with_pair index.old key stamps) }
    ensures kept { OnErr result (index.new ≡ index.old) }
{
    match index.insert(key, stamps) {
        Ok(_) => Ok(()),
        Err(_) => Err(NoMemory),
    }
}
