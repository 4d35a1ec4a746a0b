//! The store of all tables, for the core.
//!
//! Each key keeps its versions in rising order of their marks, so at each mark the store has rows:
//! of each key the last version with at most that mark, where it puts a value. A deletion is a
//! version too. Room for a commit's versions is made before it, so that it takes no memory itself.

ghost use Rattle.std.specs.Prelude.{◌≡◌, ◌<◌, ◌≤◌, ℕ, [], IfOk, OnOk, OnErr, option_copied};
ghost use Rattle.std.specs.List.{AllByRecursion};
ghost use Rattle.ltx_model.specs.Keys.{IsRising};
ghost use Rattle.ltx_model.specs.StoredRows.{cell_of, row_at};
ghost use Rattle.ltx_model.specs.Operations.{cell_of_write};
ghost use Rattle.ltx_chain.specs.Versions.{AreBelow, visible};
ghost use Rattle.ltx_model.specs.Rows.{rows_between};
ghost use Rattle.ltx_store.specs.Scans.{looks_between};
ghost use Rattle.ltx_store.specs.Kept.{cell_of_kept, versions_at, room_at, rows_at, latest_rows, rows_with, row_of_version, row_of_write, with_version, HasSameVersions, HasLoaded};

use crate::newest::Newest;
use crate::scanned::Scanned;
use crate::table;
use ltx_chain::chain::{Chain, Version};
use ltx_chain::marked::Marked;
use ltx_index::index::Index;
use ltx_model::bytes::{Bound, Key};
use ltx_model::latest::Latest;
use ltx_model::memory::NoMemory;
use ltx_model::numbers::{Table, Tx};
use ltx_model::rows::StoredRow;
use ltx_model::writes::Write;
use std::alloc::Global;
use std::marker::Model;

/// The versions of all keys.
#[derive(Debug, Drop)]
pub struct Store {
    tables: Vec<Index<Chain>>,
    newest: Newest,
}

// Clauses see the kept keys in order of table and key, each with its versions.
impl Model for Store {
    ghost use Rattle.std.specs.Prelude.{List};
    ghost use Rattle.ltx_store.specs.Kept.{Kept, of_tables};
    ghost use Rattle.ltx_store.specs.Newest.{IsStore};

    ghost Value = { List Kept };

    ghost view = { λ s. of_tables 0 s.tables.items };

    ghost invariant = { λ s. IsStore s.tables.items s.newest.of_table s.newest.of_all };
}

impl Store {
    /// A store that keeps no key.
    pub fn new(alloc: Global) -> Result<Store, NoMemory>
        ensures { IfOk result (λ store. store ≡ []) }
    {
        let mut tables = Vec::with_capacity(alloc, usize::from(Table::COUNT))?;
        for _t in 0..Table::COUNT {
            tables.push(Index::new(alloc))?;
        }
        Ok(Store {
            tables,
            newest: Newest::new(),
        })
    }

    /// Places a base row, as a version with mark 0. After NoMemory nothing has changed.
    pub fn load(&mut self, alloc: Global, row: StoredRow) -> Result<(), NoMemory>
        requires absent { versions_at self.old (cell_of row) ≡ [] }
        ensures loaded { OnOk result (HasLoaded self.old self.new row) }
        ensures kept { OnErr result (self.new ≡ self.old) }
    {
        let StoredRow {
            table,
            key,
            value,
            writer,
        } = row;
        let version = Version {
            writer,
            mark: 0,
            put: Some(value),
        };
        table::load(
            alloc,
            &mut self.tables[usize::from(table.number())],
            key,
            version,
        )
    }

    /// The version of the key that is seen at a mark.
    pub fn get_at(&self, table: Table, key: &Key, mark: u64) -> Option<&Version>
        ensures version { option_copied result ≡ visible mark (versions_at self.now (record { table = table; key = key.now })) }
        ensures row { row_of_version (record { table = table; key = key.now }) (option_copied result) ≡ row_at (rows_at mark self.now) (record { table = table; key = key.now }) }
        ensures in_order { IsRising cell_of_kept self.now }
    {
        self.tables[usize::from(table.number())]
            .get(key)?
            .visible(mark)
    }

    /// The rows of a table from `low` on and below `high` at a mark, in the order of their keys, and
    /// the look of each key of the range of which a version is seen there, deleted ones included.
    pub fn scan_at(
        &self,
        alloc: Global,
        table: Table,
        low: &Bound,
        high: &Bound,
        mark: u64,
    ) -> Result<Scanned, NoMemory>
        ensures rows { IfOk result (λ scanned. scanned.rows.items ≡ rows_between (rows_at mark self.now) table low.now high.now) }
        ensures looks { IfOk result (λ scanned. scanned.looks.items ≡ looks_between mark self.now table low.now high.now) }
        ensures in_order { IsRising cell_of_kept self.now }
    {
        table::scan(
            alloc,
            &self.tables[usize::from(table.number())],
            low,
            high,
            mark,
        )
    }

    /// Makes room for one version of each key written. Versions stay as they are, after NoMemory too.
    pub fn reserve(&mut self, alloc: Global, writes: &[Write]) -> Result<(), NoMemory>
        ensures made { OnOk result (AllByRecursion (λ w. 0 < room_at self.new (cell_of_write w)) writes.now) }
        ensures same { HasSameVersions self.old self.new }
    {
        for write in writes {
            self.reserve_write(alloc, write)?;
        }
        Ok(())
    }

    /// Makes room for one version of a key. After NoMemory nothing has changed.
    fn reserve_write(&mut self, alloc: Global, write: &Write) -> Result<(), NoMemory>
        ensures made { OnOk result (0 < room_at self.new (cell_of_write write.now)) }
        ensures same { HasSameVersions self.old self.new }
    {
        table::reserve(
            alloc,
            &mut self.tables[usize::from(write.table.number())],
            &write.key,
        )
    }

    /// Adds the version that a commit's write makes of its key, without taking memory.
    pub fn install(&mut self, writer: Tx, mark: u64, write: Write)
        requires room { 0 < room_at self.old (cell_of_write write) }
        requires above { AreBelow mark (versions_at self.old (cell_of_write write)) }
        ensures installed { self.new ≡ with_version writer mark write self.old }
        ensures rows { (m : ℕ) → mark ≤ m → rows_at m self.new ≡ rows_with (cell_of_write write) (row_of_write writer write) (rows_at m self.old) }
        ensures before { (m : ℕ) → m < mark → rows_at m self.new ≡ rows_at m self.old }
        ensures latest { latest_rows self.new ≡ rows_with (cell_of_write write) (row_of_write writer write) (latest_rows self.old) }
    {
        let Write { table, key, put } = write;
        self.newest.raise(table, mark);
        table::install(
            &mut self.tables[usize::from(table.number())],
            &key,
            Version { writer, mark, put },
        );
    }
}

impl Latest for Store {
    ghost use Rattle.std.specs.Prelude.{◌≡◌};
    ghost use Rattle.ltx_store.specs.Kept.{latest_rows};

    ghost rows = { λ s. latest_rows s };

    fn writer(&self, table: Table, key: &Key) -> Option<Tx> {
        table::putter(self.tables[usize::from(table.number())].get(key)?)
    }

    fn after(&self, table: Table, from: &[u8], strict: bool) -> Option<(&Key, Tx)> {
        table::next_put(&self.tables[usize::from(table.number())], from, strict)
    }
}

impl Marked for Store {
    ghost use Rattle.std.specs.Prelude.{◌≡◌};
    ghost use Rattle.ltx_store.specs.Kept.{rows_at};

    ghost rows_at = { λ mark s. rows_at mark s };

    fn newest_mark(&self) -> u64 {
        self.newest.of_all()
    }

    fn newest_mark_of(&self, table: Table) -> u64 {
        self.newest.of_table(table)
    }
}

#[cfg(test)]
mod tests {
    use super::Store;
    use ltx_chain::marked::Marked;
    use ltx_model::bytes::{Bound, Key, Value};
    use ltx_model::latest::Latest;
    use ltx_model::numbers::{Table, Tx};
    use ltx_model::rows::StoredRow;
    use ltx_model::writes::Write;
    use std::alloc::Global;
    use std::test::Fail;

    fn key(alloc: Global, byte: u8) -> Result<Key, Fail> {
        Ok(Key::from_bytes(vec![in alloc; byte]?)?)
    }

    fn table(n: u8) -> Result<Table, Fail> {
        Ok(Table::new(n).ok_or(n)?)
    }

    fn tx(n: u64) -> Result<Tx, Fail> {
        Ok(Tx::new(n).ok_or(n)?)
    }

    fn row(alloc: Global, byte: u8) -> Result<StoredRow, Fail> {
        Ok(StoredRow {
            table: table(1)?,
            key: key(alloc, byte)?,
            value: Value::from_bytes(Vec::new(alloc))?,
            writer: tx(1)?,
        })
    }

    fn next_through_the_bound<L: Latest>(latest: &L, table: Table, from: &[u8]) -> Option<u64> {
        match latest.after(table, from, true) {
            Some((_key, writer)) => Some(writer.number()),
            None => None,
        }
    }

    fn newest_through_the_bound<L: Marked>(latest: &L, table: Table) -> (u64, u64) {
        (latest.newest_mark(), latest.newest_mark_of(table))
    }

    #[test]
    fn base_rows_are_seen_at_each_mark(rt: HostRuntime) -> Result<(), Fail> {
        let alloc = rt.alloc();
        let mut store = Store::new(alloc)?;
        store.load(alloc, row(alloc, b'a')?)?;
        let all = Bound::from_bytes(Vec::new(alloc))?;
        let scanned = store.scan_at(alloc, table(1)?, &all, &all, 0)?;
        assert_eq!(rt; (scanned.rows.len(), scanned.looks.len()), (1, 1));
        assert!(rt; store.get_at(table(1)?, &key(alloc, b'a')?, 7).is_some());
        assert!(rt; store.writer(table(1)?, &key(alloc, b'a')?).is_some());
        assert_eq!(rt; next_through_the_bound(&store, table(1)?, b"A"), Some(1));
        Ok(())
    }

    #[test]
    fn a_deletion_leaves_a_look_and_no_row(rt: HostRuntime) -> Result<(), Fail> {
        let alloc = rt.alloc();
        let mut store = Store::new(alloc)?;
        let deletion = Write {
            table: table(1)?,
            key: key(alloc, b'a')?,
            put: None,
        };
        store.reserve(alloc, &[deletion.copy()?])?;
        store.install(tx(2)?, 1, deletion);
        let all = Bound::from_bytes(Vec::new(alloc))?;
        let before = store.scan_at(alloc, table(1)?, &all, &all, 0)?;
        let after = store.scan_at(alloc, table(1)?, &all, &all, 1)?;
        assert_eq!(rt; (before.rows.len(), before.looks.len()), (0, 0));
        assert_eq!(rt; (after.rows.len(), after.looks.len()), (0, 1));
        assert!(rt; store.writer(table(1)?, &key(alloc, b'a')?).is_none());
        assert_eq!(rt; newest_through_the_bound(&store, table(1)?), (1, 1));
        assert_eq!(rt; newest_through_the_bound(&store, table(2)?), (1, 0));
        Ok(())
    }
}
