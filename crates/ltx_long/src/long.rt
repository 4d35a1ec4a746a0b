//! A batch that has begun and not ended: what it declared, since when it is live, and its notes for
//! the placing at its commit and for the records.

ghost use Rattle.std.specs.Prelude.{◌≡◌, ◌<◌, ◌≤◌, ℕ, length, OnOk, OnErr, Some, None};
ghost use Rattle.std.specs.List.{list_any};
ghost use Rattle.ltx_model.specs.Limits.{most_operations};
ghost use Rattle.ltx_model.specs.NoteLists.{no_notes, is_of_table, looks_into_table};
ghost use Rattle.ltx_model.specs.Tables.{has_table};
ghost use Rattle.ltx_model.specs.declared.looked.Reach.TheVariants.{Nothing, Point, Range};
ghost use Rattle.ltx_long.specs.Longs.{begun, live_at, noted};

use ltx_model::bytes::{Bound, Key};
use ltx_model::looked::{Looked, Noted};
use ltx_model::memory::NoMemory;
use ltx_model::notes::Notes;
use ltx_model::numbers::{Table, Tx};
use ltx_model::tables::TableSet;
use ltx_model::writes::Look;
use std::alloc::Global;
use std::marker::Model;

/// A batch with its notes.
#[derive(Debug, Drop)]
pub struct LongTx {
    tx: Tx,
    writes: TableSet,
    reads: TableSet,
    from: u32,
    live: Option<u64>,
    notes: Notes,
}

// Clauses see all of it.
impl Model for LongTx {
    ghost use Rattle.ltx_long.specs.Longs.{Long};

    ghost Value = { Long };

    ghost view = { λ b. record { tx = b.tx; writes = b.writes; reads = b.reads; from = b.from; live = b.live; list = b.notes } };
}

impl LongTx {
    /// A batch that has begun and is pending, without notes. It takes no memory. `from` is the epoch
    /// in which it is to become live.
    pub fn new(alloc: Global, tx: Tx, writes: TableSet, reads: TableSet, from: u32) -> LongTx
        ensures { result ≡ begun tx writes reads from }
    {
        LongTx {
            tx,
            writes,
            reads,
            from,
            live: None,
            notes: Notes::new(alloc),
        }
    }

    /// From now on it is live, and sees what was committed up to this mark, the number of commits by
    /// now.
    pub fn go_live(&mut self, mark: u64)
        ensures { self.new ≡ live_at self.old mark }
    {
        self.live = Some(mark);
    }

    /// The mark at which it became live, or None while it is pending.
    pub fn mark(&self) -> Option<u64>
        ensures { result ≡ self.now.live }
    {
        self.live
    }

    /// The tables that it declared for writing.
    pub fn writes(&self) -> TableSet
        ensures { result ≡ self.now.writes }
    {
        self.writes
    }

    /// The tables that it declared for reading.
    pub fn reads(&self) -> TableSet
        ensures { result ≡ self.now.reads }
    {
        self.reads
    }

    /// The epoch in which it is to become live, or became so.
    pub fn from(&self) -> u32
        ensures { result ≡ self.now.from }
    {
        self.from
    }

    /// Notes a get: the look of the key's last writer, and whether the batch had written the key
    /// before. After NoMemory nothing has changed.
    pub fn note_get(
        &mut self,
        table: Table,
        key: Key,
        look: Option<Look>,
        own: bool,
    ) -> Result<(), NoMemory>
        requires limit { length self.old.list.notes < most_operations }
        ensures noted { OnOk result (self.new ≡ noted self.old (record { table = table; reach = Point key look own; write = None })) }
        ensures kept { OnErr result (self.new ≡ self.old) }
    {
        self.notes.note_get(table, key, look, own)
    }

    /// Notes a scan: the looks of the kept keys of its range, and the keys of the range that the
    /// batch had written before. After NoMemory nothing has changed.
    pub fn note_scan(
        &mut self,
        table: Table,
        low: Bound,
        high: Bound,
        looks: Vec<Look>,
        own: Vec<Key>,
    ) -> Result<(), NoMemory>
        requires limit { length self.old.list.notes < most_operations }
        ensures noted { OnOk result (self.new ≡ noted self.old (record { table = table; reach = Range low high looks.items own.items; write = None })) }
        ensures kept { OnErr result (self.new ≡ self.old) }
    {
        self.notes.note_scan(table, low, high, looks, own)
    }

    /// Notes a put or a deletion of the key. After NoMemory nothing has changed.
    pub fn note_write(&mut self, table: Table, key: Key) -> Result<(), NoMemory>
        requires limit { length self.old.list.notes < most_operations }
        ensures noted { OnOk result (self.new ≡ noted self.old (record { table = table; reach = Nothing; write = Some key })) }
        ensures kept { OnErr result (self.new ≡ self.old) }
    {
        self.notes.note_write(table, key)
    }

    /// The number of operations noted.
    pub fn count(&self) -> u32
        ensures value { result ≡ length self.now.list.notes }
        ensures limit { result ≤ most_operations }
    {
        self.notes.count()
    }

    /// The tables that operations touched.
    pub fn touched(&self) -> TableSet
        ensures { (t : ℕ) → t < 64 → has_table result t ≡ list_any (is_of_table t) self.now.list.notes }
    {
        self.notes.touched()
    }

    /// The tables that operations looked into: by a scan, or by a get of a key that the batch had not
    /// written before.
    pub fn looked_into(&self) -> TableSet
        ensures { (t : ℕ) → t < 64 → has_table result t ≡ list_any (looks_into_table t) self.now.list.notes }
    {
        self.notes.looked_into()
    }
}

impl Looked for LongTx {
    ghost use Rattle.std.specs.Prelude.{◌≡◌};

    ghost tx_of = { λ b. b.tx };

    ghost noted_of = { λ b. b.list.notes };

    fn tx(&self) -> Tx {
        self.tx
    }

    fn noted(&self) -> &[Noted] {
        self.notes.items()
    }
}

#[cfg(test)]
mod tests {
    use super::LongTx;
    use ltx_model::bytes::{Bound, Key};
    use ltx_model::looked::Looked;
    use ltx_model::numbers::{Table, Tx};
    use ltx_model::tables::TableSet;
    use std::test::Fail;

    fn key(rt: &HostRuntime) -> Result<Key, Fail> {
        Ok(Key::from_bytes(vec![in rt.alloc(); b'k']?)?)
    }

    fn bound(rt: &HostRuntime) -> Result<Bound, Fail> {
        Ok(Bound::from_bytes(Vec::new(rt.alloc()))?)
    }

    fn table(n: u8) -> Result<Table, Fail> {
        Ok(Table::new(n).ok_or(n)?)
    }

    fn noted_through_the_bound<L: Looked>(tx: &L) -> (u64, usize) {
        (tx.tx().number(), tx.noted().len())
    }

    #[test]
    fn a_live_batch_leaves_notes(rt: HostRuntime) -> Result<(), Fail> {
        let tx = Tx::new(7).ok_or(7u64)?;
        let writes = TableSet::empty().with(table(1)?);
        let mut batch = LongTx::new(rt.alloc(), tx, writes, TableSet::all(), 3);
        assert_eq!(rt; batch.mark(), None);
        batch.go_live(5);
        assert_eq!(rt; batch.mark(), Some(5));
        assert!(rt; batch.writes() == writes && batch.reads() == TableSet::all());
        assert_eq!(rt; batch.from(), 3);
        batch.note_write(table(1)?, key(&rt)?)?;
        batch.note_get(table(1)?, key(&rt)?, None, true)?;
        batch.note_scan(
            table(2)?,
            bound(&rt)?,
            bound(&rt)?,
            Vec::new(rt.alloc()),
            Vec::new(rt.alloc()),
        )?;
        assert_eq!(rt; batch.count(), 3);
        assert!(rt; batch.touched().has(table(1)?) && batch.touched().has(table(2)?));
        assert!(rt; !batch.looked_into().has(table(1)?) && batch.looked_into().has(table(2)?));
        assert_eq!(rt; noted_through_the_bound(&batch), (7, 3));
        Ok(())
    }
}
