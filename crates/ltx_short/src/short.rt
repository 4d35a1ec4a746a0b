//! A short transaction: its number, and its notes for the check at its commit and for the records.

ghost use Rattle.std.specs.Prelude.{◌≡◌, ◌<◌, ◌≤◌, ℕ, List, [], ◌∷◌, ◌++◌, length, OnOk, OnErr, Some, None};
ghost use Rattle.std.specs.List.{list_any, AllByRecursion};
ghost use Rattle.ltx_model.specs.Limits.{most_operations};
ghost use Rattle.ltx_model.specs.NoteLists.{no_notes, is_of_table, looks_into_table};
ghost use Rattle.ltx_model.specs.Tables.{has_table};
ghost use Rattle.ltx_model.specs.declared.looked.Reach.TheVariants.{Nothing, Point, Range};
ghost use Rattle.ltx_short.specs.Shorts.{short_with, noted, marked};

use ltx_model::bytes::{Bound, Key};
use ltx_model::looked::{Looked, Noted};
use ltx_model::memory::NoMemory;
use ltx_model::notes::{Marks, Notes};
use ltx_model::numbers::{Table, Tx};
use ltx_model::tables::TableSet;
use ltx_model::writes::Look;
use std::alloc::Global;
use std::marker::Model;

/// A short transaction with its notes.
#[derive(Debug, Drop)]
pub struct ShortTx {
    tx: Tx,
    notes: Notes,
}

// Clauses see its number, its notes, and their marks.
impl Model for ShortTx {
    ghost use Rattle.ltx_short.specs.Shorts.{Short, short_with};

    ghost Value = { Short };

    ghost view = { λ s. short_with s.tx s.notes };
}

impl ShortTx {
    /// A transaction without notes, which takes no memory. Its first notes are of mark 0.
    pub fn new(alloc: Global, tx: Tx) -> ShortTx
        ensures { result ≡ short_with tx no_notes }
    {
        ShortTx {
            tx,
            notes: Notes::new(alloc),
        }
    }

    /// The next notes are of this mark, the number of commits by now. After NoMemory nothing has
    /// changed.
    pub fn set_mark(&mut self, mark: u64) -> Result<(), NoMemory>
        ensures marked { OnOk result (self.new ≡ marked self.old mark) }
        ensures kept { OnErr result (self.new ≡ self.old) }
    {
        self.notes.set_mark(mark)
    }

    /// Notes a get: the look of the key's last writer, and whether the transaction had written the
    /// key before. After NoMemory nothing has changed.
    pub fn note_get(
        &mut self,
        table: Table,
        key: Key,
        look: Option<Look>,
        own: bool,
    ) -> Result<(), NoMemory>
        requires limit { length self.old.notes < most_operations }
        ensures noted { OnOk result (self.new ≡ noted self.old (record { table = table; reach = Point key look own; write = None })) }
        ensures kept { OnErr result (self.new ≡ self.old) }
    {
        self.notes.note_get(table, key, look, own)
    }

    /// Notes a scan: the looks of the kept keys of its range, and the keys of the range that the
    /// transaction had written before. After NoMemory nothing has changed.
    pub fn note_scan(
        &mut self,
        table: Table,
        low: Bound,
        high: Bound,
        looks: Vec<Look>,
        own: Vec<Key>,
    ) -> Result<(), NoMemory>
        requires limit { length self.old.notes < most_operations }
        ensures noted { OnOk result (self.new ≡ noted self.old (record { table = table; reach = Range low high looks.items own.items; write = None })) }
        ensures kept { OnErr result (self.new ≡ self.old) }
    {
        self.notes.note_scan(table, low, high, looks, own)
    }

    /// Notes a put or a deletion of the key. After NoMemory nothing has changed.
    pub fn note_write(&mut self, table: Table, key: Key) -> Result<(), NoMemory>
        requires limit { length self.old.notes < most_operations }
        ensures noted { OnOk result (self.new ≡ noted self.old (record { table = table; reach = Nothing; write = Some key })) }
        ensures kept { OnErr result (self.new ≡ self.old) }
    {
        self.notes.note_write(table, key)
    }

    /// The number of operations noted.
    pub fn count(&self) -> u32
        ensures value { result ≡ length self.now.notes }
        ensures limit { result ≤ most_operations }
    {
        self.notes.count()
    }

    /// The marks of the notes, in order.
    pub fn marks(&self) -> Marks<'_>
        ensures value { result ≡ self.now.marks }
        ensures count { length result ≡ length self.now.notes }
        ensures limit { length self.now.notes ≤ most_operations }
    {
        self.notes.marks()
    }

    /// The tables that operations touched.
    pub fn touched(&self) -> TableSet
        ensures members { (t : ℕ) → t < 64 → has_table result t ≡ list_any (is_of_table t) self.now.notes }
        ensures within { AllByRecursion (λ note. note.table < 64) self.now.notes }
    {
        self.notes.touched()
    }

    /// The tables that operations looked into: by a scan, or by a get of a key that the transaction
    /// had not written before.
    pub fn looked_into(&self) -> TableSet
        ensures { (t : ℕ) → t < 64 → has_table result t ≡ list_any (looks_into_table t) self.now.notes }
    {
        self.notes.looked_into()
    }
}

impl Looked for ShortTx {
    ghost use Rattle.std.specs.Prelude.{◌≡◌};

    ghost tx_of = { λ s. s.tx };

    ghost noted_of = { λ s. s.notes };

    fn tx(&self) -> Tx {
        self.tx
    }

    fn noted(&self) -> &[Noted] {
        self.notes.items()
    }
}

#[cfg(test)]
mod tests {
    use super::ShortTx;
    use ltx_model::bytes::{Bound, Key};
    use ltx_model::looked::Looked;
    use ltx_model::numbers::{Table, Tx};
    use std::test::Fail;

    fn key(rt: &HostRuntime) -> Result<Key, Fail> {
        Ok(Key::from_bytes(vec![in rt.alloc(); b'k']?)?)
    }

    fn bound(rt: &HostRuntime) -> Result<Bound, Fail> {
        Ok(Bound::from_bytes(Vec::new(rt.alloc()))?)
    }

    fn table(n: u8) -> Result<Table, Fail> {
        Ok(Table::new(n).ok_or(n)?)
    }

    fn noted_through_the_bound<L: Looked>(tx: &L) -> (u64, usize) {
        (tx.tx().number(), tx.noted().len())
    }

    #[test]
    fn each_operation_leaves_a_note(rt: HostRuntime) -> Result<(), Fail> {
        let tx = Tx::new(7).ok_or(7u64)?;
        let mut short = ShortTx::new(rt.alloc(), tx);
        short.note_write(table(1)?, key(&rt)?)?;
        short.note_get(table(1)?, key(&rt)?, None, true)?;
        short.note_scan(
            table(2)?,
            bound(&rt)?,
            bound(&rt)?,
            Vec::new(rt.alloc()),
            Vec::new(rt.alloc()),
        )?;
        assert_eq!(rt; short.count(), 3);
        assert!(rt; short.touched().has(table(1)?) && short.touched().has(table(2)?));
        assert!(rt; !short.looked_into().has(table(1)?) && short.looked_into().has(table(2)?));
        assert_eq!(rt; noted_through_the_bound(&short), (7, 3));
        Ok(())
    }
}
