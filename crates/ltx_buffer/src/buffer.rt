//! The writes of an open transaction: of each key that it wrote the last write, in order of table
//! and key, for what it sees of them and for its commit.

ghost use Rattle.std.specs.Prelude.{◌≡◌, ◌<◌, ◌≤◌, [], length, insert, vec_capacity, IfOk, OnOk, OnErr, option_copied};
ghost use Rattle.ltx_model.specs.Keys.{IsRising, put_in_order};
ghost use Rattle.ltx_model.specs.Operations.{cell_of_write};
ghost use Rattle.ltx_buffer.specs.Own.{write_at, cell_in, merged, keys_between};

use crate::merge::merge;
use crate::places::{keys_of, place_of, writes_between};
use ltx_model::bytes::{Bound, Key};
use ltx_model::memory::NoMemory;
use ltx_model::numbers::Table;
use ltx_model::rows::Row;
use ltx_model::writes::Write;
use std::alloc::Global;
use std::marker::Model;

/// The own writes of a transaction.
#[derive(Debug, Drop)]
pub struct Buffer {
    writes: Vec<Write>,
}

// Clauses see the writes, in order of table and key, and how many more can be noted without taking
// memory.
impl Model for Buffer {
    ghost use Rattle.std.specs.Prelude.{vec_capacity, ◌-◌, length};
    ghost use Rattle.ltx_model.specs.Keys.{IsRising};
    ghost use Rattle.ltx_model.specs.Operations.{cell_of_write};
    ghost use Rattle.ltx_buffer.specs.Own.{Own};

    ghost Value = { Own };

    ghost view = { λ b. record { writes = b.writes.items; room = vec_capacity b.writes - length b.writes.items } };

    ghost invariant = { λ b. IsRising cell_of_write b.writes.items };
}

impl Buffer {
    /// A buffer without writes, which takes no memory.
    pub fn new(alloc: Global) -> Buffer
        ensures { result.writes ≡ [] }
    {
        Buffer {
            writes: Vec::new(alloc),
        }
    }

    /// Makes room for a write; the writes stay as they are. After NoMemory nothing has changed.
    pub fn reserve_one(&mut self) -> Result<(), NoMemory>
        ensures writes { self.new.writes ≡ self.old.writes }
        ensures made { OnOk result (0 < self.new.room) }
        ensures err { OnErr result (self.new ≡ self.old) }
    {
        self.writes.reserve(1)?;
        Ok(())
    }

    /// Notes a write, for which there is room. It takes the place of an earlier one of its key.
    #[tactic(auto, using(crate::proofs::Search::put_found, crate::proofs::Search::put_gap))]
    pub fn put(&mut self, write: Write)
        requires room { 0 < self.old.room }
        ensures put { self.new.writes ≡ put_in_order cell_of_write write self.old.writes }
    {
        match place_of(&self.writes, write.table, &write.key) {
            Ok(place) => self.writes[place] = write,
            Err(place) => insert_at(&mut self.writes, place, write),
        }
    }

    /// Notes a write, which takes the place of an earlier one of its key. After NoMemory nothing has
    /// changed.
    pub fn note(&mut self, write: Write) -> Result<(), NoMemory>
        ensures noted { OnOk result (self.new.writes ≡ put_in_order cell_of_write write self.old.writes) }
        ensures kept { OnErr result (self.new ≡ self.old) }
    {
        self.reserve_one()?;
        self.put(write);
        Ok(())
    }

    /// The write of the key.
    #[tactic(auto, using(crate::proofs::Search::write_at_found, crate::proofs::Search::write_at_gap))]
    pub fn own(&self, table: Table, key: &Key) -> Option<&Write>
        ensures { option_copied result ≡ write_at self.now.writes (record { table = table; key = key.now }) }
    {
        match place_of(&self.writes, table, key) {
            Ok(place) => self.writes.get(place),
            Err(_) => None,
        }
    }

    /// A scan's rows of the table, from `low` on and below `high` in rising order of their keys, with
    /// the own writes of that range over them: a key with a put has the row that it puts, and one with
    /// a deletion has none. Where nothing of the range is own, the rows are given back as they are.
    pub fn merge(
        &self,
        alloc: Global,
        table: Table,
        low: &Bound,
        high: &Bound,
        rows: Vec<Row>,
    ) -> Result<Vec<Row>, NoMemory>
        requires rising { IsRising (cell_in table) rows.items }
        ensures merged { IfOk result (λ all. all.items ≡ merged self.now.writes table low.now high.now rows.items) }
        ensures rising { IfOk result (λ all. IsRising (cell_in table) all.items) }
    {
        let own = writes_between(&self.writes, table, low, high);
        if own.is_empty() {
            return Ok(rows);
        }
        merge(alloc, own, rows)
    }

    /// Copies of the keys of a range of the table that have an own write, in their order.
    pub fn keys_between(
        &self,
        alloc: Global,
        table: Table,
        low: &Bound,
        high: &Bound,
    ) -> Result<Vec<Key>, NoMemory>
        ensures { IfOk result (λ keys. keys.items ≡ keys_between self.now.writes table low.now high.now) }
    {
        keys_of(alloc, writes_between(&self.writes, table, low, high))
    }

    /// The writes, in order of table and key, one for each key.
    pub fn writes(&self) -> &[Write]
        ensures value { result.now ≡ self.now.writes }
        ensures rising { IsRising cell_of_write self.now.writes }
    {
        &self.writes
    }

    /// The writes, out of the buffer, in order of table and key, one for each key.
    pub fn into_writes(self) -> Vec<Write>
        ensures value { result.items ≡ self.writes }
        ensures rising { IsRising cell_of_write self.writes }
    {
        let Buffer { writes } = self;
        writes
    }
}

// Puts the write at its place, where there is room for it.
fn insert_at(writes: &mut Vec<Write>, place: usize, write: Write)
    requires in_range { place ≤ length writes.old.items }
    requires room { length writes.old.items < vec_capacity writes.old }
    ensures { writes.new.items ≡ insert writes.old.items place write }
{
    let _ = writes.insert(place, write);
}

#[cfg(test)]
mod tests {
    use super::Buffer;
    use ltx_model::bytes::{Bound, Key, Value};
    use ltx_model::numbers::Table;
    use ltx_model::writes::Write;
    use std::alloc::Global;
    use std::test::Fail;

    fn key(alloc: Global, byte: u8) -> Result<Key, Fail> {
        Ok(Key::from_bytes(vec![in alloc; byte]?)?)
    }

    fn value(alloc: Global, byte: u8) -> Result<Value, Fail> {
        Ok(Value::from_bytes(vec![in alloc; byte]?)?)
    }

    fn write(alloc: Global, table: Table, byte: u8, put: Option<u8>) -> Result<Write, Fail> {
        Ok(Write {
            table,
            key: key(alloc, byte)?,
            put: match put {
                Some(b) => Some(value(alloc, b)?),
                None => None,
            },
        })
    }

    #[test]
    fn the_last_write_of_a_key_is_kept(rt: HostRuntime) -> Result<(), Fail> {
        let alloc = rt.alloc();
        let table = Table::new(1).ok_or(1u8)?;
        let mut buffer = Buffer::new(alloc);
        buffer.note(write(alloc, table, b'b', Some(b'1'))?)?;
        buffer.note(write(alloc, table, b'a', Some(b'2'))?)?;
        buffer.note(write(alloc, table, b'b', None)?)?;
        assert_eq!(rt; buffer.writes().len(), 2);
        assert!(rt; buffer.own(table, &key(alloc, b'b')?).is_some());
        assert!(rt; buffer.own(table, &key(alloc, b'c')?).is_none());
        let all = Bound::from_bytes(Vec::new(alloc))?;
        let rows = buffer.merge(alloc, table, &all, &all, Vec::new(alloc))?;
        assert_eq!(rt; rows.len(), 1);
        assert_eq!(rt; buffer.keys_between(alloc, table, &all, &all)?.len(), 2);
        assert_eq!(rt; buffer.into_writes().len(), 2);
        Ok(())
    }
}
