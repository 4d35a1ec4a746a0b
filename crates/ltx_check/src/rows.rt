//! The rows of a replay, in an ordered map for each table.

ghost use Rattle.std.specs.Prelude.{◌≡◌, ◌<◌, ℕ, List, [], ◌∷◌, map, get_or, length, false, true, IfOk, OnOk, IfSome, IfNone};
ghost use Rattle.ltx_model.specs.declared.rows.StoredRow.{StoredRow};
ghost use Rattle.ltx_model.specs.declared.commands.Op.TheVariants as ops;
ghost use Rattle.ltx_model.specs.declared.replies.Reply.TheVariants as replies;
ghost use Rattle.ltx_model.specs.Rows.{reply_on, rows_after};
ghost use Rattle.ltx_index.specs.Pairs.{IsInOrder, value_at, with_pair, without_key};
ghost use Rattle.ltx_check.specs.Tables.{AreRows, pairs_in, row_of_pair, under, rows_between_pairs, found_value};
ghost use Rattle.ltx_model.specs.Keys.{is_below_end};

use ltx_index::index::Index;
use ltx_index::walk::Walk;
use ltx_model::bytes::{Bound, Key, Value, compare_bytes};
use ltx_model::commands::Op;
use ltx_model::memory::NoMemory;
use ltx_model::numbers::Table;
use ltx_model::replies::Reply;
use ltx_model::rows::Row;
use std::alloc::Global;
use std::marker::Model;

/// The rows of all tables.
#[derive(Debug, Drop)]
pub(crate) struct Rows {
    tables: Vec<Index<Value>>,
}

// Clauses see the pairs of each table.
impl Model for Rows {
    ghost use Rattle.std.specs.Prelude.{◌≡◌, List, length};
    ghost use Rattle.ltx_check.specs.Tables.{Pairs};

    ghost Value = { List Pairs };

    ghost view = { λ r. r.tables.items };

    ghost invariant = { λ r. length r.tables.items ≡ 64 };
}

impl Rows {
    /// No rows.
    pub fn new(alloc: Global) -> Result<Rows, NoMemory>
        ensures { IfOk result (λ rows. AreRows rows []) }
    {
        let mut tables = Vec::with_capacity(alloc, usize::from(Table::COUNT))?;
        for _t in 0..Table::COUNT {
            tables.push(Index::new(alloc))?;
        }
        Ok(Rows { tables })
    }

    /// The rows of a table.
    fn table(&self, table: Table) -> &Index<Value>
        ensures { (rows : List StoredRow) → AreRows self.now rows → result.now ≡ pairs_in table rows }
    {
        &self.tables[usize::from(table.number())]
    }

    /// Puts the value at the key of a table.
    fn put(&mut self, table: Table, key: &Key, value: &Value) -> Result<(), NoMemory>
        ensures { OnOk result ((tx : ℕ) (rows : List StoredRow) → AreRows self.old rows → AreRows self.new (rows_after tx rows (ops.Put table key.now value.now))) }
    {
        put(&mut self.tables[usize::from(table.number())], key, value)
    }

    /// Takes the key of a table out.
    fn delete(&mut self, table: Table, key: &Key)
        ensures { (tx : ℕ) (rows : List StoredRow) → AreRows self.old rows → AreRows self.new (rows_after tx rows (ops.Del table key.now)) }
    {
        delete(&mut self.tables[usize::from(table.number())], key);
    }

    /// What the operation of a transaction leaves.
    pub fn play(&mut self, op: &Op) -> Result<(), NoMemory>
        ensures { OnOk result ((tx : ℕ) (rows : List StoredRow) → AreRows self.old rows → AreRows self.new (rows_after tx rows op.now)) }
    {
        match op {
            Op::Get { .. } | Op::Scan { .. } => Ok(()),
            Op::Put { table, key, value } => self.put(*table, key, value),
            Op::Del { table, key } => {
                self.delete(*table, key);
                Ok(())
            }
        }
    }

    /// Whether a get of the key gets this reply.
    fn gets(&self, table: Table, key: &Key, reply: &Reply) -> bool
        ensures yes { result ≡ true → (rows : List StoredRow) → AreRows self.now rows → reply_on rows (ops.Get table key.now) ≡ reply.now }
        ensures no { result ≡ false → (rows : List StoredRow) → AreRows self.now rows → reply_on rows (ops.Get table key.now) ≡ reply.now → ⊥ }
    {
        is_found(self.table(table), key, reply)
    }

    /// Whether a scan of the range gets this reply.
    fn scans(&self, table: Table, low: &Bound, high: &Bound, reply: &Reply) -> bool
        ensures yes { result ≡ true → (rows : List StoredRow) → AreRows self.now rows → reply_on rows (ops.Scan table low.now high.now) ≡ reply.now }
        ensures no { result ≡ false → (rows : List StoredRow) → AreRows self.now rows → reply_on rows (ops.Scan table low.now high.now) ≡ reply.now → ⊥ }
    {
        are_rows(self.table(table), low, high, reply)
    }

    /// Whether the operation gets this reply.
    pub fn gives(&self, op: &Op, reply: &Reply) -> bool
        ensures yes { result ≡ true → (rows : List StoredRow) → AreRows self.now rows → reply_on rows op.now ≡ reply.now }
        ensures no { result ≡ false → (rows : List StoredRow) → AreRows self.now rows → reply_on rows op.now ≡ reply.now → ⊥ }
    {
        match op {
            Op::Get { table, key } => self.gets(*table, key, reply),
            Op::Scan { table, low, high } => self.scans(*table, low, high, reply),
            Op::Put { .. } | Op::Del { .. } => is_done(reply),
        }
    }
}

/// Puts the value at the key.
fn put(table: &mut Index<Value>, key: &Key, value: &Value) -> Result<(), NoMemory>
    ensures { OnOk result (table.new ≡ with_pair table.old key.now value.now) }
{
    match table.insert(key.copy()?, value.copy()?) {
        Ok(_) => Ok(()),
        Err(_) => Err(NoMemory),
    }
}

/// Takes the key out.
fn delete(table: &mut Index<Value>, key: &Key)
    ensures { table.new ≡ without_key table.old key.now }
{
    let _ = table.remove(key);
}

/// Whether the reply is `done`.
fn is_done(reply: &Reply) -> bool
    ensures yes { result ≡ true → reply.now ≡ replies.Done }
    ensures no { result ≡ false → reply.now ≡ replies.Done → ⊥ }
{
    matches!(reply, Reply::Done)
}

/// Whether the values have the same bytes.
fn is_value(value: &Value, other: &Value) -> bool
    ensures yes { result ≡ true → value.now ≡ other.now }
    ensures no { result ≡ false → value.now ≡ other.now → ⊥ }
{
    compare_bytes(value.bytes(), other.bytes()).is_eq()
}

/// Whether the keys have the same bytes.
fn is_key(key: &Key, other: &Key) -> bool
    ensures yes { result ≡ true → key.now ≡ other.now }
    ensures no { result ≡ false → key.now ≡ other.now → ⊥ }
{
    compare_bytes(key.bytes(), other.bytes()).is_eq()
}

/// Whether the row has this key and this value.
fn is_row(key: &Key, value: &Value, row: &Row) -> bool
    ensures yes { result ≡ true → row_of_pair (key.now, value.now) ≡ row.now }
    ensures no { result ≡ false → row_of_pair (key.now, value.now) ≡ row.now → ⊥ }
{
    if !is_key(key, &row.key) {
        return false;
    }
    is_value(value, &row.value)
}

/// Whether the reply is that of a get of the key.
fn is_found(table: &Index<Value>, key: &Key, reply: &Reply) -> bool
    ensures yes { result ≡ true → found_value (value_at table.now key.now) ≡ reply.now }
    ensures no { result ≡ false → found_value (value_at table.now key.now) ≡ reply.now → ⊥ }
{
    match reply {
        Reply::Found { value } => match table.get(key) {
            Some(stored) => is_value(stored, value),
            None => false,
        },
        Reply::Absent => table.get(key).is_none(),
        _ => false,
    }
}

/// Whether the reply is that of a scan of the range.
fn are_rows(table: &Index<Value>, low: &Bound, high: &Bound, reply: &Reply) -> bool
    ensures yes { result ≡ true → replies.Rows (rows_between_pairs low.now high.now table.now) ≡ reply.now }
    ensures no { result ≡ false → replies.Rows (rows_between_pairs low.now high.now table.now) ≡ reply.now → ⊥ }
{
    match reply {
        Reply::Rows { rows } => has_rows(table, low, high, rows.items()),
        _ => false,
    }
}

/// Whether the range has these rows.
fn has_rows(table: &Index<Value>, low: &Bound, high: &Bound, rows: &[Row]) -> bool
    ensures yes { result ≡ true → rows_between_pairs low.now high.now table.now ≡ rows.now }
    ensures no { result ≡ false → rows_between_pairs low.now high.now table.now ≡ rows.now → ⊥ }
{
    let mut walk = table.walk(low.bytes(), false);
    for row in rows {
        match next_below(&mut walk, high) {
            None => return false,
            Some((key, value)) => {
                if !is_row(key, value, row) {
                    return false;
                }
            }
        }
    }
    next_below(&mut walk, high).is_none()
}

/// The next pair of a walk, where it is below the upper end of a range.
fn next_below<'t>(walk: &mut Walk<'t, Value>, high: &Bound) -> Option<(&'t Key, &'t Value)>
    ensures some { IfSome result (λ pair. IsInOrder walk.old → under high.now walk.old ≡ (pair.0.now, pair.1.now) ∷ under high.now walk.new) }
    ensures order { IsInOrder walk.old → IsInOrder walk.new }
    ensures none { IfNone result (IsInOrder walk.old → under high.now walk.old ≡ []) }
{
    match walk.next() {
        Some((key, value)) => {
            if is_below(key, high) {
                Some((key, value))
            } else {
                None
            }
        }
        None => None,
    }
}

/// The key is below the upper end of a range, which is no bound where it is empty.
fn is_below(key: &Key, high: &Bound) -> bool
    ensures { result ≡ is_below_end high.now key.now }
{
    high.bytes().is_empty() || compare_bytes(key.bytes(), high.bytes()).is_lt()
}
