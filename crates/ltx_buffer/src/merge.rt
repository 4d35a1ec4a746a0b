//! Rows of a table's range with the own writes of that range over them.

ghost use Rattle.std.specs.Prelude.{ℕ, ◌≡◌, ◌≢◌, ◌∷◌, ◌++◌, ◌≤◌, [], length, take, drop, slice_get, IfOk, IfSome, OnOk};
ghost use Rattle.std.specs.List.{AllByRecursion};
ghost use Rattle.std.specs.declared.cmp.Ordering.TheVariants.{Less, Equal};
ghost use Rattle.ltx_model.specs.Keys.{key_cmp, IsRising};
ghost use Rattle.ltx_buffer.specs.Own.{cell_in, rows_under};
ghost use Rattle.ltx_buffer.specs.Places.{key_in, rows_put, begins_with};

use ltx_model::bytes::Key;
use ltx_model::memory::NoMemory;
use ltx_model::rows::Row;
use ltx_model::writes::Write;
use std::alloc::Global;

// The rows of a table, in rising order of their keys, with such writes of its keys over them.
pub(crate) fn merge(alloc: Global, own: &[Write], rows: Vec<Row>) -> Result<Vec<Row>, NoMemory>
    ensures { IfOk result (λ merged. (table : ℕ) → IsRising (key_in table) own.now → IsRising (cell_in table) rows.items → merged.items ≡ rows_under table rows.items own.now) }
{
    let mut merged = Vec::new(alloc);
    let mut at = 0;
    for row in rows {
        at += put_below(&mut merged, &own[at..], &row.key)?;
        if !begins_with(&own[at..], &row.key) {
            merged.push(row)?;
        }
    }
    put_all(&mut merged, &own[at..])?;
    Ok(merged)
}

// Adds the rows that the first writes put, of keys below this one, and tells how many writes these are.
fn put_below(merged: &mut Vec<Row>, own: &[Write], key: &Key) -> Result<usize, NoMemory>
    ensures within { IfOk result (λ count. count ≤ length own.now) }
    ensures rows { IfOk result (λ count. merged.new.items ≡ merged.old.items ++ rows_put (take count own.now)) }
    ensures below { IfOk result (λ count. AllByRecursion (λ w. key_cmp w.key key.now ≡ Less) (take count own.now)) }
    ensures next { IfOk result (λ count. IfSome (slice_get own.now count) (λ w. key_cmp w.key key.now ≢ Less)) }
{
    let mut count = 0;
    for write in own {
        if !write.key.compare(key).is_lt() {
            return Ok(count);
        }
        put(merged, write)?;
        count += 1;
    }
    Ok(count)
}

// Adds the rows that the writes put.
fn put_all(merged: &mut Vec<Row>, own: &[Write]) -> Result<(), NoMemory>
    ensures { OnOk result (merged.new.items ≡ merged.old.items ++ rows_put own.now) }
{
    for write in own {
        put(merged, write)?;
    }
    Ok(())
}

// Adds the row that the write puts, if it puts one.
fn put(merged: &mut Vec<Row>, write: &Write) -> Result<(), NoMemory>
    ensures { OnOk result (merged.new.items ≡ merged.old.items ++ rows_put (write.now ∷ [])) }
{
    if let Some(value) = &write.put {
        merged.push(Row {
            key: write.key.copy()?,
            value: value.copy()?,
        })?;
    }
    Ok(())
}

// The first write is of this key.
fn begins_with(own: &[Write], key: &Key) -> bool
    ensures { result ≡ begins_with own.now key.now }
{
    match own.first() {
        Some(write) => write.key.compare(key).is_eq(),
        None => false,
    }
}
