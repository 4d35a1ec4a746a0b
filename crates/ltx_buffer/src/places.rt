//! Searches among writes that stand in rising order of table and key.

ghost use Rattle.std.specs.Prelude.{◌≡◌, filter, map, IfOk, IfErr};
ghost use Rattle.ltx_model.specs.Keys.{IsRising};
ghost use Rattle.ltx_model.specs.Operations.{cell_of_write};
ghost use Rattle.ltx_buffer.specs.Own.{is_between};
ghost use Rattle.ltx_buffer.specs.Places.{IsFoundAt, IsGapAt, IsSplitAt, end_of};

use ltx_model::bytes::{Bound, Key, compare_bytes};
use ltx_model::commands::compare_cells;
use ltx_model::memory::NoMemory;
use ltx_model::numbers::Table;
use ltx_model::writes::Write;
use std::alloc::Global;

// Where the key's write stands, or where it would go.
pub(crate) fn place_of(writes: &[Write], table: Table, key: &Key) -> Result<usize, usize>
    requires rising { IsRising cell_of_write writes.now }
    ensures found { IfOk result (IsFoundAt (record { table = table; key = key.now }) writes.now) }
    ensures absent { IfErr result (IsGapAt (record { table = table; key = key.now }) writes.now) }
{
    writes.binary_search_by(|write| compare_cells(write.table, &write.key, table, key))
}

// How many writes are of keys below this one.
fn count_below(writes: &[Write], table: u8, key: &[u8]) -> usize
    requires rising { IsRising cell_of_write writes.now }
    ensures { IsSplitAt (record { table = table; key = key.now }) writes.now result }
{
    writes.partition_point(|write| {
        write
            .table
            .number()
            .cmp(&table)
            .then_with(|| compare_bytes(write.key.bytes(), key))
            .is_lt()
    })
}

// The writes of a range of the table.
pub(crate) fn writes_between<'a>(
    writes: &'a [Write],
    table: Table,
    low: &Bound,
    high: &Bound,
) -> &'a [Write]
    requires rising { IsRising cell_of_write writes.now }
    ensures { result.now ≡ filter (is_between table low.now high.now) writes.now }
{
    let rest = &writes[count_below(writes, table.number(), low.bytes())..];
    &rest[..count_to_end(rest, table, high)]
}

// How many writes stand before the end of a range.
fn count_to_end(writes: &[Write], table: Table, high: &Bound) -> usize
    requires rising { IsRising cell_of_write writes.now }
    ensures { IsSplitAt (end_of table high.now) writes.now result }
{
    if high.bytes().is_empty() {
        count_below(writes, table.number() + 1, &[])
    } else {
        count_below(writes, table.number(), high.bytes())
    }
}

// Copies of the keys of the writes, in their order.
pub(crate) fn keys_of(alloc: Global, writes: &[Write]) -> Result<Vec<Key>, NoMemory>
    ensures { IfOk result (λ keys. keys.items ≡ map (λ w. w.key) writes.now) }
{
    let mut keys = Vec::with_capacity(alloc, writes.len())?;
    for write in writes {
        keys.push(write.key.copy()?)?;
    }
    Ok(keys)
}
