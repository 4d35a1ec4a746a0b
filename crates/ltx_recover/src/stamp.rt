//! The writes that count: of each key the last one, in the order of the committed transactions.

ghost use Rattle.std.specs.Prelude.{◌≡◌, ◌++◌, [], OnOk, IfOk};
ghost use Rattle.ltx_model.specs.Keys.{IsRising, cell_cmp};
ghost use Rattle.ltx_model.specs.StoredRows.{cell_of};
ghost use Rattle.ltx_recover.specs.Stamps.{stamped_of, stamped_in, stamped_by, cell_at, rows_with_all, row_left, row_unless, AreInCellOrder, begins_at};

use ltx_model::commands::compare_cells;
use ltx_model::memory::NoMemory;
use ltx_model::numbers::Tx;
use ltx_model::rows::{StoredList, StoredRow};
use ltx_model::writes::Write;
use std::alloc::Global;
use std::cmp::Ordering;

/// A write, and the transaction that it is of.
#[derive(Clone, Copy)]
pub(crate) struct Stamp<'a> {
    writer: Tx,
    write: &'a Write,
}

impl<'a> Stamp<'a> {
    /// The order of the keys that are written, by table and then by key.
    fn compare(&self, other: &Stamp<'_>) -> Ordering
        ensures { result ≡ cell_cmp (cell_at (stamped_of self.now)) (cell_at (stamped_of other.now)) }
    {
        compare_cells(
            self.write.table,
            &self.write.key,
            other.write.table,
            &other.write.key,
        )
    }

    /// Whether the next write is of the same key.
    fn is_overwritten(&self, later: &[Stamp<'_>]) -> bool
        ensures { result ≡ begins_at (cell_at (stamped_of self.now)) (stamped_in later.now) }
    {
        match later.first() {
            Some(next) => next.compare(self).is_eq(),
            None => false,
        }
    }

    /// Appends the row that the write leaves, unless it deletes.
    fn put_row(&self, rows: &mut Vec<StoredRow>) -> Result<(), NoMemory>
        ensures { OnOk result (rows.new.items ≡ rows.old.items ++ row_left (stamped_of self.now)) }
    {
        if let Some(value) = &self.write.put {
            rows.push(StoredRow {
                table: self.write.table,
                key: self.write.key.copy()?,
                value: value.copy()?,
                writer: self.writer,
            })?;
        }
        Ok(())
    }

    /// Appends the row that the write leaves, unless it deletes, or the next write is of the same key.
    fn put_last(&self, later: &[Stamp<'_>], rows: &mut Vec<StoredRow>) -> Result<(), NoMemory>
        ensures { OnOk result (rows.new.items ≡ rows.old.items ++ row_unless (begins_at (cell_at (stamped_of self.now)) (stamped_in later.now)) (stamped_of self.now)) }
    {
        if self.is_overwritten(later) {
            return Ok(());
        }
        self.put_row(rows)
    }
}

/// Appends the writes of a transaction.
pub(crate) fn put_stamps<'a>(
    writer: Tx,
    writes: &'a [Write],
    stamps: &mut Vec<Stamp<'a>>,
) -> Result<(), NoMemory>
    ensures { OnOk result (stamped_in stamps.new.items ≡ stamped_in stamps.old.items ++ stamped_by writer writes.now) }
{
    for write in writes {
        if stamps.push(Stamp { writer, write }).is_err() {
            return Err(NoMemory);
        }
    }
    Ok(())
}

/// Puts writes into the order of their keys. Those of one key stay in their order.
fn sort_stamps(stamps: &mut Vec<Stamp<'_>>) -> Result<(), NoMemory>
    ensures sorted { OnOk result (AreInCellOrder (stamped_in stamps.new.items)) }
    ensures same { OnOk result (rows_with_all [] (stamped_in stamps.new.items) ≡ rows_with_all [] (stamped_in stamps.old.items)) }
{
    stamps.sort_by(|a, b| a.compare(b))?;
    Ok(())
}

/// The rows that writes in the order of their keys leave: of each key that of the last one.
fn last_rows(alloc: Global, stamps: &[Stamp<'_>]) -> Result<Vec<StoredRow>, NoMemory>
    requires sorted { AreInCellOrder (stamped_in stamps.now) }
    ensures rows { IfOk result (λ rows. rows.items ≡ rows_with_all [] (stamped_in stamps.now)) }
    ensures rising { IfOk result (λ rows. IsRising cell_of rows.items) }
{
    let mut rows = Vec::new(alloc);
    for i in 0..stamps.len() {
        let (_, later) = stamps.split_at(i + 1);
        stamps[i].put_last(later, &mut rows)?;
    }
    Ok(rows)
}

/// The rows that writes leave, one after another, on no rows. Only what is left is copied.
pub(crate) fn rows_of(alloc: Global, stamps: Vec<Stamp<'_>>) -> Result<StoredList, NoMemory>
    ensures { IfOk result (λ rows. rows ≡ rows_with_all [] (stamped_in stamps.entry.items)) }
{
    let mut sorted = stamps;
    sort_stamps(&mut sorted)?;
    Ok(StoredList::from_vec(last_rows(alloc, &sorted)?))
}
