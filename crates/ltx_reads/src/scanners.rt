//! Stamps by table: for each table the stamps of the commits that scanned in it.

ghost use Rattle.std.specs.Prelude.{◌≡◌, ◌==◌, ◌≤◌, length, [], get_or, OnOk, OnErr};
ghost use Rattle.ltx_reads.specs.Places.{scans_at, IsStampedBy, HasSameStamps};

use crate::stamps::Stamps;
use ltx_model::memory::NoMemory;
use ltx_model::numbers::Table;
use std::alloc::Global;
use std::marker::Model;

/// Tables with their stamps. Where nothing was put they take no memory.
#[derive(Debug, Drop)]
pub(crate) struct Scanners {
    alloc: Global,
    tables: Vec<Stamps>,
}

impl Model for Scanners {
    ghost use Rattle.std.specs.Prelude.{ℕ, List};

    ghost Value = { List (List ℕ) };

    ghost view = { λ s. s.tables.items };
}

impl Scanners {
    /// No stamps.
    pub(crate) fn new(alloc: Global) -> Scanners
        ensures { result ≡ [] }
    {
        Scanners {
            alloc,
            tables: Vec::new(alloc),
        }
    }

    /// The stamps of the table.
    pub(crate) fn stamps(&self, table: Table) -> &[u64]
        ensures { result.now ≡ get_or self.now table [] }
    {
        match self.tables.get(usize::from(table.number())) {
            Some(stamps) => stamps.items(),
            None => &[],
        }
    }

    /// Puts the stamp at the table, where it is not yet the last one there. After NoMemory all tables
    /// are as before.
    pub(crate) fn push(&mut self, table: Table, stamp: u64) -> Result<(), NoMemory>
        ensures stamped { OnOk result (IsStampedBy (λ cell. table == cell.table) stamp (scans_at self.old) (scans_at self.new)) }
        ensures kept { OnErr result (HasSameStamps (scans_at self.old) (scans_at self.new)) }
    {
        self.make_tables()?;
        self.tables[usize::from(table.number())].push(stamp)
    }

    /// Makes a place for each table. The stamps stay as they are, after NoMemory too.
    fn make_tables(&mut self) -> Result<(), NoMemory>
        ensures made { OnOk result (64 ≤ length self.new) }
        ensures same { HasSameStamps (scans_at self.old) (scans_at self.new) }
    {
        for _t in self.tables.len()..usize::from(Table::COUNT) {
            self.tables.push(Stamps::new(self.alloc))?;
        }
        Ok(())
    }
}
