//! The newest marks of versions.

ghost use Rattle.std.specs.Prelude.{◌≡◌, ◌≢◌, ℕ, max};
ghost use Rattle.ltx_store.specs.Newest.{newest_of};

use ltx_model::numbers::Table;

/// The newest mark of each table's versions, and that of all versions.
#[derive(Debug, Drop)]
pub(crate) struct Newest {
    of_table: [u64; 64],
    of_all: u64,
}

impl Newest {
    /// Nothing has a mark above 0.
    pub(crate) fn new() -> Newest
        ensures tables { (t : ℕ) → newest_of result.of_table t ≡ 0 }
        ensures all { result.of_all ≡ 0 }
    {
        Newest {
            of_table: [0; 64],
            of_all: 0,
        }
    }

    /// A version of the table has this mark.
    pub(crate) fn raise(&mut self, table: Table, mark: u64)
        ensures here { newest_of self.new.of_table table ≡ max (newest_of self.old.of_table table) mark }
        ensures others { (t : ℕ) → t ≢ table → newest_of self.new.of_table t ≡ newest_of self.old.of_table t }
        ensures all { self.new.of_all ≡ max self.old.of_all mark }
    {
        let place = usize::from(table.number());
        self.of_table[place] = self.of_table[place].max(mark);
        self.of_all = self.of_all.max(mark);
    }

    /// The newest mark of all versions.
    pub(crate) fn of_all(&self) -> u64
        ensures { result ≡ self.now.of_all }
    {
        self.of_all
    }

    /// The newest mark of the table's versions.
    pub(crate) fn of_table(&self, table: Table) -> u64
        ensures { result ≡ newest_of self.now.of_table table }
    {
        self.of_table[usize::from(table.number())]
    }
}
