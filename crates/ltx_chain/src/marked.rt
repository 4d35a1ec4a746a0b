//! The latest rows with the rows of earlier marks, as the checks of commits ask for them: which tables have changed since a mark.

ghost use Rattle.std.specs.Prelude.{◌≡◌, ◌≤◌, ℕ, List};
ghost use Rattle.ltx_model.specs.declared.rows.StoredRow.{StoredRow};
ghost use Rattle.ltx_chain.specs.Marks.{AreSameIn};

use ltx_model::latest::Latest;
use ltx_model::numbers::Table;

/// What tells of the latest rows, and of the newest mark that changed them.
pub trait Marked: Latest {
    // The rows that are seen at a mark.
    ghost rows_at: { ℕ → Self → List StoredRow };

    /// A mark above which no version has one: from it on, the rows are the latest ones.
    fn newest_mark(&self) -> u64
        ensures latest { (mark : ℕ) → result ≤ mark → rows_at mark self.now ≡ Self.rows self.now };

    /// A mark above which no version of the table's keys has one: from it on, the rows of the table
    /// are the latest ones.
    fn newest_mark_of(&self, table: Table) -> u64
        ensures latest { (mark : ℕ) → result ≤ mark → AreSameIn table (rows_at mark self.now) (Self.rows self.now) };
}
