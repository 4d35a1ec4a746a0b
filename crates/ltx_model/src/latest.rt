//! The latest rows, as the checks of commits ask for them: who wrote a key's row, and which key comes next.

ghost use Rattle.std.specs.Prelude.{◌≡◌, ℕ, List, IfSome, IfNone};
ghost use Rattle.ltx_model.specs.declared.rows.StoredRow.{StoredRow};
ghost use Rattle.ltx_model.specs.StoredRows.{writer_at};
ghost use Rattle.ltx_model.specs.NextKeys.{IsNextKey, HasNoNextKey};

use crate::bytes::Key;
use crate::numbers::{Table, Tx};

/// What tells of the latest rows.
pub trait Latest {
    // The rows that it tells of.
    ghost rows: { Self → List StoredRow };

    /// The writer of the key's row, or None where the key has no row.
    fn writer(&self, table: Table, key: &Key) -> Option<Tx>
        ensures writer { result ≡ writer_at (rows self.now) (record { table = table; key = key.now }) };

    /// The least key of the table with a row that is at least `from`, or above it where `strict`, and the row's writer.
    /// None where there is no such key.
    fn after(&self, table: Table, from: &[u8], strict: bool) -> Option<(&Key, Tx)>
        ensures found { IfSome result (λ found. IsNextKey (rows self.now) table from.now strict found.0.now found.1) }
        ensures none { IfNone result (HasNoNextKey (rows self.now) table from.now strict) };
}
