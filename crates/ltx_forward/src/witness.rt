//! A witness against the place of a live batch.

ghost use Rattle.std.specs.Prelude.{◌≡◌, IfOk};

use ltx_model::bytes::Key;
use ltx_model::memory::NoMemory;
use ltx_model::numbers::{Table, Tx};

/// An operation of the batch, counted from 1, a key, and who stands against it there: the key's last
/// writer, or somebody who looked the key up.
#[derive(Debug, Drop)]
pub(crate) struct Witness {
    pub(crate) op: u32,
    pub(crate) table: Table,
    pub(crate) key: Key,
    pub(crate) other: Tx,
}

impl Witness {
    /// The witness at a key, with a copy of it.
    pub(crate) fn at(op: u32, table: Table, key: &Key, other: Tx) -> Result<Witness, NoMemory>
        ensures { IfOk result (λ witness. witness ≡ record { op = op; table = table; key = key.now; other = other }) }
    {
        Ok(Witness {
            op,
            table,
            key: key.copy()?,
            other,
        })
    }
}
