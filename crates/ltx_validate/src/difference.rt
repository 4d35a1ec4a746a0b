//! A key that was looked up and has another writer now.

ghost use Rattle.std.specs.Prelude.{◌≡◌, IfOk, if◌then◌else◌};
ghost use Rattle.ltx_model.specs.Notes.{found_by};

use ltx_model::bytes::Key;
use ltx_model::memory::NoMemory;
use ltx_model::numbers::Tx;
use ltx_model::writes::Look;

/// A key, and its writers then and now.
#[derive(Debug, Drop)]
pub(crate) struct Difference {
    pub(crate) key: Key,
    pub(crate) found: Option<Tx>,
    pub(crate) current: Option<Tx>,
}

impl Difference {
    /// The difference at a key, with a copy of it.
    pub(crate) fn at(
        key: &Key,
        found: Option<Tx>,
        current: Option<Tx>,
    ) -> Result<Difference, NoMemory>
        ensures { IfOk result (λ difference. difference ≡ record { key = key.now; found = found; current = current }) }
    {
        Ok(Difference {
            key: key.copy()?,
            found,
            current,
        })
    }
}

/// The writer of a key's row by a look of the key.
pub(crate) fn writer_of(look: &Look) -> Option<Tx>
    ensures { result ≡ found_by look.now }
{
    if look.gone { None } else { Some(look.writer) }
}
