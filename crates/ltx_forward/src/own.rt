//! The keys of a range that a batch had written before.

ghost use Rattle.std.specs.Prelude.{◌≡◌};
ghost use Rattle.std.specs.List.Sorted.{IsStrictlySortedBy};
ghost use Rattle.ltx_model.specs.Keys.{key_cmp};
ghost use Rattle.ltx_model.specs.Notes.{is_one_of};

use ltx_model::bytes::Key;

/// Whether the key is one of these, which rise.
pub(crate) fn is_own(own: &[Key], key: &Key) -> bool
    ensures { IsStrictlySortedBy key_cmp own.now → result ≡ is_one_of own.now key.now }
{
    own.binary_search_by(|k| k.compare(key)).is_ok()
}
