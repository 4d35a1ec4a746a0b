//! What of an operation looked a key up.

ghost use Rattle.std.specs.Prelude.{◌≡◌, ℕ, List, option_copied};
ghost use Rattle.std.specs.List.{list_any};
ghost use Rattle.ltx_model.specs.Keys.{in_range};
ghost use Rattle.ltx_model.specs.Notes.{is_one_of, is_key};
ghost use Rattle.ltx_reads.specs.Looks.{gets, spans, is_scan, note_spans};

use ltx_model::bytes::{Bound, Key, compare_bytes};
use ltx_model::looked::{Noted, Reach};
use ltx_model::numbers::Table;

/// The key of a get, where the transaction had not written it before.
pub(crate) fn got_key(reach: &Reach) -> Option<&Key>
    ensures { (k : List ℕ) → gets reach.now k ≡ is_key k (option_copied result) }
{
    match reach {
        Reach::Point { key, own, .. } => { if *own { None } else { Some(key) } }
        _ => None,
    }
}

/// Whether it was a scan.
pub(crate) fn is_scan(reach: &Reach) -> bool
    ensures { result ≡ is_scan reach.now }
{
    match reach {
        Reach::Range { .. } => true,
        _ => false,
    }
}

/// Whether one of the operations scanned a range that holds the key, which the transaction had not
/// written before.
pub(crate) fn span(notes: &[Noted], table: Table, key: &Key) -> bool
    ensures { result ≡ list_any (note_spans (record { table = table; key = key.now })) notes.now }
{
    notes.iter().any(|note| note_spans(note, table, key))
}

/// The same of one operation.
fn note_spans(note: &Noted, table: Table, key: &Key) -> bool
    ensures { result ≡ note_spans (record { table = table; key = key.now }) note.now }
{
    note.table == table && spans(&note.reach, key)
}

/// The same of what it reached.
fn spans(reach: &Reach, key: &Key) -> bool
    ensures { result ≡ spans reach.now key.now }
{
    match reach {
        Reach::Range { low, high, own, .. } => is_within(low, high, key)
            && !is_one_of(own.items(), key),
        _ => false,
    }
}

/// Whether the key is from `low` on and below `high`, which is no bound where it is empty.
fn is_within(low: &Bound, high: &Bound, key: &Key) -> bool
    ensures { result ≡ in_range low.now high.now key.now }
{
    compare_bytes(low.bytes(), key.bytes()).is_le()
        && (high.bytes().is_empty() || compare_bytes(key.bytes(), high.bytes()).is_lt())
}

/// Whether the key is one of these.
fn is_one_of(keys: &[Key], key: &Key) -> bool
    ensures { result ≡ is_one_of keys.now key.now }
{
    keys.iter().any(|k| k.compare(key).is_eq())
}
