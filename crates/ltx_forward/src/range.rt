//! The earliest of those who wrote a key of a range that a batch looked up.

ghost use Rattle.std.specs.Prelude.{◌≡◌, IfOk, option_map, true};
ghost use Rattle.std.specs.List.Sorted.{IsStrictlySortedBy};
ghost use Rattle.ltx_model.specs.Keys.{key_cmp, is_below_end};
ghost use Rattle.ltx_model.specs.Listings.{is_member};
ghost use Rattle.ltx_forward.specs.Earliest.{Improves, IsMemberIfAny, IsAfter, AreMembers};
ghost use Rattle.ltx_forward.specs.WrittenKeys.{NextIn, IsWriterIn};

use crate::earliest::{Looking, earliest_writer};
use crate::own::is_own;
use ltx_agenda::agenda::Agenda;
use ltx_model::bytes::{Bound, Key, compare_bytes};
use ltx_model::memory::NoMemory;
use ltx_model::numbers::{Table, Tx};
use ltx_reads::records::Records;

/// The earlier of the best one so far and of those who wrote a key of the range, none of the own ones.
/// Only the keys that are written are walked.
pub(crate) fn earliest_in_range(
    records: &Records,
    agenda: &Agenda,
    looking: &Looking,
    table: Table,
    low: &Bound,
    high: &Bound,
    own: &[Key],
    best: Option<Tx>,
) -> Result<Option<Tx>, NoMemory>
    requires own { is_member agenda.now.list looking.now.tx ≡ true }
    requires after { IsMemberIfAny agenda.now.list looking.now.after }
    requires best { IsMemberIfAny agenda.now.list best }
    requires kept { AreMembers records.now agenda.now.list }
    requires ordered { IsStrictlySortedBy key_cmp own.now }
    ensures { IfOk result (λ found. Improves agenda.now.list (λ n. IsWriterIn records.now agenda.now.list looking.now.tx looking.now.mark table low.now high.now own.now n × IsAfter agenda.now.list looking.now.after n) best found) }
{
    let mut found = best;
    let mut next = next_written(records, table, low.bytes(), false, high);
    while let Some(key) = next {
        if !is_own(own, key) {
            found = earliest_writer(records, agenda, looking, table, key, found)?;
        }
        next = next_written(records, table, key.bytes(), true, high);
    }
    Ok(found)
}

/// The next written key of the table from a bound on, below the upper end of the range.
fn next_written<'r>(
    records: &'r Records,
    table: Table,
    from: &[u8],
    strict: bool,
    high: &Bound,
) -> Option<&'r Key>
    ensures { NextIn records.now table high.now from.now strict (option_map (λ key. key.now) result) }
{
    match records.after(table, from, strict) {
        Some(key) if is_below(key, high) => Some(key),
        _ => None,
    }
}

/// The key is below the upper end of a range, which is no bound where it is empty.
fn is_below(key: &Key, high: &Bound) -> bool
    ensures { result ≡ is_below_end high.now key.now }
{
    high.bytes().is_empty() || compare_bytes(key.bytes(), high.bytes()).is_lt()
}
