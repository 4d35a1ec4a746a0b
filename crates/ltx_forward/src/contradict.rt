//! The first contradicted witness: a write of the batch whose key was looked up, at the batch's place
//! or after it, before anybody there wrote it.

ghost use Rattle.std.specs.Prelude.{◌≡◌, ◌<◌, ◌≤◌, ◌↔◌, ◌++◌, ◌∷◌, [], ℕ, Contains, IfOk, IfSome, IsTrue, List, map, true};
ghost use Rattle.ltx_model.specs.declared.writes.Write.{Write};
ghost use Rattle.ltx_model.specs.Batches.{IsTarget};
ghost use Rattle.ltx_model.specs.Listings.{is_member, place_of};
ghost use Rattle.ltx_model.specs.States.{State, LiveBatch};
ghost use Rattle.ltx_forward.specs.declared.decide.Live.{Live};
ghost use Rattle.ltx_forward.specs.Asked.{IsAsked};
ghost use Rattle.ltx_forward.specs.Contradicted.{AreMembers, IsFoundFrom, IsReaderFound, IsWitnessOf};
ghost use Rattle.ltx_forward.specs.Witnesses.{IsFoundContradicted};

use crate::witness::Witness;
use ltx_agenda::agenda::Agenda;
use ltx_long::long::LongTx;
use ltx_model::bytes::Key;
use ltx_model::looked::{Looked, Noted};
use ltx_model::memory::NoMemory;
use ltx_model::numbers::{Table, Tx};
use ltx_reads::records::Records;

/// The first contradicted witness at the place before p, or None where there is none: the least
/// operation that wrote a key with a contradicted reader, and of those readers the one that stands
/// earliest. An earlier write of the same key would be a witness too, so this one is the first write
/// of its key. NoMemory where the readers, the writers or the witness's key find no memory.
pub(crate) fn first_contradicted(
    tx: &LongTx,
    records: &Records,
    agenda: &Agenda,
    p: Tx,
) -> Result<Option<Witness>, NoMemory>
    requires kept { AreMembers agenda.now.list (map (λ r. r.number) records.now.kept) }
    requires place { is_member agenda.now.list p ≡ true }
    ensures { IfOk result (λ witness. (s : State) (i : LiveBatch) (writes : List Write) (lives : List Live) → IsAsked s i tx.now writes lives records.now agenda.now → IsTarget s i p → IsFoundContradicted s i p witness) }
{
    let notes = tx.noted();
    for place in 0..tx.count() {
        let note = &notes[place as usize];
        if let Some(witness) = witness_of(note, place + 1, records, agenda, p)? {
            return Ok(Some(witness));
        }
    }
    Ok(None)
}

/// The witness that a noted operation with this number is, where it wrote a key that a contradicted
/// reader looked up.
fn witness_of(
    note: &Noted,
    op: u32,
    records: &Records,
    agenda: &Agenda,
    p: Tx,
) -> Result<Option<Witness>, NoMemory>
    requires kept { AreMembers agenda.now.list (map (λ r. r.number) records.now.kept) }
    requires place { is_member agenda.now.list p ≡ true }
    ensures { IfOk result (λ witness. IsWitnessOf records.now agenda.now.list p op note.now witness) }
{
    let Some(key) = &note.write else {
        return Ok(None);
    };
    let Some(reader) = contradicted_reader(records, agenda, p, note.table, key)? else {
        return Ok(None);
    };
    Ok(Some(Witness::at(op, note.table, key, reader)?))
}

/// The contradicted reader of the key that stands earliest: of the kept transactions that looked the
/// key up and are p or stand after it the earliest, unless a kept writer of the key is p or stands
/// after it, and stands before that reader. A later reader then has that writer before it too.
fn contradicted_reader(
    records: &Records,
    agenda: &Agenda,
    p: Tx,
    table: Table,
    key: &Key,
) -> Result<Option<Tx>, NoMemory>
    requires kept { AreMembers agenda.now.list (map (λ r. r.number) records.now.kept) }
    requires place { is_member agenda.now.list p ≡ true }
    ensures { IfOk result (λ reader. IsReaderFound records.now agenda.now.list p (record { table = table; key = key.now }) reader) }
{
    let readers = records.covering(table, key)?;
    let Some(reader) = earliest_from(agenda, p, &readers) else {
        return Ok(None);
    };
    let writers = records.writers(table, key)?;
    if is_any_between(agenda, p, reader, &writers) {
        return Ok(None);
    }
    Ok(Some(reader))
}

/// The earliest of these members that is p or stands after it.
fn earliest_from(agenda: &Agenda, p: Tx, members: &[Tx]) -> Option<Tx>
    requires place { is_member agenda.now.list p ≡ true }
    requires members { AreMembers agenda.now.list members.now }
    ensures { IsFoundFrom agenda.now.list p members.now result }
{
    let mut earliest = None;
    for member in members {
        earliest = earlier_from(agenda, p, earliest, *member);
    }
    earliest
}

/// The earliest that was found, or a member in its place that is p or stands after it, and stands
/// earlier.
fn earlier_from(agenda: &Agenda, p: Tx, earliest: Option<Tx>, member: Tx) -> Option<Tx>
    requires place { is_member agenda.now.list p ≡ true }
    requires found { IfSome earliest (λ n. is_member agenda.now.list n ≡ true) }
    requires member { is_member agenda.now.list member ≡ true }
    ensures { (ns : List ℕ) → IsFoundFrom agenda.now.list p ns earliest → IsFoundFrom agenda.now.list p (ns ++ member ∷ []) result }
{
    if agenda.before(member, p) {
        return earliest;
    }
    match earliest {
        Some(found) if !agenda.before(member, found) => Some(found),
        _ => Some(member),
    }
}

/// Whether one of these members is p or stands after it, and stands before r.
fn is_any_between(agenda: &Agenda, p: Tx, r: Tx, members: &[Tx]) -> bool
    requires place { is_member agenda.now.list p ≡ true }
    requires end { is_member agenda.now.list r ≡ true }
    requires members { AreMembers agenda.now.list members.now }
    ensures { IsTrue result ↔ ((n : ℕ) × Contains members.now n × (place_of agenda.now.list p ≤ place_of agenda.now.list n) × (place_of agenda.now.list n < place_of agenda.now.list r)) }
{
    for member in members {
        if !agenda.before(*member, p) && agenda.before(*member, r) {
            return true;
        }
    }
    false
}
