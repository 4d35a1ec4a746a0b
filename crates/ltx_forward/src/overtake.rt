//! Whom a live batch overtakes, and where it is placed.

ghost use Rattle.std.specs.Prelude.{◌≡◌, ◌<◌, ◌^◌, ◌↔◌, ℕ, List, Contains, IsTrue, IfOk, None, true};
ghost use Rattle.std.specs.List.{AllByRecursion};
ghost use Rattle.ltx_model.specs.Listings.{is_member};
ghost use Rattle.ltx_model.specs.Tables.{CommonTable};
ghost use Rattle.ltx_model.specs.States.{State, LiveBatch};
ghost use Rattle.ltx_model.specs.declared.writes.Write.{Write};
ghost use Rattle.ltx_model.specs.Batches.{target};
ghost use Rattle.ltx_model.specs.Decisions.{IsPlace, overtaken, place, place_by};
ghost use Rattle.ltx_forward.specs.Asked.{IsAsked, IsAskable};
ghost use Rattle.ltx_forward.specs.Earliest.{Improves, IsMemberIfAny, IsAfter, AreMembers, HasOrderedOwn, IsPlaceable, IsWriterFor, IsWriterBy, IsHolder, IsOvertaken};

use crate::decide::Live;
use crate::earliest::{Looking, earlier, earliest_writer};
use crate::range::earliest_in_range;
use ltx_agenda::agenda::Agenda;
use ltx_long::long::LongTx;
use ltx_model::looked::{Looked, Noted, Reach};
use ltx_model::memory::NoMemory;
use ltx_model::numbers::Tx;
use ltx_model::tables::TableSet;
use ltx_model::writes::{Target, Write};
use ltx_reads::records::Records;
use std::alloc::Global;

/// The members that a live batch overtakes, in the order of the agenda: a batch that committed after its
/// slot, stands before it and wrote a key that it looked up; and a live batch with a smaller number that
/// preserves a table into which it looked. The notes are walked once for each of them.
pub fn overtaken(
    alloc: Global,
    tx: &LongTx,
    writes: &[Write],
    lives: &[Live],
    records: &Records,
    agenda: &Agenda,
) -> Result<Vec<Tx>, NoMemory>
    requires asked { IsAskable tx.now writes.now lives.now records.now agenda.now }
    ensures { IfOk result (λ txs. (s : State) (i : LiveBatch) → IsAsked s i tx.now writes.now lives.now records.now agenda.now → txs.items ≡ overtaken s i) }
{
    let mut found = Vec::new(alloc);
    let mut next = earliest_overtaken(tx, lives, records, agenda, None)?;
    while let Some(member) = next {
        found.push(member)?;
        next = earliest_overtaken(tx, lives, records, agenda, Some(member))?;
    }
    Ok(found)
}

/// The place of a live batch: home where it overtakes nobody, and else before the overtaken member that
/// stands earliest.
pub fn place(
    tx: &LongTx,
    writes: &[Write],
    lives: &[Live],
    records: &Records,
    agenda: &Agenda,
) -> Result<Target, NoMemory>
    requires asked { IsAskable tx.now writes.now lives.now records.now agenda.now }
    ensures value { IfOk result (λ target. (s : State) (i : LiveBatch) → IsAsked s i tx.now writes.now lives.now records.now agenda.now → target ≡ place s i) }
    ensures relation { IfOk result (λ target. (s : State) (i : LiveBatch) → IsAsked s i tx.now writes.now lives.now records.now agenda.now → IsPlace s i target) }
{
    Ok(match target_of(tx, lives, records, agenda)? {
        Some(target) => Target::Before(target),
        None => Target::Home,
    })
}

/// The target of a live batch: the overtaken member that stands earliest. None where it overtakes nobody.
/// Memory is taken for the lists of those who wrote a key alone.
pub(crate) fn target_of(
    tx: &LongTx,
    lives: &[Live],
    records: &Records,
    agenda: &Agenda,
) -> Result<Option<Tx>, NoMemory>
    requires placeable { IsPlaceable tx.now lives.now records.now agenda.now.list }
    ensures target { IfOk result (λ found. (s : State) (i : LiveBatch) (writes : List Write) → IsAsked s i tx.now writes lives.now records.now agenda.now → found ≡ target s i) }
    ensures place { IfOk result (λ found. (s : State) (i : LiveBatch) (writes : List Write) → IsAsked s i tx.now writes lives.now records.now agenda.now → IsPlace s i (place_by found)) }
    ensures member { IfOk result (λ found. IsMemberIfAny agenda.now.list found) }
{
    earliest_overtaken(tx, lives, records, agenda, None)
}

/// The overtaken member that stands earliest after `after`, if there is such a one.
fn earliest_overtaken(
    tx: &LongTx,
    lives: &[Live],
    records: &Records,
    agenda: &Agenda,
    after: Option<Tx>,
) -> Result<Option<Tx>, NoMemory>
    requires placeable { IsPlaceable tx.now lives.now records.now agenda.now.list }
    requires after { IsMemberIfAny agenda.now.list after }
    ensures { IfOk result (λ found. Improves agenda.now.list (λ n. IsOvertaken tx.now lives.now records.now agenda.now.list n × IsAfter agenda.now.list after n) None found) }
{
    let Some(mark) = tx.mark() else {
        return Ok(None);
    };
    let looking = Looking {
        tx: tx.tx(),
        mark,
        after,
    };
    let elder = earliest_holder(lives, agenda, &looking, tx.looked_into());
    earliest_by_notes(records, agenda, &looking, tx.noted(), elder)
}

/// The earliest of the live batches with a smaller number that preserve one of these tables.
fn earliest_holder(
    lives: &[Live],
    agenda: &Agenda,
    looking: &Looking,
    looked: TableSet,
) -> Option<Tx>
    requires others { (live : Live) → Contains lives.now live → is_member agenda.now.list live.tx ≡ true }
    requires after { IsMemberIfAny agenda.now.list looking.now.after }
    ensures earliest { Improves agenda.now.list (λ n. IsHolder lives.now looking.now.tx looked n × IsAfter agenda.now.list looking.now.after n) None result }
    ensures ranges { AllByRecursion (λ live. live.writes < 2 ^ 64) lives.now }
{
    let mut found = None;
    for live in lives {
        if preserves(live.tx, live.writes, looking.tx, looked) {
            found = earlier(agenda, looking.after, found, live.tx);
        }
    }
    found
}

/// A live batch has a smaller number than this one, and declared one of the tables that were looked into.
pub(crate) fn preserves(tx: Tx, writes: TableSet, own: Tx, looked: TableSet) -> bool
    ensures holds { IsTrue result ↔ ((tx < own) × CommonTable writes looked) }
    ensures range { writes < 2 ^ 64 }
{
    tx < own && writes.meets(looked)
}

/// The earlier of the best one so far and of those who wrote a key that the notes look up.
fn earliest_by_notes(
    records: &Records,
    agenda: &Agenda,
    looking: &Looking,
    notes: &[Noted],
    best: Option<Tx>,
) -> Result<Option<Tx>, NoMemory>
    requires own { is_member agenda.now.list looking.now.tx ≡ true }
    requires after { IsMemberIfAny agenda.now.list looking.now.after }
    requires best { IsMemberIfAny agenda.now.list best }
    requires kept { AreMembers records.now agenda.now.list }
    requires ordered { AllByRecursion (λ note. HasOrderedOwn note.reach) notes.now }
    ensures { IfOk result (λ found. Improves agenda.now.list (λ n. IsWriterBy records.now agenda.now.list looking.now.tx looking.now.mark notes.now n × IsAfter agenda.now.list looking.now.after n) best found) }
{
    let mut found = best;
    for note in notes {
        found = earliest_by_note(records, agenda, looking, note, found)?;
    }
    Ok(found)
}

/// The earlier of the best one so far and of those who wrote a key that the note looks up.
fn earliest_by_note(
    records: &Records,
    agenda: &Agenda,
    looking: &Looking,
    note: &Noted,
    best: Option<Tx>,
) -> Result<Option<Tx>, NoMemory>
    requires own { is_member agenda.now.list looking.now.tx ≡ true }
    requires after { IsMemberIfAny agenda.now.list looking.now.after }
    requires best { IsMemberIfAny agenda.now.list best }
    requires kept { AreMembers records.now agenda.now.list }
    requires ordered { HasOrderedOwn note.now.reach }
    ensures { IfOk result (λ found. Improves agenda.now.list (λ n. IsWriterFor records.now agenda.now.list looking.now.tx looking.now.mark note.now n × IsAfter agenda.now.list looking.now.after n) best found) }
{
    match &note.reach {
        Reach::Nothing => Ok(best),
        Reach::Point {
            key,
            own: false,
            ..
        } => earliest_writer(records, agenda, looking, note.table, key, best),
        Reach::Point { .. } => Ok(best),
        Reach::Range { low, high, own, .. } => earliest_in_range(
            records,
            agenda,
            looking,
            note.table,
            low,
            high,
            own.items(),
            best,
        ),
    }
}
