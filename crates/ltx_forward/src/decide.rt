//! The decision about the commit of a live batch.

ghost use Rattle.std.specs.Prelude.{◌≡◌, List, map, IfOk, true};
ghost use Rattle.ltx_model.specs.declared.writes.Write.{Write};
ghost use Rattle.ltx_model.specs.Batches.{IsTarget, ByLate, ByContradicts};
ghost use Rattle.ltx_model.specs.Decisions.{IsDecision, RefuseAt};
ghost use Rattle.ltx_model.specs.Listings.{is_member};
ghost use Rattle.ltx_model.specs.Records as model;
ghost use Rattle.ltx_model.specs.States.{State, LiveBatch};
ghost use Rattle.ltx_forward.specs.declared.decide.Live.{Live};
ghost use Rattle.ltx_forward.specs.Asked.{IsAsked, IsAskable, IsWitnessed, IsWaitedFor, decision_of};
ghost use Rattle.ltx_forward.specs.Contradicted.{AreMembers};
ghost use Rattle.ltx_forward.specs.Refusals.{IsFoundRefusal, waits_by};
ghost use Rattle.ltx_forward.specs.Witnesses.{seen};

use crate::contradict::first_contradicted;
use crate::late::first_late;
use crate::overtake::target_of;
use crate::wait::{elder_reader, overtaken_live};
use crate::witness::Witness;
use ltx_agenda::agenda::Agenda;
use ltx_long::long::LongTx;
use ltx_model::bytes::Key;
use ltx_model::memory::NoMemory;
use ltx_model::numbers::{Table, Tx};
use ltx_model::tables::TableSet;
use ltx_model::writes::{Target, Write};
use ltx_reads::records::Records;

/// A live batch as the others see it: its number, the tables that it declared for writing, and its
/// read area.
#[derive(Debug, Drop)]
pub struct Live {
    pub tx: Tx,
    pub writes: TableSet,
    pub reads: TableSet,
}

/// A commit at a place; a wait for a live batch; or a refusal with its first witness: an operation of
/// the batch, counted from 1, with a key whose last writer stands after the place (late), or with a
/// key that somebody after the place looked up before anybody there wrote it (contradicts).
#[derive(Debug, Drop)]
pub enum Decision {
    Commit(Target),
    Waiting(Tx),
    Late {
        target: Tx,
        op: u32,
        table: Table,
        key: Key,
        writer: Tx,
    },
    Contradicts {
        target: Tx,
        op: u32,
        table: Table,
        key: Key,
        reader: Tx,
    },
}

/// What is decided of the commit of a live batch: at home where it overtakes nobody; else it waits for
/// the least overtaken live batch, or is refused with the first witness, where a witness stands at its
/// place; else it waits for the least elder that may still read what it wrote; else it commits before
/// its target.
pub fn decide(
    tx: &LongTx,
    writes: &[Write],
    lives: &[Live],
    records: &Records,
    agenda: &Agenda,
) -> Result<Decision, NoMemory>
    requires asked { IsAskable tx.now writes.now lives.now records.now agenda.now }
    ensures { IfOk result (λ decision. (s : State) (i : LiveBatch) → IsAsked s i tx.now writes.now lives.now records.now agenda.now → IsDecision s i (decision_of decision)) }
{
    let Some(p) = target_of(tx, lives, records, agenda)? else {
        return Ok(Decision::Commit(Target::Home));
    };
    let refusal = refusal_at(tx, records, agenda, p)?;
    if let Some(batch) = waits_at(tx, writes, lives, agenda, p, refusal.is_some()) {
        return Ok(Decision::Waiting(batch));
    }
    match refusal {
        Some(refused) => Ok(refused),
        None => Ok(Decision::Commit(Target::Before(p))),
    }
}

/// The first witness at the place of a live batch, as a refusal: a late one before a contradicted one,
/// then the least operation, then the least key, then the reader that stands earliest. None where it
/// overtakes nobody or no witness stands there.
pub fn first_witness(
    tx: &LongTx,
    writes: &[Write],
    lives: &[Live],
    records: &Records,
    agenda: &Agenda,
) -> Result<Option<Decision>, NoMemory>
    requires asked { IsAskable tx.now writes.now lives.now records.now agenda.now }
    ensures { IfOk result (λ witness. (s : State) (i : LiveBatch) → IsAsked s i tx.now writes.now lives.now records.now agenda.now → IsWitnessed s i witness) }
{
    let Some(p) = target_of(tx, lives, records, agenda)? else {
        return Ok(None);
    };
    refusal_at(tx, records, agenda, p)
}

/// Whom the commit of a live batch waits for: where a witness stands at its place the least overtaken
/// live batch, and else the least elder, at or after the target, that may still read what it wrote.
pub fn waits_for(
    tx: &LongTx,
    writes: &[Write],
    lives: &[Live],
    records: &Records,
    agenda: &Agenda,
) -> Result<Option<Tx>, NoMemory>
    requires asked { IsAskable tx.now writes.now lives.now records.now agenda.now }
    ensures { IfOk result (λ batch. (s : State) (i : LiveBatch) → IsAsked s i tx.now writes.now lives.now records.now agenda.now → IsWaitedFor s i batch) }
{
    let Some(p) = target_of(tx, lives, records, agenda)? else {
        return Ok(None);
    };
    let refusal = refusal_at(tx, records, agenda, p)?;
    Ok(waits_at(tx, writes, lives, agenda, p, refusal.is_some()))
}

/// The first witness at the place before p, as a refusal.
fn refusal_at(
    tx: &LongTx,
    records: &Records,
    agenda: &Agenda,
    p: Tx,
) -> Result<Option<Decision>, NoMemory>
    requires kept { AreMembers agenda.now.list (map (λ r. r.number) records.now.kept) }
    requires place { is_member agenda.now.list p ≡ true }
    ensures { IfOk result (λ refusal. (s : State) (i : LiveBatch) (writes : List Write) (lives : List Live) → IsAsked s i tx.now writes lives records.now agenda.now → IsTarget s i p → IsFoundRefusal s i p refusal) }
{
    if let Some(witness) = first_late(tx, agenda, p)? {
        return Ok(Some(late(p, witness)));
    }
    if let Some(witness) = first_contradicted(tx, records, agenda, p)? {
        return Ok(Some(contradicts(p, witness)));
    }
    Ok(None)
}

/// The refusal by a late witness at the place before p.
fn late(p: Tx, witness: Witness) -> Decision
    ensures { decision_of result ≡ RefuseAt p (ByLate (seen witness)) }
{
    let Witness {
        op,
        table,
        key,
        other,
    } = witness;
    Decision::Late {
        target: p,
        op,
        table,
        key,
        writer: other,
    }
}

/// The refusal by a contradicted witness at the place before p.
fn contradicts(p: Tx, witness: Witness) -> Decision
    ensures { decision_of result ≡ RefuseAt p (ByContradicts (seen witness)) }
{
    let Witness {
        op,
        table,
        key,
        other,
    } = witness;
    Decision::Contradicts {
        target: p,
        op,
        table,
        key,
        reader: other,
    }
}

/// Whom the batch waits for at the place before p, where a witness stands there or where none does.
fn waits_at(
    tx: &LongTx,
    writes: &[Write],
    lives: &[Live],
    agenda: &Agenda,
    p: Tx,
    refused: bool,
) -> Option<Tx>
    requires place { is_member agenda.now.list p ≡ true }
    ensures { (s : State) (i : LiveBatch) (records : model.Records) → IsAsked s i tx.now writes.now lives.now records agenda.now → result ≡ waits_by s i p refused }
{
    if refused {
        overtaken_live(tx, lives)
    } else {
        elder_reader(tx, writes, lives, agenda, p)
    }
}
