//! What is decided of the commit of a live batch, by its open transaction.

ghost use Rattle.std.specs.Prelude.{IfOk};
ghost use Rattle.ltx_model.specs.Decisions.{IsDecision};
ghost use Rattle.ltx_model.specs.States.{State, LiveBatch};
ghost use Rattle.ltx_forward.specs.Asked.{decision_of};
ghost use Rattle.ltx_core.specs.Asking.{IsAskedWith, IsAskableWith};

use ltx_agenda::agenda::Agenda;
use ltx_forward::decide;
use ltx_forward::decide::{Decision, Live};
use ltx_model::memory::NoMemory;
use ltx_model::writes::Target;
use ltx_open::open::Open;
use ltx_reads::records::Records;

/// What is decided of the commit of a live batch, by the live batches, the records and the agenda. A
/// short commits where it stands.
pub(crate) fn decide(
    tx: &Open,
    lives: &[Live],
    records: &Records,
    agenda: &Agenda,
) -> Result<Decision, NoMemory>
    requires asked { IsAskableWith tx.now.number tx.now.stage tx.now.notes tx.now.own.writes lives.now records.now agenda.now }
    ensures { IfOk result (λ decision. (s : State) (i : LiveBatch) → IsAskedWith s i tx.now.number tx.now.stage tx.now.notes tx.now.own.writes lives.now records.now agenda.now → IsDecision s i (decision_of decision)) }
{
    match tx.long() {
        None => Ok(Decision::Commit(Target::Home)),
        Some(batch) => decide::decide(batch, tx.writes(), lives, records, agenda),
    }
}
