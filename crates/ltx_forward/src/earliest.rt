//! The earliest of the members that a live batch overtakes.

ghost use Rattle.std.specs.Prelude.{◌≡◌, ◌↔◌, IsTrue, IfOk, true};
ghost use Rattle.ltx_model.specs.Listings.{is_member};
ghost use Rattle.ltx_forward.specs.Earliest.{Improves, IsMemberIfAny, IsAfter, IsWriter, AreMembers};

use ltx_agenda::agenda::Agenda;
use ltx_model::bytes::Key;
use ltx_model::memory::NoMemory;
use ltx_model::numbers::{Table, Tx};
use ltx_reads::records::Records;

/// The earlier of the best one so far and of another member, where that one stands after `after`.
pub(crate) fn earlier(agenda: &Agenda, after: Option<Tx>, best: Option<Tx>, tx: Tx) -> Option<Tx>
    requires after { IsMemberIfAny agenda.now.list after }
    requires best { IsMemberIfAny agenda.now.list best }
    requires member { is_member agenda.now.list tx ≡ true }
    ensures { Improves agenda.now.list (λ n. (n ≡ tx) × IsAfter agenda.now.list after n) best result }
{
    if !stands_after(agenda, after, tx) {
        return best;
    }
    match best {
        Some(first) if !agenda.before(tx, first) => best,
        _ => Some(tx),
    }
}

/// The member stands after the other one, if there is one.
fn stands_after(agenda: &Agenda, after: Option<Tx>, tx: Tx) -> bool
    requires after { IsMemberIfAny agenda.now.list after }
    requires member { is_member agenda.now.list tx ≡ true }
    ensures { IsTrue result ↔ IsAfter agenda.now.list after tx }
{
    match after {
        Some(last) => agenda.before(last, tx),
        None => true,
    }
}

/// A live batch that looks keys up: its number, the mark of its slot, and the member after which the
/// search begins, if there is one.
#[derive(Debug, Drop)]
pub(crate) struct Looking {
    pub tx: Tx,
    pub mark: u64,
    pub after: Option<Tx>,
}

/// The earlier of the best one so far and of the batches that committed after the mark, stand before the
/// batch and wrote the key.
pub(crate) fn earliest_writer(
    records: &Records,
    agenda: &Agenda,
    looking: &Looking,
    table: Table,
    key: &Key,
    best: Option<Tx>,
) -> Result<Option<Tx>, NoMemory>
    requires own { is_member agenda.now.list looking.now.tx ≡ true }
    requires after { IsMemberIfAny agenda.now.list looking.now.after }
    requires best { IsMemberIfAny agenda.now.list best }
    requires kept { AreMembers records.now agenda.now.list }
    ensures { IfOk result (λ found. Improves agenda.now.list (λ n. IsWriter records.now agenda.now.list looking.now.tx looking.now.mark (record { table = table; key = key.now }) n × IsAfter agenda.now.list looking.now.after n) best found) }
{
    let mut found = best;
    for &tx in &records.batches_writing(table, key, looking.mark)? {
        if agenda.before(tx, looking.tx) {
            found = earlier(agenda, looking.after, found, tx);
        }
    }
    Ok(found)
}
