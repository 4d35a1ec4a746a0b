//! The first late witness: a key that the batch looked up and that somebody at its place, or after it,
//! wrote last.

ghost use Rattle.std.specs.Prelude.{◌≡◌, List, IfOk, true, option_copied};
ghost use Rattle.std.specs.List.{find};
ghost use Rattle.std.specs.List.Sorted.{IsStrictlySortedBy};
ghost use Rattle.ltx_model.specs.declared.writes.Write.{Write};
ghost use Rattle.ltx_model.specs.Keys.{key_cmp};
ghost use Rattle.ltx_model.specs.Listings.{is_member};
ghost use Rattle.ltx_model.specs.States.{State, LiveBatch};
ghost use Rattle.ltx_model.specs.Records.{Records};
ghost use Rattle.ltx_model.specs.Batches.{IsTarget};
ghost use Rattle.ltx_forward.specs.declared.decide.Live.{Live};
ghost use Rattle.ltx_forward.specs.Asked.{IsAsked};
ghost use Rattle.ltx_forward.specs.Witnesses.{IsFoundLate};
ghost use Rattle.ltx_forward.specs.Earliest.{HasOrderedOwn};
ghost use Rattle.ltx_forward.specs.Lates.{stands_from, is_late_look, late_look};

use crate::own::is_own;
use crate::witness::Witness;
use ltx_agenda::agenda::Agenda;
use ltx_long::long::LongTx;
use ltx_model::bytes::Key;
use ltx_model::looked::{Looked, Noted, Reach};
use ltx_model::memory::NoMemory;
use ltx_model::numbers::Tx;
use ltx_model::writes::Look;

/// The first late witness at the place before p: the least operation, and in it the least key that it
/// looked up, whose last writer is p or stands after it. The keys stand in their order in each note.
/// Memory is taken for a copy of the key alone.
pub(crate) fn first_late(tx: &LongTx, agenda: &Agenda, p: Tx) -> Result<Option<Witness>, NoMemory>
    requires place { is_member agenda.now.list p ≡ true }
    ensures { IfOk result (λ witness. (s : State) (i : LiveBatch) (writes : List Write) (lives : List Live) (records : Records) → IsAsked s i tx.now writes lives records agenda.now → IsTarget s i p → IsFoundLate s i p witness) }
{
    let notes = tx.noted();
    for place in 0..tx.count() {
        let note = &notes[place as usize];
        if let Some(look) = late_look(note, agenda, p) {
            let witness = Witness::at(place + 1, note.table, &look.key, look.writer)?;
            return Ok(Some(witness));
        }
    }
    Ok(None)
}

/// The look of the least key that the noted operation looked up and whose last writer is p or stands
/// after it.
fn late_look<'n>(note: &'n Noted, agenda: &Agenda, p: Tx) -> Option<&'n Look>
    requires place { is_member agenda.now.list p ≡ true }
    ensures { HasOrderedOwn note.now.reach → option_copied result ≡ late_look (stands_from agenda.now.list p) note.now.reach }
{
    match &note.reach {
        Reach::Nothing => None,
        Reach::Point {
            look: Some(look),
            own,
            ..
        } => {
            if stands_from(agenda, p, look.writer) && !*own {
                Some(look)
            } else {
                None
            }
        }
        Reach::Point { .. } => None,
        Reach::Range { looks, own, .. } => late_in_range(looks.items(), own.items(), agenda, p),
    }
}

/// The first of the looks, none of an own key, whose writer is p or stands after it.
fn late_in_range<'n>(looks: &'n [Look], own: &[Key], agenda: &Agenda, p: Tx) -> Option<&'n Look>
    requires place { is_member agenda.now.list p ≡ true }
    ensures { IsStrictlySortedBy key_cmp own.now → option_copied result ≡ find (is_late_look (stands_from agenda.now.list p) own.now) looks.now }
{
    for look in looks {
        if stands_from(agenda, p, look.writer) && !is_own(own, &look.key) {
            return Some(look);
        }
    }
    None
}

/// Whether a transaction is a member that is p or stands after it.
pub(crate) fn stands_from(agenda: &Agenda, p: Tx, tx: Tx) -> bool
    requires place { is_member agenda.now.list p ≡ true }
    ensures { result ≡ stands_from agenda.now.list p tx }
{
    agenda.has(tx) && !agenda.before(tx, p)
}
