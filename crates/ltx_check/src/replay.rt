//! The replay: the committed transactions run one at a time, in the printed order.

ghost use Rattle.std.specs.Prelude.{◌≡◌, ◌+◌, ℕ, List, [], ◌∷◌, true, false, Some, Option, IfOk, min};
ghost use Rattle.ltx_model.specs.declared.commands.Op.{Op};
ghost use Rattle.ltx_model.specs.declared.rows.StoredRow.{StoredRow};
ghost use Rattle.ltx_model.specs.Rows.{reply_on, rows_after};
ghost use Rattle.ltx_model.specs.Histories.{operation_of};
ghost use Rattle.ltx_check.specs.Tables.{AreRows};
ghost use Rattle.ltx_check.specs.Replays.{Told, IsToldIn, PlayedPart, Finds, RunPlays, RunDiffers, least_of, unless};

use crate::parts::{parts_of, places_of};
use crate::rows::Rows;
use ltx_model::commands::{Command, Line, Verb};
use ltx_model::memory::NoMemory;
use ltx_model::numbers::Tx;
use ltx_model::replies::{Entry, Reply};
use std::alloc::Global;

/// The least of two places, where there are any.
pub(crate) fn least(a: Option<usize>, b: Option<usize>) -> Option<usize>
    ensures { result ≡ least_of a b }
{
    match (a, b) {
        (None, b) => b,
        (Some(a), None) => Some(a),
        (Some(a), Some(b)) => Some(a.min(b)),
    }
}

/// A place, where the reply is another one.
pub(crate) fn unless(same: bool, place: usize) -> Option<usize>
    ensures { result ≡ unless same place }
{
    if same { None } else { Some(place) }
}

/// Plays the operation of a line, and tells whether it gets this reply.
fn play_line(line: &Line, reply: &Reply, rows: &mut Rows) -> Result<bool, NoMemory>
    ensures same { IfOk result (λ same. (op : Op) → operation_of line.now ≡ Some op → same ≡ true → (held : List StoredRow) → AreRows rows.old held → reply_on held op ≡ reply.now) }
    ensures other { IfOk result (λ same. (op : Op) → operation_of line.now ≡ Some op → same ≡ false → (held : List StoredRow) → AreRows rows.old held → reply_on held op ≡ reply.now → ⊥) }
    ensures rows { IfOk result (λ _. (op : Op) → operation_of line.now ≡ Some op → (n : ℕ) (held : List StoredRow) → AreRows rows.old held → AreRows rows.new (rows_after n held op)) }
{
    match line {
        Line::Good(Command::Ask(_, Verb::Do(op))) => {
            let same = rows.gives(op, reply);
            rows.play(op)?;
            Ok(same)
        }
        _ => Ok(true),
    }
}

/// Plays the operation of the entry at a place, and tells whether it gets the reply that it was given.
fn play_entry(entries: &[Entry], place: usize, rows: &mut Rows) -> Result<bool, NoMemory>
    ensures same { IfOk result (λ same. (x : Told) → x.place ≡ place → IsToldIn entries.now x → same ≡ true → (held : List StoredRow) → AreRows rows.old held → reply_on held x.answered.op ≡ x.answered.reply) }
    ensures other { IfOk result (λ same. (x : Told) → x.place ≡ place → IsToldIn entries.now x → same ≡ false → (held : List StoredRow) → AreRows rows.old held → reply_on held x.answered.op ≡ x.answered.reply → ⊥) }
    ensures rows { IfOk result (λ _. (x : Told) → x.place ≡ place → IsToldIn entries.now x → (n : ℕ) (held : List StoredRow) → AreRows rows.old held → AreRows rows.new (rows_after n held x.answered.op)) }
{
    match entries.get(place) {
        Some(entry) => play_line(&entry.line, &entry.reply, rows),
        None => Ok(true),
    }
}

/// Plays the operations at these places, and gives the least one that gets another reply than it was given.
fn play_part(
    entries: &[Entry],
    places: &[usize],
    rows: &mut Rows,
) -> Result<Option<usize>, NoMemory>
    ensures { IfOk result (λ found. PlayedPart entries.now places.now rows.old rows.new found) }
{
    let mut first = None;
    for place in places {
        let same = play_entry(entries, *place, rows)?;
        first = least(first, unless(same, *place));
    }
    Ok(first)
}

/// Runs the transactions in this order, and gives the place of the first entry that gets another reply than it has.
pub(crate) fn first_other_reply(
    alloc: Global,
    entries: &[Entry],
    order: &[Tx],
) -> Result<Option<usize>, NoMemory>
    ensures { IfOk result (λ found. Finds (RunPlays entries.now [] order.now) (RunDiffers entries.now [] order.now) found) }
{
    let parts = parts_of(alloc, entries)?;
    let mut rows = Rows::new(alloc)?;
    let mut first = None;
    for tx in order {
        let found = play_part(entries, places_of(&parts, *tx), &mut rows)?;
        first = least(first, found);
    }
    Ok(first)
}
