//! The verdict on a transcript.

ghost use Rattle.std.specs.Prelude.{◌≡◌, ℕ, List, [], IfOk};
ghost use Rattle.ltx_check.specs.declared.verdict.Verdict.{Verdict};
ghost use Rattle.ltx_check.specs.Lines.{Says};
ghost use Rattle.ltx_check.specs.Opens.{IsWellPlaced};
ghost use Rattle.ltx_check.specs.Orders.{HasCommitted};
ghost use Rattle.ltx_check.specs.Replays.{RunPlays};
ghost use Rattle.ltx_check.specs.Verdicts.{IsVerdict};

use crate::desk::first_open_fault;
use crate::marks::first_out_of_place;
use crate::orders::{committed_numbers, has_all};
use crate::reading::{Reading, Transcript, read_transcript};
use crate::replay::first_other_reply;
use ltx_model::memory::NoMemory;
use std::alloc::Global;

/// What is wrong with a line. Of several faults the kind that stands first here is told, at its first line.
#[derive(Clone, Copy, Debug, PartialEq, Eq)]
pub enum Fault {
    /// The line is not what belongs at its place: an entry, the order, the durable epoch, or nothing.
    Text,
    /// The entry's reply may not stand there: its command gives no such reply, a transaction is open in its session or none is, its
    /// number is not above those begun before, or a target is named for a short.
    Open,
    /// The line is the order, and it has not the committed transactions and no others, each once.
    Order,
    /// The entry is of a committed transaction, and gets another reply when these run one at a time, in the printed order, from the
    /// empty map.
    Replay,
    /// The entry commits a short that stands in the order before something committed earlier; or it commits a batch, without a target,
    /// that stands before a committed batch with a smaller number.
    Marks,
}

/// The verdict on a transcript. Lines count from 1; a line that is missing has the number after the last.
#[derive(Clone, Copy, Debug, PartialEq, Eq)]
pub enum Verdict {
    Yes,
    No { line: u64, fault: Fault },
}

/// Whether commits stand where they may in the order, which explains the replies.
fn check_marks(alloc: Global, transcript: &Transcript) -> Result<Verdict, NoMemory>
    requires placed { IsWellPlaced transcript.now.entries.items }
    requires members { HasCommitted transcript.now.entries.items transcript.now.order.items }
    requires plays { RunPlays transcript.now.entries.items [] transcript.now.order.items }
    ensures { IfOk result (λ verdict. (text : List ℕ) → Says text transcript.now.entries.items transcript.now.order.items transcript.now.durable → IsVerdict text verdict) }
{
    match first_out_of_place(alloc, &transcript.entries, &transcript.order) {
        Err(fault) => Err(fault),
        Ok(None) => Ok(Verdict::Yes),
        Ok(Some(place)) => Ok(Verdict::No {
            line: place as u64 + 1,
            fault: Fault::Marks,
        }),
    }
}

/// Whether the order explains the replies, and has commits where they may stand.
fn check_replies(alloc: Global, transcript: &Transcript) -> Result<Verdict, NoMemory>
    requires placed { IsWellPlaced transcript.now.entries.items }
    requires members { HasCommitted transcript.now.entries.items transcript.now.order.items }
    ensures { IfOk result (λ verdict. (text : List ℕ) → Says text transcript.now.entries.items transcript.now.order.items transcript.now.durable → IsVerdict text verdict) }
{
    match first_other_reply(alloc, &transcript.entries, &transcript.order) {
        Err(fault) => Err(fault),
        Ok(None) => check_marks(alloc, transcript),
        Ok(Some(place)) => Ok(Verdict::No {
            line: place as u64 + 1,
            fault: Fault::Replay,
        }),
    }
}

/// Whether the order has the committed transactions, and explains the replies.
fn check_order(alloc: Global, transcript: &Transcript) -> Result<Verdict, NoMemory>
    requires placed { IsWellPlaced transcript.now.entries.items }
    ensures { IfOk result (λ verdict. (text : List ℕ) → Says text transcript.now.entries.items transcript.now.order.items transcript.now.durable → IsVerdict text verdict) }
{
    let numbers = committed_numbers(alloc, &transcript.entries)?;
    match has_all(alloc, &numbers, &transcript.order) {
        Err(fault) => Err(fault),
        Ok(true) => check_replies(alloc, transcript),
        Ok(false) => Ok(Verdict::No {
            line: transcript.entries.len() as u64 + 1,
            fault: Fault::Order,
        }),
    }
}

/// The first fault of what a text says.
fn check_entries(alloc: Global, transcript: &Transcript) -> Result<Verdict, NoMemory>
    ensures { IfOk result (λ verdict. (text : List ℕ) → Says text transcript.now.entries.items transcript.now.order.items transcript.now.durable → IsVerdict text verdict) }
{
    match first_open_fault(alloc, &transcript.entries) {
        Err(fault) => Err(fault),
        Ok(None) => check_order(alloc, transcript),
        Ok(Some(line)) => Ok(Verdict::No {
            line,
            fault: Fault::Open,
        }),
    }
}

/// The verdict on a text.
fn verdict_on(alloc: Global, text: &[u8]) -> Result<Verdict, NoMemory>
    ensures { IfOk result (λ verdict. IsVerdict text.now verdict) }
{
    match read_transcript(alloc, text) {
        Err(fault) => Err(fault),
        Ok(Reading::Broken(line)) => Ok(Verdict::No {
            line,
            fault: Fault::Text,
        }),
        Ok(Reading::Whole(transcript)) => check_entries(alloc, &transcript),
    }
}

/// Yes exactly where the text is a transcript that its order explains: it says a history, an order and a durable epoch, each entry may
/// stand where it does, the order has the committed transactions, each once, it explains their replies, and each commit stands in it
/// where it may. Else the first fault: of the kinds that apply, the first, at its first line. Nothing is said of epochs, of refusals or
/// of what is durable. A line answered `later` has no effect.
pub fn check(alloc: Global, text: &[u8]) -> Result<Verdict, NoMemory>
    ensures verdict { IfOk result (λ verdict. IsVerdict text.now verdict) }
    ensures only { IfOk result (λ verdict. (other : Verdict) → IsVerdict text.now other → other ≡ verdict) }
{
    verdict_on(alloc, text)
}

/// A text has one verdict: so it is answered Yes exactly where that holds, and each fault exactly where it is the first.
#[tactic(auto, using(crate::proofs::OneVerdict::one_verdict))]
pub fn verdicts_are_one()
    ensures one { (text : List ℕ) (a b : Verdict) → IsVerdict text a → IsVerdict text b → a ≡ b }
{}
