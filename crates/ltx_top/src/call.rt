//! The top call.

ghost use Rattle.std.specs.Prelude.{◌≡◌, ◌≢◌, ◌≤◌, ◌<◌, ◌↔◌, ◌⊎◌, ℕ, List, Some, true, false, Ok, Err, map, length, [], ◌∷◌, codes, string_bytes, IfOk, IfErr, IfSome, OnOk};
ghost use Rattle.ltx_model.specs.Recovery.{blank_base};
ghost use Rattle.ltx_outside.specs.Faults.{Rose};
ghost use Rattle.ltx_top.specs.Runs.{Cut, Ran, Stopped, devices, most_of_script, took};
ghost use Rattle.ltx_top.specs.Endings.{RoseAt, Stops, status_number};

use crate::runner::Runner;
use crate::status::{Status, Stop};
use crate::words::is_run;
use ltx_model::base::Recovered;
use ltx_outside::{Disk, Sink, Source};
use std::alloc::Global;

/// Runs a script: the answer is whether some reply was `bad`.
fn run_script<S: Source, K: Sink>(alloc: Global, source: &mut S, sink: &mut K) -> Result<bool, Stop>
    ensures ran { IfOk result (λ bad. Ran blank_base (devices (S.left source.old) (S.reads source.old) (K.written sink.old)) (devices (S.left source.new) (S.reads source.new) (K.written sink.new)) bad × (took (S.left source.old) (S.left source.new) ≤ most_of_script)) }
    ensures stops { IfErr result (λ stop. Stops stop blank_base (devices (S.left source.old) (S.reads source.old) (K.written sink.old)) (devices (S.left source.new) (S.reads source.new) (K.written sink.new))) }
    ensures calm { OnOk result ((S.faults source.new ≡ S.faults source.old) × (K.faults sink.new ≡ K.faults sink.old)) }
    ensures rose { IfErr result (λ stop. RoseAt stop (S.faults source.old) (S.faults source.new) (K.faults sink.old) (K.faults sink.new)) }
    ensures source_counted { S.faults source.old ≤ S.faults source.new }
    ensures sink_counted { K.faults sink.old ≤ K.faults sink.new }
{
    let Ok(mut runner) = Runner::new(alloc, Recovered::blank(alloc)) else {
        return Err(Stop::NoMemory);
    };
    runner.work(source, sink)?;
    Ok(runner.responder.malformed)
}

/// The number of each ending.
fn status_of(ended: Result<bool, Stop>) -> Status
    ensures { result.number ≡ status_number ended }
{
    let number = match ended {
        Ok(false) => 0,
        Ok(true) => 1,
        Err(Stop::NoMemory) => 3,
        Err(Stop::Source) => 4,
        Err(Stop::Sink) => 5,
        Err(Stop::TooMuch) => 9,
    };
    Status { number }
}

/// Carries out the words. The word `run` answers each line of the source in turn, on an engine that starts from no rows and keeps
/// its state in memory: the disk is not called. Each entry is printed before more of the source is read; at the end come
/// the serial order and the durable epoch. A script has at most 4,294,967,295 bytes.
///
/// Whatever the status, what was printed is a front of the text of a legal history of the first lines and its ending. After each
/// entry the serial order of that moment explains what was answered so far, and its members stay in their places. Batches stand in
/// the order of their numbers, except those printed as committed before a target. A short that touched a table which a live batch
/// preserves is refused by name; a batch that overtakes nobody is committed at once; and each refusal and each wait prints a true
/// witness.
pub fn run<S: Source, D: Disk, K: Sink>(
    alloc: Global,
    words: &[String],
    source: &mut S,
    disk: &mut D,
    sink: &mut K,
) -> Status
    // All lines were answered, in order, each by the state before it, and printed with the order that explains them: 0 where
    // no reply is `bad`, and 1 where one is.
    ensures ran { result.number ≡ 0 → Ran blank_base (devices (S.left source.old) (S.reads source.old) (K.written sink.old)) (devices (S.left source.new) (S.reads source.new) (K.written sink.new)) false }
    ensures ran_malformed { result.number ≡ 1 → Ran blank_base (devices (S.left source.old) (S.reads source.old) (K.written sink.old)) (devices (S.left source.new) (S.reads source.new) (K.written sink.new)) true }

    // The words are no command: nothing is read or written.
    ensures words { result.number ≡ 2 ↔ (map string_bytes words.now ≢ codes "run" ∷ []) }
    ensures untouched { result.number ≡ 2 → (source.new ≡ source.old) × (sink.new ≡ sink.old) }
    ensures disk { disk.new ≡ disk.old }

    // Want of memory, or a fault of the sink: a front was printed.
    ensures no_memory { result.number ≡ 3 → Stopped blank_base (devices (S.left source.old) (S.reads source.old) (K.written sink.old)) (devices (S.left source.new) (S.reads source.new) (K.written sink.new)) }
    ensures sink_fault { result.number ≡ 5 → Stopped blank_base (devices (S.left source.old) (S.reads source.old) (K.written sink.old)) (devices (S.left source.new) (S.reads source.new) (K.written sink.new)) }

    // A fault of the source, or more bytes than a script may have: each entry was printed.
    ensures source_fault { result.number ≡ 4 → Cut blank_base (devices (S.left source.old) (S.reads source.old) (K.written sink.old)) (devices (S.left source.new) (S.reads source.new) (K.written sink.new)) }
    ensures too_much { result.number ≡ 9 → Cut blank_base (devices (S.left source.old) (S.reads source.old) (K.written sink.old)) (devices (S.left source.new) (S.reads source.new) (K.written sink.new)) }
    ensures past { result.number ≡ 9 → IfSome (S.left source.old) (λ bytes. most_of_script < took (S.left source.old) (S.left source.new)) }
    ensures past_only { most_of_script < took (S.left source.old) (S.left source.new) → result.number ≡ 9 }

    // The first fault ends the run: the count of a device rose where it is the one that ended it, and nowhere else. But where
    // memory was wanting, what was gathered is handed to the sink, which may fail then.
    ensures source_rose { result.number ≡ 4 → Rose (S.faults source.old) (S.faults source.new) }
    ensures source_calm { result.number ≢ 4 → S.faults source.new ≡ S.faults source.old }
    ensures sink_rose { result.number ≡ 5 → Rose (K.faults sink.old) (K.faults sink.new) }
    ensures sink_calm { result.number ≢ 5 → result.number ≢ 3 → K.faults sink.new ≡ K.faults sink.old }

    // No other number comes, and with no fault and a script of at most this length the run goes to its end or wants memory.
    ensures numbers { (result.number ≤ 5) ⊎ (result.number ≡ 9) }
    ensures complete { map string_bytes words.now ≡ codes "run" ∷ [] → (Rose (S.faults source.old) (S.faults source.new) → ⊥) → (Rose (K.faults sink.old) (K.faults sink.new) → ⊥)
        → (bytes : List ℕ) → S.left source.old ≡ Some bytes → length bytes ≤ most_of_script → (result.number ≤ 1) ⊎ (result.number ≡ 3) }

    // No count of faults falls.
    ensures source_counted { S.faults source.old ≤ S.faults source.new }
    ensures sink_counted { K.faults sink.old ≤ K.faults sink.new }
{
    if !is_run(words) {
        return Status { number: 2 };
    }
    status_of(run_script(alloc, source, sink))
}
