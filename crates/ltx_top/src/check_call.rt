//! The top call for transcripts.

ghost use Rattle.std.specs.Prelude.{◌≡◌, ◌≢◌, ◌≤◌, ◌<◌, ◌↔◌, ◌⊎◌, ◌++◌, ℕ, List, Some, map, length, take, [], ◌∷◌, codes, string_bytes, IfOk, IfErr, IfSome, OnOk, OnErr};
ghost use Rattle.std.specs.Io.KnownBytes.{Appends};
ghost use Rattle.ltx_check.specs.declared.verdict.Fault.{Fault};
ghost use Rattle.ltx_check.specs.declared.verdict.Verdict.TheVariants as verdicts;
ghost use Rattle.ltx_check.specs.Verdicts.{IsVerdict};
ghost use Rattle.ltx_outside.specs.Faults.{Rose};
ghost use Rattle.ltx_top.specs.Endings.{RoseAt};
ghost use Rattle.ltx_top.specs.Judged.{Judged, HalfTold, HalfJudged, IsLate, StopsCheck, most_of_transcript, fault_text, verdict_text, check_status};
ghost use Rattle.ltx_top.specs.Runs.{took};
ghost use Rattle.ltx_top.specs.declared.status.Stop.TheVariants as stops;

use crate::ending::put_number;
use crate::input::read_whole;
use crate::output::hand_over;
use crate::status::{Status, Stop};
use crate::words::is_check;
use ltx_check::verdict::{Fault, Verdict, check};
use ltx_model::memory::NoMemory;
use ltx_outside::{Sink, Source};
use std::alloc::Global;

/// The word of a fault.
fn fault_word(fault: Fault) -> &'static [u8]
    ensures { result.now ≡ fault_text fault }
{
    match fault {
        Fault::Text => b"text",
        Fault::Open => b"open",
        Fault::Order => b"order",
        Fault::Replay => b"replay",
        Fault::Marks => b"marks",
    }
}

/// Appends the line and the fault of a verdict.
fn put_fault(line: u64, fault: Fault, out: &mut Vec<u8>) -> Result<(), NoMemory>
    ensures { OnOk result (out.new.items ≡ out.old.items ++ verdict_text (verdicts.No line fault)) }
{
    out.extend_from_slice(b"no")?;
    put_number(line, out)?;
    out.push(b' ')?;
    out.extend_from_slice(fault_word(fault))?;
    Ok(out.push(b'\n')?)
}

/// Appends a verdict.
fn put_verdict(verdict: &Verdict, out: &mut Vec<u8>) -> Result<(), NoMemory>
    ensures { OnOk result (out.new.items ≡ out.old.items ++ verdict_text verdict.now) }
{
    match verdict {
        Verdict::Yes => Ok(out.extend_from_slice(b"yes\n")?),
        Verdict::No { line, fault } => put_fault(*line, *fault, out),
    }
}

/// A verdict as it is printed.
fn text_of(alloc: Global, verdict: &Verdict) -> Result<Vec<u8>, NoMemory>
    ensures { IfOk result (λ text. text.items ≡ verdict_text verdict.now) }
{
    let mut text = Vec::new(alloc);
    put_verdict(verdict, &mut text)?;
    Ok(text)
}

/// Prints a verdict.
fn print_verdict<K: Sink>(alloc: Global, verdict: &Verdict, sink: &mut K) -> Result<(), Stop>
    ensures whole { OnOk result (Appends (K.written sink.old) (K.written sink.new) (verdict_text verdict.now)) }
    ensures front { (n : ℕ) × Appends (K.written sink.old) (K.written sink.new) (take n (verdict_text verdict.now)) }
    ensures cause { IfErr result (λ stop. IsLate stop) }
    ensures untouched { IfErr result (λ stop. stop ≢ stops.Sink → sink.new ≡ sink.old) }
    ensures calm { OnOk result (K.faults sink.new ≡ K.faults sink.old) }
    ensures rose { IfErr result (λ stop. (s : ℕ) → RoseAt stop s s (K.faults sink.old) (K.faults sink.new)) }
    ensures counted { K.faults sink.old ≤ K.faults sink.new }
{
    match text_of(alloc, verdict) {
        Err(_) => Err(Stop::NoMemory),
        Ok(mut text) => hand_over(&mut text, sink),
    }
}

/// Prints the verdict on a transcript.
fn judge<K: Sink>(alloc: Global, bytes: &[u8], sink: &mut K) -> Result<Verdict, Stop>
    ensures told { IfOk result (λ verdict. IsVerdict bytes.now verdict × Appends (K.written sink.old) (K.written sink.new) (verdict_text verdict)) }
    ensures half { IfErr result (λ stop. HalfJudged stop bytes.now (K.written sink.old) (K.written sink.new)) }
    ensures untouched { IfErr result (λ stop. stop ≢ stops.Sink → sink.new ≡ sink.old) }
    ensures calm { OnOk result (K.faults sink.new ≡ K.faults sink.old) }
    ensures rose { IfErr result (λ stop. (s : ℕ) → RoseAt stop s s (K.faults sink.old) (K.faults sink.new)) }
    ensures counted { K.faults sink.old ≤ K.faults sink.new }
{
    match check(alloc, bytes) {
        Err(_) => Err(Stop::NoMemory),
        Ok(verdict) => match print_verdict(alloc, &verdict, sink) {
            Err(stop) => Err(stop),
            Ok(()) => Ok(verdict),
        },
    }
}

/// Reads the source to its end and prints the verdict on its bytes.
fn check_source<S: Source, K: Sink>(
    alloc: Global,
    source: &mut S,
    sink: &mut K,
) -> Result<Verdict, Stop>
    ensures judged { IfOk result (λ verdict. Judged (S.left source.old) (S.left source.new) verdict × Appends (K.written sink.old) (K.written sink.new) (verdict_text verdict)) }
    ensures stops { IfErr result (λ stop. StopsCheck stop (S.left source.old) (S.left source.new) (K.written sink.old) (K.written sink.new)) }
    ensures untouched { IfErr result (λ stop. stop ≢ stops.Sink → sink.new ≡ sink.old) }
    ensures calm { OnOk result ((S.faults source.new ≡ S.faults source.old) × (K.faults sink.new ≡ K.faults sink.old)) }
    ensures rose { IfErr result (λ stop. RoseAt stop (S.faults source.old) (S.faults source.new) (K.faults sink.old) (K.faults sink.new)) }
    ensures source_counted { S.faults source.old ≤ S.faults source.new }
    ensures sink_counted { K.faults sink.old ≤ K.faults sink.new }
{
    match read_whole(alloc, source) {
        Err(stop) => Err(stop),
        Ok(bytes) => judge(alloc, &bytes, sink),
    }
}

/// The number of each ending.
fn status_of(ended: Result<Verdict, Stop>) -> Status
    ensures { result.number ≡ check_status ended }
{
    let number = match ended {
        Ok(Verdict::Yes) => 0,
        Ok(Verdict::No { .. }) => 11,
        Err(Stop::NoMemory) => 3,
        Err(Stop::Source) => 4,
        Err(Stop::Sink) => 5,
        Err(Stop::TooMuch) => 9,
    };
    Status { number }
}

/// Carries out the word `check`: reads a transcript to its end, and prints `yes`, or `no` with the line and the kind of the first
/// fault. Nobody's word is taken: the transcript may come from this engine or from another. It has at most 268,435,456 bytes.
///
/// Nothing is printed before the whole transcript was read and checked.
pub fn run_check<S: Source, K: Sink>(
    alloc: Global,
    words: &[String],
    source: &mut S,
    sink: &mut K,
) -> Status
    // The verdict on all bytes that the source had was printed: 0 for yes, 11 for no.
    ensures yes { result.number ≡ 0 → Judged (S.left source.old) (S.left source.new) verdicts.Yes × Appends (K.written sink.old) (K.written sink.new) (verdict_text verdicts.Yes) }
    ensures no { result.number ≡ 11 → (line : ℕ) × (fault : Fault) × Judged (S.left source.old) (S.left source.new) (verdicts.No line fault)
        × Appends (K.written sink.old) (K.written sink.new) (verdict_text (verdicts.No line fault)) }

    // The words are another command, or none: nothing is read or written.
    ensures words { result.number ≡ 2 ↔ (map string_bytes words.now ≢ codes "check" ∷ []) }
    ensures untouched { result.number ≡ 2 → (source.new ≡ source.old) × (sink.new ≡ sink.old) }

    // Want of memory, a fault of the source, or more bytes than a transcript may have: nothing was written.
    ensures unwritten { (result.number ≡ 3) ⊎ (result.number ≡ 4) ⊎ (result.number ≡ 9) → sink.new ≡ sink.old }
    ensures too_much { result.number ≡ 9 → IfSome (S.left source.old) (λ bytes. most_of_transcript < took (S.left source.old) (S.left source.new)) }
    ensures past_only { most_of_transcript < took (S.left source.old) (S.left source.new) → result.number ≡ 9 }

    // A fault of the sink: a front of the verdict was written.
    ensures sink_fault { result.number ≡ 5 → HalfTold (S.left source.old) (S.left source.new) (K.written sink.old) (K.written sink.new) }

    // The count of a device rose where it is the one that ended the check, and nowhere else.
    ensures source_rose { result.number ≡ 4 → Rose (S.faults source.old) (S.faults source.new) }
    ensures source_calm { result.number ≢ 4 → S.faults source.new ≡ S.faults source.old }
    ensures sink_rose { result.number ≡ 5 → Rose (K.faults sink.old) (K.faults sink.new) }
    ensures sink_calm { result.number ≢ 5 → K.faults sink.new ≡ K.faults sink.old }

    // No other number comes, and with no fault and a transcript of at most this length there is a verdict, or memory is wanting.
    ensures numbers { (result.number ≡ 0) ⊎ (result.number ≡ 2) ⊎ (result.number ≡ 3) ⊎ (result.number ≡ 4) ⊎ (result.number ≡ 5) ⊎ (result.number ≡ 9) ⊎ (result.number ≡ 11) }
    ensures complete { map string_bytes words.now ≡ codes "check" ∷ [] → (Rose (S.faults source.old) (S.faults source.new) → ⊥) → (Rose (K.faults sink.old) (K.faults sink.new) → ⊥)
        → (bytes : List ℕ) → S.left source.old ≡ Some bytes → length bytes ≤ most_of_transcript → (result.number ≡ 0) ⊎ (result.number ≡ 11) ⊎ (result.number ≡ 3) }

    // No count of faults falls.
    ensures source_counted { S.faults source.old ≤ S.faults source.new }
    ensures sink_counted { K.faults sink.old ≤ K.faults sink.new }
{
    if !is_check(words) {
        return Status { number: 2 };
    }
    status_of(check_source(alloc, source, sink))
}
