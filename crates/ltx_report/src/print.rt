//! What was found on a disk, as it is printed: a line for each row and one for the whole, or the line of a refusal.

ghost use Rattle.std.specs.Prelude.{◌≡◌, ◌≤◌, ◌++◌, ℕ, List, [], ◌∷◌, codes, take, flat_map, OnOk, IfOk, IfErr};
ghost use Rattle.std.specs.Io.KnownBytes.{Appends};
ghost use Rattle.ltx_model.specs.States.{base_of};
ghost use Rattle.ltx_text.specs.Decimals.{decimal_of};
ghost use Rattle.ltx_text.specs.Words.{word_of};
ghost use Rattle.ltx_reply.specs.Recoveries.{row_line, recovery_text};
ghost use Rattle.ltx_report.specs.Texts.{damaged_text, refusal_text, through_line, IsPrintCause};

use crate::fault::PrintFault;
use crate::found::Refusal;
use ltx_model::base::Recovered;
use ltx_model::memory::NoMemory;
use ltx_model::rows::StoredRow;
use ltx_outside::{Sink, write_all};
use ltx_text::print::{put_bytes, put_number, put_text};
use std::alloc::Global;

/// How much text is gathered before it is handed to the sink.
const MOST_GATHERED: usize = 65_536;

/// Appends the end of a row's line: its value and its writer.
fn put_written(row: &StoredRow, out: &mut Vec<u8>) -> Result<(), NoMemory>
    ensures { OnOk result (out.new.items ≡ out.old.items ++ 32 ∷ word_of row.now.value ++ codes " by " ++ decimal_of row.now.writer ++ 10 ∷ []) }
{
    put_bytes(row.value.bytes(), out)?;
    put_text(b" by", out)?;
    put_number(row.writer.number(), out)?;
    put_text(b"\n", out)
}

/// Appends the line of a row.
fn put_row(row: &StoredRow, out: &mut Vec<u8>) -> Result<(), NoMemory>
    ensures { OnOk result (out.new.items ≡ out.old.items ++ row_line row.now) }
{
    put_text(b"row", out)?;
    put_number(u64::from(row.table.number()), out)?;
    put_bytes(row.key.bytes(), out)?;
    put_written(row, out)
}

/// Appends the last line: the durable epoch and the last number.
fn put_through(epoch: u32, last: u64, out: &mut Vec<u8>) -> Result<(), NoMemory>
    ensures { OnOk result (out.new.items ≡ out.old.items ++ through_line epoch last) }
{
    put_text(b"through", out)?;
    put_number(u64::from(epoch), out)?;
    put_text(b" last", out)?;
    put_number(last, out)?;
    put_text(b"\n", out)
}

/// Appends the place of a damage, with the event where there is one.
fn put_damage(at: u64, event: Option<u64>, out: &mut Vec<u8>) -> Result<(), NoMemory>
    ensures { OnOk result (out.new.items ≡ out.old.items ++ damaged_text at event) }
{
    put_text(b"damaged", out)?;
    put_number(at, out)?;
    if let Some(event) = event {
        put_text(b" event", out)?;
        put_number(event, out)?;
    }
    put_text(b"\n", out)
}

/// Appends the line of a refusal: `notalog`, `damaged AT` or `damaged AT event N`. Without memory a front of it may stand there.
pub fn put_refusal(refusal: Refusal, out: &mut Vec<u8>) -> Result<(), NoMemory>
    ensures { OnOk result (out.new.items ≡ out.old.items ++ refusal_text refusal) }
{
    match refusal {
        Refusal::NotALog => put_text(b"notalog\n", out),
        Refusal::Damaged { at, event } => put_damage(at, event, out),
    }
}

/// Hands a text to the sink.
fn hand_over<K: Sink>(text: &[u8], sink: &mut K) -> Result<(), PrintFault>
    ensures whole { OnOk result (Appends (K.written sink.old) (K.written sink.new) text.now) }
    ensures front { (n : ℕ) × Appends (K.written sink.old) (K.written sink.new) (take n text.now) }
    ensures cause { IfErr result (IsPrintCause (K.faults sink.old) (K.faults sink.new)) }
    ensures calm { OnOk result (K.faults sink.new ≡ K.faults sink.old) }
    ensures counted { K.faults sink.old ≤ K.faults sink.new }
{
    match write_all(sink, text) {
        Ok(()) => Ok(()),
        Err(_) => Err(PrintFault::Sink),
    }
}

/// Hands the gathered text over where there is much of it.
fn relieve<K: Sink>(text: &mut Vec<u8>, sink: &mut K) -> Result<(), PrintFault>
    ensures whole { OnOk result ((done : List ℕ) × Appends (K.written sink.old) (K.written sink.new) done × (done ++ text.new.items ≡ text.old.items)) }
    ensures front { (n : ℕ) × Appends (K.written sink.old) (K.written sink.new) (take n text.old.items) }
    ensures cause { IfErr result (IsPrintCause (K.faults sink.old) (K.faults sink.new)) }
    ensures calm { OnOk result (K.faults sink.new ≡ K.faults sink.old) }
    ensures counted { K.faults sink.old ≤ K.faults sink.new }
{
    if text.len() < MOST_GATHERED {
        return Ok(());
    }
    match hand_over(text, sink) {
        Ok(()) => {
            text.clear();
            Ok(())
        }
        Err(fault) => Err(fault),
    }
}

/// Prints a row behind the gathered text.
fn print_row<K: Sink>(row: &StoredRow, text: &mut Vec<u8>, sink: &mut K) -> Result<(), PrintFault>
    ensures whole { OnOk result ((done : List ℕ) × Appends (K.written sink.old) (K.written sink.new) done × (done ++ text.new.items ≡ text.old.items ++ row_line row.now)) }
    ensures front { (n : ℕ) × Appends (K.written sink.old) (K.written sink.new) (take n (text.old.items ++ row_line row.now)) }
    ensures cause { IfErr result (IsPrintCause (K.faults sink.old) (K.faults sink.new)) }
    ensures calm { OnOk result (K.faults sink.new ≡ K.faults sink.old) }
    ensures counted { K.faults sink.old ≤ K.faults sink.new }
{
    match put_row(row, text) {
        Ok(()) => relieve(text, sink),
        Err(_) => Err(PrintFault::NoMemory),
    }
}

/// Prints rows, one after another; the last of their text is left gathered.
fn print_rows<K: Sink>(
    rows: &[StoredRow],
    text: &mut Vec<u8>,
    sink: &mut K,
) -> Result<(), PrintFault>
    requires none { text.old.items ≡ [] }
    ensures whole { OnOk result ((done : List ℕ) × Appends (K.written sink.old) (K.written sink.new) done × (done ++ text.new.items ≡ flat_map row_line rows.now)) }
    ensures front { (n : ℕ) × Appends (K.written sink.old) (K.written sink.new) (take n (flat_map row_line rows.now)) }
    ensures cause { IfErr result (IsPrintCause (K.faults sink.old) (K.faults sink.new)) }
    ensures calm { OnOk result (K.faults sink.new ≡ K.faults sink.old) }
    ensures counted { K.faults sink.old ≤ K.faults sink.new }
{
    for row in rows {
        print_row(row, text, sink)?;
    }
    Ok(())
}

/// Prints what a disk recovers: for each row, in order of table and key, `row T K V by W` and a line feed; then `through D last N`
/// and a line feed. At most a row more than 65,536 bytes are gathered. After a fault a front of the text was written.
pub fn print_recovered<K: Sink>(
    alloc: Global,
    base: &Recovered,
    sink: &mut K,
) -> Result<(), PrintFault>
    ensures whole { OnOk result ((gate : ℕ) → Appends (K.written sink.old) (K.written sink.new) (recovery_text (base_of base.now gate))) }
    ensures front { (gate : ℕ) → (n : ℕ) × Appends (K.written sink.old) (K.written sink.new) (take n (recovery_text (base_of base.now gate))) }
    ensures cause { IfErr result (IsPrintCause (K.faults sink.old) (K.faults sink.new)) }
    ensures calm { OnOk result (K.faults sink.new ≡ K.faults sink.old) }
    ensures counted { K.faults sink.old ≤ K.faults sink.new }
{
    let mut text = Vec::new(alloc);
    print_rows(base.rows().items(), &mut text, sink)?;
    match put_through(base.epoch(), base.last(), &mut text) {
        Ok(()) => hand_over(&text, sink),
        Err(_) => Err(PrintFault::NoMemory),
    }
}

/// Prints the line of a refusal. After a fault a front of it was written.
pub fn print_refusal<K: Sink>(
    alloc: Global,
    refusal: Refusal,
    sink: &mut K,
) -> Result<(), PrintFault>
    ensures whole { OnOk result (Appends (K.written sink.old) (K.written sink.new) (refusal_text refusal)) }
    ensures front { (n : ℕ) × Appends (K.written sink.old) (K.written sink.new) (take n (refusal_text refusal)) }
    ensures cause { IfErr result (IsPrintCause (K.faults sink.old) (K.faults sink.new)) }
    ensures calm { OnOk result (K.faults sink.new ≡ K.faults sink.old) }
    ensures counted { K.faults sink.old ≤ K.faults sink.new }
{
    let mut text = Vec::new(alloc);
    match put_refusal(refusal, &mut text) {
        Ok(()) => hand_over(&text, sink),
        Err(_) => Err(PrintFault::NoMemory),
    }
}
