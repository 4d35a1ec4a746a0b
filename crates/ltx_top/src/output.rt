//! The text that a run has gathered for its sink.

ghost use Rattle.std.specs.Prelude.{◌≡◌, ◌≤◌, ℕ, List, [], ◌++◌, take, OnOk, OnErr, IfErr};
ghost use Rattle.std.specs.Io.KnownBytes.{Appends};
ghost use Rattle.ltx_outside.specs.Faults.{Rose};
ghost use Rattle.ltx_top.specs.declared.status.Stop.TheVariants as stops;

use crate::status::Stop;
use ltx_outside::{Sink, write_all};

/// How much text is gathered before it is handed to the sink.
const MOST_GATHERED: usize = 65_536;

/// Hands the gathered text to the sink. After a failure a front of it was written.
pub(crate) fn hand_over<K: Sink>(text: &mut Vec<u8>, sink: &mut K) -> Result<(), Stop>
    ensures whole { OnOk result (Appends (K.written sink.old) (K.written sink.new) text.old.items × (text.new.items ≡ [])) }
    ensures front { (n : ℕ) × Appends (K.written sink.old) (K.written sink.new) (take n text.old.items) }
    ensures cause { IfErr result (λ stop. stop ≡ stops.Sink) }
    ensures calm { OnOk result (K.faults sink.new ≡ K.faults sink.old) }
    ensures rose { OnErr result (Rose (K.faults sink.old) (K.faults sink.new)) }
    ensures counted { K.faults sink.old ≤ K.faults sink.new }
{
    match write_all(sink, text) {
        Ok(()) => {
            text.clear();
            Ok(())
        }
        Err(_) => Err(Stop::Sink),
    }
}

/// Hands the gathered text over where there is much of it.
pub(crate) fn relieve<K: Sink>(text: &mut Vec<u8>, sink: &mut K) -> Result<(), Stop>
    ensures whole { OnOk result ((done : List ℕ) × Appends (K.written sink.old) (K.written sink.new) done × (done ++ text.new.items ≡ text.old.items)) }
    ensures front { (n : ℕ) × Appends (K.written sink.old) (K.written sink.new) (take n text.old.items) }
    ensures cause { IfErr result (λ stop. stop ≡ stops.Sink) }
    ensures calm { OnOk result (K.faults sink.new ≡ K.faults sink.old) }
    ensures rose { OnErr result (Rose (K.faults sink.old) (K.faults sink.new)) }
    ensures counted { K.faults sink.old ≤ K.faults sink.new }
{
    if text.len() < MOST_GATHERED {
        return Ok(());
    }
    hand_over(text, sink)
}
