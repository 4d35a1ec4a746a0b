//! Where the text of the program goes.

ghost use Rattle.std.specs.Prelude.{◌≡◌, ◌≤◌, ◌<◌, ℕ, List, Option, length, take, IfOk, OnOk, OnErr};
ghost use Rattle.std.specs.Io.KnownBytes.{WriteAppends, Appends};
ghost use Rattle.ltx_outside.specs.Faults.{Rose};

use crate::failed::Failed;

/// Bytes that are written one after another. A call that succeeds leaves the count of faults as it was.
pub trait Sink {
    /// The bytes that were written, where the sink tells them.
    ghost written: { Self → Option (List ℕ) };

    /// How often a write has failed.
    ghost faults: { Self → ℕ };

    /// Writes a front of a piece that is not empty, one byte at least, and answers how many.
    ///
    /// After a failure nothing of the piece was written.
    fn write(&mut self, piece: &[u8]) -> Result<usize, Failed>
        requires some { 0 < length piece.now }
        ensures part { IfOk result (λ n. (0 < n) × (n ≤ length piece.now)) }
        ensures taken { WriteAppends (written self.old) (written self.new) result piece.now }
        ensures kept { OnErr result (written self.new ≡ written self.old) }
        ensures counted { faults self.old ≤ faults self.new }
        ensures calm { OnOk result (faults self.new ≡ faults self.old) }
        ensures cause { OnErr result (Rose (faults self.old) (faults self.new)) };
}

/// Writes the whole of a text, by as many calls of `write` as the sink wants.
///
/// After a failure a front of the text was written. An empty text makes no call, so the sink is as before.
pub fn write_all<K: Sink>(sink: &mut K, text: &[u8]) -> Result<(), Failed>
    ensures whole { OnOk result (Appends (K.written sink.old) (K.written sink.new) text.now) }
    ensures front { (n : ℕ) × (n ≤ length text.now) × Appends (K.written sink.old) (K.written sink.new) (take n text.now) }
    ensures untouched { length text.now ≡ 0 → sink.new ≡ sink.old }
    ensures counted { K.faults sink.old ≤ K.faults sink.new }
    ensures calm { OnOk result (K.faults sink.new ≡ K.faults sink.old) }
    ensures cause { OnErr result (Rose (K.faults sink.old) (K.faults sink.new)) }
{
    let mut done = 0;
    while done < text.len() {
        let (_, rest) = text.split_at(done);
        let count = sink.write(rest)?;
        done += count;
    }
    Ok(())
}
