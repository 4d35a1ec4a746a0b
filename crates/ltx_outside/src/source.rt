//! Where the bytes of a script come from.

ghost use Rattle.std.specs.Prelude.{◌≡◌, ◌≤◌, ◌<◌, ℕ, List, Option, length, OnOk, OnErr};
ghost use Rattle.std.specs.Io.{ReadsAtMost};
ghost use Rattle.std.specs.Io.KnownBytes.{ReadConsumes};
ghost use Rattle.ltx_outside.specs.Faults.{Rose};
ghost use Rattle.ltx_outside.specs.Reads.{CountsRead, Reads};

use crate::failed::Failed;

/// Bytes that are taken from the front, once each. A call that succeeds leaves the count of faults as it was.
pub trait Source {
    /// The bytes that are still to be taken, where the source tells them.
    ghost left: { Self → Option (List ℕ) };

    /// How often it was asked, and what the last call gave, where the source tells it.
    ghost reads: { Self → Option Reads };

    /// How often a read has failed.
    ghost faults: { Self → ℕ };

    /// Takes bytes into the front of a buffer that is not empty, and answers how many.
    ///
    /// 0 is the end of the input: it comes exactly where nothing is left.
    /// The buffer behind these bytes, and the whole of it after a failure, may hold anything.
    /// After a failure the bytes still to be taken are as before.
    fn read(&mut self, buffer: &mut [u8]) -> Result<usize, Failed>
        requires room { 0 < length buffer.old }
        ensures within { ReadsAtMost result buffer.new }
        ensures taken { ReadConsumes (left self.old) (left self.new) result buffer.new }
        ensures kept { OnErr result (left self.new ≡ left self.old) }
        ensures counted { faults self.old ≤ faults self.new }
        ensures asked { CountsRead (reads self.old) (reads self.new) result }
        ensures calm { OnOk result (faults self.new ≡ faults self.old) }
        ensures cause { OnErr result (Rose (faults self.old) (faults self.new)) };
}
