//! Where the log is kept.

ghost use Rattle.std.specs.Prelude.{◌≡◌, ◌≤◌, ◌+◌, ◌⊎◌, ℕ, List, Option, Some, None, length, take, drop, IfOk, OnOk, OnErr, IfSome, IfNone, IsSomeAnd};
ghost use Rattle.ltx_model.specs.Disks.{Crashes, wrote, synced};
ghost use Rattle.ltx_outside.specs.Faults.{Rose};
ghost use Rattle.ltx_outside.specs.Contents.{overwritten, ChangesWithin};
ghost use Rattle.ltx_outside.specs.declared.disk.TheConstants.{LOG_LIMIT};

use crate::failed::Failed;

/// The most bytes that a log may have, so the last place where a write may end.
pub const LOG_LIMIT: u64 = 1_099_511_627_776;

/// Bytes at places, which are read and written anywhere and never get fewer. A call that succeeds leaves the count of faults
/// as it was. What a disk does not tell it goes on not telling.
pub trait Disk {
    /// What it holds, where the disk tells it.
    ghost content: { Self → Option (List ℕ) };

    /// What a crash may leave, now and before each earlier sync, where the disk tells it.
    ghost crashes: { Self → Option Crashes };

    /// How often a call has failed.
    ghost faults: { Self → ℕ };

    /// The number of bytes. It leaves them as they are, also where it fails.
    fn len(&mut self) -> Result<u64, Failed>
        ensures length { IfOk result (λ n. IfSome (content self.old) (λ bytes. n ≡ length bytes)) }
        ensures kept { content self.new ≡ content self.old }
        ensures images { crashes self.new ≡ crashes self.old }
        ensures counted { faults self.old ≤ faults self.new }
        ensures calm { OnOk result (faults self.new ≡ faults self.old) }
        ensures cause { OnErr result (Rose (faults self.old) (faults self.new)) };

    /// Fills the buffer with the bytes from a place on, which lie within the length.
    ///
    /// The disk is as before, also after a failure; the buffer may then hold anything.
    fn read_at(&mut self, at: u64, buffer: &mut [u8]) -> Result<(), Failed>
        requires within { IfSome (content self.old) (λ bytes. at + length buffer.old ≤ length bytes) }
        ensures bytes { OnOk result (IfSome (content self.old) (λ bytes. buffer.new ≡ take (length buffer.old) (drop at bytes))) }
        ensures kept { content self.new ≡ content self.old }
        ensures images { crashes self.new ≡ crashes self.old }
        ensures counted { faults self.old ≤ faults self.new }
        ensures calm { OnOk result (faults self.new ≡ faults self.old) }
        ensures cause { OnErr result (Rose (faults self.old) (faults self.new)) };

    /// Puts a piece at a place that lies within the length or at its end, and lengthens the disk where the piece ends past it.
    ///
    /// After a failure the bytes in the range of the piece may be any, and the length is the old one at least; either nothing
    /// was changed, or the write counts for what a crash may leave.
    fn write_at(&mut self, at: u64, piece: &[u8]) -> Result<(), Failed>
        requires within { IfSome (content self.old) (λ bytes. at ≤ length bytes) }
        requires limit { at + length piece.now ≤ LOG_LIMIT }
        ensures bytes { OnOk result (IfSome (content self.old) (λ bytes. content self.new ≡ Some (overwritten at piece.now bytes))) }
        ensures range { IfSome (content self.old) (λ bytes. IsSomeAnd (content self.new) (ChangesWithin at (length piece.now) bytes)) }
        ensures untold { IfNone (content self.old) (content self.new ≡ None) }
        ensures wrote { OnOk result (IfSome (crashes self.old) (λ old. crashes self.new ≡ Some (wrote at (length piece.now) old))) }
        ensures torn { IfSome (crashes self.old) (λ old. ((crashes self.new ≡ Some old) × (content self.new ≡ content self.old)) ⊎ (crashes self.new ≡ Some (wrote at (length piece.now) old))) }
        ensures secret { IfNone (crashes self.old) (crashes self.new ≡ None) }
        ensures counted { faults self.old ≤ faults self.new }
        ensures calm { OnOk result (faults self.new ≡ faults self.old) }
        ensures cause { OnErr result (Rose (faults self.old) (faults self.new)) };

    /// After it, what was written is there for good: its bytes are all that a crash may leave. It leaves the bytes as they are,
    /// also where it fails; it then fixes nothing.
    fn sync(&mut self) -> Result<(), Failed>
        ensures kept { content self.new ≡ content self.old }
        ensures synced { OnOk result (IfSome (content self.old) (λ bytes. IfSome (crashes self.old) (λ old. crashes self.new ≡ Some (synced bytes old)))) }
        ensures unsynced { OnErr result (crashes self.new ≡ crashes self.old) }
        ensures secret { IfNone (crashes self.old) (crashes self.new ≡ None) }
        ensures counted { faults self.old ≤ faults self.new }
        ensures calm { OnOk result (faults self.new ≡ faults self.old) }
        ensures cause { OnErr result (Rose (faults self.old) (faults self.new)) };
}
