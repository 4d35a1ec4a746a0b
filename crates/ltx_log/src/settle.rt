//! The one step by which a log changes: a write and a sync.

ghost use Rattle.std.specs.Prelude.{◌≡◌, ◌≤◌, ◌+◌, length, OnOk, OnErr, Some, None, IfSome, IfNone, IsSomeAnd};
ghost use Rattle.ltx_model.specs.Disks.{Leaves, Torn};
ghost use Rattle.ltx_outside.specs.Contents.{overwritten, ChangesWithin};
ghost use Rattle.ltx_outside.specs.Faults.{Rose};
ghost use Rattle.ltx_outside.specs.declared.disk.TheConstants.{LOG_LIMIT};
ghost use Rattle.ltx_log.specs.Images.{IsStill, EachSince, StaysTold};

use ltx_outside::{Disk, Failed};

/// Writes a piece and syncs it, where nothing was pending. Then nothing is pending again. Each image since the call began has
/// any bytes in the range of the piece, and the same bytes as before elsewhere.
pub(crate) fn settle<D: Disk>(disk: &mut D, at: u64, piece: &[u8]) -> Result<(), Failed>
    requires within { IfSome (D.content disk.old) (λ bytes. at ≤ length bytes) }
    requires limit { at + length piece.now ≤ LOG_LIMIT }
    requires still { IsStill (D.content disk.old) (D.crashes disk.old) }
    ensures bytes { OnOk result (IfSome (D.content disk.old) (λ bytes. D.content disk.new ≡ Some (overwritten at piece.now bytes))) }
    ensures range { IfSome (D.content disk.old) (λ bytes. IsSomeAnd (D.content disk.new) (ChangesWithin at (length piece.now) bytes)) }
    ensures told { StaysTold (D.content disk.old) (D.content disk.new) }
    ensures untold { IfNone (D.content disk.old) (D.content disk.new ≡ None) }
    ensures secret { IfNone (D.crashes disk.old) (D.crashes disk.new ≡ None) }
    ensures since { IfSome (D.content disk.old) (λ bytes. IfSome (D.crashes disk.old) (λ old. IsSomeAnd (D.crashes disk.new) (Leaves (Torn at (length piece.now) bytes) old))) }
    ensures settled { OnOk result (IsStill (D.content disk.new) (D.crashes disk.new)) }
    ensures counted { D.faults disk.old ≤ D.faults disk.new }
    ensures calm { OnOk result (D.faults disk.new ≡ D.faults disk.old) }
    ensures cause { OnErr result (Rose (D.faults disk.old) (D.faults disk.new)) }
{
    disk.write_at(at, piece)?;
    disk.sync()
}

/// Syncs a disk. Then nothing is pending. Where nothing was, each image since the call began is its content.
pub(crate) fn sync_all<D: Disk>(disk: &mut D) -> Result<(), Failed>
    ensures kept { D.content disk.new ≡ D.content disk.old }
    ensures since { IsStill (D.content disk.old) (D.crashes disk.old) → EachSince (λ bytes image. image ≡ bytes) (D.content disk.old) (D.crashes disk.old) (D.crashes disk.new) }
    ensures settled { OnOk result (IsStill (D.content disk.new) (D.crashes disk.new)) }
    ensures secret { IfNone (D.crashes disk.old) (D.crashes disk.new ≡ None) }
    ensures counted { D.faults disk.old ≤ D.faults disk.new }
    ensures calm { OnOk result (D.faults disk.new ≡ D.faults disk.old) }
    ensures cause { OnErr result (Rose (D.faults disk.old) (D.faults disk.new)) }
{
    disk.sync()
}
