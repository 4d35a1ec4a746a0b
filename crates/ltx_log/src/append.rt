//! The four device calls of an append.

ghost use Rattle.std.specs.Prelude.{◌≡◌, ◌≤◌, ◌+◌, [], ◌∷◌, ℕ, length, OnOk, OnErr, Some, None, IfSome, IfNone};
ghost use Rattle.ltx_model.specs.Frames.{Frame};
ghost use Rattle.ltx_model.specs.Contents.{IsClosedAt};
ghost use Rattle.ltx_outside.specs.Contents.{overwritten};
ghost use Rattle.ltx_outside.specs.Faults.{Rose};
ghost use Rattle.ltx_log.specs.Images.{IsStill, EachSince, StaysTold};
ghost use Rattle.ltx_log.specs.Running.{IsPiece, MayAddFrame};

use crate::settle::settle;
use ltx_outside::{Disk, Failed};

/// Writes a frame's piece behind a closed gate and syncs it, and only then opens the gate and syncs that.
pub(crate) fn write_frame<D: Disk>(disk: &mut D, gate: u64, piece: &[u8]) -> Result<(), Failed>
    requires gate_closed { IfSome (D.content disk.old) (λ bytes. IsClosedAt bytes gate) }
    requires limit { gate + 1 + length piece.now ≤ 1099511627776 }
    requires still { IsStill (D.content disk.old) (D.crashes disk.old) }
    ensures content { OnOk result (IfSome (D.content disk.old) (λ bytes. D.content disk.new ≡ Some (overwritten gate (1 ∷ []) (overwritten (gate + 1) piece.now bytes)))) }
    ensures since { (last : ℕ) (f : Frame) → IsPiece piece.now gate last f → EachSince (MayAddFrame gate last f) (D.content disk.old) (D.crashes disk.old) (D.crashes disk.new) }
    ensures told { StaysTold (D.content disk.old) (D.content disk.new) }
    ensures untold { IfNone (D.content disk.old) (D.content disk.new ≡ None) }
    ensures secret { IfNone (D.crashes disk.old) (D.crashes disk.new ≡ None) }
    ensures settled { OnOk result (IsStill (D.content disk.new) (D.crashes disk.new)) }
    ensures counted { D.faults disk.old ≤ D.faults disk.new }
    ensures calm { OnOk result (D.faults disk.new ≡ D.faults disk.old) }
    ensures cause { OnErr result (Rose (D.faults disk.old) (D.faults disk.new)) }
{
    match settle(disk, gate + 1, piece) {
        Ok(()) => settle(disk, gate, &[1]),
        Err(fault) => Err(fault),
    }
}
