//! A disk is read whole, and what its log holds is recovered. Nothing is written.

ghost use Rattle.std.specs.Prelude.{◌≡◌, ◌≤◌, IfOk, IfErr, IfSome, OnOk};
ghost use Rattle.ltx_recover.specs.Frames.{placed_in};
ghost use Rattle.ltx_report.specs.Findings.{GivesFrames, IsFoundOn, IsOnly, IsDiskCause};

use crate::fault::DeviceFault;
use crate::found::{Found, Refusal};
use ltx_frame::frame::Placed;
use ltx_log::{OpenFault, read_log};
use ltx_model::memory::NoMemory;
use ltx_outside::Disk;
use ltx_recover::{RecoverFault, recover};
use std::alloc::Global;

/// What the frames of a log give: what they recover, or their first event that is not lawful.
fn found_in(alloc: Global, frames: &[Placed]) -> Result<Found, NoMemory>
    ensures gives { IfOk result (λ found. GivesFrames (placed_in frames.now) found) }
{
    match recover(alloc, frames) {
        Ok(base) => Ok(Found::Recovered(base)),
        Err(RecoverFault::Damaged { at, event }) => Ok(Found::Refused(Refusal::Damaged {
            at,
            event: Some(event),
        })),
        Err(RecoverFault::NoMemory) => Err(NoMemory),
    }
}

/// Reads the disk whole and writes nothing: what its log gives, or why it gives nothing. A fault of the disk that comes first goes
/// before the others, and the spellings of all frames are tested before any event. A blank disk gives no rows, epoch 0 and last
/// number 0.
pub fn recover_log<D: Disk>(alloc: Global, disk: &mut D) -> Result<Found, DeviceFault>
    // What was found holds of the content, and nothing else would.
    ensures found { IfOk result (λ found. IfSome (D.content disk.old) (λ bytes. IsFoundOn bytes found)) }
    ensures only { IfOk result (λ found. IfSome (D.content disk.old) (IsOnly found)) }
    ensures cause { IfErr result (IsDiskCause (D.faults disk.old) (D.faults disk.new)) }
    ensures kept { D.content disk.new ≡ D.content disk.old }
    ensures images { D.crashes disk.new ≡ D.crashes disk.old }
    ensures counted { D.faults disk.old ≤ D.faults disk.new }
{
    match read_log(alloc, disk) {
        Ok(image) => match found_in(alloc, &image.frames) {
            Ok(found) => Ok(found),
            Err(NoMemory) => Err(DeviceFault::NoMemory),
        },
        Err(OpenFault::NotALog) => Ok(Found::Refused(Refusal::NotALog)),
        Err(OpenFault::Damaged { at }) => Ok(Found::Refused(Refusal::Damaged { at, event: None })),
        Err(OpenFault::DiskFault) => Err(DeviceFault::Disk),
        Err(OpenFault::NoMemory) => Err(DeviceFault::NoMemory),
    }
}
