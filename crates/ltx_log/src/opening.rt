//! What an opening does before the log stands.

ghost use Rattle.std.specs.Prelude.{◌≡◌, ◌≤◌, ◌<◌, length, IfOk, IfErr, OnOk, OnErr, IfSome, IfNone, Some, None};
ghost use Rattle.ltx_model.specs.Contents.{epoch_after, frames_in};
ghost use Rattle.ltx_outside.specs.Faults.{Rose};
ghost use Rattle.ltx_log.specs.Causes.{IsCause, UnlessDiskFault};
ghost use Rattle.ltx_log.specs.Images.{IsStill, EachSince, StaysTold};
ghost use Rattle.ltx_log.specs.Readings.{IsFront, placed_in};
ghost use Rattle.ltx_log.specs.Running.{IsLogTo, OpensTo, IsOpenedAs, FindsOrMakes};

use crate::fault::OpenFault;
use crate::front::{Kind, front_of, kind_of};
use crate::make::{lack_of, make_log};
use crate::read::{Course, read_frames};
use crate::settle::sync_all;
use ltx_outside::Disk;
use std::alloc::Global;

/// Reads a log, or makes one of a blank disk, where nothing is pending.
fn begin<D: Disk>(alloc: Global, disk: &mut D, size: u64, front: &[u8]) -> Result<Course, OpenFault>
    requires size { IfSome (D.content disk.old) (λ bytes. length bytes ≡ size) }
    requires front { IfSome (D.content disk.old) (λ bytes. IsFront bytes size front.now) }
    requires still { IsStill (D.content disk.old) (D.crashes disk.old) }
    ensures log { IfOk result (λ course. IfSome (D.content disk.new) (λ bytes. IsLogTo bytes (placed_in course.frames.items) course.gate course.epoch)) }
    ensures read { IfOk result (λ course. IfSome (D.content disk.old) (λ bytes. IsOpenedAs bytes (placed_in course.frames.items) course.gate)) }
    ensures epoch { IfOk result (λ course. course.epoch ≡ epoch_after 0 (frames_in (placed_in course.frames.items))) }
    ensures limit { IfOk result (λ course. course.gate < 1099511627776) }
    ensures since { EachSince OpensTo (D.content disk.old) (D.crashes disk.old) (D.crashes disk.new) }
    ensures settled { OnOk result (IsStill (D.content disk.new) (D.crashes disk.new)) }
    ensures found { IfOk result (λ course. FindsOrMakes (D.content disk.old) (D.content disk.new) (placed_in course.frames.items)) }
    ensures left { IfErr result (UnlessDiskFault (D.content disk.new ≡ D.content disk.old)) }
    ensures left_still { IfErr result (UnlessDiskFault (IsStill (D.content disk.new) (D.crashes disk.new))) }
    ensures told { StaysTold (D.content disk.old) (D.content disk.new) }
    ensures untold { IfNone (D.content disk.old) (D.content disk.new ≡ None) }
    ensures secret { IfNone (D.crashes disk.old) (D.crashes disk.new ≡ None) }
    ensures cause { IfErr result (IsCause (D.content disk.old) (D.faults disk.old) (D.faults disk.new)) }
    ensures counted { D.faults disk.old ≤ D.faults disk.new }
    ensures calm { OnOk result (D.faults disk.new ≡ D.faults disk.old) }
{
    match kind_of(size, front) {
        Kind::Foreign => Err(OpenFault::NotALog),
        Kind::Blank => match make_log(disk, lack_of(size, front)) {
            Ok(()) => Ok(Course::new(alloc)),
            Err(_) => Err(OpenFault::DiskFault),
        },
        Kind::Log => read_frames(alloc, disk, size),
    }
}

/// Syncs a disk, and reads the log on it, or makes one where it is blank. Where nothing was pending, each image since the call
/// began, also after a refusal, is the content at entry, or it is blank or a log without frames where that was blank. A refusal
/// other than `DiskFault` has written nothing, and leaves nothing pending.
pub fn start<D: Disk>(alloc: Global, disk: &mut D) -> Result<Course, OpenFault>
    ensures log { IfOk result (λ course. IfSome (D.content disk.new) (λ bytes. IsLogTo bytes (placed_in course.frames.items) course.gate course.epoch)) }
    ensures read { IfOk result (λ course. IfSome (D.content disk.old) (λ bytes. IsOpenedAs bytes (placed_in course.frames.items) course.gate)) }
    ensures epoch { IfOk result (λ course. course.epoch ≡ epoch_after 0 (frames_in (placed_in course.frames.items))) }
    ensures limit { IfOk result (λ course. course.gate < 1099511627776) }
    ensures since { IsStill (D.content disk.old) (D.crashes disk.old) → EachSince OpensTo (D.content disk.old) (D.crashes disk.old) (D.crashes disk.new) }
    ensures settled { OnOk result (IsStill (D.content disk.new) (D.crashes disk.new)) }
    ensures found { IfOk result (λ course. FindsOrMakes (D.content disk.old) (D.content disk.new) (placed_in course.frames.items)) }
    ensures left { IfErr result (UnlessDiskFault (D.content disk.new ≡ D.content disk.old)) }
    ensures left_still { IfErr result (UnlessDiskFault (IsStill (D.content disk.new) (D.crashes disk.new))) }
    ensures told { StaysTold (D.content disk.old) (D.content disk.new) }
    ensures untold { IfNone (D.content disk.old) (D.content disk.new ≡ None) }
    ensures secret { IfNone (D.crashes disk.old) (D.crashes disk.new ≡ None) }
    ensures cause { IfErr result (IsCause (D.content disk.old) (D.faults disk.old) (D.faults disk.new)) }
    ensures counted { D.faults disk.old ≤ D.faults disk.new }
    ensures calm { OnOk result (D.faults disk.new ≡ D.faults disk.old) }
{
    match sync_all(disk) {
        Ok(()) => {}
        Err(_) => return Err(OpenFault::DiskFault),
    }
    let size = match disk.len() {
        Ok(size) => size,
        Err(_) => return Err(OpenFault::DiskFault),
    };
    match front_of(alloc, disk, size) {
        Ok(front) => begin(alloc, disk, size, &front),
        Err(fault) => Err(fault),
    }
}
