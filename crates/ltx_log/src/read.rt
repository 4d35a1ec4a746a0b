//! Reading a log, frame by frame.

ghost use Rattle.std.specs.Prelude.{◌≡◌, ◌≤◌, ◌<◌, [], ◌∷◌, ◌++◌, length, IfOk, IfErr, IfSome, OnOk};
ghost use Rattle.ltx_model.specs.Contents.{IsLog, IsLogOf, epoch_after, frames_in};
ghost use Rattle.ltx_log.specs.Causes.{IsCause};
ghost use Rattle.ltx_log.specs.Readings.{IsKind, IsReadAs, placed_in};
ghost use Rattle.ltx_log.specs.declared.front.Kind.TheVariants as kinds;

use crate::body::frame_at;
use crate::fault::OpenFault;
use crate::front::{FIRST_GATE, Kind, front_of, kind_of};
use crate::head::head_at;
use ltx_frame::frame::{Frame, Placed};
use ltx_model::memory::NoMemory;
use ltx_outside::Disk;
use std::alloc::Global;

/// What was read of a disk: whether it is blank, the frames behind open gates with the places of their gates, and the place
/// of the closed gate behind them, in bytes from the log's start, or 0 for a blank disk.
#[derive(Debug, Drop)]
pub struct LogImage {
    pub blank: bool,
    pub frames: Vec<Placed>,
    pub gate: u64,
}

/// Where a reading or an opening stands: the frames so far, the place of the next gate, and the last frame's epoch, or 0.
#[derive(Debug, Drop)]
pub struct Course {
    pub frames: Vec<Placed>,
    pub gate: u64,
    pub epoch: u32,
}

impl Course {
    /// Before the first frame.
    pub(crate) fn new(alloc: Global) -> Course
        ensures frames { result.frames.items ≡ [] }
        ensures gate { result.gate ≡ 17 }
        ensures epoch { result.epoch ≡ 0 }
    {
        Course {
            frames: Vec::new(alloc),
            gate: FIRST_GATE,
            epoch: 0,
        }
    }

    /// Takes a frame, behind which this gate stands.
    fn take(&mut self, frame: Frame, next: u64) -> Result<(), NoMemory>
        ensures frames { OnOk result (placed_in self.new.frames.items ≡ placed_in self.old.frames.items ++ record { at = self.old.gate; frame = frame } ∷ []) }
        ensures gate { OnOk result (self.new.gate ≡ next) }
        ensures epoch { OnOk result (self.new.epoch ≡ frame.epoch) }
    {
        let epoch = frame.epoch();
        self.frames.push(Placed {
            at: self.gate,
            frame,
        })?;
        self.gate = next;
        self.epoch = epoch;
        Ok(())
    }
}

/// Reads the frames of a log up to its closed gate.
pub(crate) fn read_frames<D: Disk>(
    alloc: Global,
    disk: &mut D,
    size: u64,
) -> Result<Course, OpenFault>
    requires size { IfSome (D.content disk.old) (λ bytes. length bytes ≡ size) }
    requires log { IfSome (D.content disk.old) IsLog }
    requires long { 18 ≤ size }
    ensures read { IfOk result (λ course. IfSome (D.content disk.old) (λ bytes. IsLogOf bytes (placed_in course.frames.items) course.gate)) }
    ensures epoch { IfOk result (λ course. course.epoch ≡ epoch_after 0 (frames_in (placed_in course.frames.items))) }
    ensures limit { IfOk result (λ course. course.gate < 1099511627776) }
    ensures within { IfOk result (λ course. course.gate < size) }
    ensures cause { IfErr result (IsCause (D.content disk.old) (D.faults disk.old) (D.faults disk.new)) }
    ensures kept { D.content disk.new ≡ D.content disk.old }
    ensures images { D.crashes disk.new ≡ D.crashes disk.old }
    ensures counted { D.faults disk.old ≤ D.faults disk.new }
    ensures calm { OnOk result (D.faults disk.new ≡ D.faults disk.old) }
{
    let mut course = Course::new(alloc);
    'frames: loop {
        let head = match head_at(disk, size, course.gate) {
            Ok(head) => head,
            Err(_) => return Err(OpenFault::DiskFault),
        };
        if !head.is_open {
            return Ok(course);
        }
        let (frame, next) = match frame_at(
            alloc,
            disk,
            size,
            course.gate,
            course.epoch,
            head.length,
        ) {
            Ok(Some(found)) => found,
            Ok(None) => return Err(OpenFault::Damaged { at: course.gate }),
            Err(fault) => return Err(fault),
        };
        if course.take(frame, next).is_err() {
            return Err(OpenFault::NoMemory);
        }
    }
}

/// What a log's bytes are read as.
fn read_kind<D: Disk>(
    alloc: Global,
    disk: &mut D,
    size: u64,
    kind: Kind,
) -> Result<LogImage, OpenFault>
    requires size { IfSome (D.content disk.old) (λ bytes. length bytes ≡ size) }
    requires kind { IfSome (D.content disk.old) (λ bytes. IsKind bytes kind) }
    requires long { kind ≡ kinds.Log → 18 ≤ size }
    ensures read { IfOk result (λ image. IfSome (D.content disk.old) (λ bytes. IsReadAs bytes image.blank (placed_in image.frames.items) image.gate)) }
    ensures limit { IfOk result (λ image. image.gate < 1099511627776) }
    ensures cause { IfErr result (IsCause (D.content disk.old) (D.faults disk.old) (D.faults disk.new)) }
    ensures kept { D.content disk.new ≡ D.content disk.old }
    ensures images { D.crashes disk.new ≡ D.crashes disk.old }
    ensures counted { D.faults disk.old ≤ D.faults disk.new }
    ensures calm { OnOk result (D.faults disk.new ≡ D.faults disk.old) }
{
    match kind {
        Kind::Foreign => Err(OpenFault::NotALog),
        Kind::Blank => Ok(LogImage {
            blank: true,
            frames: Vec::new(alloc),
            gate: 0,
        }),
        Kind::Log => match read_frames(alloc, disk, size) {
            Err(fault) => Err(fault),
            Ok(course) => Ok(LogImage {
                blank: false,
                gate: course.gate,
                frames: course.frames,
            }),
        },
    }
}

/// Reads the disk whole and writes nothing: the frames of a log, each in two reads. It keeps no more than one frame's body
/// beside the frames that it gives.
pub fn read_log<D: Disk>(alloc: Global, disk: &mut D) -> Result<LogImage, OpenFault>
    ensures read { IfOk result (λ image. IfSome (D.content disk.old) (λ bytes. IsReadAs bytes image.blank (placed_in image.frames.items) image.gate)) }
    ensures limit { IfOk result (λ image. image.gate < 1099511627776) }
    ensures cause { IfErr result (IsCause (D.content disk.old) (D.faults disk.old) (D.faults disk.new)) }
    ensures kept { D.content disk.new ≡ D.content disk.old }
    ensures images { D.crashes disk.new ≡ D.crashes disk.old }
    ensures counted { D.faults disk.old ≤ D.faults disk.new }
    ensures calm { OnOk result (D.faults disk.new ≡ D.faults disk.old) }
{
    let size = match disk.len() {
        Ok(size) => size,
        Err(_) => return Err(OpenFault::DiskFault),
    };
    let front = match front_of(alloc, disk, size) {
        Ok(front) => front,
        Err(fault) => return Err(fault),
    };
    read_kind(alloc, disk, size, kind_of(size, &front))
}
