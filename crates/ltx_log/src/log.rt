//! A log that is open for appending.

ghost use Rattle.std.specs.Prelude.{◌≡◌, ◌≤◌, ◌<◌, ◌+◌, false, OnOk, IfOk, OnErr, IfErr, IfSome, IfNone, None, IsSomeAnd};
ghost use Rattle.ltx_model.specs.Contents.{next_gate};
ghost use Rattle.ltx_log.specs.Causes.{IsContentCause};
ghost use Rattle.ltx_log.specs.Images.{IsStill, EachSince, StaysTold};
ghost use Rattle.ltx_log.specs.Readings.{placed_in};
ghost use Rattle.ltx_log.specs.Running.{IsOpenedAs, OpensTo, IsLogTo, HasRoom, AddsFrame, MayAddFrame, EachNow, IsAppendCause, LeavesFrames};

use crate::append::write_frame;
use crate::fault::{AppendFault, OpenFault};
use crate::opening::start;
use crate::piece::{next_gate, piece_of};
use crate::read::Course;
use ltx_frame::frame::{Frame, Placed};
use ltx_outside::Disk;
use std::alloc::Global;
use std::marker::Model;

/// A log on a lent disk. It is closed by the first append that meets a fault of the disk.
#[derive(Drop)]
pub struct Log<'d, D: Disk> {
    disk: &'d mut D,
    gate: u64,
    last: u32,
    closed: bool,
}

impl<'d, D: Disk> Model for Log<'d, D> {
    ghost use Rattle.std.specs.Prelude.{◌≡◌, ◌<◌, false};
    ghost use Rattle.ltx_log.specs.Running.{LogState, IsRunning};

    ghost Value = { LogState };

    ghost view = { λ l. record { content = D.content l.disk.now; crashes = D.crashes l.disk.now; faults = D.faults l.disk.now; loan = l.disk.ghost_name; gate = l.gate; last = l.last; closed = l.closed } };

    ghost invariant = { λ l. (l.closed ≡ false → IsRunning (D.content l.disk.now) (D.crashes l.disk.now) l.gate l.last) × (l.gate < 1099511627776) };
}

impl<'d, D: Disk> Log<'d, D> {
    /// The log that an opening of this disk found or made.
    pub fn over(disk: &'d mut D, course: &Course) -> Log<'d, D>
        requires log { IfSome (D.content disk.old) (λ bytes. IsLogTo bytes (placed_in course.now.frames.items) course.now.gate course.now.epoch) }
        requires still { IsStill (D.content disk.old) (D.crashes disk.old) }
        requires limit { course.now.gate < 1099511627776 }
        ensures loan { result.loan ≡ disk.entry.ghost_name }
        ensures content { result.content ≡ D.content disk.old }
        ensures crashes { result.crashes ≡ D.crashes disk.old }
        ensures faults { result.faults ≡ D.faults disk.old }
        ensures gate { result.gate ≡ course.now.gate }
        ensures last { result.last ≡ course.now.epoch }
        ensures running { result.closed ≡ false }
    {
        Log {
            disk,
            gate: course.gate,
            last: course.epoch,
            closed: false,
        }
    }

    /// Syncs the disk, and reads the log on it with its frames, or makes one where the disk is blank. What a refusal leaves of
    /// the disk is told by `start`, of which this is made.
    pub fn open(alloc: Global, disk: &'d mut D) -> Result<(Log<'d, D>, Vec<Placed>), OpenFault>
        ensures cause { IfErr result (IsContentCause (D.content disk.old)) }
        ensures loan { IfOk result (λ opened. opened.0.loan ≡ disk.entry.ghost_name) }
        ensures log { IfOk result (λ opened. IfSome opened.0.content (λ bytes. IsLogTo bytes (placed_in opened.1.items) opened.0.gate opened.0.last)) }
        ensures read { IfOk result (λ opened. IfSome (D.content disk.old) (λ bytes. IsOpenedAs bytes (placed_in opened.1.items) opened.0.gate)) }
        ensures running { IfOk result (λ opened. opened.0.closed ≡ false) }
        ensures settled { IfOk result (λ opened. IsStill opened.0.content opened.0.crashes) }
        ensures since { IsStill (D.content disk.old) (D.crashes disk.old) → IfOk result (λ opened. EachSince OpensTo (D.content disk.old) (D.crashes disk.old) opened.0.crashes) }
        ensures told { IfOk result (λ opened. StaysTold (D.content disk.old) opened.0.content) }
        ensures untold { IfNone (D.content disk.old) (IfOk result (λ opened. opened.0.content ≡ None)) }
        ensures secret { IfNone (D.crashes disk.old) (IfOk result (λ opened. opened.0.crashes ≡ None)) }
        ensures calm { IfOk result (λ opened. opened.0.faults ≡ D.faults disk.old) }
    {
        let course = start(alloc, disk)?;
        let log = Log::over(disk, &course);
        Ok((log, course.frames))
    }

    /// Appends a frame, whose epoch is above that of the last one. After Ok no crash loses it. Its memory is taken before the
    /// first device call.
    pub fn append(&mut self, alloc: Global, frame: &Frame) -> Result<(), AppendFault>
        requires above { self.old.last + 1 ≤ frame.now.epoch }
        ensures cause { IfErr result (IsAppendCause self.old self.new frame.now) }
        ensures running { OnOk result ((self.old.closed ≡ false) × (self.new.closed ≡ false)) }
        ensures room { OnOk result (HasRoom self.old.gate frame.now) }
        ensures gate { OnOk result (self.new.gate ≡ next_gate self.old.gate frame.now) }
        ensures last { OnOk result (self.new.last ≡ frame.now.epoch) }
        ensures frames { OnOk result (IfSome self.old.content (λ bytes. IsSomeAnd self.new.content (AddsFrame self.old.gate self.old.last frame.now bytes))) }
        ensures since { self.old.closed ≡ false → EachSince (MayAddFrame self.old.gate self.old.last frame.now) self.old.content self.old.crashes self.new.crashes }
        ensures added { OnOk result (EachNow (AddsFrame self.old.gate self.old.last frame.now) self.old.content self.new.crashes) }
        ensures left { IfErr result (LeavesFrames self.old self.new) }
        ensures settled { self.new.closed ≡ false → IsStill self.new.content self.new.crashes }
        ensures place { OnErr result ((self.new.gate ≡ self.old.gate) × (self.new.last ≡ self.old.last)) }
        ensures told { StaysTold self.old.content self.new.content }
        ensures untold { IfNone self.old.content (self.new.content ≡ None) }
        ensures secret { IfNone self.old.crashes (self.new.crashes ≡ None) }
        ensures loan { self.new.loan ≡ self.old.loan }
        ensures counted { self.old.faults ≤ self.new.faults }
        ensures calm { OnOk result (self.new.faults ≡ self.old.faults) }
    {
        if self.closed {
            return Err(AppendFault::Closed);
        }
        let epoch = frame.epoch();
        let piece = match piece_of(alloc, frame) {
            Ok(piece) => piece,
            Err(_) => return Err(AppendFault::NoMemory),
        };
        let Some(next) = next_gate(self.gate, piece.len() as u64) else {
            return Err(AppendFault::LimitLog);
        };
        match write_frame(self.disk, self.gate, &piece) {
            Ok(()) => {
                self.gate = next;
                self.last = epoch;
                Ok(())
            }
            Err(_) => {
                self.closed = true;
                Err(AppendFault::DiskFault)
            }
        }
    }

    /// Gives the disk back as it is. It calls no device.
    pub fn into_disk(self) -> &'d mut D
        ensures name { result.ghost_name ≡ self.entry.loan }
        ensures content { D.content result.now ≡ self.entry.content }
        ensures crashes { D.crashes result.now ≡ self.entry.crashes }
        ensures faults { D.faults result.now ≡ self.entry.faults }
    {
        let Log { disk, .. } = self;
        disk
    }

    /// The place of the closed gate, in bytes from the log's start.
    pub fn gate(&self) -> u64
        ensures { result ≡ self.now.gate }
    {
        self.gate
    }

    /// The epoch of the last frame, or 0 where there is none. A frame that is appended has one above it.
    pub fn last(&self) -> u32
        ensures { result ≡ self.now.last }
    {
        self.last
    }

    /// Whether an append met a fault of the disk.
    pub fn closed(&self) -> bool
        ensures { result ≡ self.now.closed }
    {
        self.closed
    }
}
