//! A flush: the frame of the closed epochs that are not durable is appended to the log, and then they are durable.

ghost use Rattle.std.specs.Prelude.{◌≡◌, ◌≤◌, ◌↔◌, List, Ok, Err, None, IfOk, IfErr, IfNone, OnOk, OnErr, true, false};
ghost use Rattle.ltx_model.specs.declared.commands.Command.TheVariants.{Flush};
ghost use Rattle.ltx_model.specs.declared.commands.Line.TheVariants.{Good};
ghost use Rattle.ltx_model.specs.declared.replies.Entry.{Entry};
ghost use Rattle.ltx_model.specs.declared.replies.Reply.TheVariants as replies;
ghost use Rattle.ltx_model.specs.States.{Base};
ghost use Rattle.ltx_model.specs.Frames.{sealed};
ghost use Rattle.ltx_model.specs.Histories.{state};
ghost use Rattle.ltx_core.specs.Stands as core_stands;
ghost use Rattle.ltx_engine.specs.declared.fault.EngineFault.TheVariants as faults;
ghost use Rattle.ltx_engine.specs.Views.{MustWrite};
ghost use Rattle.ltx_log.specs.Images.{StaysTold};
ghost use Rattle.ltx_engine.specs.Stands.{StandsFor};
ghost use Rattle.ltx_engine.specs.Steps.{Replies, Goes, LeavesEither, LeavesDurable};
ghost use Rattle.ltx_engine.specs.Causes.{IsCause};

use crate::engine::Engine;
use crate::fault::EngineFault;
use ltx_frame::frame::Frame;
use ltx_log::AppendFault;
use ltx_model::replies::Reply;
use ltx_outside::Disk;

impl<'d, D: Disk> Engine<'d, D> {
    /// Makes the closed epochs durable.
    pub(crate) fn flush(&mut self) -> Result<Reply, EngineFault>
        ensures reply { IfOk result (λ reply. Replies self.old (Good Flush) reply) }
        ensures stands { IfOk result (λ reply. Goes self.old (Good Flush) reply self.new) }
        ensures cause { IfErr result (IsCause self.old self.new (Good Flush)) }
        ensures kept { OnErr result ((base : Base) (history : List Entry) → StandsFor self.old base history → StandsFor self.new base history) }
        ensures core { OnErr result (self.new.core ≡ self.old.core) }
        ensures closed { (result ≡ Err faults.Closed) ↔ (MustWrite self.old × (self.old.log.closed ≡ true)) }
        ensures idle { (MustWrite self.old → ⊥) → self.new ≡ self.old }
        ensures full { result ≡ Ok replies.LimitLog → self.new ≡ self.old }
        ensures stays { self.old.log.closed ≡ true → self.new.log ≡ self.old.log }
        ensures since { LeavesEither self.old self.new }
        ensures now { IfOk result (λ reply. LeavesDurable self.old (Good Flush) reply self.new) }
        ensures running { OnOk result (self.new.log.closed ≡ self.old.log.closed) }
        ensures told { StaysTold self.old.log.content self.new.log.content }
        ensures untold { IfNone self.old.log.content (self.new.log.content ≡ None) }
        ensures secret { IfNone self.old.log.crashes (self.new.log.crashes ≡ None) }
        ensures loan { self.new.log.loan ≡ self.old.log.loan }
        ensures counted { self.old.log.faults ≤ self.new.log.faults }
        ensures calm { OnOk result (self.new.log.faults ≡ self.old.log.faults) }
    {
        let durable = self.core.durable();
        let closed = self.core.epoch() - 1;
        if closed == durable {
            return Ok(Reply::Durable { epoch: durable });
        }
        if self.log.closed() {
            return Err(EngineFault::Closed);
        }
        let Ok(frame) = self.core.sealed(self.alloc) else {
            return Err(EngineFault::NoMemory);
        };
        self.write(&frame)
    }

    /// Writes the frame of the closed epochs.
    fn write(&mut self, frame: &Frame) -> Result<Reply, EngineFault>
        requires must { MustWrite self.old }
        requires frame { (base : Base) (history : List Entry) → core_stands.StandsFor self.old.core base history → frame.now ≡ sealed (state base history) }
        requires running { self.old.log.closed ≡ false }
        ensures reply { IfOk result (λ reply. Replies self.old (Good Flush) reply) }
        ensures stands { IfOk result (λ reply. Goes self.old (Good Flush) reply self.new) }
        ensures cause { IfErr result (IsCause self.old self.new (Good Flush)) }
        ensures kept { OnErr result ((base : Base) (history : List Entry) → StandsFor self.old base history → StandsFor self.new base history) }
        ensures core { OnErr result (self.new.core ≡ self.old.core) }
        ensures closed { result ≡ Err faults.Closed → ⊥ }
        ensures full { result ≡ Ok replies.LimitLog → self.new ≡ self.old }
        ensures since { LeavesEither self.old self.new }
        ensures now { IfOk result (λ reply. LeavesDurable self.old (Good Flush) reply self.new) }
        ensures running { OnOk result (self.new.log.closed ≡ false) }
        ensures told { StaysTold self.old.log.content self.new.log.content }
        ensures untold { IfNone self.old.log.content (self.new.log.content ≡ None) }
        ensures secret { IfNone self.old.log.crashes (self.new.log.crashes ≡ None) }
        ensures loan { self.new.log.loan ≡ self.old.log.loan }
        ensures counted { self.old.log.faults ≤ self.new.log.faults }
        ensures calm { OnOk result (self.new.log.faults ≡ self.old.log.faults) }
    {
        match self.log.append(self.alloc, frame) {
            Ok(()) => {
                self.core.flushed();
                Ok(Reply::Durable {
                    epoch: frame.epoch(),
                })
            }
            Err(AppendFault::LimitLog) => Ok(Reply::LimitLog),
            Err(AppendFault::Closed) => Err(EngineFault::Closed),
            Err(AppendFault::NoMemory) => Err(EngineFault::NoMemory),
            Err(AppendFault::DiskFault) => Err(EngineFault::DiskFault),
        }
    }
}
