//! A line and its reply.

ghost use Rattle.std.specs.Prelude.{◌≡◌, ◌≤◌, ◌↔◌, List, Ok, Err, IfOk, IfErr, IfNone, IsOk, OnOk, OnErr, None, true, false};
ghost use Rattle.ltx_model.specs.declared.commands.Command.TheVariants.{Flush};
ghost use Rattle.ltx_model.specs.declared.commands.Line.TheVariants as lines;
ghost use Rattle.ltx_model.specs.declared.commands.Line.TheVariants.{Good};
ghost use Rattle.ltx_model.specs.declared.replies.Entry.{Entry};
ghost use Rattle.ltx_model.specs.declared.replies.Reply.TheVariants as replies;
ghost use Rattle.ltx_model.specs.States.{Base, IsSound};
ghost use Rattle.ltx_model.specs.Histories.{state};
ghost use Rattle.ltx_model.specs.Answers.{staged, IsLegalWith};
ghost use Rattle.ltx_core.specs.Built.{built, takes_no_memory};
ghost use Rattle.ltx_core.specs.Stands as core_stands;
ghost use Rattle.ltx_engine.specs.declared.fault.EngineFault.TheVariants as faults;
ghost use Rattle.ltx_engine.specs.Views.{MustWrite, is_flush, needs_no_memory};
ghost use Rattle.ltx_log.specs.Images.{StaysTold};
ghost use Rattle.ltx_engine.specs.Stands.{StandsFor};
ghost use Rattle.ltx_engine.specs.Steps.{with_entry, Replies, Goes, LeavesEither, LeavesDurable};
ghost use Rattle.ltx_engine.specs.Causes.{AsksWrite, IsCause};

use crate::engine::Engine;
use crate::fault::EngineFault;
use ltx_model::commands::{Bad, Command, Line};
use ltx_model::replies::Reply;
use ltx_outside::Disk;

impl<'d, D: Disk> Engine<'d, D> {
    /// Answers a line: a command by the core and, where it is a flush, by the log; a malformed one with its cause. The reply is the
    /// answer of the state that the base and the history lead to, and the engine then stands for the history with this entry.
    ///
    /// `Closed` comes exactly where a flush must write a frame and an earlier flush of this engine met a fault of the disk. After a
    /// fault the engine stands for what it stood for; after `DiskFault` the log is closed for good.
    pub fn answer(&mut self, line: &Line) -> Result<Reply, EngineFault>
        ensures reply { IfOk result (λ reply. (base : Base) (history : List Entry) → IsSound base → IsLegalWith built base history → StandsFor self.old base history
            → reply ≡ staged built (state base history) line.now) }
        ensures stands { IfOk result (λ reply. (base : Base) (history : List Entry) → IsSound base → IsLegalWith built base history → StandsFor self.old base history
            → StandsFor self.new base (with_entry history line.now reply)) }
        ensures ready { needs_no_memory line.now ≡ true → IsOk result }
        ensures cause { IfErr result (IsCause self.old self.new line.now) }
        ensures closed { (result ≡ Err faults.Closed) ↔ (AsksWrite self.old line.now × (self.old.log.closed ≡ true)) }
        ensures kept { OnErr result ((base : Base) (history : List Entry) → StandsFor self.old base history → StandsFor self.new base history) }
        ensures kept_back { OnErr result ((base : Base) (history : List Entry) → core_stands.StandsFor self.new.core base history → core_stands.StandsFor self.old.core base history) }
        ensures quiet { is_flush line.now ≡ false → self.new.log ≡ self.old.log }
        ensures idle { is_flush line.now ≡ true → (MustWrite self.old → ⊥) → self.new ≡ self.old }
        ensures full { is_flush line.now ≡ true → result ≡ Ok replies.LimitLog → self.new ≡ self.old }
        ensures stays { self.old.log.closed ≡ true → self.new.log ≡ self.old.log }
        ensures running { OnOk result (self.new.log.closed ≡ self.old.log.closed) }
        ensures since { LeavesEither self.old self.new }
        ensures now { IfOk result (λ reply. LeavesDurable self.old line.now reply self.new) }
        ensures told { StaysTold self.old.log.content self.new.log.content }
        ensures untold { IfNone self.old.log.content (self.new.log.content ≡ None) }
        ensures secret { IfNone self.old.log.crashes (self.new.log.crashes ≡ None) }
        ensures loan { self.new.log.loan ≡ self.old.log.loan }
        ensures counted { self.old.log.faults ≤ self.new.log.faults }
        ensures calm { OnOk result (self.new.log.faults ≡ self.old.log.faults) }
    {
        match line {
            Line::Bad(cause) => self.reject(*cause),
            Line::Good(Command::Flush) => self.flush(),
            Line::Good(command) => self.apply(command),
        }
    }

    /// Answers a malformed line with its cause, and does nothing else.
    fn reject(&self, cause: Bad) -> Result<Reply, EngineFault>
        ensures ok { IsOk result }
        ensures reply { IfOk result (λ reply. Replies self.now (lines.Bad cause) reply) }
        ensures stands { IfOk result (λ reply. Goes self.now (lines.Bad cause) reply self.now) }
        ensures since { LeavesEither self.now self.now }
        ensures now { IfOk result (λ reply. LeavesDurable self.now (lines.Bad cause) reply self.now) }
    {
        let _ = &self.core;
        Ok(Reply::Bad(cause))
    }

    /// Answers a command that is no flush. The log is left alone.
    fn apply(&mut self, command: &Command) -> Result<Reply, EngineFault>
        requires other { is_flush (Good command.now) ≡ false }
        ensures reply { IfOk result (λ reply. Replies self.old (Good command.now) reply) }
        ensures stands { IfOk result (λ reply. Goes self.old (Good command.now) reply self.new) }
        ensures ready { takes_no_memory command.now ≡ true → IsOk result }
        ensures cause { IfErr result (λ fault. fault ≡ faults.NoMemory) }
        ensures kept { OnErr result ((base : Base) (history : List Entry) → StandsFor self.old base history → StandsFor self.new base history) }
        ensures kept_back { OnErr result ((base : Base) (history : List Entry) → core_stands.StandsFor self.new.core base history → core_stands.StandsFor self.old.core base history) }
        ensures quiet { self.new.log ≡ self.old.log }
        ensures since { LeavesEither self.old self.new }
        ensures now { IfOk result (λ reply. LeavesDurable self.old (Good command.now) reply self.new) }
    {
        let Ok(reply) = self.core.step(command) else {
            return Err(EngineFault::NoMemory);
        };
        Ok(reply)
    }
}
