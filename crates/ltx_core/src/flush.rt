//! What a flush writes, and what is left after it.

ghost use Rattle.std.specs.Prelude.{◌≡◌, ◌<◌, ◌+◌, ◌-◌, [], ◌∷◌, ◌++◌, List, IfOk};
ghost use Rattle.ltx_model.specs.declared.commands.Command.TheVariants.{Flush};
ghost use Rattle.ltx_model.specs.declared.commands.Line.TheVariants.{Good};
ghost use Rattle.ltx_model.specs.declared.replies.Entry.{Entry};
ghost use Rattle.ltx_model.specs.declared.replies.Reply.TheVariants.{Durable};
ghost use Rattle.ltx_model.specs.States.{Base};
ghost use Rattle.ltx_model.specs.Frames.{sealed};
ghost use Rattle.ltx_model.specs.Histories.{state};
ghost use Rattle.ltx_core.specs.Stands.{StandsFor};

use crate::state::Core;
use ltx_frame::frame::Frame;
use ltx_model::memory::NoMemory;
use std::alloc::Global;

impl Core {
    /// The frame of the closed epochs that are not durable, which a flush writes: its epoch is the last closed one, and its events are
    /// the slots and commits of these epochs, in time.
    pub fn sealed(&self, alloc: Global) -> Result<Frame, NoMemory>
        requires closed { self.now.log.durable + 1 < self.now.counters.epoch }
        ensures frame { IfOk result (λ frame. (base : Base) (history : List Entry) → StandsFor self.now base history → frame ≡ sealed (state base history)) }
    {
        self.events.sealed(alloc, self.epoch - 1)
    }

    /// The frame of the closed epochs is in the log: the last closed epoch is durable, and the core stands for the history with the
    /// entry that says so. It takes no memory.
    pub fn flushed(&mut self)
        requires closed { self.old.log.durable + 1 < self.old.counters.epoch }
        ensures stands { (base : Base) (history : List Entry) → StandsFor self.old base history
            → StandsFor self.new base (history ++ record { line = Good Flush; reply = Durable (self.old.counters.epoch - 1) } ∷ []) }
    {
        self.durable = self.epoch - 1;
        self.events.forget();
    }
}
