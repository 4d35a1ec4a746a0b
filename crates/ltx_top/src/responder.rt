//! What answers the lines of a run: its core, and the text of their entries that is not written yet.

ghost use Rattle.std.specs.Prelude.{◌≡◌, ◌≤◌, ℕ, List, [], ◌∷◌, ◌++◌, false, IfOk, OnOk, OnErr, IfErr};
ghost use Rattle.ltx_model.specs.declared.replies.Entry.{Entry};
ghost use Rattle.ltx_model.specs.States.{Base, base_of};
ghost use Rattle.ltx_model.specs.Histories.{state};
ghost use Rattle.ltx_core.specs.Stands.{StandsFor};
ghost use Rattle.ltx_script.specs.Lines.{line_of};
ghost use Rattle.ltx_top.specs.Transcripts.{ending_of};
ghost use Rattle.ltx_top.specs.Endings.{RoseAt};
ghost use Rattle.ltx_top.specs.Progress.{IsUnderWay};
ghost use Rattle.ltx_top.specs.Spellings.{IsSpelt};
ghost use Rattle.ltx_top.specs.Hands.{Responds, RespondsNot};

use crate::ending::put_ending;
use crate::output::relieve;
use crate::serving::serve;
use crate::status::Stop;
use ltx_core::Core;
use ltx_model::base::Recovered;
use ltx_model::commands::Line;
use ltx_model::memory::NoMemory;
use ltx_outside::Sink;
use ltx_script::parse::parse_line;
use std::alloc::Global;

/// What answers the lines of a run.
#[derive(Drop)]
pub(crate) struct Responder {
    alloc: Global,
    core: Core,
    /// What was gathered and not handed to the sink yet.
    pub text: Vec<u8>,
    /// Whether some reply is `bad`.
    pub malformed: bool,
}

impl Responder {
    /// One that has answered nothing yet, over a base.
    pub fn new(alloc: Global, base: Recovered) -> Result<Responder, NoMemory>
        ensures core { IfOk result (λ r. (gate : ℕ) → StandsFor r.core (base_of base gate) []) }
        ensures text { IfOk result (λ r. r.text.items ≡ []) }
        ensures malformed { IfOk result (λ r. r.malformed ≡ false) }
    {
        Ok(Responder {
            alloc,
            core: Core::new(alloc, base)?,
            text: Vec::new(alloc),
            malformed: false,
        })
    }

    /// Answers a line, whose command these bytes spell, and gathers its entry. The gathered text is handed to the sink where
    /// there is much of it.
    pub fn respond_to_line<K: Sink>(
        &mut self,
        line: &Line,
        bytes: &[u8],
        sink: &mut K,
    ) -> Result<(), Stop>
        requires under_way { IsUnderWay self.old.core }
        requires spelt { IsSpelt line.now bytes.now }
        ensures on { OnOk result (Responds (K.written sink.old) self.old (line.now ∷ []) (K.written sink.new) self.new) }
        ensures stops { IfErr result (λ stop. RespondsNot stop (K.written sink.old) self.old (line.now ∷ []) (K.written sink.new) self.new) }
        ensures calm { OnOk result (K.faults sink.new ≡ K.faults sink.old) }
        ensures rose { IfErr result (λ stop. (s : ℕ) → RoseAt stop s s (K.faults sink.old) (K.faults sink.new)) }
        ensures counted { K.faults sink.old ≤ K.faults sink.new }
    {
        match serve(&mut self.core, line, bytes, &mut self.text) {
            Err(_) => Err(Stop::NoMemory),
            Ok(bad) => {
                self.malformed |= bad;
                relieve(&mut self.text, sink)
            }
        }
    }

    /// Answers the line of these bytes.
    pub fn respond_to_bytes<K: Sink>(&mut self, bytes: &[u8], sink: &mut K) -> Result<(), Stop>
        requires under_way { IsUnderWay self.old.core }
        ensures on { OnOk result (Responds (K.written sink.old) self.old (line_of bytes.now ∷ []) (K.written sink.new) self.new) }
        ensures stops { IfErr result (λ stop. RespondsNot stop (K.written sink.old) self.old (line_of bytes.now ∷ []) (K.written sink.new) self.new) }
        ensures calm { OnOk result (K.faults sink.new ≡ K.faults sink.old) }
        ensures rose { IfErr result (λ stop. (s : ℕ) → RoseAt stop s s (K.faults sink.old) (K.faults sink.new)) }
        ensures counted { K.faults sink.old ≤ K.faults sink.new }
    {
        match parse_line(self.alloc, bytes) {
            Err(_) => Err(Stop::NoMemory),
            Ok(line) => self.respond_to_line(&line, bytes, sink),
        }
    }

    /// Gathers the ending. After want of memory the gathered text is as before.
    pub fn close(&mut self) -> Result<(), NoMemory>
        ensures ending { OnOk result ((base : Base) (history : List Entry) → StandsFor self.old.core base history
            → self.new.text.items ≡ self.old.text.items ++ ending_of (state base history)) }
        ensures kept { OnErr result (self.new.text.items ≡ self.old.text.items) }
        ensures same { self.new.malformed ≡ self.old.malformed }
    {
        let order = self.core.order()?;
        put_ending(&order, self.core.durable(), &mut self.text)
    }
}
