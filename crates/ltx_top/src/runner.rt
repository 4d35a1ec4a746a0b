//! A run under way: its reader, and what answers its lines.

ghost use Rattle.std.specs.Prelude.{◌≡◌, ◌≤◌, ◌<◌, ℕ, List, Option, [], take, length, true, false, Ok, IfOk, OnOk, IfErr};
ghost use Rattle.std.specs.Io.KnownBytes.{Appends, IsAtEnd};
ghost use Rattle.ltx_model.specs.States.{base_of};
ghost use Rattle.ltx_core.specs.Stands.{StandsFor};
ghost use Rattle.ltx_outside.specs.Reads.{Reads};
ghost use Rattle.ltx_text.specs.Lines.{fresh, to_go};
ghost use Rattle.ltx_text.specs.Pieces.{OnEnd};
ghost use Rattle.ltx_top.specs.Runs.{Ran, devices, most_of_script, took};
ghost use Rattle.ltx_top.specs.Endings.{RoseAt, Stops};
ghost use Rattle.ltx_top.specs.Progress.{Halts, IsUnderWay, Start, Steps};
ghost use Rattle.ltx_top.specs.Spellings.{lines_in};
ghost use Rattle.ltx_top.specs.Hands.{Answers, AnswersNot, GoesOn, IsGoing, hand_of};
ghost use Rattle.ltx_text.specs.declared.piece.Piece.TheVariants.{End};
ghost use Rattle.ltx_top.specs.declared.status.Stop.TheVariants as stops;

use crate::output::hand_over;
use crate::pieces::next_piece;
use crate::responder::Responder;
use crate::status::Stop;
use ltx_model::base::Recovered;
use ltx_model::commands::{Bad, Line};
use ltx_model::memory::NoMemory;
use ltx_outside::{Sink, Source};
use ltx_text::lines::Lines;
use ltx_text::piece::Piece;
use std::alloc::Global;

/// How many bytes of a script are read at most.
const MOST_OF_SCRIPT: u64 = 4_294_967_295;

/// A run under way.
#[derive(Drop)]
pub(crate) struct Runner {
    lines: Lines,
    pub responder: Responder,
}

impl Runner {
    /// A run that has read nothing yet, over a base.
    pub fn new(alloc: Global, base: Recovered) -> Result<Runner, NoMemory>
        ensures lines { IfOk result (λ s. s.lines ≡ fresh most_of_script) }
        ensures core { IfOk result (λ s. (gate : ℕ) → StandsFor s.responder.core (base_of base gate) []) }
        ensures text { IfOk result (λ s. s.responder.text.items ≡ []) }
        ensures malformed { IfOk result (λ s. s.responder.malformed ≡ false) }
    {
        Ok(Runner {
            lines: Lines::new(alloc, MOST_OF_SCRIPT)?,
            responder: Responder::new(alloc, base)?,
        })
    }

    /// Answers the next line where it is held whole: no read is made. False where it is not.
    fn turn_held<K: Sink>(&mut self, sink: &mut K) -> Result<bool, Stop>
        requires under_way { IsUnderWay self.old.responder.core }
        ensures on { OnOk result (Answers (K.written sink.old) self.old [] (K.written sink.new) self.new) }
        ensures less { IfOk result (λ held. held ≡ true → to_go self.new.lines < to_go self.old.lines) }
        ensures idle { IfOk result (λ held. held ≡ false → self.new ≡ self.old) }
        ensures stops { IfErr result (λ stop. AnswersNot stop (K.written sink.old) self.old [] (K.written sink.new) self.new) }
        ensures calm { OnOk result (K.faults sink.new ≡ K.faults sink.old) }
        ensures rose { IfErr result (λ stop. (s : ℕ) → RoseAt stop s s (K.faults sink.old) (K.faults sink.new)) }
        ensures counted { K.faults sink.old ≤ K.faults sink.new }
    {
        let Runner { lines, responder } = self;
        let Some(bytes) = lines.peek() else {
            return Ok(false);
        };
        let length = bytes.len();
        responder.respond_to_bytes(bytes, sink)?;
        lines.skip_line(length);
        Ok(true)
    }

    /// Takes the next piece by a read, where no whole line is held. The gathered text is handed to the sink before.
    fn take_piece<S: Source, K: Sink>(
        &mut self,
        source: &mut S,
        sink: &mut K,
    ) -> Result<Piece, Stop>
        requires under_way { IsGoing (devices (S.left source.old) (S.reads source.old) (K.written sink.old)) self.old }
        ensures on { IfOk result (λ piece. Steps (devices (S.left source.old) (S.reads source.old) (K.written sink.old)) (hand_of self.old) []
            (devices (S.left source.new) (S.reads source.new) (K.written sink.new)) (hand_of self.new) (lines_in piece)) }
        ensures ended { IfOk result (λ piece. OnEnd (Ok piece) ((self.new.lines.held ≡ []) × IsAtEnd (S.left source.new))) }
        ensures less { IfOk result (λ piece. 0 < length (lines_in piece) → to_go self.new.lines < to_go self.old.lines) }
        ensures stops { IfErr result (λ stop. Halts stop (devices (S.left source.old) (S.reads source.old) (K.written sink.old)) (hand_of self.old) []
            (devices (S.left source.new) (S.reads source.new) (K.written sink.new)) self.new.responder.text.items) }
        ensures calm { OnOk result ((S.faults source.new ≡ S.faults source.old) × (K.faults sink.new ≡ K.faults sink.old)) }
        ensures rose { IfErr result (λ stop. RoseAt stop (S.faults source.old) (S.faults source.new) (K.faults sink.old) (K.faults sink.new)) }
        ensures source_counted { S.faults source.old ≤ S.faults source.new }
        ensures sink_counted { K.faults sink.old ≤ K.faults sink.new }
    {
        hand_over(&mut self.responder.text, sink)?;
        next_piece(&mut self.lines, source)
    }

    /// Answers a piece of the script. False at the end of the script.
    fn respond_to_piece<K: Sink>(&mut self, piece: Piece, sink: &mut K) -> Result<bool, Stop>
        requires under_way { IsUnderWay self.old.responder.core }
        ensures on { OnOk result (Answers (K.written sink.old) self.old (lines_in piece) (K.written sink.new) self.new) }
        ensures same { self.new.lines ≡ self.old.lines }
        ensures more { IfOk result (λ more. more ≡ true → 0 < length (lines_in piece)) }
        ensures ended { IfOk result (λ more. more ≡ false → piece ≡ End) }
        ensures stops { IfErr result (λ stop. AnswersNot stop (K.written sink.old) self.old (lines_in piece) (K.written sink.new) self.new) }
        ensures calm { OnOk result (K.faults sink.new ≡ K.faults sink.old) }
        ensures rose { IfErr result (λ stop. (s : ℕ) → RoseAt stop s s (K.faults sink.old) (K.faults sink.new)) }
        ensures counted { K.faults sink.old ≤ K.faults sink.new }
    {
        match piece {
            Piece::End => return Ok(false),
            Piece::TooLong => {
                let line = Line::Bad(Bad::Long);
                self.responder.respond_to_line(&line, &[], sink)?;
            }
            Piece::Line(bytes) => self.responder.respond_to_bytes(&bytes, sink)?,
        }
        Ok(true)
    }

    /// Answers the next line, where none is held whole. False at the end of the script.
    fn turn_reading<S: Source, K: Sink>(
        &mut self,
        source: &mut S,
        sink: &mut K,
    ) -> Result<bool, Stop>
        requires under_way { IsGoing (devices (S.left source.old) (S.reads source.old) (K.written sink.old)) self.old }
        ensures on { OnOk result (Steps (devices (S.left source.old) (S.reads source.old) (K.written sink.old)) (hand_of self.old) []
            (devices (S.left source.new) (S.reads source.new) (K.written sink.new)) (hand_of self.new) []) }
        ensures ended { IfOk result (λ more. more ≡ false → (self.new.lines.held ≡ []) × IsAtEnd (S.left source.new)) }
        ensures less { IfOk result (λ more. more ≡ true → to_go self.new.lines < to_go self.old.lines) }
        ensures stops { IfErr result (λ stop. Halts stop (devices (S.left source.old) (S.reads source.old) (K.written sink.old)) (hand_of self.old) []
            (devices (S.left source.new) (S.reads source.new) (K.written sink.new)) self.new.responder.text.items) }
        ensures calm { OnOk result ((S.faults source.new ≡ S.faults source.old) × (K.faults sink.new ≡ K.faults sink.old)) }
        ensures rose { IfErr result (λ stop. RoseAt stop (S.faults source.old) (S.faults source.new) (K.faults sink.old) (K.faults sink.new)) }
        ensures source_counted { S.faults source.old ≤ S.faults source.new }
        ensures sink_counted { K.faults sink.old ≤ K.faults sink.new }
    {
        let piece = self.take_piece(source, sink)?;
        self.respond_to_piece(piece, sink)
    }

    /// Answers the next line. False at the end of the script.
    fn turn<S: Source, K: Sink>(&mut self, source: &mut S, sink: &mut K) -> Result<bool, Stop>
        requires under_way { IsGoing (devices (S.left source.old) (S.reads source.old) (K.written sink.old)) self.old }
        ensures on { OnOk result (Steps (devices (S.left source.old) (S.reads source.old) (K.written sink.old)) (hand_of self.old) []
            (devices (S.left source.new) (S.reads source.new) (K.written sink.new)) (hand_of self.new) []) }
        ensures ended { IfOk result (λ more. more ≡ false → (self.new.lines.held ≡ []) × IsAtEnd (S.left source.new)) }
        ensures less { IfOk result (λ more. more ≡ true → to_go self.new.lines < to_go self.old.lines) }
        ensures stops { IfErr result (λ stop. Halts stop (devices (S.left source.old) (S.reads source.old) (K.written sink.old)) (hand_of self.old) []
            (devices (S.left source.new) (S.reads source.new) (K.written sink.new)) self.new.responder.text.items) }
        ensures calm { OnOk result ((S.faults source.new ≡ S.faults source.old) × (K.faults sink.new ≡ K.faults sink.old)) }
        ensures rose { IfErr result (λ stop. RoseAt stop (S.faults source.old) (S.faults source.new) (K.faults sink.old) (K.faults sink.new)) }
        ensures source_counted { S.faults source.old ≤ S.faults source.new }
        ensures sink_counted { K.faults sink.old ≤ K.faults sink.new }
    {
        if self.turn_held(sink)? {
            return Ok(true);
        }
        self.turn_reading(source, sink)
    }

    /// Answers all lines.
    fn answer_all<S: Source, K: Sink>(&mut self, source: &mut S, sink: &mut K) -> Result<(), Stop>
        requires under_way { IsGoing (devices (S.left source.old) (S.reads source.old) (K.written sink.old)) self.old }
        ensures on { OnOk result (Steps (devices (S.left source.old) (S.reads source.old) (K.written sink.old)) (hand_of self.old) []
            (devices (S.left source.new) (S.reads source.new) (K.written sink.new)) (hand_of self.new) []) }
        ensures ended { OnOk result ((self.new.lines.held ≡ []) × IsAtEnd (S.left source.new)) }
        ensures stops { IfErr result (λ stop. Halts stop (devices (S.left source.old) (S.reads source.old) (K.written sink.old)) (hand_of self.old) []
            (devices (S.left source.new) (S.reads source.new) (K.written sink.new)) self.new.responder.text.items) }
        ensures calm { OnOk result ((S.faults source.new ≡ S.faults source.old) × (K.faults sink.new ≡ K.faults sink.old)) }
        ensures rose { IfErr result (λ stop. RoseAt stop (S.faults source.old) (S.faults source.new) (K.faults sink.old) (K.faults sink.new)) }
        ensures source_counted { S.faults source.old ≤ S.faults source.new }
        ensures sink_counted { K.faults sink.old ≤ K.faults sink.new }
    {
        while self.turn(source, sink)? {}
        Ok(())
    }

    /// Hands the text in hand to the sink where memory is wanting. What the sink answers changes nothing.
    fn give_up<K: Sink>(&mut self, sink: &mut K) -> Stop
        ensures stop { result ≡ stops.NoMemory }
        ensures same { self.new.responder.malformed ≡ self.old.responder.malformed }
        ensures front { (n : ℕ) × Appends (K.written sink.old) (K.written sink.new) (take n self.old.responder.text.items) }
        ensures counted { K.faults sink.old ≤ K.faults sink.new }
    {
        let _ = hand_over(&mut self.responder.text, sink);
        Stop::NoMemory
    }

    /// Prints the ending.
    fn finish<K: Sink>(&mut self, sink: &mut K) -> Result<(), Stop>
        ensures ran { OnOk result ((start : Start) (left : Option (List ℕ)) (reads : Option Reads) → self.old.lines.held ≡ [] → IsAtEnd left
            → GoesOn start (devices left reads (K.written sink.old)) self.old → Ran start.base start.old (devices left reads (K.written sink.new)) self.old.responder.malformed) }
        ensures same { self.new.responder.malformed ≡ self.old.responder.malformed }
        ensures stops { IfErr result (λ stop. (start : Start) (left : Option (List ℕ)) (reads : Option Reads) → self.old.lines.held ≡ [] → IsAtEnd left
            → GoesOn start (devices left reads (K.written sink.old)) self.old → Stops stop start.base start.old (devices left reads (K.written sink.new))) }
        ensures calm { OnOk result (K.faults sink.new ≡ K.faults sink.old) }
        ensures rose { IfErr result (λ stop. (s : ℕ) → RoseAt stop s s (K.faults sink.old) (K.faults sink.new)) }
        ensures counted { K.faults sink.old ≤ K.faults sink.new }
    {
        match self.responder.close() {
            Err(_) => Err(self.give_up(sink)),
            Ok(()) => hand_over(&mut self.responder.text, sink),
        }
    }

    /// Answers all lines and prints the ending.
    pub fn work<S: Source, K: Sink>(&mut self, source: &mut S, sink: &mut K) -> Result<(), Stop>
        requires under_way { IsGoing (devices (S.left source.old) (S.reads source.old) (K.written sink.old)) self.old }
        ensures ran { OnOk result ((start : Start) → GoesOn start (devices (S.left source.old) (S.reads source.old) (K.written sink.old)) self.old
            → Ran start.base start.old (devices (S.left source.new) (S.reads source.new) (K.written sink.new)) self.new.responder.malformed × (took start.old.left (S.left source.new) ≤ most_of_script)) }
        ensures stops { IfErr result (λ stop. (start : Start) → GoesOn start (devices (S.left source.old) (S.reads source.old) (K.written sink.old)) self.old
            → Stops stop start.base start.old (devices (S.left source.new) (S.reads source.new) (K.written sink.new))) }
        ensures calm { OnOk result ((S.faults source.new ≡ S.faults source.old) × (K.faults sink.new ≡ K.faults sink.old)) }
        ensures rose { IfErr result (λ stop. RoseAt stop (S.faults source.old) (S.faults source.new) (K.faults sink.old) (K.faults sink.new)) }
        ensures source_counted { S.faults source.old ≤ S.faults source.new }
        ensures sink_counted { K.faults sink.old ≤ K.faults sink.new }
    {
        match self.answer_all(source, sink) {
            Err(Stop::NoMemory) => Err(self.give_up(sink)),
            Err(stop) => Err(stop),
            Ok(()) => self.finish(sink),
        }
    }
}
