//! A sink in memory, for tests.

ghost use Rattle.std.specs.Prelude.{◌≡◌, [], ◌≤◌, ◌<◌, ◌↔◌, ◌⊎◌, ◌+◌, ◌++◌, Some, length, IsErr, IsTrue, IfOk, OnOk, OnErr};
ghost use Rattle.ltx_outside.specs.Memory.{CountsCall, is_to_fail, no_calls};

use crate::calls::Calls;
use crate::failed::Failed;
use crate::sink::Sink;
use ltx_model::memory::NoMemory;
use std::alloc::Global;
use std::marker::Model;

/// Bytes in memory, with room for so many. It fails the writes of given numbers, and each write past its room.
#[derive(Debug, Drop)]
pub struct MemSink {
    bytes: Vec<u8>,
    room: usize,
    calls: Calls,
}

impl Model for MemSink {
    ghost use Rattle.std.specs.Prelude.{◌≤◌, length, vec_capacity};
    ghost use Rattle.ltx_outside.specs.Memory.{SinkState};

    ghost Value = { SinkState };

    ghost view = { λ s. record { written = s.bytes.items; room = s.room; calls = s.calls } };

    ghost invariant = { λ s. (length s.bytes.items ≤ s.room) × (s.room ≤ vec_capacity s.bytes) };
}

impl MemSink {
    /// An empty sink with room for so many bytes that fails the writes of these numbers, counted from 1.
    pub fn new(alloc: Global, room: usize, failing: Vec<u64>) -> Result<MemSink, NoMemory>
        ensures { IfOk result (λ sink. sink ≡ record { written = []; room = room; calls = no_calls failing.items }) }
    {
        Ok(MemSink {
            bytes: Vec::with_capacity(alloc, room)?,
            room,
            calls: Calls::new(failing),
        })
    }

    /// All that was written.
    pub fn written(&self) -> &[u8]
        ensures value { result.now ≡ self.now.written }
        ensures fits { length self.now.written ≤ self.now.room }
    {
        &self.bytes
    }
}

impl Sink for MemSink {
    ghost use Rattle.std.specs.Prelude.{Some};

    ghost written = { λ s. Some s.written };

    ghost faults = { λ s. s.calls.faults };

    /// Takes the whole piece. It fails exactly where its number is one of those that fail, or where the piece does not fit.
    fn write(&mut self, piece: &[u8]) -> Result<usize, Failed>
        ensures whole { IfOk result (λ n. n ≡ length piece.now) }
        ensures taken { OnOk result (self.new.written ≡ self.old.written ++ piece.now) }
        ensures kept { OnErr result (self.new.written ≡ self.old.written) }
        ensures room { self.new.room ≡ self.old.room }
        ensures planned { IsErr result ↔ (IsTrue (is_to_fail self.new.calls) ⊎ (self.old.room < length self.old.written + length piece.now)) }
        ensures counted { CountsCall self.old.calls self.new.calls result }
        ensures sound { self.old.calls.failing ≡ [] → length self.old.written + length piece.now ≤ self.old.room → self.new.calls.faults ≡ self.old.calls.faults }
    {
        self.calls.next()?;
        let fits = piece.len() <= self.room - self.bytes.len();
        if !fits || self.bytes.extend_from_slice(piece).is_err() {
            return Err(self.calls.fault());
        }
        Ok(piece.len())
    }
}
