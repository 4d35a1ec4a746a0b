//! A source in memory, for tests and programs without input.

ghost use Rattle.std.specs.Prelude.{◌≡◌, [], ◌≤◌, ◌<◌, ◌↔◌, ◌++◌, Some, length, take, drop, min, IsErr, IsTrue, IfOk, OnOk, OnErr};
ghost use Rattle.std.specs.Io.{ReadsAtMost};
ghost use Rattle.std.specs.Io.KnownBytes.{ReadConsumes};
ghost use Rattle.ltx_outside.specs.Memory.{CountsCall, is_to_fail, no_calls};
ghost use Rattle.ltx_outside.specs.Reads.{bytes_given};

use crate::calls::Calls;
use crate::failed::Failed;
use crate::source::Source;
use std::marker::Model;

/// Bytes in memory, which are taken from the front. It fails the reads of given numbers.
#[derive(Debug, Drop)]
pub struct MemSource {
    bytes: Vec<u8>,
    at: usize,
    /// How many bytes the last call gave.
    last: usize,
    calls: Calls,
}

impl Model for MemSource {
    ghost use Rattle.std.specs.Prelude.{◌≤◌, length, drop};
    ghost use Rattle.ltx_outside.specs.Memory.{SourceState};

    ghost Value = { SourceState };

    ghost view = { λ s. record { left = drop s.at s.bytes.items; last = s.last; calls = s.calls } };

    ghost invariant = { λ s. s.at ≤ length s.bytes.items };
}

impl MemSource {
    /// A source of these bytes that fails the reads of these numbers, counted from 1.
    pub fn new(bytes: Vec<u8>, failing: Vec<u64>) -> MemSource
        ensures { result ≡ record { left = bytes.items; last = 0; calls = no_calls failing.items } }
    {
        MemSource {
            bytes,
            at: 0,
            last: 0,
            calls: Calls::new(failing),
        }
    }
}

impl Source for MemSource {
    ghost use Rattle.std.specs.Prelude.{Some};

    ghost left = { λ s. Some s.left };

    ghost reads = { λ s. Some (record { calls = s.calls.made; last = s.last }) };

    ghost faults = { λ s. s.calls.faults };

    /// Takes as many bytes as there are and as fit. It fails exactly where its number is one of those that fail.
    fn read(&mut self, buffer: &mut [u8]) -> Result<usize, Failed>
        ensures within { ReadsAtMost result buffer.new }
        ensures taken { ReadConsumes (Some self.old.left) (Some self.new.left) result buffer.new }
        ensures most { IfOk result (λ n. n ≡ min (length buffer.old) (length self.old.left)) }
        ensures kept { OnErr result (self.new.left ≡ self.old.left) }
        ensures last { self.new.last ≡ bytes_given result }
        ensures planned { IsErr result ↔ IsTrue (is_to_fail self.new.calls) }
        ensures counted { CountsCall self.old.calls self.new.calls result }
        ensures sound { self.old.calls.failing ≡ [] → self.new.calls.faults ≡ self.old.calls.faults }
    {
        self.last = 0;
        self.calls.next()?;
        let (_, rest) = self.bytes.split_at(self.at);
        let count = copy_front(rest, buffer);
        self.at += count;
        self.last = count;
        Ok(count)
    }
}

/// Copies as many bytes as fit from one front to the other, and answers how many.
fn copy_front(from: &[u8], into: &mut [u8]) -> usize
    ensures count { result ≡ min (length into.old) (length from.now) }
    ensures into { into.new ≡ take result from.now ++ drop result into.old }
{
    let count = into.len().min(from.len());
    into[..count].copy_from_slice(&from[..count]);
    count
}
