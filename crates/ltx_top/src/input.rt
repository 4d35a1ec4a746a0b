//! A source that is read to its end.

ghost use Rattle.std.specs.Prelude.{◌≡◌, ◌≤◌, ◌<◌, ◌+◌, ℕ, List, ◌++◌, length, vec_len, true, false, IfOk, IfErr, OnOk};
ghost use Rattle.std.specs.Io.KnownBytes.{Consumes, IsAtEnd};
ghost use Rattle.ltx_top.specs.Endings.{RoseAt};
ghost use Rattle.ltx_top.specs.Judged.{PassesAt, most_of_transcript};

use crate::status::Stop;
use ltx_model::memory::NoMemory;
use ltx_outside::Source;
use std::alloc::Global;

/// The most bytes of a transcript that are taken.
const MOST_OF_TRANSCRIPT: usize = 268_435_456;

/// The most bytes of one read.
const MOST_READ: usize = 65_536;

/// Room for one read.
#[derive(Debug, Drop)]
struct Buffer {
    bytes: Vec<u8>,
    ghost size: { vec_len bytes ≡ 65536 },
}

impl Buffer {
    /// Room that nothing was read into.
    fn new(alloc: Global) -> Result<Buffer, NoMemory> {
        Ok(Buffer {
            bytes: vec![in alloc; 0; MOST_READ]?,
        })
    }

    /// Takes bytes from the source, by one read, and appends them. False at its end.
    fn take_more<S: Source>(&mut self, source: &mut S, bytes: &mut Vec<u8>) -> Result<bool, Stop>
        requires within { length bytes.old.items ≤ most_of_transcript }
        ensures taken { IfOk result (λ _. (more : List ℕ) × Consumes (S.left source.old) (S.left source.new) more × (bytes.new.items ≡ bytes.old.items ++ more)) }
        ensures within { OnOk result (length bytes.new.items ≤ most_of_transcript) }
        ensures more { IfOk result (λ more. more ≡ true → length bytes.old.items < length bytes.new.items) }
        ensures ended { IfOk result (λ more. more ≡ false → IsAtEnd (S.left source.new)) }
        ensures stops { IfErr result (λ stop. (more : List ℕ) × Consumes (S.left source.old) (S.left source.new) more × PassesAt stop (length bytes.old.items + length more)) }
        ensures calm { OnOk result (S.faults source.new ≡ S.faults source.old) }
        ensures rose { IfErr result (λ stop. (k : ℕ) → RoseAt stop (S.faults source.old) (S.faults source.new) k k) }
        ensures counted { S.faults source.old ≤ S.faults source.new }
    {
        let Ok(count) = source.read(&mut self.bytes) else {
            return Err(Stop::Source);
        };
        if count > MOST_OF_TRANSCRIPT - bytes.len() {
            return Err(Stop::TooMuch);
        }
        let (taken, _) = self.bytes.split_at(count);
        match bytes.extend_from_slice(taken) {
            Ok(()) => Ok(count > 0),
            Err(_) => Err(Stop::NoMemory),
        }
    }
}

/// All bytes of the source, 268,435,456 at most.
pub(crate) fn read_whole<S: Source>(alloc: Global, source: &mut S) -> Result<Vec<u8>, Stop>
    ensures whole { IfOk result (λ bytes. Consumes (S.left source.old) (S.left source.new) bytes.items × IsAtEnd (S.left source.new) × (length bytes.items ≤ most_of_transcript)) }
    ensures stops { IfErr result (λ stop. (bytes : List ℕ) × Consumes (S.left source.old) (S.left source.new) bytes × PassesAt stop (length bytes)) }
    ensures calm { OnOk result (S.faults source.new ≡ S.faults source.old) }
    ensures rose { IfErr result (λ stop. (k : ℕ) → RoseAt stop (S.faults source.old) (S.faults source.new) k k) }
    ensures counted { S.faults source.old ≤ S.faults source.new }
{
    let Ok(mut buffer) = Buffer::new(alloc) else {
        return Err(Stop::NoMemory);
    };
    let mut bytes = Vec::new(alloc);
    loop {
        match buffer.take_more(source, &mut bytes) {
            Err(stop) => return Err(stop),
            Ok(false) => return Ok(bytes),
            Ok(true) => {}
        }
    }
}
