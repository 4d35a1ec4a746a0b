//! The bytes that were taken from a source and not given yet, in a buffer of one size.
//! They are moved to its front before a read alone, so that giving a line moves nothing.
ghost use Rattle.std.specs.Prelude.{◌≡◌, ℕ, ◌+◌, ◌≤◌, ◌<◌, List, [], ◌++◌, length, drop, take, vec_len, IfOk, OnOk, OnErr};
ghost use Rattle.std.specs.Io.KnownBytes.{Consumes, IsAtEnd};
ghost use Rattle.ltx_outside.specs.Faults.{Rose};
ghost use Rattle.ltx_outside.specs.Reads.{CountsRead};

use ltx_model::memory::NoMemory;
use ltx_outside::{Failed, Source};
use std::alloc::Global;

/// The most bytes that are kept of a line before its line feed has come: one more than a line may have.
const MOST_KEPT: usize = 4_097;

/// The most bytes of one read.
pub(crate) const MOST_READ: u64 = 65_536;

/// Room for both.
const SIZE: usize = 69_633;

/// The bytes from `start` to `end`, and room behind them.
#[derive(Debug, Drop)]
pub(crate) struct Block {
    bytes: Vec<u8>,
    start: usize,
    end: usize,
    ghost ordered: { start ≤ end },
    ghost within: { end ≤ 69633 },
    ghost size: { vec_len bytes ≡ 69633 },
}

impl Block {
    ghost use Rattle.ltx_text.specs.Block.{held, room};

    /// No byte yet.
    pub(crate) fn new(alloc: Global) -> Result<Block, NoMemory>
        ensures { IfOk result (λ block. held block ≡ []) }
    {
        Ok(Block {
            bytes: vec![in alloc; 0; SIZE]?,
            start: 0,
            end: 0,
        })
    }

    /// The bytes that were taken and not given yet.
    pub(crate) fn held(&self) -> &[u8]
        ensures value { result.now ≡ held self.now }
        ensures fits { length result.now ≤ 69633 }
    {
        &self.bytes[self.start..self.end]
    }

    /// Lets the first bytes go.
    pub(crate) fn skip(&mut self, count: usize)
        requires { count ≤ length (held self.old) }
        ensures { held self.new ≡ drop count (held self.old) }
    {
        self.start += count;
    }

    /// Makes room for a read. Of what is held the first 4,097 bytes are kept, and moved to the front.
    pub(crate) fn make_room(&mut self)
        ensures held { held self.new ≡ take 4097 (held self.old) }
        ensures room { 65536 ≤ room self.new }
    {
        let kept = self.held().len().min(MOST_KEPT);
        self.keep(kept);
        self.move_to_front();
    }

    /// Lets all but the first bytes go.
    fn keep(&mut self, count: usize)
        requires { count ≤ length (held self.old) }
        ensures { held self.new ≡ take count (held self.old) }
    {
        self.end = self.start + count;
    }

    /// Moves the held bytes to the front of the buffer, so that the room is all that they leave.
    fn move_to_front(&mut self)
        ensures held { held self.new ≡ held self.old }
        ensures room { room self.new + length (held self.new) ≡ 69633 }
    {
        let (start, end) = (self.start, self.end);
        self.bytes.copy_within(start..end, 0);
        self.start = 0;
        self.end = end - start;
    }

    /// Takes at most so many bytes from the source, behind the held ones. 0 is the end of the source.
    /// A failure leaves the held bytes.
    pub(crate) fn read_from<S: Source>(
        &mut self,
        source: &mut S,
        most: usize,
    ) -> Result<usize, Failed>
        requires some { 0 < most }
        requires room { most ≤ room self.old }
        ensures taken { IfOk result (λ n. (more : List ℕ) × (length more ≡ n)
            × (held self.new ≡ held self.old ++ more)
            × Consumes (S.left source.old) (S.left source.new) more) }
        ensures most { IfOk result (λ n. n ≤ most) }
        ensures end { IfOk result (λ n. n ≡ 0 → IsAtEnd (S.left source.new)) }
        ensures kept { OnErr result ((held self.new ≡ held self.old)
            × (S.left source.new ≡ S.left source.old)) }
        ensures asked { CountsRead (S.reads source.old) (S.reads source.new) result }
        ensures counted { S.faults source.old ≤ S.faults source.new }
        ensures calm { OnOk result (S.faults source.new ≡ S.faults source.old) }
        ensures cause { OnErr result (Rose (S.faults source.old) (S.faults source.new)) }
    {
        let end = self.end;
        let count = source.read(&mut self.bytes[end..end + most])?;
        self.end = end + count;
        Ok(count)
    }
}
