//! Standard input as a source.

ghost use Rattle.std.specs.Prelude.{◌≡◌, None};
ghost use Rattle.std.specs.Io.{ReadsAtMost};

use crate::faults::counted;
use ltx_outside::{Failed, Source};
use std::io;
use std::io::{ErrorKind, Read};

/// How often a read is made again that a signal interrupts, before it counts as failed.
const MOST_TRIES: u32 = 1_000_000;

/// Standard input. It does not tell what is left of it.
#[derive(Drop)]
pub struct StdinSource<'r> {
    rt: &'r HostRuntime,
    faults: u64,
}

impl<'r> StdinSource<'r> {
    /// Standard input, which has not failed yet.
    pub fn new(rt: &'r HostRuntime) -> StdinSource<'r>
        ensures { result.faults ≡ 0 }
    {
        StdinSource { rt, faults: 0 }
    }
}

impl<'r> Source for StdinSource<'r> {
    ghost left = { λ _. None };

    ghost reads = { λ _. None };

    ghost faults = { λ s. s.faults };

    /// One read of the system, made again where a signal interrupts it. A failure counts one fault.
    fn read(&mut self, buffer: &mut [u8]) -> Result<usize, Failed> {
        let answer = read_stdin(self.rt, buffer);
        counted(&mut self.faults, answer)
    }
}

/// Reads standard input. A read that is interrupted has taken nothing, and is made again.
fn read_stdin(rt: &HostRuntime, buffer: &mut [u8]) -> io::Result<usize>
    ensures within { ReadsAtMost result buffer.new }
{
    for _ in 0..MOST_TRIES {
        match rt.stdin().read(buffer) {
            Err(error) if error.kind() == ErrorKind::Interrupted => {}
            answer => return answer,
        }
    }
    Err(ErrorKind::Interrupted.into())
}
