//! Standard output as a sink.

ghost use Rattle.std.specs.Prelude.{◌≡◌, ◌<◌, ◌≤◌, None, length, IfOk};

use crate::faults::counted;
use ltx_outside::{Failed, Sink};
use std::io;
use std::io::{ErrorKind, Write};

/// Standard output. It does not tell what was written.
#[derive(Drop)]
pub struct StdoutSink<'r> {
    rt: &'r HostRuntime,
    faults: u64,
}

impl<'r> StdoutSink<'r> {
    /// Standard output, which has not failed yet.
    pub fn new(rt: &'r HostRuntime) -> StdoutSink<'r>
        ensures { result.faults ≡ 0 }
    {
        StdoutSink { rt, faults: 0 }
    }
}

impl<'r> Sink for StdoutSink<'r> {
    ghost written = { λ _. None };

    ghost faults = { λ s. s.faults };

    /// One write of the system. A failure, or a write that takes nothing, counts one fault.
    fn write(&mut self, piece: &[u8]) -> Result<usize, Failed> {
        let answer = write_stdout(self.rt, piece);
        counted(&mut self.faults, answer)
    }
}

/// Writes a front of the piece to standard output, one byte at least.
fn write_stdout(rt: &HostRuntime, piece: &[u8]) -> io::Result<usize>
    ensures part { IfOk result (λ n. (0 < n) × (n ≤ length piece.now)) }
{
    match rt.stdout().write(piece)? {
        0 => Err(ErrorKind::WriteZero.into()),
        count => Ok(count),
    }
}
