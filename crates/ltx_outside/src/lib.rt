//! What the engine asks of the world: a source of bytes, a sink for bytes and a disk, with implementations in memory.
//!
//! Each device has a count of faults that never falls: a call that fails raises it, and one that succeeds leaves it.
//! What a device holds is told where it is known, and the clauses that speak of it hold there.
#![tactic(auto)]

mod calls;
mod crash_disk;
mod disk;
mod failed;
mod mem_disk;
mod mem_sink;
mod mem_source;
mod sink;
mod source;

pub use crash_disk::{Choice, CrashDisk};
pub use disk::{Disk, LOG_LIMIT};
pub use failed::Failed;
pub use mem_disk::MemDisk;
pub use mem_sink::MemSink;
pub use mem_source::MemSource;
pub use sink::{Sink, write_all};
pub use source::Source;

#[cfg(test)]
mod tests {
    use super::*;
    use std::test::Fail;

    /// A sink that takes at most two bytes a call.
    #[derive(Drop)]
    struct Narrow(MemSink);

    impl Sink for Narrow {
        ghost use Rattle.std.specs.Prelude.{None};

        ghost written = { λ _. None };

        ghost faults = { λ s. s.0.calls.faults };

        fn write(&mut self, piece: &[u8]) -> Result<usize, Failed> {
            self.0.write(&piece[..piece.len().min(2)])
        }
    }

    fn read_from<S: Source>(source: &mut S, buffer: &mut [u8; 2]) -> Result<usize, Failed> {
        source.read(buffer)
    }

    #[test]
    fn a_source_is_read_past_a_fault(rt: HostRuntime) -> Result<(), Fail> {
        let alloc = rt.alloc();
        let mut source = MemSource::new(vec![in alloc; 1, 2, 3]?, vec![in alloc; 2]?);
        let mut buffer = [0; 2];
        assert_eq!(rt; read_from(&mut source, &mut buffer)?, 2);
        assert_eq!(rt; buffer, [1, 2]);
        assert!(rt; read_from(&mut source, &mut buffer).is_err());
        assert_eq!(rt; read_from(&mut source, &mut buffer)?, 1);
        assert_eq!(rt; buffer[0], 3);
        assert_eq!(rt; read_from(&mut source, &mut buffer)?, 0);
        Ok(())
    }

    #[test]
    fn a_text_is_written_whole(rt: HostRuntime) -> Result<(), Fail> {
        let alloc = rt.alloc();
        let mut sink = Narrow(MemSink::new(alloc, 9, vec![in alloc; 5]?)?);
        write_all(&mut sink, &[])?;
        write_all(&mut sink, &[1, 2, 3, 4, 5])?;
        assert_eq!(rt; sink.0.written(), [1, 2, 3, 4, 5].as_slice());
        assert!(rt; write_all(&mut sink, &[6, 7, 8]).is_err());
        assert_eq!(rt; sink.0.written(), [1, 2, 3, 4, 5, 6, 7].as_slice());
        Ok(())
    }

    #[test]
    fn a_disk_is_written_and_read(rt: HostRuntime) -> Result<(), Fail> {
        let alloc = rt.alloc();
        let mut disk = MemDisk::new(vec![in alloc; 1, 2, 3]?, 5, vec![in alloc; 2]?)?;
        disk.write_at(2, &[7, 8, 9])?;
        assert!(rt; disk.sync().is_err());
        disk.sync()?;
        assert_eq!(rt; disk.len()?, 5);
        let mut buffer = [0; 2];
        disk.read_at(1, &mut buffer)?;
        assert_eq!(rt; buffer, [2, 7]);
        assert_eq!(rt; disk.bytes(), [1, 2, 7, 8, 9].as_slice());
        let mut crashing = CrashDisk::new(alloc, vec![in alloc; 1, 2, 3]?, 5, 9, Vec::new(alloc))?;
        crashing.write_at(2, &[7, 8])?;
        crashing.sync()?;
        let fill = vec![in alloc; 9; 4]?;
        let choice = Choice { length: 4, fill };
        let torn = crashing.image(1, &choice)?;
        assert_eq!(rt; torn.as_slice(), [1, 2, 9, 9].as_slice());
        let whole = crashing.image(2, &choice)?;
        assert_eq!(rt; whole.as_slice(), [1, 2, 7, 8].as_slice());
        Ok(())
    }
}
