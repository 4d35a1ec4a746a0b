//! The log: frames behind gates on a disk. A frame is written and synced before its gate is opened, so that whatever a
//! crash leaves is a log of whole frames.
#![tactic(auto)]

mod append;
mod body;
mod fault;
mod front;
mod head;
mod log;
mod make;
mod opening;
mod piece;
mod read;
mod settle;

pub use fault::{AppendFault, OpenFault};
pub use log::Log;
pub use ltx_frame::frame::Placed;
pub use opening::start;
pub use read::{Course, LogImage, read_log};

#[cfg(test)]
mod tests {
    use super::*;
    use ltx_frame::frame::Frame;
    use ltx_outside::{Choice, CrashDisk};
    use std::alloc::Global;
    use std::test::Fail;

    // A log without frames.
    const EMPTY: [u8; 18] = [1, 76, 84, 88, 76, 79, 71, 48, 49, 0, 0, 0, 0, 0, 0, 0, 0, 0];

    fn frame(alloc: Global, epoch: u32) -> Result<Frame, Fail> {
        Ok(Frame::new(epoch, Vec::new(alloc)).ok().ok_or("a frame")?)
    }

    // How many frames a disk has that a crash left, where the bytes that it may choose are these.
    fn frames_left(alloc: Global, disk: &CrashDisk, after: usize, byte: u8) -> Result<usize, Fail> {
        let fill = vec![in alloc; byte; 64]?;
        let image = disk.image(after, &Choice { length: 64, fill })?;
        let mut left = CrashDisk::new(alloc, image, 64, 9, Vec::new(alloc))?;
        Ok(read_log(alloc, &mut left)?.frames.len())
    }

    // Appends a frame, where its epoch may follow.
    fn append(
        alloc: Global,
        log: &mut Log<'_, CrashDisk>,
        epoch: u32,
    ) -> Result<Result<(), AppendFault>, Fail> {
        let frame = frame(alloc, epoch)?;
        if frame.epoch() <= log.last() {
            return Ok(Err(AppendFault::LimitLog));
        }
        Ok(log.append(alloc, &frame))
    }

    #[test]
    fn frames_are_appended_and_read(rt: HostRuntime) -> Result<(), Fail> {
        let alloc = rt.alloc();
        let mut disk = CrashDisk::new(alloc, Vec::new(alloc), 64, 64, vec![in alloc; 16]?)?;
        let (mut log, frames) = Log::open(alloc, &mut disk)?;
        assert!(rt; frames.is_empty());
        assert_eq!(rt; log.gate(), 17);
        append(alloc, &mut log, 1)??;
        assert_eq!(rt; log.gate(), 38);
        assert_eq!(rt; append(alloc, &mut log, 2)?, Err(AppendFault::DiskFault));
        assert!(rt; log.closed());
        assert_eq!(rt; append(alloc, &mut log, 3)?, Err(AppendFault::Closed));
        let bytes = disk.bytes();
        assert!(rt; bytes.len() >= 17);
        assert_eq!(rt; &bytes[1..17], &EMPTY[1..17]);
        assert_eq!(rt; frames_left(alloc, &disk, 11, 0)?, 0);
        assert_eq!(rt; frames_left(alloc, &disk, 12, 1)?, 1);
        assert_eq!(rt; frames_left(alloc, &disk, 16, 0)?, 1);
        let mut foreign = CrashDisk::new(alloc, vec![in alloc; 2, 2]?, 64, 64, Vec::new(alloc))?;
        assert_eq!(rt;
            read_log(alloc, &mut foreign).err(),
            Some(OpenFault::NotALog)
        );
        Ok(())
    }
}
