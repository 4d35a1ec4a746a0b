//! The devices of the program: standard input, standard output, and the file of the log in the current folder.
//!
//! Each has a count of faults, and does not tell what it holds. What the system does at a call is trusted.
#![tactic(auto)]

mod faults;
mod file_disk;
mod stdin_source;
mod stdout_sink;

pub use file_disk::FileDisk;
pub use stdin_source::StdinSource;
pub use stdout_sink::StdoutSink;

#[cfg(test)]
mod tests {
    use super::*;
    use ltx_outside::Disk;
    use std::fs;
    use std::test::Fail;

    fn sent<T: Send>(device: T) -> T {
        device
    }

    #[test]
    fn a_log_is_kept_in_the_folder(rt: HostRuntime) -> Result<(), Fail> {
        fs::create_dir(&rt, "ltx.log")?;
        let mut disk = sent(FileDisk::new(&rt));
        assert!(rt; disk.len().is_err());
        fs::remove_dir(&rt, "ltx.log")?;
        assert_eq!(rt; disk.len()?, 0);
        disk.write_at(0, &[1, 2, 3])?;
        disk.write_at(2, &[7, 8, 9])?;
        disk.sync()?;
        disk.sync()?;
        let mut again = FileDisk::new(&rt);
        assert_eq!(rt; again.len()?, 5);
        let mut buffer = [0; 3];
        again.read_at(1, &mut buffer)?;
        assert_eq!(rt; buffer, [2, 7, 8]);
        assert!(rt; again.read_at(3, &mut buffer).is_err());
        assert_eq!(rt; disk.len()?, 5);
        fs::remove_file(&rt, "ltx.log")?;
        Ok(())
    }
}
