//! The file of the log as a disk.

ghost use Rattle.std.specs.Prelude.{◌≡◌, None, true, IsSome, OnOk};
ghost use Rattle.std.specs.Fs.{new_options, with_read, with_write, with_create};
ghost use Rattle.ltx_files.specs.Counts.{CountsFault};

use crate::faults::counted;
use ltx_outside::{Disk, Failed};
use std::fs::{File, OpenOptions};
use std::io;
use std::os::unix::fs::FileExt;

/// The file of the log, in the current folder.
const LOG: &str = "ltx.log";

/// The current folder, which lists that file.
const FOLDER: &str = ".";

/// The file `ltx.log` in the current folder. It does not tell what it holds.
///
/// The file is opened at the first call, and made empty there where it is missing. A call that cannot open it fails, and the
/// next one tries again.
#[derive(Drop)]
pub struct FileDisk<'r> {
    rt: &'r HostRuntime,
    file: Option<File>,
    /// Whether the folder was synced after the file was opened.
    is_listed: bool,
    faults: u64,
}

impl<'r> FileDisk<'r> {
    /// The file of the log, which has not failed yet. It is not opened here.
    pub fn new(rt: &'r HostRuntime) -> FileDisk<'r>
        ensures { result.faults ≡ 0 }
    {
        FileDisk {
            rt,
            file: None,
            is_listed: false,
            faults: 0,
        }
    }

    /// Makes a call on the open file. Where it fails, or the opening before it, one fault is counted.
    fn ask<T, F: FnOnce(&File) -> io::Result<T>>(&mut self, call: F) -> Result<T, Failed>
        requires { F.IsAlwaysCallable call }
        ensures counts { CountsFault self.old.faults self.new.faults result }
    {
        let answer = ask_file(self.rt, &mut self.file, call);
        counted(&mut self.faults, answer)
    }

    /// Syncs the folder, once: else a crash could take away the name of a file that was made just now.
    fn sync_folder_once(&mut self) -> Result<(), Failed>
        ensures counts { CountsFault self.old.faults self.new.faults result }
    {
        if !self.is_listed {
            let answer = sync_folder(self.rt);
            counted(&mut self.faults, answer)?;
            self.is_listed = true;
        }
        Ok(())
    }
}

impl<'r> Disk for FileDisk<'r> {
    ghost content = { λ _. None };

    ghost crashes = { λ _. None };

    ghost faults = { λ d. d.faults };

    fn len(&mut self) -> Result<u64, Failed> {
        self.ask(|file| Ok(file.metadata()?.len()))
    }

    /// A short read is gone on with. It fails where the file ends before the buffer is full.
    fn read_at(&mut self, at: u64, buffer: &mut [u8]) -> Result<(), Failed> {
        self.ask(|file| file.read_exact_at(buffer, at))
    }

    /// A short write is gone on with.
    fn write_at(&mut self, at: u64, piece: &[u8]) -> Result<(), Failed> {
        self.ask(|file| file.write_all_at(piece, at))
    }

    /// The first sync that succeeds also makes the file's name in the folder last.
    fn sync(&mut self) -> Result<(), Failed> {
        self.ask(|file| file.sync_all())?;
        self.sync_folder_once()
    }
}

/// Makes a call on the open file, which is opened first where it is not, and kept.
fn ask_file<T, F: FnOnce(&File) -> io::Result<T>>(
    rt: &HostRuntime,
    kept: &mut Option<File>,
    call: F,
) -> io::Result<T>
    requires { F.IsAlwaysCallable call }
    ensures open { OnOk result (IsSome kept.new) }
    ensures once { IsSome kept.old → kept.new ≡ kept.old }
{
    let file = match kept.take() {
        Some(file) => file,
        None => opening().open(rt, LOG)?,
    };
    let answer = call(&file);
    *kept = Some(file);
    answer
}

fn sync_folder(rt: &HostRuntime) -> io::Result<()> {
    File::open(rt, FOLDER)?.sync_all()
}

/// How the file is opened: for reading and writing, made where it is missing, and never cut.
fn opening() -> OpenOptions
    ensures { result ≡ with_create (with_write (with_read new_options true) true) true }
{
    let mut options = OpenOptions::new();
    options.read(true).write(true).create(true);
    options
}
