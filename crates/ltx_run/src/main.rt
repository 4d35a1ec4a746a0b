//! The program: the words of its command line say what is done, the script or the transcript comes from standard input, and the text
//! goes to standard output.
#![tactic(auto)]

mod pages;

use crate::pages::page_for;
use ltx_files::{StdinSource, StdoutSink};
use ltx_model::memory::NoMemory;
use ltx_outside::MemDisk;
use ltx_top::{Status, run, run_check};
use std::io::ErrorKind;
use std::process::ExitCode;
use std::{env, io};

/// What is printed on standard error where the words are no command.
const USAGE: &str = "usage: ltx_run run | recover | threads N | drive START COUNT | check";

/// The words of the command line, without the program's name.
fn words_of(rt: &HostRuntime) -> io::Result<Vec<String>> {
    let mut words = Vec::new(rt.alloc());
    for word in env::args(rt)?.skip(1) {
        words.push(word)?;
    }
    Ok(words)
}

/// Prints a page. The status is 5 where standard output failed.
fn print_page(rt: &HostRuntime, page: &str) -> u8 {
    match print!(rt; "{page}") {
        Ok(()) => 0,
        Err(_) => 5,
    }
}

/// Carries out words that ask for no page.
fn carry_out(rt: &HostRuntime, words: &[String]) -> Result<Status, NoMemory> {
    let alloc = rt.alloc();
    let mut source = StdinSource::new(rt);
    let mut sink = StdoutSink::new(rt);
    // Words that are another command leave both as they are.
    let checked = run_check(alloc, words, &mut source, &mut sink);
    if checked.number != 2 {
        return Ok(checked);
    }
    let mut disk = MemDisk::new(Vec::new(alloc), 0, Vec::new(alloc))?;
    Ok(run(alloc, words, &mut source, &mut disk, &mut sink))
}

/// Prints the page for which the words ask, or carries them out. The exit status.
fn answer(rt: &HostRuntime, words: &[String]) -> u8 {
    if let Some(page) = page_for(words) {
        return print_page(rt, page);
    }
    match carry_out(rt, words) {
        Ok(status) => status.number,
        Err(NoMemory) => 3,
    }
}

/// The exit status. Words that are no text are no command.
fn status(rt: &HostRuntime) -> u8 {
    match words_of(rt) {
        Ok(words) => answer(rt, &words),
        Err(error) => match error.kind() {
            ErrorKind::OutOfMemory => 3,
            _ => 2,
        },
    }
}

fn main(rt: HostRuntime) -> ExitCode {
    let status = status(&rt);
    if status == 2 {
        let _ = eprintln!(rt; "{USAGE}");
    }
    ExitCode::from(status)
}
