//! Reading a line of a script: the command with this spelling, or the first cause why there is none.

ghost use Rattle.std.specs.Prelude.{◌≡◌, ◌≤◌, ℕ, List, length, Option, IfOk, option_copied};
ghost use Rattle.ltx_model.specs.declared.commands.Command.{Command};
ghost use Rattle.ltx_model.specs.declared.commands.Line.TheVariants.{Good};
ghost use Rattle.ltx_model.specs.declared.commands.Bad.{Bad};
ghost use Rattle.ltx_script.specs.Commands.{IsCommand, command_text};
ghost use Rattle.ltx_script.specs.Causes.{IsCause};
ghost use Rattle.ltx_script.specs.Lines.{ask_at, command_at, most_bytes, line_of, SaysBad, IfGood, IfBad};
ghost use Rattle.ltx_text.specs.Cuts.{words_after};
ghost use Rattle.ltx_script.specs.Readers.{Gives, first_cause};

use crate::arguments::session_of;
use crate::cuts::{alone_as, are_words};
use crate::refusal::Refusal;
use crate::verbs::asked_of;
use ltx_model::commands::{Bad, Command, Line};
use ltx_model::memory::NoMemory;
use ltx_text::cuts::cut;
use std::alloc::Global;

/// The most bytes of a line.
const MOST_BYTES: usize = 4_096;

/// What a session asks.
#[tactic(auto, unfolding(crate::specs::Lines::ask_at))]
fn ask_of(
    alloc: Global,
    word: &[u8],
    rest: Option<&[u8]>,
    command: &mut Command,
) -> Result<(), Refusal>
    ensures { Gives (λ _. command.new) result (ask_at word.now (words_after (option_copied rest.entry))) }
{
    let session = session_of(word)?;
    asked_of(alloc, session, rest, command)
}

/// The command with these words, which is written in place. After a refusal it may be any command.
#[tactic(auto, unfolding(crate::specs::Lines::command_at))]
fn command_of(
    alloc: Global,
    word: &[u8],
    rest: Option<&[u8]>,
    command: &mut Command,
) -> Result<(), Refusal>
    ensures { Gives (λ _. command.new) result (command_at word.now (words_after (option_copied rest.entry))) }
{
    if word == b"epoch".as_slice() {
        return alone_as(Command::Epoch, rest, command);
    }
    if word == b"flush".as_slice() {
        return alone_as(Command::Flush, rest, command);
    }
    if word == b"prune".as_slice() {
        return alone_as(Command::Prune, rest, command);
    }
    ask_of(alloc, word, rest, command)
}

/// The first cause of a line in which no command was read: the cause found, unless the line is not words. What is read
/// as a command is words, so a line is tested for them only here. It is a call, so that what a good line runs through stays small.
#[inline(never)]
fn first_cause(line: &[u8], cause: Bad) -> Bad
    ensures { result ≡ first_cause line.now cause }
{
    if are_words(line) { cause } else { Bad::Words }
}

/// What a line says: the command with this spelling, or the first cause why there is none.
pub fn parse_line(alloc: Global, line: &[u8]) -> Result<Line, NoMemory>
    // What is read is spelt so.
    ensures found { IfOk result (λ read. IfGood read (λ command. IsCommand command × (line.now ≡ command_text command))) }
    // What is refused is no spelling, and has the first cause that applies.
    ensures cause { IfOk result (λ read. IfBad read (λ cause. IsCause line.now cause)) }
    // What is spelt so is read, so each command has one spelling.
    ensures again { (command : Command) → IsCommand command → line.now ≡ command_text command → IfOk result (λ read. read ≡ Good command) }
    // The whole answer is a function of the bytes.
    ensures exact { IfOk result (λ read. read ≡ line_of line.now) }
{
    if line.len() > MOST_BYTES {
        return Ok(Line::Bad(Bad::Long));
    }
    let (word, rest) = cut(line, b' ');
    // Any command, in whose place the one of the line is written.
    let mut command = Command::Epoch;
    match command_of(alloc, word, rest, &mut command) {
        Ok(()) => Ok(Line::Good(command)),
        Err(Refusal::Memory) => Err(NoMemory),
        Err(Refusal::Cause(cause)) => Ok(Line::Bad(first_cause(line, cause))),
    }
}

/// What callers may rest on: a spelling is of one command, none is longer than a line, and a line with a cause says it.
#[tactic(auto, using(crate::proofs::Spelt::one_command, crate::proofs::Spelt::fits_a_line, crate::proofs::OneCause::one_cause))]
pub fn spellings_are_one()
    ensures one { (a b : Command) → IsCommand a → IsCommand b → command_text a ≡ command_text b → a ≡ b }
    ensures short { (command : Command) → IsCommand command → length (command_text command) ≤ most_bytes }
    ensures refused { (line : List ℕ) (cause : Bad) → IsCause line cause → SaysBad line cause }
{}
