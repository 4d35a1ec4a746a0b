//! Reading the line of an entry: a command or `?`, ` => `, and a reply.

ghost use Rattle.std.specs.Prelude.{◌≡◌, ◌<◌, ◌≤◌, ℕ, List, [], ◌∷◌, ◌++◌, length, codes, IfOk, IfSome, IfNone};
ghost use Rattle.ltx_model.specs.declared.commands.Command.{Command};
ghost use Rattle.ltx_model.specs.declared.replies.Entry.{Entry};
ghost use Rattle.ltx_model.specs.declared.commands.Bad.{Bad};
ghost use Rattle.ltx_model.specs.declared.replies.Reply.TheVariants as replies;
ghost use Rattle.ltx_script.specs.Commands.{IsCommand, command_text};
ghost use Rattle.ltx_check.specs.Texts.{entry_line, IsEntry};

use crate::cuts::behind;
use ltx_model::commands::{Bad, Command, Line};
use ltx_model::memory::NoMemory;
use ltx_model::replies::{Entry, Reply};
use ltx_reply::read::read_reply;
use ltx_script::parse::parse_line;
use std::alloc::Global;

/// The command that a line is up to here, where ` => ` stands behind it, and what follows.
fn command_here<'t>(
    alloc: Global,
    front: &[u8],
    rest: &'t [u8],
) -> Result<Option<(Command, &'t [u8])>, NoMemory>
    ensures found { IfOk result (λ found. IfSome found (λ p. IsCommand p.0 × (front.now ≡ command_text p.0) × (rest.now ≡ codes " => " ++ p.1.now))) }
    ensures none { IfOk result (λ found. IfNone found ((command : Command) (reply : List ℕ) → IsCommand command → front.now ≡ command_text command → rest.now ≡ codes " => " ++ reply → ⊥)) }
{
    let Some(reply) = behind(rest, b" => ") else {
        return Ok(None);
    };
    match parse_line(alloc, front) {
        Err(fault) => Err(fault),
        Ok(Line::Bad(_)) => Ok(None),
        Ok(Line::Good(command)) => Ok(Some((command, reply))),
    }
}

/// The command that a line begins with, and what stands behind the ` => ` after it. A key may be spelt `=>` too, so each place
/// is tried, from the left.
fn cut_command(alloc: Global, line: &[u8]) -> Result<Option<(Command, &[u8])>, NoMemory>
    ensures found { IfOk result (λ found. IfSome found (λ p. IsCommand p.0 × (line.now ≡ command_text p.0 ++ codes " => " ++ p.1.now))) }
    ensures none { IfOk result (λ found. IfNone found ((command : Command) (reply : List ℕ) → IsCommand command → line.now ≡ command_text command ++ codes " => " ++ reply → ⊥)) }
{
    for at in 0..line.len() {
        let (front, rest) = line.split_at(at);
        match command_here(alloc, front, rest) {
            Err(fault) => return Err(fault),
            Ok(Some(found)) => return Ok(Some(found)),
            Ok(None) => {}
        }
    }
    Ok(None)
}

/// The cause that a reply names.
fn cause_of(reply: &Reply) -> Option<Bad>
    ensures some { IfSome result (λ cause. reply.now ≡ replies.Bad cause) }
    ensures none { IfNone result ((cause : Bad) → reply.now ≡ replies.Bad cause → ⊥) }
{
    match reply {
        Reply::Bad(cause) => Some(*cause),
        _ => None,
    }
}

/// The entry of a malformed line with this reply, which names its cause.
fn malformed(alloc: Global, text: &[u8]) -> Result<Option<Entry>, NoMemory>
    ensures found { IfOk result (λ found. IfSome found (λ entry. IsEntry entry × (entry_line entry ≡ codes "? => " ++ text.now))) }
    ensures none { IfOk result (λ found. IfNone found ((entry : Entry) → IsEntry entry → entry_line entry ≡ codes "? => " ++ text.now → ⊥)) }
{
    match read_reply(alloc, text) {
        Err(fault) => Err(fault),
        Ok(None) => Ok(None),
        Ok(Some(reply)) => match cause_of(&reply) {
            None => Ok(None),
            Some(cause) => Ok(Some(Entry {
                line: Line::Bad(cause),
                reply: Reply::Bad(cause),
            })),
        },
    }
}

/// The entry of a command with this reply.
fn answered(alloc: Global, command: Command, text: &[u8]) -> Result<Option<Entry>, NoMemory>
    requires command { IsCommand command }
    ensures found { IfOk result (λ found. IfSome found (λ entry. IsEntry entry × (entry_line entry ≡ command_text command ++ codes " => " ++ text.now))) }
    ensures none { IfOk result (λ found. IfNone found ((entry : Entry) → IsEntry entry → entry_line entry ≡ command_text command ++ codes " => " ++ text.now → ⊥)) }
{
    match read_reply(alloc, text) {
        Err(fault) => Err(fault),
        Ok(None) => Ok(None),
        Ok(Some(reply)) => Ok(Some(Entry {
            line: Line::Good(command),
            reply,
        })),
    }
}

/// The entry with this line. None exactly where no entry has it.
pub(crate) fn read_entry(alloc: Global, line: &[u8]) -> Result<Option<Entry>, NoMemory>
    ensures found { IfOk result (λ found. IfSome found (λ entry. IsEntry entry × (entry_line entry ≡ line.now))) }
    ensures none { IfOk result (λ found. IfNone found ((entry : Entry) → IsEntry entry → entry_line entry ≡ line.now → ⊥)) }
{
    if let Some(text) = behind(line, b"? => ") {
        return malformed(alloc, text);
    }
    match cut_command(alloc, line) {
        Err(fault) => Err(fault),
        Ok(None) => Ok(None),
        Ok(Some((command, text))) => answered(alloc, command, text),
    }
}
