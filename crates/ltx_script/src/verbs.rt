//! What a session asks, from the words behind its number: one function a verb with arguments. The command is written
//! in place: it is 88 bytes, which each `Result` on its way would copy. After a refusal it may be any command.

ghost use Rattle.std.specs.Prelude.{Option, option_copied};
ghost use Rattle.ltx_script.specs.Lines.{alone, long_at, get_at, scan_at, put_at, del_at, verb_at, asked_at};
ghost use Rattle.ltx_text.specs.Cuts.{words_after};
ghost use Rattle.ltx_script.specs.Readers.{Gives, asked};

use crate::arguments::{bound_of, key_of, reads_of, table_of, value_of, writes_of};
use crate::cuts::{alone_as, one_or_two, three, two};
use crate::refusal::Refusal;
use ltx_model::commands::{Bad, Command, Op, Verb};
use ltx_model::numbers::Session;
use ltx_text::cuts::cut;
use std::alloc::Global;

/// A verb that stands alone.
#[inline(always)]
fn bare_of(
    session: Session,
    bare: Verb,
    rest: Option<&[u8]>,
    command: &mut Command,
) -> Result<(), Refusal>
    ensures { Gives (λ _. command.new) result (asked session (alone (words_after (option_copied rest.entry)) bare)) }
{
    alone_as(Command::Ask(session, bare), rest, command)
}

/// The begin of a batch.
#[tactic(auto, unfolding(crate::specs::Lines::long_at))]
fn long_of(session: Session, rest: Option<&[u8]>, command: &mut Command) -> Result<(), Refusal>
    ensures { Gives (λ _. command.new) result (asked session (long_at (words_after (option_copied rest.entry)))) }
{
    let (writes, reads) = one_or_two(rest)?;
    let asked = Verb::Long {
        writes: writes_of(writes)?,
        reads: reads_of(reads)?,
    };
    *command = Command::Ask(session, asked);
    Ok(())
}

/// A read of one key.
#[tactic(auto, unfolding(crate::specs::Lines::get_at))]
fn get_of(
    alloc: Global,
    session: Session,
    rest: Option<&[u8]>,
    command: &mut Command,
) -> Result<(), Refusal>
    ensures { Gives (λ _. command.new) result (asked session (get_at (words_after (option_copied rest.entry)))) }
{
    let (table, key) = two(rest)?;
    let op = Op::Get {
        table: table_of(table)?,
        key: key_of(alloc, key)?,
    };
    *command = Command::Ask(session, Verb::Do(op));
    Ok(())
}

/// A read of the rows between two bounds.
#[tactic(auto, unfolding(crate::specs::Lines::scan_at))]
fn scan_of(
    alloc: Global,
    session: Session,
    rest: Option<&[u8]>,
    command: &mut Command,
) -> Result<(), Refusal>
    ensures { Gives (λ _. command.new) result (asked session (scan_at (words_after (option_copied rest.entry)))) }
{
    let (table, low, high) = three(rest)?;
    let op = Op::Scan {
        table: table_of(table)?,
        low: bound_of(alloc, low)?,
        high: bound_of(alloc, high)?,
    };
    *command = Command::Ask(session, Verb::Do(op));
    Ok(())
}

/// A write of one row.
#[tactic(auto, unfolding(crate::specs::Lines::put_at))]
fn put_of(
    alloc: Global,
    session: Session,
    rest: Option<&[u8]>,
    command: &mut Command,
) -> Result<(), Refusal>
    ensures { Gives (λ _. command.new) result (asked session (put_at (words_after (option_copied rest.entry)))) }
{
    let (table, key, value) = three(rest)?;
    let op = Op::Put {
        table: table_of(table)?,
        key: key_of(alloc, key)?,
        value: value_of(alloc, value)?,
    };
    *command = Command::Ask(session, Verb::Do(op));
    Ok(())
}

/// A deletion of one row.
#[tactic(auto, unfolding(crate::specs::Lines::del_at))]
fn del_of(
    alloc: Global,
    session: Session,
    rest: Option<&[u8]>,
    command: &mut Command,
) -> Result<(), Refusal>
    ensures { Gives (λ _. command.new) result (asked session (del_at (words_after (option_copied rest.entry)))) }
{
    let (table, key) = two(rest)?;
    let op = Op::Del {
        table: table_of(table)?,
        key: key_of(alloc, key)?,
    };
    *command = Command::Ask(session, Verb::Do(op));
    Ok(())
}

/// What this verb with these arguments asks.
#[tactic(auto, unfolding(crate::specs::Lines::verb_at))]
fn verb_of(
    alloc: Global,
    session: Session,
    word: &[u8],
    rest: Option<&[u8]>,
    command: &mut Command,
) -> Result<(), Refusal>
    ensures { Gives (λ _. command.new) result (asked session (verb_at word.now (words_after (option_copied rest.entry)))) }
{
    if word == b"short".as_slice() {
        return bare_of(session, Verb::Short, rest, command);
    }
    if word == b"long".as_slice() {
        return long_of(session, rest, command);
    }
    if word == b"get".as_slice() {
        return get_of(alloc, session, rest, command);
    }
    if word == b"scan".as_slice() {
        return scan_of(alloc, session, rest, command);
    }
    if word == b"put".as_slice() {
        return put_of(alloc, session, rest, command);
    }
    if word == b"del".as_slice() {
        return del_of(alloc, session, rest, command);
    }
    if word == b"commit".as_slice() {
        return bare_of(session, Verb::Commit, rest, command);
    }
    if word == b"abort".as_slice() {
        return bare_of(session, Verb::Abort, rest, command);
    }
    Err(Refusal::Cause(Bad::Verb))
}

/// What is asked behind a session's number.
pub(crate) fn asked_of(
    alloc: Global,
    session: Session,
    rest: Option<&[u8]>,
    command: &mut Command,
) -> Result<(), Refusal>
    ensures { Gives (λ _. command.new) result (asked session (asked_at (words_after (option_copied rest.entry)))) }
{
    let Some(text) = rest else {
        return Err(Refusal::Cause(Bad::Verb));
    };
    let (word, rest) = cut(text, b' ');
    verb_of(alloc, session, word, rest, command)
}
