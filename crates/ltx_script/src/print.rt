//! Printing a command: its words, with one space between two.

ghost use Rattle.std.specs.Prelude.{◌≡◌, ◌++◌, length, take, OnOk, OnErr, ◌∷◌, codes};
ghost use Rattle.ltx_model.specs.declared.commands.Line.TheVariants.{Good};
ghost use Rattle.ltx_script.specs.Lines.{line_of};
ghost use Rattle.ltx_script.specs.Commands.{joined, set_text, reads_words, operation_words, verb_words, command_text};

use crate::limits::is_within_limits;
use crate::sets::put_set;
use ltx_model::commands::{Command, Op, Verb};
use ltx_model::memory::NoMemory;
use ltx_model::tables::TableSet;
use ltx_text::decimals::put_decimal;
use ltx_text::print::{or_taken_back, put_bytes, put_number, put_text};

/// Appends the words of an operation.
fn put_operation(op: &Op, out: &mut Vec<u8>) -> Result<(), NoMemory>
    ensures ok { OnOk result (out.new.items ≡ out.old.items ++ joined (operation_words op.now)) }
    ensures front { take (length out.old.items) out.new.items ≡ out.old.items }
{
    match op {
        Op::Get { table, key } => {
            put_text(b"get", out)?;
            put_number(u64::from(table.number()), out)?;
            put_bytes(key.bytes(), out)
        }
        Op::Scan { table, low, high } => {
            put_text(b"scan", out)?;
            put_number(u64::from(table.number()), out)?;
            put_bytes(low.bytes(), out)?;
            put_bytes(high.bytes(), out)
        }
        Op::Put { table, key, value } => {
            put_text(b"put", out)?;
            put_number(u64::from(table.number()), out)?;
            put_bytes(key.bytes(), out)?;
            put_bytes(value.bytes(), out)
        }
        Op::Del { table, key } => {
            put_text(b"del", out)?;
            put_number(u64::from(table.number()), out)?;
            put_bytes(key.bytes(), out)
        }
    }
}

/// Appends the words of a batch's begin. Its read area stands where it is not all tables.
fn put_long(writes: TableSet, reads: TableSet, out: &mut Vec<u8>) -> Result<(), NoMemory>
    ensures ok { OnOk result (out.new.items ≡ out.old.items ++ joined (codes "long" ∷ (codes "W=" ++ set_text writes) ∷ reads_words reads)) }
    ensures front { take (length out.old.items) out.new.items ≡ out.old.items }
{
    put_text(b"long W=", out)?;
    put_set(writes, out)?;
    if reads == TableSet::all() {
        return Ok(());
    }
    put_text(b" R=", out)?;
    put_set(reads, out)
}

/// Appends the words of what a session asks.
fn put_verb(verb: &Verb, out: &mut Vec<u8>) -> Result<(), NoMemory>
    ensures ok { OnOk result (out.new.items ≡ out.old.items ++ joined (verb_words verb.now)) }
    ensures front { take (length out.old.items) out.new.items ≡ out.old.items }
{
    match verb {
        Verb::Short => put_text(b"short", out),
        Verb::Long { writes, reads } => put_long(*writes, *reads, out),
        Verb::Do(op) => put_operation(op, out),
        Verb::Commit => put_text(b"commit", out),
        Verb::Abort => put_text(b"abort", out),
    }
}

/// Appends the command's spelling, or a front of it where memory is wanting.
#[tactic(auto, using(crate::proofs::Spellings::asked), unfolding(crate::specs::Commands::command_text))]
fn put_command(command: &Command, out: &mut Vec<u8>) -> Result<(), NoMemory>
    ensures ok { OnOk result (out.new.items ≡ out.old.items ++ command_text command.now) }
    ensures front { take (length out.old.items) out.new.items ≡ out.old.items }
{
    match command {
        Command::Epoch => put_text(b"epoch", out),
        Command::Flush => put_text(b"flush", out),
        Command::Prune => put_text(b"prune", out),
        Command::Ask(session, verb) => {
            put_decimal(u64::from(session.number()), out)?;
            put_text(b" ", out)?;
            put_verb(verb, out)
        }
    }
}

/// Appends the command's spelling to `out`. Each command has one spelling. Without memory `out` stays as it was.
#[tactic(auto, using(crate::proofs::Answered::read_back))]
pub fn print_command(command: &Command, out: &mut Vec<u8>) -> Result<(), NoMemory>
    ensures ok { OnOk result (out.new.items ≡ out.old.items ++ command_text command.now) }
    ensures err { OnErr result (out.new.items ≡ out.old.items) }
    // What is printed is read as this command.
    ensures again { line_of (command_text command.now) ≡ Good command.now }
{
    let start = out.len();
    is_within_limits(command);
    let done = put_command(command, out);
    or_taken_back(done, start, out)
}
