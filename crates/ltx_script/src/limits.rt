//! What the types of a command's parts say of them, as clauses: each command is within its limits. So what is said of
//! spellings of commands within their limits is said of every command.

ghost use Rattle.std.specs.Prelude.{◌<◌, ◌^◌};
ghost use Rattle.ltx_script.specs.Commands.{IsCommand, IsOperation, IsVerb};
ghost use Rattle.ltx_model.specs.Limits.{IsBound, IsKey, IsTable, IsValue};

use ltx_model::bytes::{Bound, Key, Value};
use ltx_model::commands::{Command, Op, Verb};
use ltx_model::numbers::Table;
use ltx_model::tables::TableSet;
use ltx_text::words::are_bytes;

/// A table has one of the numbers of tables.
fn table(table: Table)
    ensures { IsTable table }
{
    let _ = table.number();
}

/// A set of tables has one bit for each.
fn set(set: TableSet)
    ensures { set < 2 ^ 64 }
{
    if let Some(first) = Table::new(0) {
        let _ = set.has(first);
    }
}

/// A key is within its limits.
fn key(key: &Key)
    ensures { IsKey key.now }
{
    are_bytes(key.bytes());
}

/// An end of a scan is within its limit.
fn bound(bound: &Bound)
    ensures { IsBound bound.now }
{
    are_bytes(bound.bytes());
}

/// A value is within its limit.
fn value(value: &Value)
    ensures { IsValue value.now }
{
    are_bytes(value.bytes());
}

/// An operation is on one of the tables, its parts within their limits.
fn operation(op: &Op)
    ensures { IsOperation op.now }
{
    match op {
        Op::Get { table: t, key: k } | Op::Del { table: t, key: k } => {
            table(*t);
            key(k);
        }
        Op::Scan {
            table: t,
            low,
            high,
        } => {
            table(*t);
            bound(low);
            bound(high);
        }
        Op::Put {
            table: t,
            key: k,
            value: v,
        } => {
            table(*t);
            key(k);
            value(v);
        }
    }
}

/// The parts of what a session asks are within their limits.
fn verb(verb: &Verb)
    ensures { IsVerb verb.now }
{
    match verb {
        Verb::Long { writes, reads } => {
            set(*writes);
            set(*reads);
        }
        Verb::Do(op) => operation(op),
        _ => {}
    }
}

/// That the parts of the command are within their limits.
pub(crate) fn is_within_limits(command: &Command)
    ensures { IsCommand command.now }
{
    if let Command::Ask(session, asked) = command {
        let _ = session.number();
        verb(asked);
    }
}
