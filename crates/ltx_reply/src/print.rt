//! Printing a reply: its words, with one space between two.

ghost use Rattle.std.specs.Prelude.{◌≡◌, ◌++◌, length, take, OnOk, OnErr};
ghost use Rattle.ltx_reply.specs.Texts.{witness_text, reply_text, IsReply};

use crate::pieces::{put_cause, put_named, put_place, put_rows, put_writer};
use ltx_model::bytes::Key;
use ltx_model::memory::NoMemory;
use ltx_model::numbers::{Table, Tx};
use ltx_model::replies::Reply;
use ltx_text::print::{or_taken_back, put_bytes, put_number, put_text};

/// Appends a target, a place and another transaction, each after a space.
#[tactic(auto, unfolding(crate::specs::Texts::witness_text))]
fn put_witness(
    target: Tx,
    op: u32,
    table: Table,
    key: &Key,
    other: Tx,
    out: &mut Vec<u8>,
) -> Result<(), NoMemory>
    ensures ok { OnOk result (out.new.items ≡ out.old.items ++ witness_text target op table key.now other) }
    ensures front { take (length out.old.items) out.new.items ≡ out.old.items }
{
    put_number(target.number(), out)?;
    put_place(op, table, key, out)?;
    put_number(other.number(), out)
}

/// Appends the reply's text, or a front of it where memory is wanting.
#[tactic(auto, unfolding(crate::specs::Texts::reply_text))]
fn put_reply(reply: &Reply, out: &mut Vec<u8>) -> Result<(), NoMemory>
    ensures ok { OnOk result (out.new.items ≡ out.old.items ++ reply_text reply.now) }
    ensures front { take (length out.old.items) out.new.items ≡ out.old.items }
{
    match reply {
        Reply::Begun { tx } => put_named(b"begun", tx.number(), out),
        Reply::BegunAt { tx, epoch } => {
            put_named(b"begun", tx.number(), out)?;
            put_named(b" at", u64::from(*epoch), out)
        }
        Reply::Found { value } => {
            put_text(b"found", out)?;
            put_bytes(value.bytes(), out)
        }
        Reply::Absent => put_text(b"none", out),
        Reply::Rows { rows } => {
            put_named(b"rows", rows.items().len() as u64, out)?;
            put_rows(rows.items(), out)
        }
        Reply::Done => put_text(b"done", out),
        Reply::Committed { epoch } => put_named(b"committed", u64::from(*epoch), out),
        Reply::CommittedBefore { epoch, target } => {
            put_named(b"committed", u64::from(*epoch), out)?;
            put_named(b" before", target.number(), out)
        }
        Reply::Aborted => put_text(b"aborted", out),
        Reply::Preserved { table, holder } => {
            put_named(b"preserved", u64::from(table.number()), out)?;
            put_number(holder.number(), out)
        }
        Reply::Changed {
            op,
            table,
            key,
            found,
            current,
        } => {
            put_text(b"changed", out)?;
            put_place(*op, *table, key, out)?;
            put_writer(*found, out)?;
            put_writer(*current, out)
        }
        Reply::Late {
            target,
            op,
            table,
            key,
            writer,
        } => {
            put_text(b"late", out)?;
            put_witness(*target, *op, *table, key, *writer, out)
        }
        Reply::Contradicts {
            target,
            op,
            table,
            key,
            reader,
        } => {
            put_text(b"contradicts", out)?;
            put_witness(*target, *op, *table, key, *reader, out)
        }
        Reply::Waiting { tx } => put_named(b"waiting", tx.number(), out),
        Reply::NotYet { epoch } => put_named(b"notyet", u64::from(*epoch), out),
        Reply::Outside { table } => put_named(b"outside", u64::from(table.number()), out),
        Reply::NotPreserved { table } => put_named(b"notpreserved", u64::from(table.number()), out),
        Reply::NoTx => put_text(b"notx", out),
        Reply::HasTx => put_text(b"hastx", out),
        Reply::LimitEpoch => put_text(b"limit epoch", out),
        Reply::LimitOps => put_text(b"limit ops", out),
        Reply::LimitTx => put_text(b"limit tx", out),
        Reply::LimitLog => put_text(b"limit log", out),
        Reply::Advanced { epoch } => put_named(b"epoch", u64::from(*epoch), out),
        Reply::Durable { epoch } => put_named(b"durable", u64::from(*epoch), out),
        Reply::Pruned => put_text(b"pruned", out),
        Reply::Bad(cause) => {
            put_text(b"bad", out)?;
            put_cause(*cause, out)
        }
        Reply::Later => put_text(b"later", out),
    }
}

/// Appends the text of the reply to `out`. Each reply has one text. Without memory `out` stays as it was.
pub fn print_reply(reply: &Reply, out: &mut Vec<u8>) -> Result<(), NoMemory>
    requires kept { IsReply reply.now }
    ensures ok { OnOk result (out.new.items ≡ out.old.items ++ reply_text reply.now) }
    ensures err { OnErr result (out.new.items ≡ out.old.items) }
{
    let start = out.len();
    let done = put_reply(reply, out);
    or_taken_back(done, start, out)
}
