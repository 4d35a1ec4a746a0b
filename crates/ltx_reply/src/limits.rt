//! What the types of a reply's parts say of them, as clauses: each reply is within the limits of its parts. So what is
//! said of texts of replies within their limits is said of every reply.

ghost use Rattle.std.specs.Prelude.{◌<◌, ◌^◌, length, Option};
ghost use Rattle.std.specs.List.{AllByRecursion};
ghost use Rattle.ltx_reply.specs.Texts.{IsWriter, IsRow, IsWithinLimits};
ghost use Rattle.ltx_model.specs.Limits.{IsTx, IsCount, IsTable, IsKey, IsValue};

use ltx_model::bytes::{Key, Value};
use ltx_model::numbers::{Table, Tx};
use ltx_model::replies::Reply;
use ltx_model::rows::Row;
use ltx_text::words::are_bytes;

/// A transaction is numbered from 1 on, in 63 bits.
fn tx(tx: Tx)
    ensures { IsTx tx }
{
    let _ = tx.number();
}

/// A writer is a transaction, if there is one.
fn writer(writer: Option<Tx>)
    ensures { IsWriter writer }
{
    if let Some(n) = writer {
        tx(n);
    }
}

/// An epoch or an operation is numbered in 32 bits.
fn count(n: u32)
    ensures { IsCount n }
{}

/// There are 64 tables.
fn table(table: Table)
    ensures { IsTable table }
{
    let _ = table.number();
}

/// A key is 1 to 64 bytes.
fn key(key: &Key)
    ensures { IsKey key.now }
{
    are_bytes(key.bytes());
}

/// An operation, a table and a key.
fn place(op: u32, t: Table, k: &Key)
    ensures op { IsCount op }
    ensures table { IsTable t }
    ensures key { IsKey k.now }
{
    count(op);
    table(t);
    key(k);
}

/// A value is 0 to 1,024 bytes.
fn value(value: &Value)
    ensures { IsValue value.now }
{
    are_bytes(value.bytes());
}

/// A row is a key and a value.
fn row(row: &Row)
    ensures { IsRow row.now }
{
    key(&row.key);
    value(&row.value);
}

/// Rows are so many that their number fits 64 bits.
fn rows(rows: &[Row])
    ensures fit { length rows.now < 2 ^ 64 }
    ensures all { AllByRecursion IsRow rows.now }
{
    let _ = rows.len();
    let mut rest = rows;
    loop {
        let Some((first, behind)) = rest.split_first() else {
            return;
        };
        row(first);
        rest = behind;
    }
}

/// That the reply is within the limits of its parts.
pub(crate) fn is_within_limits(reply: &Reply)
    ensures { IsWithinLimits reply.now }
{
    match reply {
        Reply::Begun { tx: n } | Reply::Waiting { tx: n } => tx(*n),
        Reply::BegunAt { tx: n, epoch } => {
            tx(*n);
            count(*epoch);
        }
        Reply::Found { value: v } => value(v),
        Reply::Rows { rows: list } => rows(list.items()),
        Reply::Committed { epoch }
        | Reply::NotYet { epoch }
        | Reply::Advanced { epoch }
        | Reply::Durable { epoch } => count(*epoch),
        Reply::CommittedBefore { epoch, target } => {
            count(*epoch);
            tx(*target);
        }
        Reply::Preserved { table: t, holder } => {
            table(*t);
            tx(*holder);
        }
        Reply::Changed {
            op,
            table: t,
            key: k,
            found,
            current,
        } => {
            place(*op, *t, k);
            writer(*found);
            writer(*current);
        }
        Reply::Late {
            target,
            op,
            table: t,
            key: k,
            writer: other,
        }
        | Reply::Contradicts {
            target,
            op,
            table: t,
            key: k,
            reader: other,
        } => {
            tx(*target);
            place(*op, *t, k);
            tx(*other);
        }
        Reply::Outside { table: t } | Reply::NotPreserved { table: t } => table(*t),
        _ => {}
    }
}
