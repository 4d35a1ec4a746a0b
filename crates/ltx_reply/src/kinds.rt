//! Replies with parts, each kind from the words behind its first one.

ghost use Rattle.std.specs.Prelude.{Option, Some, option_copied};
ghost use Rattle.ltx_reply.specs.Readings.{begun_at, committed_at, rows_in, rows_at, preserved_at, changed_at, late_at, contradicts_at};
ghost use Rattle.ltx_text.specs.Cuts.{words_after};
ghost use Rattle.ltx_reply.specs.Readers.{Gives};

use crate::cuts::{five, next_word};
use crate::parts::{count_of, key_of, table_of, tx_of, value_of, writer_of};
use crate::unread::Unread;
use ltx_model::replies::Reply;
use ltx_model::rows::{Row, RowList};
use ltx_text::cuts::cut;
use std::alloc::Global;

/// A begin: its transaction, and its epoch where it is told.
#[tactic(auto, unfolding(crate::specs::Readings::begun_at))]
pub(crate) fn begun_of(rest: Option<&[u8]>) -> Result<Reply, Unread>
    ensures { Gives (λ reply. reply) result (begun_at (words_after (option_copied rest.entry))) }
{
    let (word, rest) = next_word(rest)?;
    let tx = tx_of(word)?;
    let Some(text) = rest else {
        return Ok(Reply::Begun { tx });
    };
    let (_, rest) = cut(text, b' ');
    let (word, _) = next_word(rest)?;
    let epoch = count_of(word)?;
    Ok(Reply::BegunAt { tx, epoch })
}

/// A commit: its epoch, and the transaction before which it stands where it is told.
#[tactic(auto, unfolding(crate::specs::Readings::committed_at))]
pub(crate) fn committed_of(rest: Option<&[u8]>) -> Result<Reply, Unread>
    ensures { Gives (λ reply. reply) result (committed_at (words_after (option_copied rest.entry))) }
{
    let (word, rest) = next_word(rest)?;
    let epoch = count_of(word)?;
    let Some(text) = rest else {
        return Ok(Reply::Committed { epoch });
    };
    let (_, rest) = cut(text, b' ');
    let (word, _) = next_word(rest)?;
    let target = tx_of(word)?;
    Ok(Reply::CommittedBefore { epoch, target })
}

/// Rows, from their keys and values by turns.
fn rows_in(alloc: Global, rest: Option<&[u8]>) -> Result<Vec<Row>, Unread>
    ensures { Gives (λ rows. rows.items) result (rows_in (words_after (option_copied rest.entry))) }
{
    let mut rows = Vec::new(alloc);
    let Some(first) = rest else {
        return Ok(rows);
    };
    let mut text = first;
    loop {
        let (key, after) = cut(text, b' ');
        let Some(behind) = after else {
            return Err(Unread::NoReply);
        };
        let (value, after) = cut(behind, b' ');
        let key = key_of(alloc, key)?;
        let value = value_of(alloc, value)?;
        rows.push(Row { key, value }).map_err(|_| Unread::Memory)?;
        let Some(behind) = after else {
            return Ok(rows);
        };
        text = behind;
    }
}

/// The rows of a scan.
#[tactic(auto, unfolding(crate::specs::Readings::rows_at))]
pub(crate) fn rows_of(alloc: Global, rest: Option<&[u8]>) -> Result<Reply, Unread>
    ensures { Gives (λ reply. reply) result (rows_at (words_after (option_copied rest.entry))) }
{
    let (_, rest) = next_word(rest)?;
    let rows = rows_in(alloc, rest)?;
    Ok(Reply::Rows {
        rows: RowList::from_vec(rows),
    })
}

/// A preserved table and its holder.
#[tactic(auto, unfolding(crate::specs::Readings::preserved_at))]
pub(crate) fn preserved_of(rest: Option<&[u8]>) -> Result<Reply, Unread>
    ensures { Gives (λ reply. reply) result (preserved_at (words_after (option_copied rest.entry))) }
{
    let (first, rest) = next_word(rest)?;
    let (second, _) = next_word(rest)?;
    let table = table_of(first)?;
    let holder = tx_of(second)?;
    Ok(Reply::Preserved { table, holder })
}

/// A changed row: its place, the writer that was found and the current one.
#[tactic(auto, unfolding(crate::specs::Readings::changed_at))]
pub(crate) fn changed_of(alloc: Global, rest: Option<&[u8]>) -> Result<Reply, Unread>
    ensures { Gives (λ reply. reply) result (changed_at (words_after (option_copied rest.entry))) }
{
    let (op, table, key, found, current) = five(rest)?;
    Ok(Reply::Changed {
        op: count_of(op)?,
        table: table_of(table)?,
        key: key_of(alloc, key)?,
        found: writer_of(found)?,
        current: writer_of(current)?,
    })
}

/// A late write: the target, the place and the writer.
#[tactic(auto, unfolding(crate::specs::Readings::late_at))]
pub(crate) fn late_of(alloc: Global, rest: Option<&[u8]>) -> Result<Reply, Unread>
    ensures { Gives (λ reply. reply) result (late_at (words_after (option_copied rest.entry))) }
{
    let (target, op, table, key, writer) = five(rest)?;
    Ok(Reply::Late {
        target: tx_of(target)?,
        op: count_of(op)?,
        table: table_of(table)?,
        key: key_of(alloc, key)?,
        writer: tx_of(writer)?,
    })
}

/// A contradicted reader: the target, the place and the reader.
#[tactic(auto, unfolding(crate::specs::Readings::contradicts_at))]
pub(crate) fn contradicts_of(alloc: Global, rest: Option<&[u8]>) -> Result<Reply, Unread>
    ensures { Gives (λ reply. reply) result (contradicts_at (words_after (option_copied rest.entry))) }
{
    let (target, op, table, key, reader) = five(rest)?;
    Ok(Reply::Contradicts {
        target: tx_of(target)?,
        op: count_of(op)?,
        table: table_of(table)?,
        key: key_of(alloc, key)?,
        reader: tx_of(reader)?,
    })
}
