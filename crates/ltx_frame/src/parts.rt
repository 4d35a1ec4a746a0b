//! The parts of an event, each read from the front of the bytes.

ghost use Rattle.std.specs.Prelude.{◌≡◌, List};
ghost use Rattle.ltx_frame.specs.Events.{target_of};
ghost use Rattle.ltx_frame.specs.Readings.{part_at, as_tx, as_table, key_at, value_at, put_at, del_at, write_at, items_at, writes_at, target_at};
ghost use Rattle.ltx_frame.specs.Readers.{Gives};

use crate::numbers::{u8_of, u16_of, u32_of, u64_of};
use crate::unread::Unread;
use ltx_model::bytes::{Key, Value};
use ltx_model::numbers::{Table, Tx};
use ltx_model::writes::{Target, Write, WriteList};
use std::alloc::Global;

/// So many bytes, and those behind them.
fn part_of(len: usize, bytes: &[u8]) -> Result<(&[u8], &[u8]), Unread>
    ensures { Gives (λ x. (x.0.now, x.1.now)) result (part_at len bytes.now) }
{
    if bytes.len() < len {
        return Err(Unread::NoFrame);
    }
    Ok(bytes.split_at(len))
}

/// The transaction with this number.
pub(crate) fn tx_of(n: u64) -> Result<Tx, Unread>
    ensures { Gives (λ tx. tx) result (as_tx n) }
{
    Tx::new(n).ok_or(Unread::NoFrame)
}

/// The table with this number.
fn table_of(n: u8) -> Result<Table, Unread>
    ensures { Gives (λ table. table) result (as_table n) }
{
    Table::new(n).ok_or(Unread::NoFrame)
}

/// A key behind its length.
#[tactic(auto, unfolding(crate::specs::Readings::key_at))]
fn key_of(alloc: Global, bytes: &[u8]) -> Result<(Key, &[u8]), Unread>
    ensures { Gives (λ x. (x.0, x.1.now)) result (key_at bytes.now) }
{
    let (len, rest) = u8_of(bytes)?;
    let (key, rest) = part_of(usize::from(len), rest)?;
    match Key::from_slice(alloc, key)? {
        None => Err(Unread::NoFrame),
        Some(key) => Ok((key, rest)),
    }
}

/// A value behind its length.
#[tactic(auto, unfolding(crate::specs::Readings::value_at))]
fn value_of(alloc: Global, bytes: &[u8]) -> Result<(Value, &[u8]), Unread>
    ensures { Gives (λ x. (x.0, x.1.now)) result (value_at bytes.now) }
{
    let (len, rest) = u16_of(bytes)?;
    let (value, rest) = part_of(usize::from(len), rest)?;
    match Value::from_slice(alloc, value)? {
        None => Err(Unread::NoFrame),
        Some(value) => Ok((value, rest)),
    }
}

/// A put behind its first byte.
#[tactic(auto, unfolding(crate::specs::Readings::put_at))]
fn put_of(alloc: Global, bytes: &[u8]) -> Result<(Write, &[u8]), Unread>
    ensures { Gives (λ x. (x.0, x.1.now)) result (put_at bytes.now) }
{
    let (n, rest) = u8_of(bytes)?;
    let table = table_of(n)?;
    let (key, rest) = key_of(alloc, rest)?;
    let (value, rest) = value_of(alloc, rest)?;
    let put = Some(value);
    Ok((Write { table, key, put }, rest))
}

/// A deletion behind its first byte.
#[tactic(auto, unfolding(crate::specs::Readings::del_at))]
fn del_of(alloc: Global, bytes: &[u8]) -> Result<(Write, &[u8]), Unread>
    ensures { Gives (λ x. (x.0, x.1.now)) result (del_at bytes.now) }
{
    let (n, rest) = u8_of(bytes)?;
    let table = table_of(n)?;
    let (key, rest) = key_of(alloc, rest)?;
    let put = None;
    Ok((Write { table, key, put }, rest))
}

/// A write.
#[tactic(auto, unfolding(crate::specs::Readings::write_at))]
fn write_of(alloc: Global, bytes: &[u8]) -> Result<(Write, &[u8]), Unread>
    ensures { Gives (λ x. (x.0, x.1.now)) result (write_at bytes.now) }
{
    match bytes {
        [0, rest @ ..] => put_of(alloc, rest),
        [1, rest @ ..] => del_of(alloc, rest),
        _ => Err(Unread::NoFrame),
    }
}

/// So many writes.
fn writes_in(alloc: Global, count: u32, bytes: &[u8]) -> Result<(Vec<Write>, &[u8]), Unread>
    ensures { Gives (λ x. (x.0.items, x.1.now)) result (items_at write_at count bytes.now) }
{
    let mut writes = Vec::new(alloc);
    let mut rest = bytes;
    for _ in 0..count {
        let (write, behind) = write_of(alloc, rest)?;
        writes.push(write)?;
        rest = behind;
    }
    Ok((writes, rest))
}

/// Writes behind their count.
#[tactic(auto, unfolding(crate::specs::Readings::writes_at))]
pub(crate) fn writes_of(alloc: Global, bytes: &[u8]) -> Result<(WriteList, &[u8]), Unread>
    ensures { Gives (λ x. (x.0, x.1.now)) result (writes_at bytes.now) }
{
    let (count, rest) = u32_of(bytes)?;
    let (writes, rest) = writes_in(alloc, count, rest)?;
    Ok((WriteList::from_vec(writes), rest))
}

/// Where a batch was put.
#[tactic(auto, unfolding(crate::specs::Readings::target_at))]
pub(crate) fn target_of(bytes: &[u8]) -> Result<(Target, &[u8]), Unread>
    ensures { Gives (λ x. (target_of x.0, x.1.now)) result (target_at bytes.now) }
{
    match bytes {
        [0, rest @ ..] => Ok((Target::Home, rest)),
        [1, rest @ ..] => {
            let (n, rest) = u64_of(rest)?;
            let tx = tx_of(n)?;
            Ok((Target::Before(tx), rest))
        }
        _ => Err(Unread::NoFrame),
    }
}
