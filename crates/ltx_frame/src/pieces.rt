//! The pieces of a body. Each is appended; where memory is wanting, the bytes keep what they held and may have a front of
//! the piece behind it.

ghost use Rattle.std.specs.Prelude.{◌≡◌, ◌++◌, ◌∷◌, ◌<◌, ◌^◌, length, take, flat_map, OnOk};
ghost use Rattle.std.specs.Int.{to_be_bytes, w64};
ghost use Rattle.ltx_model.specs.Spellings.{write_kind, value_bytes, write_bytes, writes_bytes, target_bytes, event_bytes, IsEvent};
ghost use Rattle.ltx_frame.specs.Events.{target_of, event_of};

use crate::event::Event;
use ltx_model::bytes::Value;
use ltx_model::memory::NoMemory;
use ltx_model::numbers::Tx;
use ltx_model::writes::{Target, Write};

/// Appends bytes.
pub(crate) fn put_bytes(bytes: &[u8], out: &mut Vec<u8>) -> Result<(), NoMemory>
    ensures ok { OnOk result (out.new.items ≡ out.old.items ++ bytes.now) }
    ensures front { take (length out.old.items) out.new.items ≡ out.old.items }
{
    out.extend_from_slice(bytes)?;
    Ok(())
}

/// The first byte of a write: 0 for a put and 1 for a deletion.
fn kind_of(put: &Option<Value>) -> u8
    ensures { result ≡ write_kind put.now }
{
    match put {
        Some(_) => 0,
        None => 1,
    }
}

/// Appends a value behind its length, and nothing for a deletion.
fn put_value(put: &Option<Value>, out: &mut Vec<u8>) -> Result<(), NoMemory>
    ensures ok { OnOk result (out.new.items ≡ out.old.items ++ value_bytes put.now) }
    ensures front { take (length out.old.items) out.new.items ≡ out.old.items }
{
    let Some(value) = put else {
        return Ok(());
    };
    put_bytes(&(value.bytes().len() as u16).to_be_bytes(), out)?;
    put_bytes(value.bytes(), out)
}

/// Appends a write.
fn put_write(write: &Write, out: &mut Vec<u8>) -> Result<(), NoMemory>
    ensures ok { OnOk result (out.new.items ≡ out.old.items ++ write_bytes write.now) }
    ensures front { take (length out.old.items) out.new.items ≡ out.old.items }
{
    let key = write.key.bytes();
    put_bytes(
        &[kind_of(&write.put), write.table.number(), key.len() as u8],
        out,
    )?;
    put_bytes(key, out)?;
    put_value(&write.put, out)
}

/// Appends writes, one after another.
fn put_each(writes: &[Write], out: &mut Vec<u8>) -> Result<(), NoMemory>
    ensures ok { OnOk result (out.new.items ≡ out.old.items ++ flat_map write_bytes writes.now) }
    ensures front { take (length out.old.items) out.new.items ≡ out.old.items }
{
    for write in writes {
        put_write(write, out)?;
    }
    Ok(())
}

/// Appends writes behind their count.
fn put_writes(writes: &[Write], out: &mut Vec<u8>) -> Result<(), NoMemory>
    requires { length writes.now < 2 ^ 32 }
    ensures ok { OnOk result (out.new.items ≡ out.old.items ++ writes_bytes writes.now) }
    ensures front { take (length out.old.items) out.new.items ≡ out.old.items }
{
    put_bytes(&(writes.len() as u32).to_be_bytes(), out)?;
    put_each(writes, out)
}

/// Appends where a batch was put.
fn put_target(target: Target, out: &mut Vec<u8>) -> Result<(), NoMemory>
    ensures ok { OnOk result (out.new.items ≡ out.old.items ++ target_bytes (target_of target)) }
    ensures front { take (length out.old.items) out.new.items ≡ out.old.items }
{
    match target {
        Target::Home => put_bytes(&[0], out),
        Target::Before(tx) => put_numbered(1, tx, out),
    }
}

/// Appends a byte and a transaction's number.
fn put_numbered(kind: u8, tx: Tx, out: &mut Vec<u8>) -> Result<(), NoMemory>
    ensures ok { OnOk result (out.new.items ≡ out.old.items ++ kind ∷ to_be_bytes w64 tx) }
    ensures front { take (length out.old.items) out.new.items ≡ out.old.items }
{
    put_bytes(&[kind], out)?;
    put_bytes(&tx.number().to_be_bytes(), out)
}

/// Appends an event.
pub(crate) fn put_event(event: &Event, out: &mut Vec<u8>) -> Result<(), NoMemory>
    requires { IsEvent (event_of event.now) }
    ensures ok { OnOk result (out.new.items ≡ out.old.items ++ event_bytes (event_of event.now)) }
    ensures front { take (length out.old.items) out.new.items ≡ out.old.items }
{
    match event {
        Event::Slot { tx } => put_numbered(1, *tx, out),
        Event::Short { tx, epoch, writes } => {
            put_numbered(2, *tx, out)?;
            put_bytes(&epoch.to_be_bytes(), out)?;
            put_writes(writes.items(), out)
        }
        Event::Batch {
            tx,
            epoch,
            target,
            writes,
        } => {
            put_numbered(3, *tx, out)?;
            put_bytes(&epoch.to_be_bytes(), out)?;
            put_target(*target, out)?;
            put_writes(writes.items(), out)
        }
    }
}
