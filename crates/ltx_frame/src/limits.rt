//! What the types of an event's parts say of them, as clauses: each is within its limits.

ghost use Rattle.std.specs.Prelude.{◌<◌, length};
ghost use Rattle.ltx_model.specs.Limits.{IsTx, IsKey, IsValue, AreBytes};
ghost use Rattle.ltx_model.specs.Spellings.{IsWithin, IsTarget};
ghost use Rattle.ltx_frame.specs.Events.{target_of};

use ltx_model::bytes::{Key, Value};
use ltx_model::numbers::Tx;
use ltx_model::writes::{Target, Write};

/// A byte is below 256.
fn bytes(bytes: &[u8])
    ensures { AreBytes bytes.now }
{}

/// A transaction is numbered from 1 on, in 63 bits.
pub fn tx(tx: Tx)
    ensures { IsTx tx }
{
    let _ = tx.number();
}

/// A target is a transaction, if there is one.
pub fn target(target: Target)
    ensures { IsTarget (target_of target) }
{
    if let Target::Before(n) = target {
        tx(n);
    }
}

/// A key is 1 to 64 bytes.
fn key(key: &Key)
    ensures { IsKey key.now }
{
    bytes(key.bytes());
}

/// A value is 0 to 1,024 bytes.
fn value(value: &Value)
    ensures { IsValue value.now }
{
    bytes(value.bytes());
}

/// A write has a table, a key and maybe a value.
pub fn write(write: &Write)
    ensures { IsWithin write.now }
{
    let _ = write.table.number();
    key(&write.key);
    if let Some(v) = &write.put {
        value(v);
    }
}
