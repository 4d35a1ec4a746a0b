//! The last two lines of a run: the serial order, and the durable epoch.

ghost use Rattle.std.specs.Prelude.{◌≡◌, ◌++◌, flat_map, length, take, OnOk, OnErr};
ghost use Rattle.ltx_top.specs.Transcripts.{spaced_number, ending};

use ltx_model::memory::NoMemory;
use ltx_model::numbers::Tx;
use ltx_text::decimals::put_decimal;

/// Appends a space and a number.
pub(crate) fn put_number(n: u64, out: &mut Vec<u8>) -> Result<(), NoMemory>
    ensures ok { OnOk result (out.new.items ≡ out.old.items ++ spaced_number n) }
    ensures front { take (length out.old.items) out.new.items ≡ out.old.items }
{
    out.push(b' ')?;
    put_decimal(n, out)
}

/// Appends the numbers of transactions, each after a space.
fn put_order(order: &[Tx], out: &mut Vec<u8>) -> Result<(), NoMemory>
    ensures ok { OnOk result (out.new.items ≡ out.old.items ++ flat_map spaced_number order.now) }
    ensures front { take (length out.old.items) out.new.items ≡ out.old.items }
{
    for tx in order {
        put_number(tx.number(), out)?;
    }
    Ok(())
}

/// Appends the parts of the ending, or a front of them where memory is wanting.
#[tactic(auto, unfolding(crate::specs::Transcripts::ending))]
fn put_parts(order: &[Tx], durable: u32, out: &mut Vec<u8>) -> Result<(), NoMemory>
    ensures ok { OnOk result (out.new.items ≡ out.old.items ++ ending order.now durable) }
    ensures front { take (length out.old.items) out.new.items ≡ out.old.items }
{
    out.extend_from_slice(b"order")?;
    put_order(order, out)?;
    out.extend_from_slice(b"\ndurable")?;
    put_number(u64::from(durable), out)?;
    Ok(out.push(b'\n')?)
}

/// Appends the ending of a run. Without memory `out` stays as it was.
pub(crate) fn put_ending(order: &[Tx], durable: u32, out: &mut Vec<u8>) -> Result<(), NoMemory>
    ensures ok { OnOk result (out.new.items ≡ out.old.items ++ ending order.now durable) }
    ensures err { OnErr result (out.new.items ≡ out.old.items) }
{
    let start = out.len();
    let done = put_parts(order, durable, out);
    if done.is_err() {
        out.truncate(start);
    }
    done
}
