//! A gate, and the length of the body behind it.

ghost use Rattle.std.specs.Prelude.{◌≡◌, ◌≤◌, ◌<◌, ◌+◌, ◌^◌, length, IfOk, IfSome, OnOk, OnErr};
ghost use Rattle.std.specs.Int.{to_be_bytes, w64};
ghost use Rattle.ltx_outside.specs.Faults.{Rose};
ghost use Rattle.ltx_log.specs.Readings.{IsHead};

use byteorder::{BigEndian, ByteOrder};
use ltx_outside::{Disk, Failed};

/// Whether a gate is open, and the length of the body behind it where eight bytes stand there.
#[derive(Clone, Copy, Debug, PartialEq, Eq)]
pub(crate) struct Head {
    pub is_open: bool,
    pub length: Option<u64>,
}

/// The number that eight bytes spell.
fn number(bytes: &[u8]) -> u64
    requires long { length bytes.now ≡ 8 }
    ensures spelled { to_be_bytes w64 result ≡ bytes.now }
{
    BigEndian::read_u64(bytes)
}

/// The gate at a place of a disk, which lies within its size.
pub(crate) fn head_at<D: Disk>(disk: &mut D, size: u64, gate: u64) -> Result<Head, Failed>
    requires size { IfSome (D.content disk.old) (λ bytes. length bytes ≡ size) }
    requires within { gate < size }
    requires limit { gate + 9 < 2 ^ 64 }
    ensures head { IfOk result (λ head. IfSome (D.content disk.old) (λ bytes. IsHead bytes gate head)) }
    ensures kept { D.content disk.new ≡ D.content disk.old }
    ensures images { D.crashes disk.new ≡ D.crashes disk.old }
    ensures counted { D.faults disk.old ≤ D.faults disk.new }
    ensures calm { OnOk result (D.faults disk.new ≡ D.faults disk.old) }
    ensures cause { OnErr result (Rose (D.faults disk.old) (D.faults disk.new)) }
{
    if size < gate + 9 {
        let mut byte = [0; 1];
        disk.read_at(gate, &mut byte)?;
        return Ok(Head {
            is_open: byte[0] == 1,
            length: None,
        });
    }
    let mut bytes = [0; 9];
    disk.read_at(gate, &mut bytes)?;
    Ok(Head {
        is_open: bytes[0] == 1,
        length: Some(number(&bytes[1..])),
    })
}
