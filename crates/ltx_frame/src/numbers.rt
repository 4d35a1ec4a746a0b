//! Numbers of a body, with the highest byte first.

ghost use Rattle.std.specs.Prelude.{◌≡◌};
ghost use Rattle.std.specs.Int.{w16, w32, w64};
ghost use Rattle.ltx_frame.specs.Readings.{byte_at, number_at};
ghost use Rattle.ltx_frame.specs.Readers.{Gives};

use crate::unread::Unread;

/// A number of one byte, and the bytes behind it.
pub(crate) fn u8_of(bytes: &[u8]) -> Result<(u8, &[u8]), Unread>
    ensures { Gives (λ x. (x.0, x.1.now)) result (byte_at bytes.now) }
{
    match bytes {
        [] => Err(Unread::NoFrame),
        [n, rest @ ..] => Ok((*n, rest)),
    }
}

/// A number of two bytes, and the bytes behind it.
pub(crate) fn u16_of(bytes: &[u8]) -> Result<(u16, &[u8]), Unread>
    ensures { Gives (λ x. (x.0, x.1.now)) result (number_at w16 bytes.now) }
{
    match bytes.split_first_chunk::<2>() {
        None => Err(Unread::NoFrame),
        Some((front, rest)) => Ok((u16::from_be_bytes(*front), rest)),
    }
}

/// A number of four bytes, and the bytes behind it.
pub(crate) fn u32_of(bytes: &[u8]) -> Result<(u32, &[u8]), Unread>
    ensures { Gives (λ x. (x.0, x.1.now)) result (number_at w32 bytes.now) }
{
    match bytes.split_first_chunk::<4>() {
        None => Err(Unread::NoFrame),
        Some((front, rest)) => Ok((u32::from_be_bytes(*front), rest)),
    }
}

/// A number of eight bytes, and the bytes behind it.
pub(crate) fn u64_of(bytes: &[u8]) -> Result<(u64, &[u8]), Unread>
    ensures { Gives (λ x. (x.0, x.1.now)) result (number_at w64 bytes.now) }
{
    match bytes.split_first_chunk::<8>() {
        None => Err(Unread::NoFrame),
        Some((front, rest)) => Ok((u64::from_be_bytes(*front), rest)),
    }
}
