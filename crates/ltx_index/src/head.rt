//! The head of a key: its first eight bytes as a number. Keys stand in the order of their heads
//! where these differ, so most searches compare numbers that lie side by side.

ghost use Rattle.std.specs.Prelude.{◌≡◌, get_or};
ghost use Rattle.ltx_index.specs.Heads.{head_of, AreLow};

/// The head of these bytes, with zeros behind them where there are fewer than eight.
pub(crate) fn head(bytes: &[u8]) -> u64
    ensures value { result ≡ head_of bytes.now }
    ensures low { AreLow bytes.now }
{
    match bytes.first_chunk::<8>() {
        Some(first) => u64::from_be_bytes(*first),
        None => short_head(bytes),
    }
}

/// The head of bytes that may be few.
#[inline(never)]
fn short_head(bytes: &[u8]) -> u64
    ensures { result ≡ head_of bytes.now }
{
    u64::from_be_bytes([
        byte(bytes, 0),
        byte(bytes, 1),
        byte(bytes, 2),
        byte(bytes, 3),
        byte(bytes, 4),
        byte(bytes, 5),
        byte(bytes, 6),
        byte(bytes, 7),
    ])
}

/// The byte at a place, and zero past the last one.
fn byte(bytes: &[u8], at: usize) -> u8
    ensures { result ≡ get_or bytes.now at 0 }
{
    match bytes.get(at) {
        Some(byte) => *byte,
        None => 0,
    }
}
