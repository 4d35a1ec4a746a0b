//! Pieces of a text that is printed: fixed text, and numbers and byte strings after a space. Each is appended; where
//! memory is wanting, the text keeps what it held and may have a front of the piece behind it.
//! Who prints a whole of such pieces takes that front back by `or_taken_back`.
ghost use Rattle.std.specs.Prelude.{◌≡◌, ◌++◌, length, take, OnOk, OnErr};
ghost use Rattle.ltx_text.specs.Cuts.{spaced};
ghost use Rattle.ltx_text.specs.Decimals.{decimal_of};
ghost use Rattle.ltx_text.specs.Words.{word_of};

use crate::decimals::put_decimal;
use crate::words::encode_word;
use ltx_model::memory::NoMemory;

/// Appends a fixed text.
pub fn put_text(text: &[u8], out: &mut Vec<u8>) -> Result<(), NoMemory>
    ensures ok { OnOk result (out.new.items ≡ out.old.items ++ text.now) }
    ensures front { take (length out.old.items) out.new.items ≡ out.old.items }
{
    out.extend_from_slice(text)?;
    Ok(())
}

/// Appends a space and a number.
pub fn put_number(n: u64, out: &mut Vec<u8>) -> Result<(), NoMemory>
    ensures ok { OnOk result (out.new.items ≡ out.old.items ++ spaced (decimal_of n)) }
    ensures front { take (length out.old.items) out.new.items ≡ out.old.items }
{
    out.push(b' ')?;
    put_decimal(n, out)
}

/// Appends a space and the word of a byte string.
pub fn put_bytes(bytes: &[u8], out: &mut Vec<u8>) -> Result<(), NoMemory>
    ensures ok { OnOk result (out.new.items ≡ out.old.items ++ spaced (word_of bytes.now)) }
    ensures front { take (length out.old.items) out.new.items ≡ out.old.items }
{
    out.push(b' ')?;
    encode_word(bytes, out)
}

/// What printing gave. Where it failed, all behind the first `start` bytes of the text is taken back.
pub fn or_taken_back(
    done: Result<(), NoMemory>,
    start: usize,
    out: &mut Vec<u8>,
) -> Result<(), NoMemory>
    ensures same { result ≡ done }
    ensures ok { OnOk result (out.new.items ≡ out.old.items) }
    ensures err { OnErr result (out.new.items ≡ take start out.old.items) }
{
    if done.is_err() {
        out.truncate(start);
    }
    done
}
