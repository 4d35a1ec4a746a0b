//! Words: each byte string has one spelling in visible bytes, so that words can be joined by spaces.
//! A visible byte other than `%` stands for itself, every other byte is `%HH` in upper case, and the
//! empty string is `%`.
ghost use Rattle.std.specs.Prelude.{◌≡◌, ◌≢◌, ◌++◌, ◌<◌, ◌/◌, ◌%◌, ◌⊎◌, ℕ, List, Some, length, take, OnOk, OnErr, IfOk, IfSome, IfNone, IsFalse, IsSomeAnd, option_map};
ghost use Rattle.std.specs.List.{list_all};
ghost use Rattle.ltx_text.specs.Readings.{bytes_of};
ghost use Rattle.ltx_text.specs.Words.{AreVisible, byte_spelling, hex_digit, is_plain, spellings, word_of};
ghost use Rattle.ltx_model.specs.Limits.{AreBytes};

use crate::print::or_taken_back;
use ltx_model::memory::NoMemory;
use std::alloc::Global;

/// Appends the word of `bytes` to `out`. Without memory `out` stays as it was.
pub fn encode_word(bytes: &[u8], out: &mut Vec<u8>) -> Result<(), NoMemory>
    ensures ok { OnOk result (out.new.items ≡ out.old.items ++ word_of bytes.now) }
    ensures err { OnErr result (out.new.items ≡ out.old.items) }
{
    let start = out.len();
    let done = put_word(bytes, out);
    or_taken_back(done, start, out)
}

/// What callers may rest on when they join words by spaces: each word stands for one byte string, is not
/// empty, and has visible bytes alone.
#[tactic(auto, using(crate::proofs::WordLemmas::word_spelling_injective, crate::proofs::WordLemmas::word_is_some, crate::proofs::WordLemmas::word_is_visible))]
pub fn words_can_be_joined()
    ensures one { (x y : List ℕ) → word_of x ≡ word_of y → x ≡ y }
    ensures some { (bytes : List ℕ) → 0 < length (word_of bytes) }
    ensures visible { (bytes : List ℕ) → AreBytes bytes → AreVisible (word_of bytes) }
{}

/// Appends the word of `bytes`, or a front of it where memory is wanting.
fn put_word(bytes: &[u8], out: &mut Vec<u8>) -> Result<(), NoMemory>
    ensures ok { OnOk result (out.new.items ≡ out.old.items ++ word_of bytes.now) }
    ensures front { take (length out.old.items) out.new.items ≡ out.old.items }
{
    if bytes.is_empty() {
        out.push(b'%')?;
        return Ok(());
    }
    if are_plain(bytes) {
        out.extend_from_slice(bytes)?;
        return Ok(());
    }
    put_spellings(bytes, out)
}

/// Appends the spellings of bytes, one after the other, or a front of them where memory is wanting.
fn put_spellings(bytes: &[u8], out: &mut Vec<u8>) -> Result<(), NoMemory>
    ensures ok { OnOk result (out.new.items ≡ out.old.items ++ spellings bytes.now) }
    ensures front { take (length out.old.items) out.new.items ≡ out.old.items }
{
    for &byte in bytes {
        put_byte(byte, out)?;
    }
    Ok(())
}

/// Appends a byte's spelling, or a front of it where memory is wanting.
fn put_byte(byte: u8, out: &mut Vec<u8>) -> Result<(), NoMemory>
    ensures ok { OnOk result (out.new.items ≡ out.old.items ++ byte_spelling byte) }
    ensures front { take (length out.old.items) out.new.items ≡ out.old.items }
{
    if is_plain(byte) {
        out.push(byte)?;
    } else {
        out.extend_from_slice(&[b'%', hex_digit(byte / 16), hex_digit(byte % 16)])?;
    }
    Ok(())
}

/// Whether all bytes stand for themselves in a word: they are visible, and none is `%`. True
/// where there are none, though the word of no bytes is `%`. They are tested eight at a time.
pub fn are_plain(bytes: &[u8]) -> bool
    ensures { result ≡ list_all is_plain bytes.now }
{
    let mut rest = bytes;
    while let Some((eight, past)) = rest.split_first_chunk::<8>() {
        if !are_eight_plain(eight) {
            return false;
        }
        rest = past;
    }
    are_few_plain(rest)
}

/// Whether bytes that are fewer than eight all stand for themselves. Where there are four or more, the first
/// four and the last four are tested at once, though some are among both.
fn are_few_plain(bytes: &[u8]) -> bool
    requires { length bytes.now < 8 }
    ensures { result ≡ list_all is_plain bytes.now }
{
    if let Some(x) = bytes.first_chunk::<4>()
        && let Some(y) = bytes.last_chunk::<4>()
    {
        return are_eight_plain(&[x[0], x[1], x[2], x[3], y[0], y[1], y[2], y[3]]);
    }
    bytes.iter().all(|b| is_plain(*b))
}

/// Whether eight bytes all stand for themselves. They are joined by `&` and not by `&&`, so that they are
/// tested at once.
fn are_eight_plain(x: &[u8; 8]) -> bool
    ensures { result ≡ list_all is_plain x.now }
{
    is_plain(x[0])
        & is_plain(x[1])
        & is_plain(x[2])
        & is_plain(x[3])
        & is_plain(x[4])
        & is_plain(x[5])
        & is_plain(x[6])
        & is_plain(x[7])
}

/// Whether the byte stands for itself.
fn is_plain(byte: u8) -> bool
    ensures { result ≡ is_plain byte }
{
    byte.is_ascii_graphic() & (byte != b'%')
}

/// The upper-case hexadecimal digit of a number below 16.
fn hex_digit(n: u8) -> u8
    requires { n < 16 }
    ensures { result ≡ hex_digit n }
{
    if n < 10 { b'0' + n } else { b'A' + (n - 10) }
}

/// The byte string whose word `word` is. None exactly where no byte string has this word.
pub fn decode_word(alloc: Global, word: &[u8]) -> Result<Option<Vec<u8>>, NoMemory>
    ensures found { IfOk result (λ found. IfSome found (λ bytes. word.now ≡ word_of bytes.items)) }
    ensures none { IfOk result (λ found. IfNone found ((bytes : List ℕ) → AreBytes bytes →
        word.now ≢ word_of bytes)) }
    // What was printed is read again.
    ensures again { (bytes : List ℕ) → AreBytes bytes → word.now ≡ word_of bytes →
        IfOk result (λ found. IsSomeAnd found (λ read. read.items ≡ bytes)) }
    // The whole answer is a function of the word.
    ensures exact { IfOk result (λ found. bytes_of word.now ≡ option_map (λ bytes. bytes.items) found) }
{
    let Some(bytes) = read_word(alloc, word)? else {
        return Ok(None);
    };
    are_bytes(&bytes);
    Ok(Some(bytes))
}

/// The word itself, where each byte of it stands for itself: it is the byte string whose word it is. None where
/// the word is empty or a byte of it does not stand for itself: such a word is for `decode_word`.
#[tactic(auto, using(crate::proofs::WordReadings::plain_again))]
pub fn plain_bytes(word: &[u8]) -> Option<&[u8]>
    ensures found { IfSome result (λ bytes. (bytes.now ≡ word.now) × (bytes_of word.now ≡ Some bytes.now)) }
    ensures none { IfNone result ((length word.now ≡ 0) ⊎ IsFalse (list_all is_plain word.now)) }
{
    if word.is_empty() || !are_plain(word) {
        return None;
    }
    are_bytes(word);
    Some(word)
}

/// What the type of bytes says, as a clause: each is below 256.
pub fn are_bytes(bytes: &[u8])
    ensures { AreBytes bytes.now }
{}

/// The bytes whose word this is. None exactly where it is no bytes' word.
fn read_word(alloc: Global, word: &[u8]) -> Result<Option<Vec<u8>>, NoMemory>
    ensures found { IfOk result (λ found. IfSome found (λ bytes. word.now ≡ word_of bytes.items)) }
    ensures none { IfOk result (λ found. IfNone found ((bytes : List ℕ) → AreBytes bytes →
        word.now ≢ word_of bytes)) }
{
    if word.is_empty() {
        return Ok(None);
    }
    if are_plain(word) {
        return Ok(Some(Vec::from_slice(alloc, word)?));
    }
    if word == b"%".as_slice() {
        return Ok(Some(Vec::new(alloc)));
    }
    read_spellings(alloc, word)
}

/// The bytes whose spellings `text` is, one after the other. None exactly where it is no bytes' spellings.
fn read_spellings(alloc: Global, text: &[u8]) -> Result<Option<Vec<u8>>, NoMemory>
    ensures found { IfOk result (λ found. IfSome found (λ bytes. text.now ≡ spellings bytes.items)) }
    ensures none { IfOk result (λ found. IfNone found ((bytes : List ℕ) → AreBytes bytes →
        text.now ≢ spellings bytes)) }
{
    let mut bytes = Vec::new(alloc);
    let mut rest = text;
    while !rest.is_empty() {
        let Some((byte, after)) = next_byte(rest) else {
            return Ok(None);
        };
        bytes.push(byte)?;
        rest = after;
    }
    Ok(Some(bytes))
}

/// The byte whose spelling begins the text, and what follows it. None where the text begins with no spelling.
fn next_byte(text: &[u8]) -> Option<(u8, &[u8])>
    ensures found { IfSome result (λ next. text.now ≡ byte_spelling next.0 ++ next.1.now) }
    ensures none { IfNone result ((b : ℕ) (rest : List ℕ) → b < 256 →
        text.now ≢ byte_spelling b ++ rest) }
{
    let (first, after) = text.split_first()?;
    if is_plain(*first) {
        return Some((*first, after));
    }
    let (high, after) = after.split_first()?;
    let (low, after) = after.split_first()?;
    if *first != b'%' {
        return None;
    }
    Some((escaped_byte(*high, *low)?, after))
}

/// The byte that is written `%` and these two digits. None where no byte is written so.
fn escaped_byte(high: u8, low: u8) -> Option<u8>
    ensures found { IfSome result (λ b. IsFalse (is_plain b)
        × (hex_digit (b / 16) ≡ high) × (hex_digit (b % 16) ≡ low)) }
    ensures none { IfNone result ((b : ℕ) → b < 256 → IsFalse (is_plain b) →
        hex_digit (b / 16) ≡ high → hex_digit (b % 16) ≢ low) }
{
    let byte = digit_value(high)? * 16 + digit_value(low)?;
    if is_plain(byte) { None } else { Some(byte) }
}

/// The number below 16 whose upper-case hexadecimal digit this is.
fn digit_value(digit: u8) -> Option<u8>
    ensures found { IfSome result (λ n. (n < 16) × (hex_digit n ≡ digit)) }
    ensures none { IfNone result ((n : ℕ) → n < 16 → hex_digit n ≢ digit) }
{
    match digit {
        b'0'..=b'9' => Some(digit - b'0'),
        b'A'..=b'F' => Some(digit - b'A' + 10),
        _ => None,
    }
}
