//! Decimals: each number has one spelling in digits, with no sign and no leading zero, and zero is `0`.
ghost use Rattle.std.specs.Prelude.{◌≡◌, ◌≢◌, ◌++◌, ◌^◌, ◌<◌, ◌≤◌, ℕ, length, Some, OnOk, OnErr, IfSome, IfNone};
ghost use Rattle.std.specs.Str.Parse.{AllDigits, digits_value};
ghost use Rattle.ltx_text.specs.Decimals.{decimal_of, number_in};
ghost use Rattle.ltx_text.specs.Words.{AreVisible};

use itoa::Buffer;
use ltx_model::memory::NoMemory;

/// Appends the decimal of `n` to `out`. Without memory `out` stays as it was.
pub fn put_decimal(n: u64, out: &mut Vec<u8>) -> Result<(), NoMemory>
    ensures ok { OnOk result (out.new.items ≡ out.old.items ++ decimal_of n) }
    ensures err { OnErr result (out.new.items ≡ out.old.items) }
{
    let mut buffer = Buffer::new();
    out.extend_from_slice(buffer.format(n).as_bytes())?;
    Ok(())
}

/// What callers may rest on when they join decimals by spaces: each stands for one number, is not empty, and
/// has visible bytes alone.
#[tactic(auto, using(crate::proofs::DecimalLemmas::decimal_spelling_injective, crate::proofs::DecimalLemmas::decimal_is_some, crate::proofs::DecimalLemmas::decimal_is_visible))]
pub fn decimals_can_be_joined()
    ensures one { (m n : ℕ) → m < 2 ^ 64 → n < 2 ^ 64 → decimal_of m ≡ decimal_of n → m ≡ n }
    ensures some { (n : ℕ) → n < 2 ^ 64 → 0 < length (decimal_of n) }
    ensures visible { (n : ℕ) → n < 2 ^ 64 → AreVisible (decimal_of n) }
{}

/// The number whose decimal `word` is. None exactly where no u64 has this decimal.
pub fn decimal(word: &[u8]) -> Option<u64>
    ensures found { IfSome result (λ n. word.now ≡ decimal_of n) }
    ensures none { IfNone result ((n : ℕ) → n < 2 ^ 64 → word.now ≢ decimal_of n) }
    // What was printed is read again.
    ensures again { (n : ℕ) → n < 2 ^ 64 → word.now ≡ decimal_of n → result ≡ Some n }
{
    if word.is_empty() {
        return None;
    }
    if word[0] == b'0' && word.len() > 1 {
        return None;
    }
    number_of(word)
}

/// The number with this decimal, from the first on and below another.
pub fn number_in(word: &[u8], first: u64, past: u64) -> Option<u64>
    ensures value { result ≡ number_in first past word.now }
    ensures range { IfSome result (λ n. (first ≤ n) × (n < past)) }
{
    let n = decimal(word)?;
    if first <= n && n < past {
        Some(n)
    } else {
        None
    }
}

/// The number that the digits write. None where one is no digit, or the number is no u64.
fn number_of(digits: &[u8]) -> Option<u64>
    ensures found { IfSome result (λ n. AllDigits 10 digits.now
        × (digits_value 10 digits.now ≡ n) × (n < 2 ^ 64)) }
    ensures none { IfNone result (AllDigits 10 digits.now → 2 ^ 64 ≤ digits_value 10 digits.now) }
{
    let mut n: u64 = 0;
    for &digit in digits {
        if !digit.is_ascii_digit() {
            return None;
        }
        n = n.checked_mul(10)?.checked_add(u64::from(digit - b'0'))?;
    }
    Some(n)
}
