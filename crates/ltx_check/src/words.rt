//! Reading numbers behind spaces.

ghost use Rattle.std.specs.Prelude.{◌≡◌, ◌<◌, ◌^◌, ℕ, List, [], ◌∷◌, ◌++◌, length, codes, IfOk, IfSome, IfNone, MatchOption};
ghost use Rattle.ltx_model.specs.Limits.{IsTx, IsCount};
ghost use Rattle.ltx_text.specs.Decimals.{decimal_of};
ghost use Rattle.ltx_check.specs.Texts.{spaced_number, numbers_text, AreTxs, order_line, durable_line};
ghost use Rattle.ltx_check.specs.Words.{HasNoSpace, EndsWord, EndsAt, NoNumber};

use crate::cuts::behind;
use ltx_model::memory::NoMemory;
use ltx_model::numbers::Tx;
use ltx_text::decimals::decimal;
use memchr::memchr;
use std::alloc::Global;

/// Where the first space stands.
fn first_space(text: &[u8]) -> Option<usize>
    ensures { MatchOption result (HasNoSpace text.now) (EndsAt text.now) }
{
    memchr(b' ', text)
}

/// The bytes before the first space, and those from it on.
fn cut_word(text: &[u8]) -> (&[u8], &[u8])
    ensures parts { text.now ≡ result.0.now ++ result.1.now }
    ensures apart { HasNoSpace result.0.now }
    ensures ends { EndsWord result.1.now }
{
    match first_space(text) {
        Some(at) => text.split_at(at),
        None => (text, &[]),
    }
}

/// The number of a transaction with this decimal.
fn tx_of(word: &[u8]) -> Option<Tx>
    ensures found { IfSome result (λ n. IsTx n × (word.now ≡ decimal_of n)) }
    ensures none { IfNone result ((n : ℕ) → IsTx n → word.now ≡ decimal_of n → ⊥) }
{
    match decimal(word) {
        None => None,
        Some(number) => Tx::new(number),
    }
}

/// The number behind a space, and what follows.
fn next_number(text: &[u8]) -> Option<(Tx, &[u8])>
    ensures found { IfSome result (λ p. IsTx p.0 × (text.now ≡ spaced_number p.0 ++ p.1.now) × EndsWord p.1.now) }
    ensures shorter { IfSome result (λ p. length p.1.now < length text.now) }
    ensures none { IfNone result (NoNumber text.now) }
{
    let Some(spaced) = behind(text, b" ") else {
        return None;
    };
    let (word, rest) = cut_word(spaced);
    match tx_of(word) {
        None => None,
        Some(tx) => Some((tx, rest)),
    }
}

/// The numbers of a text, each behind a space. None exactly where the text is no such numbers.
fn read_numbers(alloc: Global, text: &[u8]) -> Result<Option<Vec<Tx>>, NoMemory>
    ensures found { IfOk result (λ found. IfSome found (λ numbers. AreTxs numbers.items × (numbers_text numbers.items ≡ text.now))) }
    ensures none { IfOk result (λ found. IfNone found ((numbers : List ℕ) → AreTxs numbers → numbers_text numbers ≡ text.now → ⊥)) }
{
    let mut numbers = Vec::new(alloc);
    let mut rest = text;
    while !rest.is_empty() {
        match next_number(rest) {
            None => return Ok(None),
            Some((tx, more)) => {
                numbers.push(tx)?;
                rest = more;
            }
        }
    }
    Ok(Some(numbers))
}

/// The order in this line. None exactly where it is the line of no order.
pub(crate) fn read_order(alloc: Global, line: &[u8]) -> Result<Option<Vec<Tx>>, NoMemory>
    ensures found { IfOk result (λ found. IfSome found (λ order. AreTxs order.items × (order_line order.items ≡ line.now))) }
    ensures none { IfOk result (λ found. IfNone found ((order : List ℕ) → AreTxs order → order_line order ≡ line.now → ⊥)) }
{
    match behind(line, b"order") {
        None => Ok(None),
        Some(text) => read_numbers(alloc, text),
    }
}

/// The epoch with this decimal.
fn epoch_of(word: &[u8]) -> Option<u32>
    ensures found { IfSome result (λ n. IsCount n × (word.now ≡ decimal_of n)) }
    ensures none { IfNone result ((n : ℕ) → IsCount n → word.now ≡ decimal_of n → ⊥) }
{
    match decimal(word) {
        None => None,
        Some(number) => {
            if number > 4_294_967_295 {
                return None;
            }
            Some(number as u32)
        }
    }
}

/// The durable epoch in this line. None exactly where it is the line of none.
pub(crate) fn read_durable(line: &[u8]) -> Option<u32>
    ensures found { IfSome result (λ epoch. IsCount epoch × (durable_line epoch ≡ line.now)) }
    ensures none { IfNone result ((epoch : ℕ) → IsCount epoch → durable_line epoch ≡ line.now → ⊥) }
{
    match behind(line, b"durable ") {
        None => None,
        Some(word) => epoch_of(word),
    }
}
