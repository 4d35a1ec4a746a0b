//! The parts of a reply, each from its word.

ghost use Rattle.std.specs.Prelude.{◌≡◌, Option};
ghost use Rattle.ltx_reply.specs.Readings.{tx_at, count_at, table_at, key_at, value_at, writer_at, cause_at};
ghost use Rattle.ltx_reply.specs.Readers.{Gives};

use crate::cuts::is;
use crate::unread::Unread;
use ltx_model::bytes::{Key, Value};
use ltx_model::commands::Bad;
use ltx_model::numbers::{Table, Tx};
use ltx_text::decimals::number_in;
use ltx_text::words::{decode_word, plain_bytes};
use std::alloc::Global;

/// The transaction with this number, if it is one.
fn named_tx(word: &[u8]) -> Option<Tx>
    ensures { result ≡ tx_at word.now }
{
    Tx::new(number_in(word, 1, 9_223_372_036_854_775_808)?)
}

/// The transaction with this number.
pub(crate) fn tx_of(word: &[u8]) -> Result<Tx, Unread>
    ensures { Gives (λ tx. tx) result (tx_at word.now) }
{
    named_tx(word).ok_or(Unread::NoReply)
}

/// The epoch or operation with this number, if it is one.
fn named_count(word: &[u8]) -> Option<u32>
    ensures { result ≡ count_at word.now }
{
    Some(number_in(word, 0, 4_294_967_296)? as u32)
}

/// The epoch or operation with this number.
pub(crate) fn count_of(word: &[u8]) -> Result<u32, Unread>
    ensures { Gives (λ n. n) result (count_at word.now) }
{
    named_count(word).ok_or(Unread::NoReply)
}

/// The table with this number, if it is one.
fn named_table(word: &[u8]) -> Option<Table>
    ensures { result ≡ table_at word.now }
{
    Table::new(number_in(word, 0, u64::from(Table::COUNT))? as u8)
}

/// The table with this number.
pub(crate) fn table_of(word: &[u8]) -> Result<Table, Unread>
    ensures { Gives (λ table. table) result (table_at word.now) }
{
    named_table(word).ok_or(Unread::NoReply)
}

/// The key with this word.
#[tactic(auto, using(crate::proofs::PartLemmas::no_key, crate::proofs::PartLemmas::key_some, crate::proofs::PartLemmas::key_out))]
pub(crate) fn key_of(alloc: Global, word: &[u8]) -> Result<Key, Unread>
    ensures { Gives (λ key. key) result (key_at word.now) }
{
    if let Some(bytes) = plain_bytes(word) {
        return Key::from_slice(alloc, bytes)?.ok_or(Unread::NoReply);
    }
    let Some(bytes) = decode_word(alloc, word)? else {
        return Err(Unread::NoReply);
    };
    Key::from_bytes(bytes).map_err(|_| Unread::NoReply)
}

/// The value with this word.
#[tactic(auto, using(crate::proofs::PartLemmas::no_value, crate::proofs::PartLemmas::value_some, crate::proofs::PartLemmas::value_out))]
pub(crate) fn value_of(alloc: Global, word: &[u8]) -> Result<Value, Unread>
    ensures { Gives (λ value. value) result (value_at word.now) }
{
    if let Some(bytes) = plain_bytes(word) {
        return Value::from_slice(alloc, bytes)?.ok_or(Unread::NoReply);
    }
    let Some(bytes) = decode_word(alloc, word)? else {
        return Err(Unread::NoReply);
    };
    Value::from_bytes(bytes).map_err(|_| Unread::NoReply)
}

/// The writer with this number, or none where the word is `none`.
#[tactic(auto, unfolding(crate::specs::Readings::writer_at))]
pub(crate) fn writer_of(word: &[u8]) -> Result<Option<Tx>, Unread>
    ensures { Gives (λ writer. writer) result (writer_at word.now) }
{
    if is(word, b"none") {
        return Ok(None);
    }
    let tx = tx_of(word)?;
    Ok(Some(tx))
}

/// The cause with this name, if it is one.
#[tactic(auto, unfolding(crate::specs::Readings::cause_at))]
fn named_cause(word: &[u8]) -> Option<Bad>
    ensures { result ≡ cause_at word.now }
{
    if is(word, b"verb") {
        Some(Bad::Verb)
    } else if is(word, b"session") {
        Some(Bad::Session)
    } else if is(word, b"table") {
        Some(Bad::Table)
    } else if is(word, b"key") {
        Some(Bad::Key)
    } else if is(word, b"value") {
        Some(Bad::Value)
    } else if is(word, b"sets") {
        Some(Bad::Sets)
    } else if is(word, b"words") {
        Some(Bad::Words)
    } else if is(word, b"long") {
        Some(Bad::Long)
    } else {
        None
    }
}

/// The cause with this name.
pub(crate) fn cause_of(word: &[u8]) -> Result<Bad, Unread>
    ensures { Gives (λ cause. cause) result (cause_at word.now) }
{
    named_cause(word).ok_or(Unread::NoReply)
}
