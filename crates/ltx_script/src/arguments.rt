//! The arguments of a verb, each from its word, with the cause where the word is no spelling.

ghost use Rattle.std.specs.Prelude.{◌≡◌, ◌<◌, ◌≤◌, ◌+◌, ◌^◌, ◌≢◌, ℕ, List, map, Option, Some, None, IfSome, IfNone, option_copied};
ghost use Rattle.ltx_text.specs.Decimals.{decimal_of, number_in};
ghost use Rattle.ltx_script.specs.Commands.{tables_of};
ghost use Rattle.ltx_script.specs.Rising.{IsRisingFrom};
ghost use Rattle.ltx_script.specs.Lines.{set_of, session_at, table_at, key_at, bound_at, value_at, writes_at, reads_at};
ghost use Rattle.ltx_text.specs.Cuts.{cut_at};
ghost use Rattle.ltx_script.specs.Readers.{Gives};

use crate::refusal::Refusal;
use ltx_model::bytes::{Bound, Key, Value};
use ltx_model::commands::Bad;
use ltx_model::numbers::{Session, Table};
use ltx_model::tables::TableSet;
use ltx_text::cuts::cut;
use ltx_text::decimals::number_in;
use ltx_text::words::{decode_word, plain_bytes};
use std::alloc::Global;

/// The session with this number, from 1 to 1,024.
pub(crate) fn session_of(word: &[u8]) -> Result<Session, Refusal>
    ensures { Gives (λ session. session) result (session_at word.now) }
{
    let Some(n) = number_in(word, 1, u64::from(Session::LAST) + 1) else {
        return Err(Refusal::Cause(Bad::Session));
    };
    match Session::new(n as u16) {
        Some(session) => Ok(session),
        None => Err(Refusal::Cause(Bad::Session)),
    }
}

/// The table with this number, if it is one from 0 to 63.
fn named_table(word: &[u8]) -> Option<Table>
    ensures { result ≡ number_in 0 64 word.now }
{
    let n = number_in(word, 0, u64::from(Table::COUNT))?;
    Table::new(n as u8)
}

/// The table with this number, from 0 to 63.
pub(crate) fn table_of(word: &[u8]) -> Result<Table, Refusal>
    ensures { Gives (λ table. table) result (table_at word.now) }
{
    named_table(word).ok_or(Refusal::Cause(Bad::Table))
}

/// The key with this word.
#[tactic(auto, using(crate::proofs::ValueLemmas::no_key, crate::proofs::ValueLemmas::key_some, crate::proofs::ValueLemmas::key_out))]
pub(crate) fn key_of(alloc: Global, word: &[u8]) -> Result<Key, Refusal>
    ensures { Gives (λ key. key) result (key_at word.now) }
{
    if let Some(bytes) = plain_bytes(word) {
        return Key::from_slice(alloc, bytes)?.ok_or(Refusal::Cause(Bad::Key));
    }
    let Some(bytes) = decode_word(alloc, word)? else {
        return Err(Refusal::Cause(Bad::Key));
    };
    Key::from_bytes(bytes).map_err(|_| Refusal::Cause(Bad::Key))
}

/// The end of a scan with this word.
#[tactic(auto, using(crate::proofs::ValueLemmas::no_bound, crate::proofs::ValueLemmas::bound_some, crate::proofs::ValueLemmas::bound_out))]
pub(crate) fn bound_of(alloc: Global, word: &[u8]) -> Result<Bound, Refusal>
    ensures { Gives (λ bound. bound) result (bound_at word.now) }
{
    if let Some(bytes) = plain_bytes(word) {
        return Bound::from_slice(alloc, bytes)?.ok_or(Refusal::Cause(Bad::Key));
    }
    let Some(bytes) = decode_word(alloc, word)? else {
        return Err(Refusal::Cause(Bad::Key));
    };
    Bound::from_bytes(bytes).map_err(|_| Refusal::Cause(Bad::Key))
}

/// The value with this word.
#[tactic(auto, using(crate::proofs::ValueLemmas::no_value, crate::proofs::ValueLemmas::value_some, crate::proofs::ValueLemmas::value_out))]
pub(crate) fn value_of(alloc: Global, word: &[u8]) -> Result<Value, Refusal>
    ensures { Gives (λ value. value) result (value_at word.now) }
{
    if let Some(bytes) = plain_bytes(word) {
        return Value::from_slice(alloc, bytes)?.ok_or(Refusal::Cause(Bad::Value));
    }
    let Some(bytes) = decode_word(alloc, word)? else {
        return Err(Refusal::Cause(Bad::Value));
    };
    Value::from_bytes(bytes).map_err(|_| Refusal::Cause(Bad::Value))
}

/// The set of the tables that are named, strictly rising, with a comma between two.
fn tables_in(text: &[u8]) -> Option<TableSet>
    ensures found { IfSome result (λ set. (cut_at 44 text.now ≡ map decimal_of (tables_of set)) × (set < 2 ^ 64)) }
    ensures none { IfNone result ((tables : List ℕ) → IsRisingFrom 0 tables → cut_at 44 text.now ≢ map decimal_of tables) }
{
    let mut set = TableSet::empty();
    let mut least = 0u8;
    let mut text = text;
    loop {
        let (word, after) = cut(text, b',');
        let table = named_table(word)?;
        if table.number() < least {
            return None;
        }
        set = set.with(table);
        let Some(after) = after else {
            return Some(set);
        };
        text = after;
        least = table.number() + 1;
    }
}

/// The set of tables with this spelling.
fn set_of(text: &[u8]) -> Option<TableSet>
    ensures { result ≡ set_of text.now }
{
    if text == b"*".as_slice() {
        return Some(TableSet::all());
    }
    if text == b"-".as_slice() {
        return Some(TableSet::empty());
    }
    let set = tables_in(text)?;
    if set == TableSet::all() {
        None
    } else {
        Some(set)
    }
}

/// The set of tables that a batch writes: `W=` and its spelling.
pub(crate) fn writes_of(word: &[u8]) -> Result<TableSet, Refusal>
    ensures { Gives (λ set. set) result (writes_at word.now) }
{
    match word.strip_prefix(b"W=".as_slice()) {
        None => Err(Refusal::Cause(Bad::Sets)),
        Some(text) => set_of(text).ok_or(Refusal::Cause(Bad::Sets)),
    }
}

/// The set of tables that a batch reads: `R=` and its spelling, which is not that of all tables. All tables, where
/// there is no word.
pub(crate) fn reads_of(word: Option<&[u8]>) -> Result<TableSet, Refusal>
    ensures { Gives (λ set. set) result (reads_at (option_copied word.entry)) }
{
    let Some(word) = word else {
        return Ok(TableSet::all());
    };
    let Some(text) = word.strip_prefix(b"R=".as_slice()) else {
        return Err(Refusal::Cause(Bad::Sets));
    };
    match set_of(text) {
        Some(set) if set != TableSet::all() => Ok(set),
        _ => Err(Refusal::Cause(Bad::Sets)),
    }
}
