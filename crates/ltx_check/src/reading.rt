//! Reading a transcript: its history, its order and its durable epoch, or the first line that is not what belongs there.

ghost use Rattle.std.specs.Prelude.{◌≡◌, ◌<◌, ◌+◌, ℕ, List, [], ◌∷◌, ◌++◌, length, map, IfOk, IfSome, IfNone};
ghost use Rattle.ltx_model.specs.declared.replies.Entry.{Entry};
ghost use Rattle.ltx_model.specs.Limits.{IsCount};
ghost use Rattle.ltx_check.specs.Texts.{IsEntry, AreEntries, AreTxs, order_line, durable_line};
ghost use Rattle.ltx_check.specs.Cuts.{lines_of, ended};
ghost use Rattle.ltx_check.specs.Lines.{entry_text, Breaks};
ghost use Rattle.ltx_check.specs.Readings.{Ends, Reads, BeginsNoEntry};

use crate::cuts::cut_line;
use crate::entries::read_entry;
use crate::words::{read_durable, read_order};
use ltx_model::memory::NoMemory;
use ltx_model::numbers::Tx;
use ltx_model::replies::Entry;
use std::alloc::Global;

/// What a transcript says.
#[derive(Debug, Drop)]
pub(crate) struct Transcript {
    pub entries: Vec<Entry>,
    pub order: Vec<Tx>,
    pub durable: u32,
}

/// A transcript, or the number of its first line that is not what belongs there, counted from 1.
#[derive(Debug, Drop)]
pub(crate) enum Reading {
    Whole(Transcript),
    Broken(u64),
}

/// The two last lines, or which of the lines behind the entries is not what belongs there, counted from 1.
#[derive(Debug, Drop)]
pub(crate) enum Ending {
    Whole(Vec<Tx>, u32),
    Broken(u64),
}

/// The entry in the first line, and what stands behind the line.
fn next_entry(alloc: Global, text: &[u8]) -> Result<Option<(Entry, &[u8])>, NoMemory>
    ensures found { IfOk result (λ found. IfSome found (λ p. IsEntry p.0 × (lines_of text.now ≡ entry_text p.0 ∷ lines_of p.1.now) × (length p.1.now < length text.now))) }
    ensures none { IfOk result (λ found. IfNone found (BeginsNoEntry (lines_of text.now))) }
{
    let Some((line, more)) = cut_line(text) else {
        return Ok(None);
    };
    match read_entry(alloc, line) {
        Err(fault) => Err(fault),
        Ok(None) => Ok(None),
        Ok(Some(entry)) => Ok(Some((entry, more))),
    }
}

/// The order in the first line, and what stands behind the line.
fn next_order(alloc: Global, text: &[u8]) -> Result<Option<(Vec<Tx>, &[u8])>, NoMemory>
    ensures found { IfOk result (λ found. IfSome found (λ p. AreTxs p.0.items × (lines_of text.now ≡ ended (order_line p.0.items) ∷ lines_of p.1.now))) }
    ensures none { IfOk result (λ found. IfNone found ((order : List ℕ) (more : List (List ℕ)) → AreTxs order → lines_of text.now ≡ ended (order_line order) ∷ more → ⊥)) }
{
    let Some((line, more)) = cut_line(text) else {
        return Ok(None);
    };
    match read_order(alloc, line) {
        Err(fault) => Err(fault),
        Ok(None) => Ok(None),
        Ok(Some(order)) => Ok(Some((order, more))),
    }
}

/// The durable epoch in the first line, and what stands behind the line.
fn next_durable(text: &[u8]) -> Option<(u32, &[u8])>
    ensures found { IfSome result (λ p. IsCount p.0 × (lines_of text.now ≡ ended (durable_line p.0) ∷ lines_of p.1.now)) }
    ensures none { IfNone result ((epoch : ℕ) (more : List (List ℕ)) → IsCount epoch → lines_of text.now ≡ ended (durable_line epoch) ∷ more → ⊥) }
{
    let Some((line, more)) = cut_line(text) else {
        return None;
    };
    match read_durable(line) {
        None => None,
        Some(durable) => Some((durable, more)),
    }
}

/// The entries up to the first line that is none, and what stands from there on.
fn read_entries(alloc: Global, text: &[u8]) -> Result<(Vec<Entry>, &[u8]), NoMemory>
    ensures entries { IfOk result (λ p. AreEntries p.0.items) }
    ensures lines { IfOk result (λ p. lines_of text.now ≡ map entry_text p.0.items ++ lines_of p.1.now) }
    ensures stops { IfOk result (λ p. BeginsNoEntry (lines_of p.1.now)) }
{
    let mut entries = Vec::new(alloc);
    let mut rest = text;
    loop {
        match next_entry(alloc, rest) {
            Err(fault) => return Err(fault),
            Ok(None) => return Ok((entries, rest)),
            Ok(Some((entry, more))) => {
                entries.push(entry)?;
                rest = more;
            }
        }
    }
}

/// What stands behind the entries.
fn read_ending(alloc: Global, text: &[u8]) -> Result<Ending, NoMemory>
    requires stops { BeginsNoEntry (lines_of text.now) }
    ensures { IfOk result (λ ending. Ends (lines_of text.now) ending) }
{
    match next_order(alloc, text) {
        Err(fault) => Err(fault),
        Ok(None) => Ok(Ending::Broken(1)),
        Ok(Some((order, behind))) => match next_durable(behind) {
            None => Ok(Ending::Broken(2)),
            Some((durable, rest)) => {
                if rest.is_empty() {
                    Ok(Ending::Whole(order, durable))
                } else {
                    Ok(Ending::Broken(3))
                }
            }
        },
    }
}

/// What the text says, or its first line that is not what belongs at its place.
pub(crate) fn read_transcript(alloc: Global, text: &[u8]) -> Result<Reading, NoMemory>
    ensures { IfOk result (λ reading. Reads text.now reading) }
{
    let (entries, rest) = read_entries(alloc, text)?;
    match read_ending(alloc, rest) {
        Err(fault) => Err(fault),
        Ok(Ending::Whole(order, durable)) => Ok(Reading::Whole(Transcript {
            entries,
            order,
            durable,
        })),
        Ok(Ending::Broken(place)) => Ok(Reading::Broken(entries.len() as u64 + place)),
    }
}
