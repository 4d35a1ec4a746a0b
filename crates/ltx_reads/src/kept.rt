//! Kept commits, found by their stamps.

ghost use Rattle.std.specs.Prelude.{◌≡◌, ◌==◌, ◌&&◌, ◌++◌, [], OnOk, IfOk, map, filter, nat_lt, slice_get, option_map, option_copied};
ghost use Rattle.std.specs.List.{find, cons_option};
ghost use Rattle.ltx_reads.specs.Looks.{spanned, if_spanned};
ghost use Rattle.ltx_reads.specs.Merges.{merged};
ghost use Rattle.ltx_reads.specs.Stamped.{kept_at, kept_of, has_kept, if_stamp, if_late, AreRising};

use crate::entry::Entry;
use crate::merge::Merge;
use ltx_model::bytes::Key;
use ltx_model::memory::NoMemory;
use ltx_model::numbers::{Table, Tx};
use std::alloc::Global;

/// The commit of a stamp, if it is kept.
pub(crate) fn at(kept: &[Entry], stamp: u64) -> Option<&Entry>
    requires { AreRising kept.now }
    ensures { option_copied result ≡ kept_at kept.now stamp }
{
    let entry = kept.get(count_below(kept, stamp))?;
    if entry.stamp() == stamp {
        Some(entry)
    } else {
        None
    }
}

/// How many commits have a stamp below this one.
fn count_below(kept: &[Entry], stamp: u64) -> usize
    requires { AreRising kept.now }
    ensures { if_stamp stamp (slice_get kept.now result) ≡ kept_at kept.now stamp }
{
    kept.partition_point(|entry| entry.stamp() < stamp)
}

/// Whether a commit of these stamps is kept.
pub(crate) fn has_any(kept: &[Entry], stamps: &[u64]) -> bool
    requires { AreRising kept.now }
    ensures { result ≡ has_kept kept.now stamps.now }
{
    for stamp in stamps {
        if at(kept, *stamp).is_some() {
            return true;
        }
    }
    false
}

/// The numbers of the kept commits of these stamps.
pub(crate) fn numbers(alloc: Global, kept: &[Entry], stamps: &[u64]) -> Result<Vec<Tx>, NoMemory>
    requires { AreRising kept.now }
    ensures { IfOk result (λ txs. txs.items ≡ map (λ e. e.commit.number) (kept_of kept.now stamps.now)) }
{
    let mut found = Vec::new(alloc);
    for stamp in stamps {
        push_number(&mut found, at(kept, *stamp))?;
    }
    Ok(found)
}

/// The same of those whose commits have numbers above this one.
pub(crate) fn late_numbers(
    alloc: Global,
    kept: &[Entry],
    stamps: &[u64],
    above: u64,
) -> Result<Vec<Tx>, NoMemory>
    requires { AreRising kept.now }
    ensures { IfOk result (λ txs. txs.items ≡ map (λ e. e.commit.number) (filter (λ e. nat_lt above e.commit.mark) (kept_of kept.now stamps.now))) }
{
    let mut found = Vec::new(alloc);
    for stamp in stamps {
        push_number(&mut found, late(at(kept, *stamp), above))?;
    }
    Ok(found)
}

/// Adds the number of the commit, if there is one.
fn push_number(found: &mut Vec<Tx>, entry: Option<&Entry>) -> Result<(), NoMemory>
    ensures { OnOk result (found.new.items ≡ found.old.items ++ map (λ e. e.commit.number) (cons_option (option_copied entry.entry) [])) }
{
    if let Some(entry) = entry {
        found.push(entry.number())?;
    }
    Ok(())
}

/// The commit, where there is one and its number is above this one.
fn late(entry: Option<&Entry>, above: u64) -> Option<&Entry>
    ensures { option_copied result ≡ if_late above (option_copied entry.entry) }
{
    match entry {
        Some(entry) if entry.mark() > above => Some(entry),
        _ => None,
    }
}

/// Those of the stamps that are of kept commits.
pub(crate) fn kept_stamps(
    alloc: Global,
    kept: &[Entry],
    stamps: &[u64],
) -> Result<Vec<u64>, NoMemory>
    requires { AreRising kept.now }
    ensures { IfOk result (λ found. found.items ≡ map (λ e. e.stamp) (kept_of kept.now stamps.now)) }
{
    let mut found = Vec::new(alloc);
    for stamp in stamps {
        push_stamp(&mut found, at(kept, *stamp))?;
    }
    Ok(found)
}

/// Those of the stamps that are of kept commits which scanned a range that holds the key.
pub(crate) fn spanning_stamps(
    alloc: Global,
    kept: &[Entry],
    stamps: &[u64],
    table: Table,
    key: &Key,
) -> Result<Vec<u64>, NoMemory>
    requires { AreRising kept.now }
    ensures { IfOk result (λ found. found.items ≡ map (λ e. e.stamp) (filter (spanned (record { table = table; key = key.now })) (kept_of kept.now stamps.now))) }
{
    let mut found = Vec::new(alloc);
    for stamp in stamps {
        push_stamp(&mut found, spanning(at(kept, *stamp), table, key))?;
    }
    Ok(found)
}

/// The numbers of the kept commits of the stamps of both lists, which rise, in their order.
pub(crate) fn numbers_of_both(
    alloc: Global,
    kept: &[Entry],
    first: &[u64],
    second: &[u64],
) -> Result<Vec<Tx>, NoMemory>
    requires { AreRising kept.now }
    ensures { IfOk result (λ txs. txs.items ≡ map (λ e. e.commit.number) (kept_of kept.now (merged first.now second.now))) }
{
    let mut found = Vec::new(alloc);
    let mut merge = Merge::of(first, second);
    while let Some(stamp) = merge.next() {
        push_number(&mut found, at(kept, stamp))?;
    }
    Ok(found)
}

/// Adds the stamp of the commit, if there is one.
fn push_stamp(found: &mut Vec<u64>, entry: Option<&Entry>) -> Result<(), NoMemory>
    ensures { OnOk result (found.new.items ≡ found.old.items ++ map (λ e. e.stamp) (cons_option (option_copied entry.entry) [])) }
{
    if let Some(entry) = entry {
        found.push(entry.stamp())?;
    }
    Ok(())
}

/// The commit, where there is one and it scanned a range that holds the key.
fn spanning<'e>(entry: Option<&'e Entry>, table: Table, key: &Key) -> Option<&'e Entry>
    ensures { option_copied result ≡ if_spanned (record { table = table; key = key.now }) (option_copied entry.entry) }
{
    match entry {
        Some(entry) if entry.spanned(table, key) => Some(entry),
        _ => None,
    }
}

/// The first commit of a transaction.
pub(crate) fn of_tx(kept: &[Entry], tx: Tx) -> Option<&Entry>
    ensures { option_copied result ≡ find (λ e. e.commit.number == tx) kept.now }
{
    kept.iter().find(|entry| entry.number() == tx)
}

/// The first commit of a transaction as a batch.
pub(crate) fn of_batch(kept: &[Entry], tx: Tx) -> Option<&Entry>
    ensures { option_copied result ≡ find (λ e. e.commit.batch && (e.commit.number == tx)) kept.now }
{
    kept.iter()
        .find(|entry| entry.is_batch() && entry.number() == tx)
}

/// The number of the commit, if there is one.
pub(crate) fn mark_of(entry: Option<&Entry>) -> Option<u64>
    ensures { result ≡ option_map (λ e. e.commit.mark) (option_copied entry.entry) }
{
    match entry {
        Some(entry) => Some(entry.mark()),
        None => None,
    }
}
