//! One table of the store: an ordered map from keys to their versions.

ghost use Rattle.std.specs.Prelude.{◌≡◌, ◌<◌, ◌||◌, ◌++◌, [], ◌∷◌, IfOk, IfSome, IfNone, OnErr, OnOk, IsSomeAnd};
ghost use Rattle.ltx_index.specs.Pairs.{IsInOrder, value_at, with_pair};
ghost use Rattle.ltx_chain.specs.Versions.{AreBelow, latest};
ghost use Rattle.ltx_store.specs.Kept.{items_of, room_of, installed};
ghost use Rattle.std.specs.Ordering.{is_lt};
ghost use Rattle.ltx_model.specs.Keys.{is_empty, key_cmp};
ghost use Rattle.ltx_store.specs.Scans.{between, rows_seen, looks_seen};
ghost use Rattle.ltx_store.specs.Latest.{putter, IsNextPut, HasNoNextPut};
ghost use Rattle.ltx_store.specs.Pairs.{IsRoomMade, IsLoaded};

use crate::scanned::Scanned;
use ltx_chain::chain::{Chain, Version};
use ltx_index::index::Index;
use ltx_model::bytes::{Bound, Key, compare_bytes};
use ltx_model::memory::NoMemory;
use ltx_model::numbers::Tx;
use ltx_model::rows::Row;
use ltx_model::writes::Look;
use std::alloc::Global;

/// Makes room for one version of the key. After NoMemory the table is as before.
pub(crate) fn reserve(alloc: Global, table: &mut Index<Chain>, key: &Key) -> Result<(), NoMemory>
    ensures made { OnOk result (IsRoomMade table.old table.new key.now) }
    ensures kept { OnErr result (table.new ≡ table.old) }
    ensures in_order { IsInOrder table.new }
{
    if let Some(chain) = table.get_mut(key) {
        return chain.reserve_one();
    }
    let mut chain = Chain::new(alloc);
    chain.reserve_one()?;
    put(table, key.copy()?, chain)
}

/// Puts the versions at the key. After NoMemory the table is as before.
fn put(table: &mut Index<Chain>, key: Key, chain: Chain) -> Result<(), NoMemory>
    ensures put { OnOk result (table.new ≡ with_pair table.old key chain) }
    ensures kept { OnErr result (table.new ≡ table.old) }
    ensures in_order { IsInOrder table.new }
{
    match table.insert(key, chain) {
        Ok(_) => Ok(()),
        Err(_) => Err(NoMemory),
    }
}

/// Puts a first version at the key. After NoMemory the table is as before.
pub(crate) fn load(
    alloc: Global,
    table: &mut Index<Chain>,
    key: Key,
    version: Version,
) -> Result<(), NoMemory>
    ensures loaded { OnOk result (IsLoaded table.old table.new key version) }
    ensures kept { OnErr result (table.new ≡ table.old) }
    ensures in_order { OnOk result (IsInOrder table.new) }
{
    let mut chain = Chain::new(alloc);
    chain.reserve_one()?;
    chain.install(version);
    put(table, key, chain)
}

/// Adds a version to the key's, for which there is room.
pub(crate) fn install(table: &mut Index<Chain>, key: &Key, version: Version)
    requires room { 0 < room_of (value_at table.old key.now) }
    requires above { AreBelow version.mark (items_of (value_at table.old key.now)) }
    ensures installed { table.new ≡ with_pair table.old key.now (installed (value_at table.old key.now) version) }
    ensures in_order { IsInOrder table.new }
{
    if let Some(chain) = table.get_mut(key) {
        chain.install(version);
    }
}

/// The least key from the bound on whose latest version puts a value, and that version's writer.
pub(crate) fn next_put<'t>(
    table: &'t Index<Chain>,
    from: &[u8],
    strict: bool,
) -> Option<(&'t Key, Tx)>
    ensures found { IfSome result (λ found. IsNextPut table.now from.now strict found.0.now found.1) }
    ensures none { IfNone result (HasNoNextPut table.now from.now strict) }
    ensures in_order { IsInOrder table.now }
{
    let mut walk = table.walk(from, strict);
    while let Some((key, chain)) = walk.next() {
        if let Some(writer) = putter(chain) {
            return Some((key, writer));
        }
    }
    None
}

/// The writer of the latest version, where it puts a value.
pub(crate) fn putter(chain: &Chain) -> Option<Tx>
    ensures { result ≡ putter (latest chain.now.items) }
{
    let version = chain.latest()?;
    if version.put.is_some() {
        Some(version.writer)
    } else {
        None
    }
}

/// The rows and looks of the range at a mark.
pub(crate) fn scan(
    alloc: Global,
    table: &Index<Chain>,
    low: &Bound,
    high: &Bound,
    mark: u64,
) -> Result<Scanned, NoMemory>
    ensures rows { IfOk result (λ scanned. scanned.rows.items ≡ rows_seen mark (between low.now high.now table.now)) }
    ensures looks { IfOk result (λ scanned. scanned.looks.items ≡ looks_seen mark (between low.now high.now table.now)) }
{
    let mut scanned = Scanned {
        rows: Vec::new(alloc),
        looks: Vec::new(alloc),
    };
    let mut walk = table.walk(low.bytes(), false);
    while let Some((key, chain)) = walk.next() {
        if !is_below(key, high) {
            return Ok(scanned);
        }
        note(&mut scanned, key, chain, mark)?;
    }
    Ok(scanned)
}

/// Notes the key where a version of it is seen at the mark.
fn note(scanned: &mut Scanned, key: &Key, chain: &Chain, mark: u64) -> Result<(), NoMemory>
    ensures rows { OnOk result (scanned.new.rows.items ≡ scanned.old.rows.items ++ rows_seen mark ((key.now, chain.now) ∷ [])) }
    ensures looks { OnOk result (scanned.new.looks.items ≡ scanned.old.looks.items ++ looks_seen mark ((key.now, chain.now) ∷ [])) }
{
    let Some(version) = chain.visible(mark) else {
        return Ok(());
    };
    scanned.looks.push(Look {
        key: key.copy()?,
        writer: version.writer,
        gone: version.put.is_none(),
    })?;
    if let Some(value) = &version.put {
        scanned.rows.push(Row {
            key: key.copy()?,
            value: value.copy()?,
        })?;
    }
    Ok(())
}

/// The key is below the upper end of a range, which is no bound where it is empty.
fn is_below(key: &Key, high: &Bound) -> bool
    ensures { result ≡ (is_empty high.now || is_lt (key_cmp key.now high.now)) }
{
    high.bytes().is_empty() || compare_bytes(key.bytes(), high.bytes()).is_lt()
}
