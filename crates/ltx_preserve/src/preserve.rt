//! The batches that have begun and not ended, each with the tables that it declared for writing.
//!
//! A batch is entered when it begins and holds nothing until it is live; then it holds each of its
//! tables until it is removed. The least holder of each table is kept, so that a short's operation
//! asks it in constant time; only what a batch declared is looked through when the batch becomes
//! live or ends.

ghost use Rattle.std.specs.Prelude.{◌≡◌, ◌<◌, ℕ, [], ◌∷◌, ◌++◌, true, false, List, length, map, OnOk, OnErr, IfSome, IfNone, slice_get, slice_index_or, Some, None};
ghost use Rattle.std.specs.List.{list_any};
ghost use Rattle.ltx_model.specs.Firsts.{IsFirst};
ghost use Rattle.ltx_model.specs.Tables.{has_table};
ghost use Rattle.ltx_model.specs.Holders.{Holder, is_holder, is_entered, entered, live_from_now, gone_live, removed, holds_table, IsHeldBy};
ghost use Rattle.ltx_preserve.specs.Kept.{IsKept, IsLeastHeldIn, lesser_of, is_live_below, pending_number};

use ltx_model::memory::NoMemory;
use ltx_model::numbers::{Table, Tx};
use ltx_model::tables::TableSet;
use std::alloc::Global;
use std::marker::Model;

/// A batch that has begun: its number, the tables that it declared, and whether it is live.
#[derive(Debug, Drop)]
struct Entered {
    tx: Tx,
    tables: TableSet,
    live: bool,
}

impl Model for Entered {
    ghost use Rattle.ltx_model.specs.Holders.{Holder};

    ghost Value = { Holder };

    ghost view = { λ e. record { number = e.tx; tables = e.tables; live = e.live } };

    ghost invariant = { λ e. Unit {0} };
}

impl Entered {
    /// From now on it is live.
    fn go_live(&mut self)
        ensures { self.new ≡ live_from_now self.old }
    {
        self.live = true;
    }

    /// Its number.
    fn number(&self) -> Tx
        ensures { result ≡ self.now.number }
    {
        self.tx
    }

    /// The tables that it declared.
    fn tables(&self) -> TableSet
        ensures { result ≡ self.now.tables }
    {
        self.tables
    }

    /// Whether it is live.
    fn is_live(&self) -> bool
        ensures { result ≡ self.now.live }
    {
        self.live
    }

    /// Whether it is live and its number is below this one.
    fn is_live_below(&self, tx: Tx) -> bool
        ensures { result ≡ is_live_below tx self.now }
    {
        self.live && self.tx < tx
    }

    /// Its number, where it is pending.
    fn pending(&self) -> Option<Tx>
        ensures { result ≡ pending_number (Some self.now) }
    {
        if self.live {
            return None;
        }
        Some(self.tx)
    }

    /// Whether it is live and has declared the table.
    fn holds(&self, table: Table) -> bool
        ensures { result ≡ holds_table table self.now }
    {
        self.live && self.tables.has(table)
    }

    /// The least holder of a table among some batches and this one.
    fn lesser_holder(&self, table: Table, least: Option<Tx>) -> Option<Tx>
        ensures { (hs : List Holder) → IsKept hs table least → IsKept (hs ++ self.now ∷ []) table result }
    {
        if self.holds(table) {
            return lesser(least, self.number());
        }
        least
    }
}

/// The batches, and the least holder of each table.
#[derive(Debug, Drop)]
pub struct Preserve {
    entered: Vec<Entered>,
    least: [Option<Tx>; 64],
}

// Clauses see the batches in the order in which they were entered.
impl Model for Preserve {
    ghost use Rattle.std.specs.Prelude.{List};
    ghost use Rattle.ltx_model.specs.Holders.{Holder};
    ghost use Rattle.ltx_preserve.specs.Kept.{AreKept};

    ghost Value = { List Holder };

    ghost view = { λ p. p.entered.items };

    ghost invariant = { λ p. AreKept p.entered.items p.least };
}

impl Preserve {
    /// No batches, which takes no memory.
    pub fn new(alloc: Global) -> Preserve
        ensures { result ≡ [] }
    {
        Preserve {
            entered: Vec::new(alloc),
            least: nobody(),
        }
    }

    /// Enters a batch that has begun; it holds nothing yet. After NoMemory nothing has changed.
    pub fn add(&mut self, tx: Tx, tables: TableSet) -> Result<(), NoMemory>
        requires absent { is_entered self.old tx ≡ false }
        ensures added { OnOk result (self.new ≡ entered tx tables self.old) }
        ensures kept { OnErr result (self.new ≡ self.old) }
    {
        self.entered.push(Entered {
            tx,
            tables,
            live: false,
        })?;
        Ok(())
    }

    /// Makes a batch live: from now on it holds its tables.
    pub fn go_live(&mut self, tx: Tx)
        requires entered { is_entered self.old tx ≡ true }
        ensures { self.new ≡ gone_live tx self.old }
    {
        if let Some(place) = place_of(&self.entered, tx) {
            let tables = self.entered[place].tables();
            self.entered[place].go_live();
            refresh(&self.entered, &mut self.least, tables);
        }
    }

    /// Makes each batch live that is not. It takes no memory.
    pub fn go_live_all(&mut self)
        ensures { self.new ≡ map live_from_now self.old }
    {
        make_live(&mut self.entered);
        refresh(&self.entered, &mut self.least, TableSet::all());
    }

    /// Removes a batch that has ended: it holds no table any more.
    pub fn remove(&mut self, tx: Tx)
        requires entered { is_entered self.old tx ≡ true }
        ensures { self.new ≡ removed tx self.old }
    {
        if let Some(place) = place_of(&self.entered, tx) {
            let ended = self.entered.remove(place);
            if ended.is_live() {
                refresh(&self.entered, &mut self.least, ended.tables());
            }
        }
    }

    /// Whether a batch of this number is entered.
    pub fn has(&self, tx: Tx) -> bool
        ensures { result ≡ is_entered self.now tx }
    {
        self.entered.iter().any(|batch| batch.number() == tx)
    }

    /// How many batches are entered.
    pub fn len(&self) -> usize
        ensures { result ≡ length self.now }
    {
        self.entered.len()
    }

    /// The number of the batch at this place, counted from 0 in the order in which they were entered,
    /// or None where that batch is live or there is none.
    pub fn pending_at(&self, place: usize) -> Option<Tx>
        ensures { result ≡ pending_number (slice_get self.now place) }
    {
        self.entered.get(place)?.pending()
    }

    /// Whether a batch with a number below this one is live.
    pub fn has_live_below(&self, tx: Tx) -> bool
        ensures { result ≡ list_any (is_live_below tx) self.now }
    {
        self.entered.iter().any(|batch| batch.is_live_below(tx))
    }

    /// Whether some batch is live.
    pub fn is_any_live(&self) -> bool
        ensures { result ≡ list_any (λ h. h.live) self.now }
    {
        self.entered.iter().any(|batch| batch.is_live())
    }

    /// The least holder that is kept of a table.
    fn kept(&self, table: Table) -> Option<Tx>
        ensures { IsKept self.now table result }
    {
        self.least[table.number() as usize]
    }

    /// The holder of a table with the least number, or None where nobody holds it. It takes constant
    /// time.
    pub fn holder(&self, table: Table) -> Option<Tx>
        ensures { IsHeldBy self.now table result }
    {
        self.kept(table)
    }

    /// The least table of a set that somebody holds, with its least holder, or None where nobody
    /// holds a table of the set. Where no batch is entered it takes a few instructions.
    pub fn held(&self, tables: TableSet) -> Option<(Table, Tx)>
        ensures some { IfSome result (λ r. IsLeastHeldIn self.now tables r.0 r.1) }
        ensures none { IfNone result ((table : ℕ) → table < 64 → has_table tables table ≡ true → IsHeldBy self.now table None) }
    {
        if self.entered.is_empty() {
            return None;
        }
        self.held_kept(tables)
    }

    /// As `held`, by what is kept of each table.
    fn held_kept(&self, tables: TableSet) -> Option<(Table, Tx)>
        ensures some { IfSome result (λ r. IsLeastHeldIn self.now tables r.0 r.1) }
        ensures none { IfNone result ((table : ℕ) → table < 64 → has_table tables table ≡ true → IsHeldBy self.now table None) }
    {
        for number in 0..64u8 {
            if let Some(table) = Table::new(number)
                && tables.has(table)
                && let Some(tx) = self.holder(table)
            {
                return Some((table, tx));
            }
        }
        None
    }
}

/// No holder of any table.
fn nobody() -> [Option<Tx>; 64]
    ensures { (table : ℕ) → table < 64 → slice_index_or result table None ≡ None }
{
    let mut least: [Option<Tx>; 64] = [None; 64];
    for table in 0..64 {
        least[table] = None;
    }
    least
}

/// Makes each batch live.
fn make_live(entered: &mut [Entered])
    ensures { entered.new ≡ map live_from_now entered.old }
{
    for batch in entered.iter_mut() {
        batch.go_live();
    }
}

/// Where a batch stands.
fn place_of(entered: &[Entered], tx: Tx) -> Option<usize>
    ensures some { IfSome result (IsFirst (is_holder tx) entered.now) }
    ensures none { IfNone result (is_entered entered.now tx ≡ false) }
{
    for (place, batch) in entered.iter().enumerate() {
        if batch.tx == tx {
            return Some(place);
        }
    }
    None
}

/// The least holder of a table.
fn least_holder(entered: &[Entered], table: Table) -> Option<Tx>
    ensures { IsKept entered.now table result }
{
    let mut least = None;
    for batch in entered {
        least = batch.lesser_holder(table, least);
    }
    least
}

/// The lesser of two numbers, where there are two.
fn lesser(least: Option<Tx>, tx: Tx) -> Option<Tx>
    ensures { result ≡ Some (lesser_of least tx) }
{
    match least {
        Some(other) if other <= tx => Some(other),
        _ => Some(tx),
    }
}

/// Finds the holders of some tables anew.
fn refresh(entered: &[Entered], least: &mut [Option<Tx>; 64], tables: TableSet)
    ensures here { (table : ℕ) → table < 64 → has_table tables table ≡ true → IsKept entered.now table (slice_index_or least.new table None) }
    ensures others { (table : ℕ) → table < 64 → has_table tables table ≡ false → slice_index_or least.new table None ≡ slice_index_or least.old table None }
{
    for number in 0..64u8 {
        if let Some(table) = Table::new(number) {
            if tables.has(table) {
                least[number as usize] = least_holder(entered, table);
            }
        }
    }
}

#[cfg(test)]
mod tests {
    use super::Preserve;
    use ltx_model::numbers::{Table, Tx};
    use ltx_model::tables::TableSet;
    use std::test::Fail;

    fn table(n: u8) -> Result<Table, Fail> {
        Ok(Table::new(n).ok_or(n)?)
    }

    fn tx(n: u64) -> Result<Tx, Fail> {
        Ok(Tx::new(n).ok_or(n)?)
    }

    #[test]
    fn a_batch_is_entered_and_holds_nothing_yet(rt: HostRuntime) -> Result<(), Fail> {
        let mut preserve = Preserve::new(rt.alloc());
        preserve.add(tx(1)?, TableSet::all())?;
        assert!(rt; preserve.has(tx(1)?) && preserve.len() == 1);
        assert_eq!(rt; preserve.pending_at(0), Some(tx(1)?));
        assert_eq!(rt; preserve.holder(table(5)?), None);
        assert_eq!(rt; preserve.held(TableSet::all()), None);
        Ok(())
    }

    #[test]
    fn a_live_batch_holds_its_tables_until_it_ends(rt: HostRuntime) -> Result<(), Fail> {
        let batch = tx(1)?;
        let mut preserve = Preserve::new(rt.alloc());
        preserve.add(batch, TableSet::empty().with(table(5)?))?;
        preserve.go_live(batch);
        assert_eq!(rt; preserve.holder(table(5)?), Some(batch));
        preserve.remove(batch);
        assert_eq!(rt; preserve.holder(table(5)?), None);
        Ok(())
    }

    #[test]
    fn batches_become_live_together(rt: HostRuntime) -> Result<(), Fail> {
        let mut preserve = Preserve::new(rt.alloc());
        preserve.add(tx(3)?, TableSet::empty().with(table(5)?))?;
        preserve.go_live_all();
        assert!(rt; preserve.is_any_live() && preserve.has_live_below(tx(4)?));
        assert_eq!(rt; preserve.pending_at(0), None);
        assert_eq!(rt; preserve.held(TableSet::all()), Some((table(5)?, tx(3)?)));
        Ok(())
    }
}
