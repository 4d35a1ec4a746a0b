//! The verdict on a short: whether nobody holds a table that it touched, and each key that it looked up still has the writer that it
//! found. What nobody touched since is not looked at.

ghost use Rattle.std.specs.Prelude.{◌≡◌, ℕ, List, Option, IfOk, false, None};
ghost use Rattle.ltx_model.specs.States.{Step};
ghost use Rattle.ltx_model.specs.Notes.{AreNotes, found_in};
ghost use Rattle.ltx_model.specs.Verdicts.{RefusedAsChanged, IsVerdict};
ghost use Rattle.ltx_model.specs.declared.looked.Reach.TheVariants.{Point};
ghost use Rattle.ltx_validate.specs.Differences.{IsOrdered, Tells};
ghost use Rattle.ltx_validate.specs.Verdicts.{verdict_of, AreMarkedAt, AreHolders, nobody};

use crate::difference::{Difference, writer_of};
use crate::range::difference_in_range;
use ltx_chain::marked::Marked;
use ltx_model::bytes::Key;
use ltx_model::latest::Latest;
use ltx_model::looked::{Looked, Noted, Reach};
use ltx_model::memory::NoMemory;
use ltx_model::numbers::{Table, Tx};
use ltx_model::writes::Look;
use ltx_preserve::preserve::Preserve;
use ltx_short::short::ShortTx;

/// What stands against a commit: nothing; a held table with its least holder; or the first look-up, and in it the least key, whose
/// writers then and now differ. The operation is counted from 1.
#[derive(Debug, Drop)]
pub enum Verdict {
    Pass,
    Preserved {
        table: Table,
        holder: Tx,
    },
    Changed {
        op: u32,
        table: Table,
        key: Key,
        found: Option<Tx>,
        current: Option<Tx>,
    },
}

/// The verdict on a short over the latest rows. Whatever steps its notes are of: where the verdict is `Preserved`, the table is the
/// least one that they touch and somebody holds. Where it is `Pass`, no key that a step looked up has another writer now than it had
/// then, and where it is `Changed`, this key has, and none has in an earlier step, or a lesser one in this step.
pub fn check_short<L: Marked>(
    tx: &ShortTx,
    latest: &L,
    preserve: &Preserve,
) -> Result<Verdict, NoMemory>
    ensures verdict { IfOk result (λ verdict. (steps : List Step) → AreNotes steps tx.now.notes → AreMarkedAt (λ mark. L.rows_at mark latest.now) steps tx.now.marks → (holder : ℕ → Option ℕ) → AreHolders preserve.now holder → IsVerdict holder (L.rows latest.now) steps (verdict_of verdict)) }
{
    if let Some((table, holder)) = preserve.held(tx.touched()) {
        return Ok(Verdict::Preserved { table, holder });
    }
    first_change(tx, latest)
}

/// The verdict where nobody holds a table.
fn first_change<L: Marked>(tx: &ShortTx, latest: &L) -> Result<Verdict, NoMemory>
    ensures { IfOk result (λ verdict. (steps : List Step) → AreNotes steps tx.now.notes → AreMarkedAt (λ mark. L.rows_at mark latest.now) steps tx.now.marks → IsVerdict nobody (L.rows latest.now) steps (verdict_of verdict)) }
{
    let notes = tx.noted();
    let newest = latest.newest_mark();
    let mut marks = tx.marks();
    let mut place = 0u32;
    while let Some(mark) = marks.next() {
        if mark < newest {
            let note = &notes[place as usize];
            if let Some(difference) = difference_since(latest, note, mark)? {
                return Ok(changed(place + 1, note.table, difference));
            }
        }
        place += 1;
    }
    Ok(Verdict::Pass)
}

/// The verdict on a difference at an operation.
fn changed(op: u32, table: Table, difference: Difference) -> Verdict
    ensures { verdict_of result ≡ RefusedAsChanged (record { op = op; cell = record { table = table; key = difference.key }; found = difference.found; current = difference.current }) }
{
    let Difference {
        key,
        found,
        current,
    } = difference;
    Verdict::Changed {
        op,
        table,
        key,
        found,
        current,
    }
}

/// The least key that the noted operation looked up and that has another writer now than at the mark. Where no commit after the mark
/// wrote into its table there is none, and nothing is looked up.
fn difference_since<L: Marked>(
    latest: &L,
    note: &Noted,
    mark: u64,
) -> Result<Option<Difference>, NoMemory>
    ensures { IfOk result (λ difference. IsOrdered note.now.reach → Tells (L.rows_at mark latest.now) note.now.table note.now.reach None → Tells (L.rows latest.now) note.now.table note.now.reach difference) }
{
    if latest.newest_mark_of(note.table) <= mark {
        return Ok(None);
    }
    difference_at(latest, note)
}

/// The least key that the noted operation looked up and that has another writer now.
fn difference_at<L: Latest>(latest: &L, note: &Noted) -> Result<Option<Difference>, NoMemory>
    ensures { IfOk result (λ difference. IsOrdered note.now.reach → Tells (L.rows latest.now) note.now.table note.now.reach difference) }
{
    match &note.reach {
        Reach::Point {
            key,
            look,
            own: false,
        } => difference_at_key(latest, note.table, key, look),
        Reach::Range {
            low,
            high,
            looks,
            own,
        } => difference_in_range(latest, note.table, low, high, looks.items(), own.items()),
        _ => Ok(None),
    }
}

/// The writer by the look, none where there is no look.
fn writer_in(look: &Option<Look>) -> Option<Tx>
    ensures { result ≡ found_in look.now }
{
    look.as_ref().and_then(writer_of)
}

/// The key, where it has another writer now than by its look.
fn difference_at_key<L: Latest>(
    latest: &L,
    table: Table,
    key: &Key,
    look: &Option<Look>,
) -> Result<Option<Difference>, NoMemory>
    ensures { IfOk result (λ difference. Tells (L.rows latest.now) table (Point key.now look.now false) difference) }
{
    let found = writer_in(look);
    let current = latest.writer(table, key);
    if found == current {
        return Ok(None);
    }
    Ok(Some(Difference::at(key, found, current)?))
}

#[cfg(test)]
mod tests {
    use super::{Verdict, check_short};
    use ltx_chain::marked::Marked;
    use ltx_model::bytes::{Bound, Key};
    use ltx_model::latest::Latest;
    use ltx_model::memory::NoMemory;
    use ltx_model::numbers::{Table, Tx};
    use ltx_model::tables::TableSet;
    use ltx_model::writes::Look;
    use ltx_preserve::preserve::Preserve;
    use ltx_short::short::ShortTx;
    use std::test::Fail;

    // Rows of which none is left since mark 1.
    struct NoRows;

    impl Latest for NoRows {
        ghost use Rattle.std.specs.Prelude.{[]};

        ghost rows = { λ _. [] };

        fn writer(&self, _table: Table, _key: &Key) -> Option<Tx> {
            None
        }

        fn after(&self, _table: Table, _from: &[u8], _strict: bool) -> Option<(&Key, Tx)> {
            None
        }
    }

    impl Marked for NoRows {
        ghost use Rattle.std.specs.Prelude.{[]};

        ghost rows_at = { λ _ _. [] };

        fn newest_mark(&self) -> u64 {
            1
        }

        fn newest_mark_of(&self, _table: Table) -> u64 {
            1
        }
    }

    fn verdict_through_the_bound<L: Marked>(
        tx: &ShortTx,
        latest: &L,
        preserve: &Preserve,
    ) -> Result<Verdict, NoMemory> {
        check_short(tx, latest, preserve)
    }

    fn key(rt: &HostRuntime) -> Result<Key, Fail> {
        Ok(Key::from_bytes(vec![in rt.alloc(); b'k']?)?)
    }

    fn bound(rt: &HostRuntime) -> Result<Bound, Fail> {
        Ok(Bound::from_bytes(Vec::new(rt.alloc()))?)
    }

    #[test]
    fn a_lost_row_is_a_change(rt: HostRuntime) -> Result<(), Fail> {
        let tx = Tx::new(7).ok_or(7u64)?;
        let table = Table::new(2).ok_or(2u8)?;
        let preserve = Preserve::new(rt.alloc());
        let mut short = ShortTx::new(rt.alloc(), tx);
        short.note_get(table, key(&rt)?, None, false)?;
        let gone = Look {
            key: key(&rt)?,
            writer: tx,
            gone: true,
        };
        short.note_scan(
            table,
            bound(&rt)?,
            bound(&rt)?,
            vec![in rt.alloc(); gone]?,
            Vec::new(rt.alloc()),
        )?;
        assert!(rt;
            matches!(
                verdict_through_the_bound(&short, &NoRows, &preserve)?,
                Verdict::Pass
            )
        );
        let put = Look {
            key: key(&rt)?,
            writer: tx,
            gone: false,
        };
        short.note_scan(
            table,
            bound(&rt)?,
            bound(&rt)?,
            vec![in rt.alloc(); put]?,
            Vec::new(rt.alloc()),
        )?;
        assert!(rt;
            matches!(
                verdict_through_the_bound(&short, &NoRows, &preserve)?,
                Verdict::Changed {
                    op: 3,
                    found: Some(_),
                    current: None,
                    ..
                }
            )
        );
        Ok(())
    }

    #[test]
    fn a_held_table_goes_first(rt: HostRuntime) -> Result<(), Fail> {
        let (tx, batch) = (Tx::new(7).ok_or(7u64)?, Tx::new(3).ok_or(3u64)?);
        let table = Table::new(2).ok_or(2u8)?;
        let mut preserve = Preserve::new(rt.alloc());
        preserve.add(batch, TableSet::empty().with(table))?;
        let mut short = ShortTx::new(rt.alloc(), tx);
        short.note_write(table, key(&rt)?)?;
        assert!(rt; matches!(check_short(&short, &NoRows, &preserve)?, Verdict::Pass));
        preserve.go_live_all();
        let Verdict::Preserved {
            table: held,
            holder,
        } = check_short(&short, &NoRows, &preserve)?
        else {
            return Err(Fail::from(7u64));
        };
        assert_eq!(rt; (held, holder), (table, batch));
        Ok(())
    }

    #[test]
    fn what_nobody_touched_since_is_not_looked_at(rt: HostRuntime) -> Result<(), Fail> {
        let tx = Tx::new(7).ok_or(7u64)?;
        let table = Table::new(2).ok_or(2u8)?;
        let preserve = Preserve::new(rt.alloc());
        let mut short = ShortTx::new(rt.alloc(), tx);
        short.set_mark(1)?;
        let put = Look {
            key: key(&rt)?,
            writer: tx,
            gone: false,
        };
        short.note_get(table, key(&rt)?, Some(put), false)?;
        assert!(rt; matches!(check_short(&short, &NoRows, &preserve)?, Verdict::Pass));
        Ok(())
    }
}
