//! The notes of a transaction, which a short and a batch have in common.
//!
//! Each operation leaves one note, in the order in which it was answered, so the number of notes is
//! the number of operations. The tables that notes touch and look into are kept beside them. A note
//! also has a mark: the number of commits at its moment. Notes that follow one another mostly have
//! the same one, so marks are kept by runs.

ghost use Rattle.std.specs.Prelude.{◌≡◌, ◌<◌, ◌≤◌, ℕ, List, [], ◌∷◌, ◌++◌, length, OnOk, OnErr, IfSome, IfNone, Some, None};
ghost use Rattle.std.specs.List.{list_any, AllByRecursion};
ghost use Rattle.ltx_model.specs.Tables.{has_table};
ghost use Rattle.ltx_model.specs.declared.looked.Reach.TheVariants.{Nothing, Point, Range};
ghost use Rattle.ltx_model.specs.Limits.{most_operations};
ghost use Rattle.ltx_model.specs.NoteLists.{no_notes, with_note, at_mark, is_of_table, looks_into_table};

use crate::bytes::{Bound, Key};
use crate::looked::{Noted, Reach};
use crate::memory::NoMemory;
use crate::numbers::Table;
use crate::tables::TableSet;
use crate::writes::{KeyList, Look, LookList};
use std::alloc::Global;
use std::marker::Model;

// Notes that follow one another with the same mark.
#[derive(Clone, Copy, Debug)]
struct Run {
    mark: u64,
    count: usize,
}

/// The notes of a transaction.
#[derive(Debug, Drop)]
pub struct Notes {
    notes: Vec<Noted>,
    // The runs of earlier marks, and how many notes they have.
    runs: Vec<Run>,
    earlier: usize,
    // The mark of the notes after those.
    mark: u64,
    touched: TableSet,
    looked_into: TableSet,
}

// Clauses see the notes, the mark of each, and the mark of those to come.
impl Model for Notes {
    ghost use Rattle.std.specs.Prelude.{◌-◌, length};
    ghost use Rattle.ltx_model.specs.NoteLists.{NoteList, IsSummary, marks_of};

    ghost Value = { NoteList };

    ghost view = { λ s. record { notes = s.notes.items; marks = marks_of s.runs.items s.mark (length s.notes.items - s.earlier); mark = s.mark } };

    ghost invariant = { λ s. IsSummary s.notes.items s.runs.items s.earlier s.touched s.looked_into };
}

impl Notes {
    /// No notes, which take no memory. The first ones are of mark 0.
    pub fn new(alloc: Global) -> Notes
        ensures { result ≡ no_notes }
    {
        Notes {
            notes: Vec::new(alloc),
            runs: Vec::new(alloc),
            earlier: 0,
            mark: 0,
            touched: TableSet::empty(),
            looked_into: TableSet::empty(),
        }
    }

    /// The next notes are of this mark, the number of commits by now. After NoMemory nothing has
    /// changed.
    pub fn set_mark(&mut self, mark: u64) -> Result<(), NoMemory>
        ensures marked { OnOk result (self.new ≡ at_mark self.old mark) }
        ensures kept { OnErr result (self.new ≡ self.old) }
    {
        let count = self.notes.len() - self.earlier;
        if mark != self.mark && count > 0 {
            self.runs.push(Run {
                mark: self.mark,
                count,
            })?;
            self.earlier += count;
        }
        self.mark = mark;
        Ok(())
    }

    /// Notes a get: the look of the key's last writer, and whether the transaction had written the
    /// key before. After NoMemory nothing has changed.
    pub fn note_get(
        &mut self,
        table: Table,
        key: Key,
        look: Option<Look>,
        own: bool,
    ) -> Result<(), NoMemory>
        requires limit { length self.old.notes < most_operations }
        ensures noted { OnOk result (self.new ≡ with_note self.old (record { table = table; reach = Point key look own; write = None })) }
        ensures kept { OnErr result (self.new ≡ self.old) }
    {
        self.note(Noted {
            table,
            reach: Reach::Point { key, look, own },
            write: None,
        })
    }

    /// Notes a scan: the looks of the kept keys of its range, and the keys of the range that the
    /// transaction had written before. After NoMemory nothing has changed.
    pub fn note_scan(
        &mut self,
        table: Table,
        low: Bound,
        high: Bound,
        looks: Vec<Look>,
        own: Vec<Key>,
    ) -> Result<(), NoMemory>
        requires limit { length self.old.notes < most_operations }
        ensures noted { OnOk result (self.new ≡ with_note self.old (record { table = table; reach = Range low high looks.items own.items; write = None })) }
        ensures kept { OnErr result (self.new ≡ self.old) }
    {
        self.note(Noted {
            table,
            reach: Reach::Range {
                low,
                high,
                looks: LookList::from_vec(looks),
                own: KeyList::from_vec(own),
            },
            write: None,
        })
    }

    /// Notes a put or a deletion of the key. After NoMemory nothing has changed.
    pub fn note_write(&mut self, table: Table, key: Key) -> Result<(), NoMemory>
        requires limit { length self.old.notes < most_operations }
        ensures noted { OnOk result (self.new ≡ with_note self.old (record { table = table; reach = Nothing; write = Some key })) }
        ensures kept { OnErr result (self.new ≡ self.old) }
    {
        self.note(Noted {
            table,
            reach: Reach::Nothing,
            write: Some(key),
        })
    }

    /// The number of operations noted.
    pub fn count(&self) -> u32
        ensures value { result ≡ length self.now.notes }
        ensures limit { result ≤ most_operations }
    {
        self.notes.len() as u32
    }

    /// The notes, in order.
    pub fn items(&self) -> &[Noted]
        ensures { result.now ≡ self.now.notes }
    {
        &self.notes
    }

    /// The marks of the notes, in order.
    pub fn marks(&self) -> Marks<'_>
        ensures value { result ≡ self.now.marks }
        ensures count { length result ≡ length self.now.notes }
        ensures limit { length self.now.notes ≤ most_operations }
    {
        Marks {
            mark: 0,
            count: 0,
            later: &self.runs,
            last: Some(Run {
                mark: self.mark,
                count: self.notes.len() - self.earlier,
            }),
        }
    }

    /// The tables that operations touched.
    pub fn touched(&self) -> TableSet
        ensures members { (t : ℕ) → t < 64 → has_table result t ≡ list_any (is_of_table t) self.now.notes }
        ensures within { AllByRecursion (λ note. note.table < 64) self.now.notes }
    {
        self.touched
    }

    /// The tables that operations looked into: by a scan, or by a get of a key that the transaction
    /// had not written before.
    pub fn looked_into(&self) -> TableSet
        ensures { (t : ℕ) → t < 64 → has_table result t ≡ list_any (looks_into_table t) self.now.notes }
    {
        self.looked_into
    }

    fn note(&mut self, note: Noted) -> Result<(), NoMemory>
        requires limit { length self.old.notes < most_operations }
        ensures noted { OnOk result (self.new ≡ with_note self.old note) }
        ensures kept { OnErr result (self.new ≡ self.old) }
    {
        let table = note.table;
        let looks = looks_into(&note);
        self.notes.push(note)?;
        self.touched = self.touched.with(table);
        if looks {
            self.looked_into = self.looked_into.with(table);
        }
        Ok(())
    }
}

/// The marks of notes that are still to come, in order.
#[derive(Drop)]
pub struct Marks<'n> {
    // The mark of the next ones, and how many are left of them.
    mark: u64,
    count: usize,
    // The runs after those, and the last one.
    later: &'n [Run],
    last: Option<Run>,
}

// Clauses see the list of marks that are still to come.
impl<'n> Model for Marks<'n> {
    ghost use Rattle.std.specs.Prelude.{ℕ, List, ◌++◌, replicate};
    ghost use Rattle.ltx_model.specs.NoteLists.{marks_in, marks_in_last};

    ghost Value = { List ℕ };

    ghost view = { λ m. replicate m.count m.mark ++ marks_in m.later.now ++ marks_in_last m.last };
}

impl<'n> Marks<'n> {
    /// The next mark, or None where there is none left.
    pub fn next(&mut self) -> Option<u64>
        ensures some { IfSome result (λ mark. self.old ≡ mark ∷ self.new) }
        ensures none { IfNone result (self.old ≡ []) }
        ensures end { IfNone result (self.new ≡ []) }
    {
        while self.count == 0 {
            let run = match self.later.split_first() {
                Some((run, later)) => {
                    self.later = later;
                    *run
                }
                None => self.last.take()?,
            };
            self.mark = run.mark;
            self.count = run.count;
        }
        self.count -= 1;
        Some(self.mark)
    }
}

// Whether the noted operation looked into its table.
fn looks_into(note: &Noted) -> bool
    ensures { result ≡ looks_into_table note.now.table note.now }
{
    match &note.reach {
        Reach::Nothing => false,
        Reach::Point { own, .. } => !*own,
        Reach::Range { .. } => true,
    }
}
