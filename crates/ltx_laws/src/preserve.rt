//! What is preserved for live batches: no short commits a touch of it, and nobody behind a batch looks into it.

ghost use Rattle.std.specs.Prelude.{◌≡◌, ℕ, ◌<◌, Bool, true, false, List, [], ◌∷◌, ◌++◌, Contains};
ghost use Rattle.ltx_model.specs.declared.commands.Line.{Line};
ghost use Rattle.ltx_model.specs.declared.replies.Entry.{Entry};
ghost use Rattle.ltx_model.specs.Tables.{has_table};
ghost use Rattle.ltx_model.specs.Operations.{Transaction, operations, touches};
ghost use Rattle.ltx_model.specs.Agenda.{serial, part_before, part_from, has_slot};
ghost use Rattle.ltx_model.specs.States.{IsShort, Active, transaction_of, Base, IsSound, State, LiveBatch, live_batches};
ghost use Rattle.ltx_model.specs.Histories.{state};
ghost use Rattle.ltx_model.specs.Answers.{IsLegalWith};
ghost use Rattle.ltx_laws.specs.Commits.{IsCommitOf};
ghost use Rattle.ltx_laws.specs.Guards.{LooksIntoNone, WritesNone};

/// No short commits a touch of a table that a live batch preserves at that moment.
pub fn short_commits_no_preserved_touch()
    ensures untouched { (built : State → Line → Bool) (base : Base) (history : List Entry) (entry : Entry) → IsSound base
        → IsLegalWith built base (history ++ entry ∷ [])
        → (o : Active) → IsCommitOf (state base history) entry o → o.kind ≡ IsShort
        → (table : ℕ) → touches (operations (transaction_of o)) table ≡ true
        → (b : LiveBatch) → Contains (live_batches (state base history)) b
        → has_table b.declared.writes table ≡ false }
{}

/// No committed transaction that stands after a live batch looks into a table that this batch preserves.
pub fn nobody_behind_looks_into_what_is_preserved()
    ensures unread { (built : State → Line → Bool) (base : Base) (history : List Entry) → IsSound base
        → IsLegalWith built base history
        → (b : LiveBatch) → Contains (live_batches (state base history)) b
        → (t : Transaction) → Contains (serial (part_from b.tx.number (state base history).agenda)) t
        → LooksIntoNone b.declared.writes t }
{}

/// No committed batch with a greater number that stands before a live batch writes a table of this batch's area. (A live batch
/// with a greater number stands behind it.)
pub fn no_younger_before_writes_the_area()
    ensures unwritten { (built : State → Line → Bool) (base : Base) (history : List Entry) → IsSound base
        → IsLegalWith built base history
        → (b : LiveBatch) → Contains (live_batches (state base history)) b
        → (t : Transaction) → Contains (serial (part_before b.tx.number (state base history).agenda)) t
        → has_slot (state base history).moves t.number ≡ true → b.tx.number < t.number → WritesNone b.declared.reads t }
{}
