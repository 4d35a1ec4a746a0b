//! Versions of a key: a commit installs its write unless a version of the key stands later in the agenda.

ghost use Rattle.std.specs.Prelude.{◌≡◌, ℕ, ◌<◌, ◌≤◌, Bool, true, Option, Some, None, option_map, List, Contains};
ghost use Rattle.std.specs.List.{AllByRecursion};
ghost use Rattle.ltx_model.specs.declared.commands.Line.{Line};
ghost use Rattle.ltx_model.specs.declared.replies.Entry.{Entry};
ghost use Rattle.ltx_model.specs.Keys.{Cell};
ghost use Rattle.ltx_model.specs.StoredRows.{row_at};
ghost use Rattle.ltx_model.specs.Operations.{Transaction, operations, writes_key};
ghost use Rattle.ltx_model.specs.Rows.{run};
ghost use Rattle.ltx_model.specs.Agenda.{serial, is_member, part_before, commits_of, moves_until};
ghost use Rattle.ltx_model.specs.States.{Base, IsSound, State, LiveBatch, live_batches, latest};
ghost use Rattle.ltx_model.specs.Marks.{mark_of_slot, number_of_commit};
ghost use Rattle.ltx_model.specs.Histories.{state};
ghost use Rattle.ltx_model.specs.Batches.{last_writer_from, last_writer};
ghost use Rattle.ltx_model.specs.Answers.{IsLegalWith};
ghost use Rattle.ltx_model.specs.Lists.{IsPairwise};
ghost use Rattle.ltx_model.specs.Versions.{chain_of, newest, version_row};
ghost use Rattle.ltx_laws.specs.Orders.{IsPrefix, IsSublist};

/// The installed versions of a key are writes of committed transactions, and they rise in commit time and in agenda order alike:
/// they stand in the order of the commits, and each one stands before each later one in the agenda.
pub fn installed_versions_rise()
    ensures written { (built : State → Line → Bool) (base : Base) (history : List Entry) → IsSound base
        → IsLegalWith built base history → (key : Cell)
        → AllByRecursion (λ v. Contains (serial (state base history).agenda) v
        × (writes_key (operations v) key ≡ true))
        (chain_of key (state base history).moves) }
    ensures time { (built : State → Line → Bool) (base : Base) (history : List Entry) → IsSound base
        → IsLegalWith built base history → (key : Cell)
        → IsSublist (chain_of key (state base history).moves)
        (commits_of (state base history).moves) }
    ensures agenda { (built : State → Line → Bool) (base : Base) (history : List Entry) → IsSound base
        → IsLegalWith built base history → (key : Cell)
        → IsPairwise (λ u v. is_member (part_before v.number (state base history).agenda)
        u.number ≡ true) (chain_of key (state base history).moves) }
{}

/// The newest installed version of a key gives its row in the latest rows.
pub fn newest_version_is_the_latest_row()
    ensures { (built : State → Line → Bool) (base : Base) (history : List Entry) → IsSound base
        → IsLegalWith built base history → (key : Cell)
        → row_at (latest (state base history)) key
        ≡ version_row base.rows key (newest (chain_of key (state base history).moves)) }
{}

/// The versions that were installed before the slot of a live batch begin the chain of their key, and the newest one of them
/// gives the key's row in the rows of the batch's snapshot.
pub fn newest_version_at_a_slot_is_the_snapshot_row()
    ensures row { (built : State → Line → Bool) (base : Base) (history : List Entry) → IsSound base
        → IsLegalWith built base history → (key : Cell)
        → (batch : LiveBatch) → Contains (live_batches (state base history)) batch
        → row_at (run base.rows batch.snapshot) key
        ≡ version_row base.rows key
        (newest (chain_of key (moves_until batch.tx.number (state base history).moves))) }
    ensures first { (built : State → Line → Bool) (base : Base) (history : List Entry) → IsSound base
        → IsLegalWith built base history → (key : Cell)
        → (batch : LiveBatch) → Contains (live_batches (state base history)) batch
        → IsPrefix (chain_of key (moves_until batch.tx.number (state base history).moves))
        (chain_of key (state base history).moves) }
{}

/// The newest installed version of a key is the key's last writer in the order, deletions included, and there is none exactly where the
/// key has no writer there; and the newest one of those that were installed before the slot of a live batch is the last writer in its
/// snapshot.
pub fn newest_version_is_the_last_writers()
    ensures now { (built : State → Line → Bool) (base : Base) (history : List Entry) → IsSound base
        → IsLegalWith built base history → (key : Cell)
        → option_map (λ t. t.number) (newest (chain_of key (state base history).moves))
        ≡ last_writer_from None key (serial (state base history).agenda) }
    ensures snapshot { (built : State → Line → Bool) (base : Base) (history : List Entry) → IsSound base
        → IsLegalWith built base history → (key : Cell)
        → (batch : LiveBatch) → Contains (live_batches (state base history)) batch
        → option_map (λ t. t.number) (newest (chain_of key (moves_until batch.tx.number (state base history).moves)))
        ≡ last_writer batch key }
{}

/// Along the chain of a key the numbers of the versions' commits rise. Those that were installed before the slot of a live batch are
/// exactly the versions of the chain whose number is at most the batch's mark: what is visible there.
pub fn versions_have_rising_marks()
    ensures rising { (built : State → Line → Bool) (base : Base) (history : List Entry) → IsSound base
        → IsLegalWith built base history → (key : Cell)
        → IsPairwise (λ u v. (a b : ℕ) → number_of_commit (state base history).moves u.number ≡ Some a
        → number_of_commit (state base history).moves v.number ≡ Some b → a < b) (chain_of key (state base history).moves) }
    ensures within { (built : State → Line → Bool) (base : Base) (history : List Entry) → IsSound base
        → IsLegalWith built base history → (key : Cell)
        → (batch : LiveBatch) → Contains (live_batches (state base history)) batch
        → (k : ℕ) → mark_of_slot (state base history).moves batch.tx.number ≡ Some k
        → (v : Transaction) → Contains (chain_of key (moves_until batch.tx.number (state base history).moves)) v
        → (c : ℕ) × (number_of_commit (state base history).moves v.number ≡ Some c) × (c ≤ k) }
    ensures visible { (built : State → Line → Bool) (base : Base) (history : List Entry) → IsSound base
        → IsLegalWith built base history → (key : Cell)
        → (batch : LiveBatch) → Contains (live_batches (state base history)) batch
        → (k c : ℕ) → mark_of_slot (state base history).moves batch.tx.number ≡ Some k
        → (v : Transaction) → Contains (chain_of key (state base history).moves) v
        → number_of_commit (state base history).moves v.number ≡ Some c → c ≤ k
        → Contains (chain_of key (moves_until batch.tx.number (state base history).moves)) v }
{}
