//! Where transactions stand in the serial order, by how they were committed.

ghost use Rattle.std.specs.Prelude.{◌≡◌, ℕ, ◌<◌, Bool, true, false, List, [], ◌∷◌, ◌++◌, Contains};
ghost use Rattle.ltx_model.specs.declared.commands.Line.{Line};
ghost use Rattle.ltx_model.specs.declared.replies.Entry.{Entry};
ghost use Rattle.ltx_model.specs.Operations.{Transaction};
ghost use Rattle.ltx_model.specs.Agenda.{Committed, serial, has_slot};
ghost use Rattle.ltx_model.specs.States.{Declaration, IsShort, IsPending, IsLive, Active, transaction_of, Base, IsSound, State, order};
ghost use Rattle.ltx_model.specs.Histories.{state};
ghost use Rattle.ltx_model.specs.Answers.{IsLegalWith};
ghost use Rattle.ltx_laws.specs.Commits.{IsCommitOf, IsHomeReply, IsForwardedReply, IsPrintedForwarded, StandsJustBefore};
ghost use Rattle.ltx_laws.specs.Orders.{StandsBefore};

/// A committed short stands after every transaction that was committed before it, in every longer history.
pub fn short_stands_after_the_committed()
    ensures after { (built : State → Line → Bool) (base : Base) (history more : List Entry) (entry : Entry) → IsSound base
        → IsLegalWith built base (history ++ entry ∷ more)
        → (o : Active) → IsCommitOf (state base history) entry o → o.kind ≡ IsShort
        → (t : Transaction) → Contains (serial (state base history).agenda) t
        → StandsBefore (order (state base (history ++ entry ∷ more))) t.number o.number }
{}

/// A batch that committed at home stands after every member of its snapshot, in every longer history.
pub fn home_stands_after_its_snapshot()
    ensures after { (built : State → Line → Bool) (base : Base) (history more : List Entry) (entry : Entry) → IsSound base
        → IsLegalWith built base (history ++ entry ∷ more)
        → (o : Active) (d : Declaration) (snapshot : List Transaction) → IsCommitOf (state base history) entry o
        → o.kind ≡ IsLive d snapshot → IsHomeReply entry.reply → (t : Transaction) → Contains snapshot t
        → StandsBefore (order (state base (history ++ entry ∷ more))) t.number o.number }
{}

/// A forwarded batch was placed, as committed, immediately before its printed target. (A later batch may be placed between them.)
pub fn forwarded_stands_just_before_its_target()
    ensures placed { (built : State → Line → Bool) (base : Base) (history : List Entry) (entry : Entry) → IsSound base
        → IsLegalWith built base (history ++ entry ∷ [])
        → (o : Active) (target : ℕ) → IsCommitOf (state base history) entry o → IsForwardedReply entry.reply target
        → StandsJustBefore (state base (history ++ entry ∷ [])).agenda (Committed (transaction_of o)) target }
{}

/// Of two committed batches that stand against their numbers, the one with the greater number was printed as forwarded. A
/// batch is a transaction that had a slot.
pub fn against_numbers_is_forwarded()
    ensures printed { (built : State → Line → Bool) (base : Base) (history : List Entry) → IsSound base
        → IsLegalWith built base history
        → (a b : ℕ) → has_slot (state base history).moves a ≡ true → has_slot (state base history).moves b ≡ true
        → a < b → StandsBefore (order (state base history)) b a → IsPrintedForwarded base history b }
{}

/// What is committed was a short or a live batch, and its slot tells which: a batch had one and a short had none, in every
/// longer history.
pub fn slots_tell_batches_from_shorts()
    ensures batch { (built : State → Line → Bool) (base : Base) (history more : List Entry) (entry : Entry) → IsSound base
        → IsLegalWith built base (history ++ entry ∷ more)
        → (o : Active) → IsCommitOf (state base history) entry o
        → (d : Declaration) (snapshot : List Transaction) → o.kind ≡ IsLive d snapshot
        → has_slot (state base (history ++ entry ∷ more)).moves o.number ≡ true }
    ensures short { (built : State → Line → Bool) (base : Base) (history more : List Entry) (entry : Entry) → IsSound base
        → IsLegalWith built base (history ++ entry ∷ more)
        → (o : Active) → IsCommitOf (state base history) entry o → o.kind ≡ IsShort
        → has_slot (state base (history ++ entry ∷ more)).moves o.number ≡ false }
    ensures pending { (built : State → Line → Bool) (base : Base) (history more : List Entry) (entry : Entry) → IsSound base
        → IsLegalWith built base (history ++ entry ∷ more)
        → (o : Active) → IsCommitOf (state base history) entry o → (d : Declaration) → o.kind ≡ IsPending d → ⊥ }
{}
