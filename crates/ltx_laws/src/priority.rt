//! The priority of batches: who overtakes nobody commits at once, and the least live batch overtakes nobody.

ghost use Rattle.std.specs.Prelude.{◌≡◌, ℕ, Bool, List, [], ◌∷◌, ◌++◌};
ghost use Rattle.ltx_model.specs.declared.commands.Line.{Line};
ghost use Rattle.ltx_model.specs.declared.replies.Entry.{Entry};
ghost use Rattle.ltx_model.specs.Operations.{Transaction};
ghost use Rattle.ltx_model.specs.States.{Declaration, IsLive, Active, transaction_of, Base, IsSound, State, LiveBatch};
ghost use Rattle.ltx_model.specs.Histories.{state};
ghost use Rattle.ltx_model.specs.Batches.{Overtakes};
ghost use Rattle.ltx_model.specs.Answers.{IsLegalWith};
ghost use Rattle.ltx_laws.specs.Priority.{AsksCommit, IsCommittedAtHome, WasLeast, batch_of};

/// A batch that overtakes nobody is never refused, never waits and is never forwarded: its commit is answered at once.
pub fn batch_that_overtakes_nobody_commits()
    ensures home { (built : State → Line → Bool) (base : Base) (history : List Entry) (entry : Entry) → IsSound base
        → IsLegalWith built base (history ++ entry ∷ [])
        → (o : Active) (d : Declaration) (snapshot : List Transaction) → AsksCommit (state base history) entry o
        → o.kind ≡ IsLive d snapshot
        → ((j : ℕ) → Overtakes (state base history) (batch_of o d snapshot) j → ⊥)
        → IsCommittedAtHome built (state base history) entry }
{}

/// A batch that was the least live one when it became live, batches of the same advance counted, is never refused, never waits
/// and is never forwarded.
pub fn least_batch_commits()
    ensures home { (built : State → Line → Bool) (base : Base) (history : List Entry) (entry : Entry) → IsSound base
        → IsLegalWith built base (history ++ entry ∷ [])
        → (o : Active) (d : Declaration) (snapshot : List Transaction) → AsksCommit (state base history) entry o
        → o.kind ≡ IsLive d snapshot → WasLeast base history o.number
        → IsCommittedAtHome built (state base history) entry }
{}
