//! What a short and the commit of a live batch are answered in each case, by the relations. With the laws on refusals: exactly then.

ghost use Rattle.std.specs.Prelude.{◌≡◌, ℕ, Bool, true, List, [], ◌∷◌, ◌++◌};
ghost use Rattle.ltx_model.specs.declared.commands.Line.{Line};
ghost use Rattle.ltx_model.specs.declared.commands.Op.{Op};
ghost use Rattle.ltx_model.specs.declared.replies.Entry.{Entry};
ghost use Rattle.ltx_model.specs.declared.replies.Reply.TheVariants as replies;
ghost use Rattle.ltx_model.specs.Operations.{Transaction, operations, table_of, touches};
ghost use Rattle.ltx_model.specs.States.{Declaration, IsShort, IsLive, Active, transaction_of, Base, IsSound, State, latest};
ghost use Rattle.ltx_model.specs.Histories.{state};
ghost use Rattle.ltx_model.specs.Shorts.{IsHeld, IsLeastHeld, Change, Changes, IsFirstChange};
ghost use Rattle.ltx_model.specs.Batches.{Witness, IsTarget, IsOvertakenLive, IsLate, IsFirstLate, IsFirstContradicted, HasWitness, Waits};
ghost use Rattle.ltx_model.specs.Answers.{IsLegalWith};
ghost use Rattle.ltx_laws.specs.Priority.{AsksCommit, batch_of};
ghost use Rattle.ltx_laws.specs.Answered.{AsksOperation, IsAnswered};

/// A short's operation in a held table is answered `preserved` with the least holder. Its commit is answered `preserved` with the least
/// held table that it touched; else `changed` with its first change; else `committed` with the epoch.
pub fn short_is_answered_by_its_case()
    ensures operation { (built : State → Line → Bool) (base : Base) (history : List Entry) (entry : Entry) → IsSound base
        → IsLegalWith built base (history ++ entry ∷ [])
        → (o : Active) (op : Op) → AsksOperation (state base history) entry o op → o.kind ≡ IsShort
        → (n : ℕ) → IsHeld (state base history) (table_of op) n
        → IsAnswered built (state base history) entry (replies.Preserved (table_of op) n) }
    ensures held { (built : State → Line → Bool) (base : Base) (history : List Entry) (entry : Entry) → IsSound base
        → IsLegalWith built base (history ++ entry ∷ [])
        → (o : Active) → AsksCommit (state base history) entry o → o.kind ≡ IsShort
        → (table n : ℕ) → IsLeastHeld (state base history) (operations (transaction_of o)) table n
        → IsAnswered built (state base history) entry (replies.Preserved table n) }
    ensures changed { (built : State → Line → Bool) (base : Base) (history : List Entry) (entry : Entry) → IsSound base
        → IsLegalWith built base (history ++ entry ∷ [])
        → (o : Active) → AsksCommit (state base history) entry o → o.kind ≡ IsShort
        → ((table n : ℕ) → touches (operations (transaction_of o)) table ≡ true → IsHeld (state base history) table n → ⊥)
        → (c : Change) → IsFirstChange (latest (state base history)) o.steps c
        → IsAnswered built (state base history) entry (replies.Changed c.op c.cell.table c.cell.key c.found c.current) }
    ensures committed { (built : State → Line → Bool) (base : Base) (history : List Entry) (entry : Entry) → IsSound base
        → IsLegalWith built base (history ++ entry ∷ [])
        → (o : Active) → AsksCommit (state base history) entry o → o.kind ≡ IsShort
        → ((table n : ℕ) → touches (operations (transaction_of o)) table ≡ true → IsHeld (state base history) table n → ⊥)
        → ((c : Change) → Changes (latest (state base history)) o.steps c → ⊥)
        → IsAnswered built (state base history) entry (replies.Committed (state base history).epoch) }
{}

/// The commit of a live batch that overtakes somebody is answered `waiting` where it waits for somebody. Else, where a witness stands at
/// its place, it is answered `late` with the first late one, or `contradicts` with the first contradicted one where none is late. Else it
/// is committed before its target. (`batch_that_overtakes_nobody_commits` is the other case.)
pub fn batch_commit_is_answered_by_its_case()
    ensures waiting { (built : State → Line → Bool) (base : Base) (history : List Entry) (entry : Entry) → IsSound base
        → IsLegalWith built base (history ++ entry ∷ [])
        → (o : Active) (d : Declaration) (snapshot : List Transaction) → AsksCommit (state base history) entry o
        → o.kind ≡ IsLive d snapshot → (k : ℕ) → Waits (state base history) (batch_of o d snapshot) k
        → IsAnswered built (state base history) entry (replies.Waiting k) }
    ensures late { (built : State → Line → Bool) (base : Base) (history : List Entry) (entry : Entry) → IsSound base
        → IsLegalWith built base (history ++ entry ∷ [])
        → (o : Active) (d : Declaration) (snapshot : List Transaction) → AsksCommit (state base history) entry o
        → o.kind ≡ IsLive d snapshot → (p : ℕ) → IsTarget (state base history) (batch_of o d snapshot) p
        → ((j : ℕ) → IsOvertakenLive (state base history) (batch_of o d snapshot) j → ⊥)
        → (w : Witness) → IsFirstLate (state base history) (batch_of o d snapshot) p w
        → IsAnswered built (state base history) entry (replies.Late p w.op w.cell.table w.cell.key w.other) }
    ensures contradicts { (built : State → Line → Bool) (base : Base) (history : List Entry) (entry : Entry) → IsSound base
        → IsLegalWith built base (history ++ entry ∷ [])
        → (o : Active) (d : Declaration) (snapshot : List Transaction) → AsksCommit (state base history) entry o
        → o.kind ≡ IsLive d snapshot → (p : ℕ) → IsTarget (state base history) (batch_of o d snapshot) p
        → ((j : ℕ) → IsOvertakenLive (state base history) (batch_of o d snapshot) j → ⊥)
        → ((v : Witness) → IsLate (state base history) (batch_of o d snapshot) p v → ⊥)
        → (w : Witness) → IsFirstContradicted (state base history) (batch_of o d snapshot) p w
        → IsAnswered built (state base history) entry (replies.Contradicts p w.op w.cell.table w.cell.key w.other) }
    ensures forwarded { (built : State → Line → Bool) (base : Base) (history : List Entry) (entry : Entry) → IsSound base
        → IsLegalWith built base (history ++ entry ∷ [])
        → (o : Active) (d : Declaration) (snapshot : List Transaction) → AsksCommit (state base history) entry o
        → o.kind ≡ IsLive d snapshot → (p : ℕ) → IsTarget (state base history) (batch_of o d snapshot) p
        → (HasWitness (state base history) (batch_of o d snapshot) p → ⊥)
        → ((k : ℕ) → Waits (state base history) (batch_of o d snapshot) k → ⊥)
        → IsAnswered built (state base history) entry (replies.CommittedBefore (state base history).epoch p) }
{}
