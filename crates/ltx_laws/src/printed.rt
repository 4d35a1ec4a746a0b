//! What is printed: by its begin each transaction is a short or a batch, and what holds of commits and refusals is said of entries.

ghost use Rattle.std.specs.Prelude.{◌≡◌, ◌⊎◌, ℕ, ◌<◌, Bool, true, false, Option, Some, List, [], ◌∷◌, ◌++◌, Contains};
ghost use Rattle.ltx_model.specs.declared.commands.Line.{Line};
ghost use Rattle.ltx_model.specs.declared.replies.Entry.{Entry};
ghost use Rattle.ltx_model.specs.declared.replies.Reply.TheVariants as replies;
ghost use Rattle.ltx_model.specs.Operations.{Transaction};
ghost use Rattle.ltx_model.specs.Agenda.{Slot, has_slot};
ghost use Rattle.ltx_model.specs.States.{Declaration, IsShort, IsLive, Active, transaction_of, Base, IsSound, State, order};
ghost use Rattle.ltx_model.specs.Histories.{state};
ghost use Rattle.ltx_model.specs.Answers.{IsLegalWith};
ghost use Rattle.ltx_model.specs.Explained.{committed_by, committed_in, opens_from};
ghost use Rattle.ltx_laws.specs.Orders.{StandsBefore};
ghost use Rattle.ltx_laws.specs.Commits.{IsCommitOf, IsHomeReply};
ghost use Rattle.ltx_laws.specs.Refusals.{IsPreservedAnswer, IsChangedAnswer, IsLateAnswer, IsContradictsAnswer, IsWaitingAnswer};
ghost use Rattle.ltx_laws.specs.Printed.{IsPrintedShort, IsPrintedBatchAt, IsPrintedBatch, IsPrintedCommit, IsPrintedCommitIn, IsPrintedBefore};

/// A number has a slot only where its begin was printed as a batch's, with the epoch of the slot, and never where it was printed as a
/// short's. Nobody's begin is printed as both. What is committed began as a short or as a batch; a batch that is committed had a slot.
pub fn begins_tell_shorts_from_batches()
    ensures slot { (built : State → Line → Bool) (base : Base) (history : List Entry) → IsSound base
        → IsLegalWith built base history
        → (n epoch : ℕ) → Contains (state base history).moves (record { epoch = epoch; move = Slot n }) → IsPrintedBatchAt history n epoch }
    ensures slotted { (built : State → Line → Bool) (base : Base) (history : List Entry) → IsSound base
        → IsLegalWith built base history → (n : ℕ) → has_slot (state base history).moves n ≡ true → IsPrintedBatch history n }
    ensures unslotted { (built : State → Line → Bool) (base : Base) (history : List Entry) → IsSound base
        → IsLegalWith built base history → (n : ℕ) → IsPrintedShort history n → has_slot (state base history).moves n ≡ false }
    ensures one { (built : State → Line → Bool) (base : Base) (history : List Entry) → IsSound base
        → IsLegalWith built base history → (n : ℕ) → IsPrintedShort history n → IsPrintedBatch history n → ⊥ }
    ensures committed { (built : State → Line → Bool) (base : Base) (history : List Entry) → IsSound base
        → IsLegalWith built base history
        → (t : Transaction) → Contains (committed_in history) t → IsPrintedShort history t.number ⊎ IsPrintedBatch history t.number }
    ensures batch { (built : State → Line → Bool) (base : Base) (history : List Entry) → IsSound base
        → IsLegalWith built base history
        → (t : Transaction) → Contains (committed_in history) t → IsPrintedBatch history t.number
        → has_slot (state base history).moves t.number ≡ true }
{}

/// What is committed is committed by one of the entries. An entry commits, by what those before it tell, exactly the open transaction
/// of its session in the state; this one is a short where its begin was printed as a short's, and else a live batch.
pub fn printed_commits_are_those_of_the_state()
    ensures printed { (built : State → Line → Bool) (base : Base) (history : List Entry) → IsSound base
        → IsLegalWith built base history
        → (t : Transaction) → Contains (committed_in history) t → IsPrintedCommit history t }
    ensures given { (built : State → Line → Bool) (base : Base) (history more : List Entry) (entry : Entry) → IsSound base
        → IsLegalWith built base (history ++ entry ∷ more)
        → (t : Transaction) → committed_by (opens_from [] history) entry ≡ Some t
        → (o : Active) × IsCommitOf (state base history) entry o × (transaction_of o ≡ t) }
    ensures found { (built : State → Line → Bool) (base : Base) (history more : List Entry) (entry : Entry) → IsSound base
        → IsLegalWith built base (history ++ entry ∷ more)
        → (o : Active) → IsCommitOf (state base history) entry o
        → committed_by (opens_from [] history) entry ≡ Some (transaction_of o) }
    ensures short { (built : State → Line → Bool) (base : Base) (history more : List Entry) (entry : Entry) → IsSound base
        → IsLegalWith built base (history ++ entry ∷ more)
        → (o : Active) → IsCommitOf (state base history) entry o
        → IsPrintedShort (history ++ entry ∷ more) o.number → o.kind ≡ IsShort }
    ensures batch { (built : State → Line → Bool) (base : Base) (history more : List Entry) (entry : Entry) → IsSound base
        → IsLegalWith built base (history ++ entry ∷ more)
        → (o : Active) → IsCommitOf (state base history) entry o
        → IsPrintedBatch (history ++ entry ∷ more) o.number
        → (d : Declaration) × (snapshot : List Transaction) × (o.kind ≡ IsLive d snapshot) × IsPrintedBatchAt history o.number d.from }
{}

/// Of two committed batches, by their printed begins, that stand against their numbers, the one with the greater number was printed as
/// committed before a target.
pub fn against_numbers_is_printed()
    ensures before { (built : State → Line → Bool) (base : Base) (history : List Entry) → IsSound base
        → IsLegalWith built base history
        → (a b : ℕ) → IsPrintedBatch history a → IsPrintedBatch history b
        → a < b → StandsBefore (order (state base history)) b a → IsPrintedBefore history b }
{}

/// By what is printed alone: a committed short stands after every transaction that was committed before it; and a batch that is
/// printed as committed without a target stands after every transaction whose commit was printed with an epoch below the batch's.
pub fn printed_places_hold()
    ensures short { (built : State → Line → Bool) (base : Base) (history more : List Entry) (entry : Entry) → IsSound base
        → IsLegalWith built base (history ++ entry ∷ more)
        → (t : Transaction) → committed_by (opens_from [] history) entry ≡ Some t → IsPrintedShort (history ++ entry ∷ more) t.number
        → (u : Transaction) → Contains (committed_in history) u
        → StandsBefore (order (state base (history ++ entry ∷ more))) u.number t.number }
    ensures home { (built : State → Line → Bool) (base : Base) (history more : List Entry) (entry : Entry) → IsSound base
        → IsLegalWith built base (history ++ entry ∷ more)
        → (t : Transaction) (epoch : ℕ) → committed_by (opens_from [] history) entry ≡ Some t
        → IsPrintedBatchAt (history ++ entry ∷ more) t.number epoch → IsHomeReply entry.reply
        → (u : Transaction) (e : ℕ) → IsPrintedCommitIn history u e → e < epoch
        → StandsBefore (order (state base (history ++ entry ∷ more))) u.number t.number }
{}

/// Each `preserved`, `changed`, `late`, `contradicts` and `waiting` among the entries has what stands behind it in the state before it.
pub fn printed_refusals_have_their_witnesses()
    ensures preserved { (built : State → Line → Bool) (base : Base) (history more : List Entry) (entry : Entry) → IsSound base
        → IsLegalWith built base (history ++ entry ∷ more)
        → (table n : ℕ) → entry.reply ≡ replies.Preserved table n
        → IsPreservedAnswer (state base history) entry table n }
    ensures changed { (built : State → Line → Bool) (base : Base) (history more : List Entry) (entry : Entry) → IsSound base
        → IsLegalWith built base (history ++ entry ∷ more)
        → (op table : ℕ) (key : List ℕ) (found current : Option ℕ)
        → entry.reply ≡ replies.Changed op table key found current
        → IsChangedAnswer (state base history) entry (record {
          op = op;
          cell = record { table = table; key = key };
          found = found;
          current = current;
        }) }
    ensures late { (built : State → Line → Bool) (base : Base) (history more : List Entry) (entry : Entry) → IsSound base
        → IsLegalWith built base (history ++ entry ∷ more)
        → (target op table : ℕ) (key : List ℕ) (writer : ℕ)
        → entry.reply ≡ replies.Late target op table key writer
        → IsLateAnswer (state base history) entry target (record {
          op = op;
          cell = record { table = table; key = key };
          other = writer;
        }) }
    ensures contradicts { (built : State → Line → Bool) (base : Base) (history more : List Entry) (entry : Entry) → IsSound base
        → IsLegalWith built base (history ++ entry ∷ more)
        → (target op table : ℕ) (key : List ℕ) (reader : ℕ)
        → entry.reply ≡ replies.Contradicts target op table key reader
        → IsContradictsAnswer (state base history) entry target (record {
          op = op;
          cell = record { table = table; key = key };
          other = reader;
        }) }
    ensures waiting { (built : State → Line → Bool) (base : Base) (history more : List Entry) (entry : Entry) → IsSound base
        → IsLegalWith built base (history ++ entry ∷ more)
        → (k : ℕ) → entry.reply ≡ replies.Waiting k → IsWaitingAnswer (state base history) entry k }
{}
