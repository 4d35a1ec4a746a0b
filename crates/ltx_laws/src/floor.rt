//! The floor: the place in the agenda before which nothing changes any more.

ghost use Rattle.std.specs.Prelude.{◌≡◌, ℕ, Bool, true, false, List, [], ◌∷◌, ◌++◌, Option, Some, None, Contains};
ghost use Rattle.ltx_model.specs.declared.commands.Line.{Line};
ghost use Rattle.ltx_model.specs.declared.replies.Entry.{Entry};
ghost use Rattle.ltx_model.specs.Operations.{Transaction};
ghost use Rattle.ltx_model.specs.Agenda.{serial, is_member, part_before};
ghost use Rattle.ltx_model.specs.States.{Active, Base, IsSound, State, LiveBatch, live_batches};
ghost use Rattle.ltx_model.specs.Histories.{state};
ghost use Rattle.ltx_model.specs.Answers.{IsLegalWith};
ghost use Rattle.ltx_model.specs.Batches.{target, Overtakes, Witness, is_from, IsLate, IsContradicted, MayRead, floor, before_floor, safe};
ghost use Rattle.ltx_laws.specs.Commits.{IsCommitOf};
ghost use Rattle.ltx_laws.specs.Floors.{CountsForFloor, IsFloor};
ghost use Rattle.ltx_laws.specs.Orders.{IsPrefix};

/// There is a floor exactly while a batch is live.
pub fn a_floor_while_a_batch_is_live()
    ensures live { (built : State → Line → Bool) (base : Base) (history : List Entry) → IsSound base
        → IsLegalWith built base history
        → (f : ℕ) → floor (state base history) ≡ Some f → live_batches (state base history) ≡ [] → ⊥ }
    ensures none { (built : State → Line → Bool) (base : Base) (history : List Entry) → IsSound base
        → IsLegalWith built base history
        → floor (state base history) ≡ None → (b : LiveBatch) → Contains (live_batches (state base history)) b → ⊥ }
{}

/// The floor is a live batch, or a batch whose commit came after the slot of a batch that is live now, and nothing that is one of these
/// stands before it; there is none exactly where nothing is one of these. The members before the floor are those before this one, or all
/// of them where there is none.
pub fn floor_is_the_earliest()
    ensures given { (built : State → Line → Bool) (base : Base) (history : List Entry) → IsSound base
        → IsLegalWith built base history
        → (f : ℕ) → floor (state base history) ≡ Some f → IsFloor (state base history) f }
    ensures found { (built : State → Line → Bool) (base : Base) (history : List Entry) → IsSound base
        → IsLegalWith built base history
        → (f : ℕ) → IsFloor (state base history) f → floor (state base history) ≡ Some f }
    ensures none { (built : State → Line → Bool) (base : Base) (history : List Entry) → IsSound base
        → IsLegalWith built base history
        → floor (state base history) ≡ None → (n : ℕ) → CountsForFloor (state base history) n → ⊥ }
    ensures before { (built : State → Line → Bool) (base : Base) (history : List Entry) → IsSound base
        → IsLegalWith built base history
        → (f : ℕ) → floor (state base history) ≡ Some f
        → before_floor (state base history) ≡ part_before f (state base history).agenda }
    ensures all { (built : State → Line → Bool) (base : Base) (history : List Entry) → IsSound base
        → IsLegalWith built base history
        → floor (state base history) ≡ None → before_floor (state base history) ≡ (state base history).agenda }
{}

/// While there is a floor, each target of a live batch's commit is the floor or stands after it.
pub fn targets_stand_from_the_floor()
    ensures { (built : State → Line → Bool) (base : Base) (history : List Entry) → IsSound base
        → IsLegalWith built base history
        → (batch : LiveBatch) → Contains (live_batches (state base history)) batch
        → (f p : ℕ) → floor (state base history) ≡ Some f
        → target (state base history) batch ≡ Some p
        → is_from (state base history) f p ≡ true }
{}

/// The members before the floor, or all of them where there is none, stay the first ones: in each longer history the members
/// before its floor begin with them. So a committed one among them has before it the same members for ever.
pub fn members_before_the_floor_stay()
    ensures first { (built : State → Line → Bool) (base : Base) (history more : List Entry) → IsSound base
        → IsLegalWith built base (history ++ more)
        → IsPrefix (before_floor (state base history))
        (before_floor (state base (history ++ more))) }
    ensures predecessors { (built : State → Line → Bool) (base : Base) (history more : List Entry) → IsSound base
        → IsLegalWith built base (history ++ more)
        → (t : Transaction) → Contains (safe (state base history)) t
        → part_before t.number (state base (history ++ more)).agenda
        ≡ part_before t.number (state base history).agenda }
{}

/// The committed members before the floor, or the order where there is none, are a prefix of the same list of every longer
/// history, and of its order.
pub fn safe_is_a_prefix()
    ensures safe { (built : State → Line → Bool) (base : Base) (history more : List Entry) → IsSound base
        → IsLegalWith built base (history ++ more)
        → IsPrefix (safe (state base history)) (safe (state base (history ++ more))) }
    ensures order { (built : State → Line → Bool) (base : Base) (history more : List Entry) → IsSound base
        → IsLegalWith built base (history ++ more)
        → IsPrefix (safe (state base history)) (serial (state base (history ++ more)).agenda) }
{}

/// Who stands before the floor, or anywhere where there is none, never stands at or after a later floor: so each member at or after the
/// floor of a longer history stood at or after this one's, or was no member yet. A short that commits while no batch is live never
/// stands at or after a floor.
pub fn settled_members_stay_settled()
    ensures settled { (built : State → Line → Bool) (base : Base) (history more : List Entry) → IsSound base
        → IsLegalWith built base (history ++ more)
        → (n f : ℕ) → is_member (before_floor (state base history)) n ≡ true → floor (state base (history ++ more)) ≡ Some f
        → is_from (state base (history ++ more)) f n ≡ false }
    ensures kept { (built : State → Line → Bool) (base : Base) (history more : List Entry) → IsSound base
        → IsLegalWith built base (history ++ more)
        → (n f : ℕ) → floor (state base (history ++ more)) ≡ Some f → is_from (state base (history ++ more)) f n ≡ true
        → is_member (state base history).agenda n ≡ true
        → (g : ℕ) × (floor (state base history) ≡ Some g) × (is_from (state base history) g n ≡ true) }
    ensures alone { (built : State → Line → Bool) (base : Base) (history more : List Entry) (entry : Entry) → IsSound base
        → IsLegalWith built base (history ++ entry ∷ more)
        → (o : Active) → IsCommitOf (state base history) entry o → live_batches (state base history) ≡ []
        → (f : ℕ) → floor (state base (history ++ entry ∷ more)) ≡ Some f
        → is_from (state base (history ++ entry ∷ more)) f o.number ≡ false }
{}

/// Whom the commit of a live batch asks for stands at or after the floor: each overtaken member, and at the batch's target each late
/// writer, each contradicted reader and each elder that may still read. So nothing need be kept of who stands before the floor.
pub fn commits_ask_from_the_floor()
    ensures overtaken { (built : State → Line → Bool) (base : Base) (history : List Entry) → IsSound base
        → IsLegalWith built base history
        → (i : LiveBatch) → Contains (live_batches (state base history)) i
        → (f : ℕ) → floor (state base history) ≡ Some f
        → (j : ℕ) → Overtakes (state base history) i j → is_from (state base history) f j ≡ true }
    ensures late { (built : State → Line → Bool) (base : Base) (history : List Entry) → IsSound base
        → IsLegalWith built base history
        → (i : LiveBatch) → Contains (live_batches (state base history)) i
        → (f : ℕ) → floor (state base history) ≡ Some f → (p : ℕ) → target (state base history) i ≡ Some p
        → (w : Witness) → IsLate (state base history) i p w → is_from (state base history) f w.other ≡ true }
    ensures contradicted { (built : State → Line → Bool) (base : Base) (history : List Entry) → IsSound base
        → IsLegalWith built base history
        → (i : LiveBatch) → Contains (live_batches (state base history)) i
        → (f : ℕ) → floor (state base history) ≡ Some f → (p : ℕ) → target (state base history) i ≡ Some p
        → (w : Witness) → IsContradicted (state base history) i p w → is_from (state base history) f w.other ≡ true }
    ensures reader { (built : State → Line → Bool) (base : Base) (history : List Entry) → IsSound base
        → IsLegalWith built base history
        → (i : LiveBatch) → Contains (live_batches (state base history)) i
        → (f : ℕ) → floor (state base history) ≡ Some f → (p : ℕ) → target (state base history) i ≡ Some p
        → (k : LiveBatch) → MayRead (state base history) i p k → is_from (state base history) f k.tx.number ≡ true }
{}
