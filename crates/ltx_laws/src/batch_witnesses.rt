//! The target of a live batch, the witnesses at its place, and whom it waits for: what the functions of the definitions compute
//! is what the relations say, both ways.

ghost use Rattle.std.specs.Prelude.{◌≡◌, ℕ, Bool, false, List, Some, None, Contains};
ghost use Rattle.ltx_model.specs.declared.commands.Line.{Line};
ghost use Rattle.ltx_model.specs.declared.replies.Entry.{Entry};
ghost use Rattle.ltx_model.specs.Keys.{Cell};
ghost use Rattle.ltx_model.specs.Operations.{Transaction, operations, writes_key};
ghost use Rattle.ltx_model.specs.States.{Base, IsSound, State, LiveBatch};
ghost use Rattle.ltx_model.specs.Histories.{state};
ghost use Rattle.ltx_model.specs.Answers.{IsLegalWith};
ghost use Rattle.ltx_model.specs.Batches.{target, Overtakes, IsTarget, last_writer, first_late, IsLate, IsFirstLate, first_contradicted, IsContradicted, IsFirstContradicted, Witness, first_witness, HasWitness, waits, Waits};
ghost use Rattle.ltx_laws.specs.LastWriters.{IsLastWriter};

/// The target of a batch is overtaken, and nothing that is overtaken stands before it; there is none exactly where nothing is
/// overtaken.
pub fn target_is_the_earliest()
    ensures given { (built : State → Line → Bool) (base : Base) (history : List Entry) → IsSound base
        → IsLegalWith built base history → (i : LiveBatch) (p : ℕ)
        → target (state base history) i ≡ Some p → IsTarget (state base history) i p }
    ensures found { (built : State → Line → Bool) (base : Base) (history : List Entry) → IsSound base
        → IsLegalWith built base history → (i : LiveBatch) (p : ℕ)
        → IsTarget (state base history) i p → target (state base history) i ≡ Some p }
    ensures none { (built : State → Line → Bool) (base : Base) (history : List Entry) → IsSound base
        → IsLegalWith built base history → (i : LiveBatch)
        → target (state base history) i ≡ None → (p : ℕ) → Overtakes (state base history) i p → ⊥ }
{}

/// The last writer of a key in a batch's snapshot is a member of it that writes the key, and no member behind it does; there is none
/// exactly where no member writes the key.
pub fn last_writer_is_the_last()
    ensures given { (i : LiveBatch) (key : Cell) (n : ℕ) → last_writer i key ≡ Some n → IsLastWriter i.snapshot key n }
    ensures found { (i : LiveBatch) (key : Cell) (n : ℕ) → IsLastWriter i.snapshot key n → last_writer i key ≡ Some n }
    ensures none { (i : LiveBatch) (key : Cell) → last_writer i key ≡ None
        → (t : Transaction) → Contains i.snapshot t → writes_key (operations t) key ≡ false }
{}

/// The first late witness is late, and no other has a lesser operation, or the same one and a lesser key; there is none exactly
/// where nothing is late.
pub fn first_late_is_the_first()
    ensures given { (built : State → Line → Bool) (base : Base) (history : List Entry) → IsSound base
        → IsLegalWith built base history → (i : LiveBatch) (p : ℕ) (w : Witness)
        → first_late (state base history) i p ≡ Some w → IsFirstLate (state base history) i p w }
    ensures found { (built : State → Line → Bool) (base : Base) (history : List Entry) → IsSound base
        → IsLegalWith built base history → (i : LiveBatch) (p : ℕ) (w : Witness)
        → IsFirstLate (state base history) i p w → first_late (state base history) i p ≡ Some w }
    ensures none { (built : State → Line → Bool) (base : Base) (history : List Entry) → IsSound base
        → IsLegalWith built base history → (i : LiveBatch) (p : ℕ)
        → first_late (state base history) i p ≡ None → (w : Witness) → IsLate (state base history) i p w → ⊥ }
{}

/// The first contradicted witness is contradicted, no other has a lesser operation, and none of the same operation has a reader
/// that stands earlier; there is none exactly where nothing is contradicted.
pub fn first_contradicted_is_the_first()
    ensures given { (built : State → Line → Bool) (base : Base) (history : List Entry) → IsSound base
        → IsLegalWith built base history → (i : LiveBatch) (p : ℕ) (w : Witness)
        → first_contradicted (state base history) i p ≡ Some w → IsFirstContradicted (state base history) i p w }
    ensures found { (built : State → Line → Bool) (base : Base) (history : List Entry) → IsSound base
        → IsLegalWith built base history → (i : LiveBatch) (p : ℕ) (w : Witness)
        → IsFirstContradicted (state base history) i p w → first_contradicted (state base history) i p ≡ Some w }
    ensures none { (built : State → Line → Bool) (base : Base) (history : List Entry) → IsSound base
        → IsLegalWith built base history → (i : LiveBatch) (p : ℕ)
        → first_contradicted (state base history) i p ≡ None
        → (w : Witness) → IsContradicted (state base history) i p w → ⊥ }
{}

/// At a batch's target: whom it is answered to wait for is whom it waits for by the relation, and the other way round; and a first
/// witness is there exactly where some witness stands.
pub fn waits_for_whom_it_must()
    ensures given { (built : State → Line → Bool) (base : Base) (history : List Entry) → IsSound base
        → IsLegalWith built base history → (i : LiveBatch) (p k : ℕ) → target (state base history) i ≡ Some p
        → waits (state base history) i p (first_witness (state base history) i p) ≡ Some k
        → Waits (state base history) i k }
    ensures found { (built : State → Line → Bool) (base : Base) (history : List Entry) → IsSound base
        → IsLegalWith built base history → (i : LiveBatch) (p k : ℕ) → target (state base history) i ≡ Some p
        → Waits (state base history) i k
        → waits (state base history) i p (first_witness (state base history) i p) ≡ Some k }
    ensures none { (built : State → Line → Bool) (base : Base) (history : List Entry) → IsSound base
        → IsLegalWith built base history → (i : LiveBatch) (p : ℕ)
        → first_witness (state base history) i p ≡ None → HasWitness (state base history) i p → ⊥ }
{}
