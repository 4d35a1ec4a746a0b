//! The witnesses that refuse a short: what the functions of the definitions compute is what the relations say, both ways.

ghost use Rattle.std.specs.Prelude.{◌≡◌, ℕ, Bool, true, false, List, Some, None, Contains};
ghost use Rattle.ltx_model.specs.declared.commands.Line.{Line};
ghost use Rattle.ltx_model.specs.declared.commands.Op.{Op};
ghost use Rattle.ltx_model.specs.declared.replies.Entry.{Entry};
ghost use Rattle.ltx_model.specs.Operations.{touches};
ghost use Rattle.ltx_model.specs.States.{IsShort, Active, Base, IsSound, State, latest, LiveBatch, live_batches};
ghost use Rattle.ltx_model.specs.Histories.{state};
ghost use Rattle.ltx_model.specs.Answers.{IsLegalWith};
ghost use Rattle.ltx_model.specs.Shorts.{holds, holder, IsHeld, Held, held_table, IsLeastHeld, Change, Changes, IsFirstChange, first_change};

/// The holder of a table is a live batch that declared it for writing, and none with a smaller number did; there is no holder
/// exactly where no live batch declared it.
pub fn holder_is_the_least()
    ensures given { (built : State → Line → Bool) (base : Base) (history : List Entry) → IsSound base
        → IsLegalWith built base history → (table n : ℕ) → holder (state base history) table ≡ Some n
        → IsHeld (state base history) table n }
    ensures found { (built : State → Line → Bool) (base : Base) (history : List Entry) → IsSound base
        → IsLegalWith built base history → (table n : ℕ) → IsHeld (state base history) table n
        → holder (state base history) table ≡ Some n }
    ensures none { (built : State → Line → Bool) (base : Base) (history : List Entry) → IsSound base
        → IsLegalWith built base history → (table : ℕ) → holder (state base history) table ≡ None
        → (b : LiveBatch) → Contains (live_batches (state base history)) b → holds table b ≡ false }
{}

/// The held table of operations is one that they touch and a live batch holds, and no lesser one is; there is none exactly where
/// nothing that they touch is held.
pub fn held_table_is_the_least()
    ensures given { (built : State → Line → Bool) (base : Base) (history : List Entry) → IsSound base
        → IsLegalWith built base history → (ops : List Op) (h : Held)
        → held_table (state base history) ops ≡ Some h → IsLeastHeld (state base history) ops h.table h.holder }
    ensures found { (built : State → Line → Bool) (base : Base) (history : List Entry) → IsSound base
        → IsLegalWith built base history → (ops : List Op) (table n : ℕ)
        → IsLeastHeld (state base history) ops table n
        → held_table (state base history) ops ≡ Some (record { table = table; holder = n }) }
    ensures none { (built : State → Line → Bool) (base : Base) (history : List Entry) → IsSound base
        → IsLegalWith built base history → (ops : List Op)
        → held_table (state base history) ops ≡ None
        → (table n : ℕ) → touches ops table ≡ true → IsHeld (state base history) table n → ⊥ }
{}

/// The first change of an open short is a key that an operation of it looked up and whose writers then and now differ, and no
/// other such one has a lesser operation, or the same one and a lesser key; there is none exactly where no such key is.
pub fn first_change_is_the_first()
    ensures given { (built : State → Line → Bool) (base : Base) (history : List Entry) → IsSound base
        → IsLegalWith built base history → (o : Active) → Contains (state base history).active o → o.kind ≡ IsShort
        → (c : Change) → first_change (latest (state base history)) o.steps ≡ Some c
        → IsFirstChange (latest (state base history)) o.steps c }
    ensures found { (built : State → Line → Bool) (base : Base) (history : List Entry) → IsSound base
        → IsLegalWith built base history → (o : Active) → Contains (state base history).active o → o.kind ≡ IsShort
        → (c : Change) → IsFirstChange (latest (state base history)) o.steps c
        → first_change (latest (state base history)) o.steps ≡ Some c }
    ensures none { (built : State → Line → Bool) (base : Base) (history : List Entry) → IsSound base
        → IsLegalWith built base history → (o : Active) → Contains (state base history).active o → o.kind ≡ IsShort
        → first_change (latest (state base history)) o.steps ≡ None
        → (c : Change) → Changes (latest (state base history)) o.steps c → ⊥ }
{}
