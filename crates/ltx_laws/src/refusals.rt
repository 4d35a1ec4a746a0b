//! Why a short is refused, and why the commit of a live batch is refused or waits: what stands behind each of these answers.

ghost use Rattle.std.specs.Prelude.{◌≡◌, ℕ, Bool, Option, List, [], ◌∷◌, ◌++◌};
ghost use Rattle.ltx_model.specs.declared.commands.Line.{Line};
ghost use Rattle.ltx_model.specs.declared.replies.Entry.{Entry};
ghost use Rattle.ltx_model.specs.declared.replies.Reply.TheVariants as replies;
ghost use Rattle.ltx_model.specs.States.{Base, IsSound, State};
ghost use Rattle.ltx_model.specs.Histories.{state};
ghost use Rattle.ltx_model.specs.Answers.{IsLegalWith};
ghost use Rattle.ltx_laws.specs.Refusals.{IsPreservedAnswer, IsChangedAnswer, IsLateAnswer, IsContradictsAnswer, IsWaitingAnswer};

/// `preserved` comes only to an operation of an open short, in that table and with its least holder, or to the commit of an open
/// short, with the least table that it touched and a live batch holds, and this table's least holder.
pub fn preserved_has_its_holder()
    ensures preserved { (built : State → Line → Bool) (base : Base) (history : List Entry) (entry : Entry) → IsSound base
        → IsLegalWith built base (history ++ entry ∷ [])
        → (table n : ℕ) → entry.reply ≡ replies.Preserved table n
        → IsPreservedAnswer (state base history) entry table n }
{}

/// `changed` comes only to the commit of an open short, with its first look-up that would now be answered otherwise, and only
/// where no table that it touched is held.
pub fn changed_has_its_change()
    ensures changed { (built : State → Line → Bool) (base : Base) (history : List Entry) (entry : Entry) → IsSound base
        → IsLegalWith built base (history ++ entry ∷ [])
        → (op table : ℕ) (key : List ℕ) (found current : Option ℕ)
        → entry.reply ≡ replies.Changed op table key found current
        → IsChangedAnswer (state base history) entry (record {
          op = op;
          cell = record { table = table; key = key };
          found = found;
          current = current;
        }) }
{}

/// `late` comes only to the commit of a live batch, with its target and the first late witness there, and only where no live
/// batch is overtaken.
pub fn late_has_its_witness()
    ensures late { (built : State → Line → Bool) (base : Base) (history : List Entry) (entry : Entry) → IsSound base
        → IsLegalWith built base (history ++ entry ∷ [])
        → (target op table : ℕ) (key : List ℕ) (writer : ℕ)
        → entry.reply ≡ replies.Late target op table key writer
        → IsLateAnswer (state base history) entry target (record {
          op = op;
          cell = record { table = table; key = key };
          other = writer;
        }) }
{}

/// `contradicts` comes only to the commit of a live batch, with its target, no late witness there and the first contradicted
/// one, and only where no live batch is overtaken.
pub fn contradicts_has_its_witness()
    ensures contradicts { (built : State → Line → Bool) (base : Base) (history : List Entry) (entry : Entry) → IsSound base
        → IsLegalWith built base (history ++ entry ∷ [])
        → (target op table : ℕ) (key : List ℕ) (reader : ℕ)
        → entry.reply ≡ replies.Contradicts target op table key reader
        → IsContradictsAnswer (state base history) entry target (record {
          op = op;
          cell = record { table = table; key = key };
          other = reader;
        }) }
{}

/// `waiting` comes only to the commit of a live batch, and names the live batch with a smaller number for which it waits.
pub fn waiting_names_an_elder()
    ensures waiting { (built : State → Line → Bool) (base : Base) (history : List Entry) (entry : Entry) → IsSound base
        → IsLegalWith built base (history ++ entry ∷ [])
        → (k : ℕ) → entry.reply ≡ replies.Waiting k → IsWaitingAnswer (state base history) entry k }
{}
