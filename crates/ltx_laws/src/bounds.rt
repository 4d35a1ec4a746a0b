//! Bounds: what numbers, epochs and counts of operations never pass.

ghost use Rattle.std.specs.Prelude.{◌≡◌, ℕ, ◌≤◌, Bool, List, length, Contains};
ghost use Rattle.ltx_model.specs.declared.commands.Line.{Line};
ghost use Rattle.ltx_model.specs.declared.replies.Entry.{Entry};
ghost use Rattle.ltx_model.specs.Operations.{Transaction};
ghost use Rattle.ltx_model.specs.Agenda.{serial};
ghost use Rattle.ltx_model.specs.States.{Active, Base, IsSound, State};
ghost use Rattle.ltx_model.specs.Histories.{state};
ghost use Rattle.ltx_model.specs.Limits.{last_number, last_epoch, most_operations};
ghost use Rattle.ltx_model.specs.Answers.{IsLegalWith};

/// In each state the last number is at most 9,223,372,036,854,775,807, the epoch at most 4,294,967,294, and an open or committed
/// transaction has at most 65,536 answered operations.
pub fn states_stay_within_bounds()
    ensures last { (built : State → Line → Bool) (base : Base) (history : List Entry) → IsSound base
        → IsLegalWith built base history → (state base history).last ≤ last_number }
    ensures epoch { (built : State → Line → Bool) (base : Base) (history : List Entry) → IsSound base
        → IsLegalWith built base history → (state base history).epoch ≤ last_epoch }
    ensures opened { (built : State → Line → Bool) (base : Base) (history : List Entry) → IsSound base
        → IsLegalWith built base history
        → (o : Active) → Contains (state base history).active o → length o.steps ≤ most_operations }
    ensures committed { (built : State → Line → Bool) (base : Base) (history : List Entry) → IsSound base
        → IsLegalWith built base history
        → (t : Transaction) → Contains (serial (state base history).agenda) t → length t.answered ≤ most_operations }
{}
