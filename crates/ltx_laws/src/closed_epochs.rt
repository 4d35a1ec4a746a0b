//! Epochs that are closed: what they give stays, the durable ones are among them, and the acknowledged ones are durable.

ghost use Rattle.std.specs.Prelude.{◌≡◌, ℕ, ◌<◌, ◌≤◌, Bool, List, ◌++◌};
ghost use Rattle.ltx_model.specs.declared.commands.Line.{Line};
ghost use Rattle.ltx_model.specs.declared.replies.Entry.{Entry};
ghost use Rattle.ltx_model.specs.States.{Base, IsSound, State, rows_through};
ghost use Rattle.ltx_model.specs.Histories.{state};
ghost use Rattle.ltx_model.specs.Answers.{IsLegalWith};
ghost use Rattle.ltx_laws.specs.Acknowledged.{AreAcknowledgedUpTo};

/// The rows through a closed epoch are the same in each longer history.
pub fn closed_epochs_keep_their_rows()
    ensures { (built : State → Line → Bool) (base : Base) (history more : List Entry) → IsSound base
        → IsLegalWith built base (history ++ more)
        → (d : ℕ) → d < (state base history).epoch
        → rows_through (state base (history ++ more)) d ≡ rows_through (state base history) d }
{}

/// The durable epoch is closed, and at least the base's. In a longer history neither it nor the present epoch is less.
pub fn durable_epochs_are_closed()
    ensures closed { (built : State → Line → Bool) (base : Base) (history : List Entry) → IsSound base
        → IsLegalWith built base history → (state base history).durable < (state base history).epoch }
    ensures least { (built : State → Line → Bool) (base : Base) (history : List Entry) → IsSound base
        → IsLegalWith built base history → base.durable ≤ (state base history).durable }
    ensures durable { (built : State → Line → Bool) (base : Base) (history more : List Entry) → IsSound base
        → IsLegalWith built base (history ++ more) → (state base history).durable ≤ (state base (history ++ more)).durable }
    ensures epoch { (built : State → Line → Bool) (base : Base) (history more : List Entry) → IsSound base
        → IsLegalWith built base (history ++ more) → (state base history).epoch ≤ (state base (history ++ more)).epoch }
{}

/// Each epoch that a `durable` of the history prints is at most the durable one.
pub fn acknowledged_epochs_are_durable()
    ensures { (built : State → Line → Bool) (base : Base) (history : List Entry) → IsSound base
        → IsLegalWith built base history → AreAcknowledgedUpTo (state base history).durable history }
{}
