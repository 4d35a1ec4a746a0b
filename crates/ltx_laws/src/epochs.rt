//! Epochs: which commits the order through an epoch has, and that an acknowledged commit is among them.

ghost use Rattle.std.specs.Prelude.{◌≡◌, ◌≢◌, ℕ, ◌<◌, ◌≤◌, Bool, List, [], ◌∷◌, ◌++◌, Contains};
ghost use Rattle.ltx_model.specs.declared.commands.Line.{Line};
ghost use Rattle.ltx_model.specs.declared.replies.Entry.{Entry};
ghost use Rattle.ltx_model.specs.declared.replies.Reply.TheVariants as replies;
ghost use Rattle.ltx_model.specs.Operations.{Transaction};
ghost use Rattle.ltx_model.specs.States.{Active, transaction_of, Base, IsSound, State, serial_through};
ghost use Rattle.ltx_model.specs.Histories.{state};
ghost use Rattle.ltx_model.specs.Answers.{IsLegalWith};
ghost use Rattle.ltx_laws.specs.Commits.{IsCommitOf, IsCommitReply};

/// A transaction whose commit was printed with an epoch is in the order through this epoch and through each later one, and in the
/// order through no earlier one, in every longer history.
pub fn commits_count_from_their_epoch()
    ensures through { (built : State → Line → Bool) (base : Base) (history more : List Entry) (entry : Entry) → IsSound base
        → IsLegalWith built base (history ++ entry ∷ more)
        → (o : Active) (epoch d : ℕ) → IsCommitOf (state base history) entry o → IsCommitReply entry.reply epoch → epoch ≤ d
        → Contains (serial_through (state base (history ++ entry ∷ more)) d) (transaction_of o) }
    ensures before { (built : State → Line → Bool) (base : Base) (history more : List Entry) (entry : Entry) → IsSound base
        → IsLegalWith built base (history ++ entry ∷ more)
        → (o : Active) (epoch d : ℕ) → IsCommitOf (state base history) entry o → IsCommitReply entry.reply epoch → d < epoch
        → (t : Transaction) → Contains (serial_through (state base (history ++ entry ∷ more)) d) t → t.number ≢ o.number }
{}

/// A transaction whose commit was printed with an epoch that a later `durable` reaches is acknowledged: it is in the order through
/// the durable epoch, in every longer history. The durable epoch is closed, and never below one that was printed.
pub fn acknowledged_commits_are_durable()
    ensures acknowledged { (built : State → Line → Bool) (base : Base) (history middle more : List Entry) (commit flush : Entry)
        → IsSound base → IsLegalWith built base (history ++ commit ∷ (middle ++ flush ∷ more))
        → (o : Active) (epoch d : ℕ) → IsCommitOf (state base history) commit o → IsCommitReply commit.reply epoch
        → flush.reply ≡ replies.Durable d → epoch ≤ d
        → Contains (serial_through (state base (history ++ commit ∷ (middle ++ flush ∷ more)))
        (state base (history ++ commit ∷ (middle ++ flush ∷ more))).durable) (transaction_of o) }
    ensures printed { (built : State → Line → Bool) (base : Base) (history more : List Entry) (entry : Entry) → IsSound base
        → IsLegalWith built base (history ++ entry ∷ more)
        → (d : ℕ) → entry.reply ≡ replies.Durable d → d ≤ (state base (history ++ entry ∷ more)).durable }
    ensures closed { (built : State → Line → Bool) (base : Base) (history : List Entry) → IsSound base
        → IsLegalWith built base history → (state base history).durable < (state base history).epoch }
{}
