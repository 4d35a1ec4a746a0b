//! The serial order: it explains the history, and it keeps its members in their places.

ghost use Rattle.std.specs.Prelude.{◌≡◌, ℕ, Bool, ◌==◌, List, ◌++◌, filter};
ghost use Rattle.std.specs.List.{list_any};
ghost use Rattle.ltx_model.specs.declared.commands.Line.{Line};
ghost use Rattle.ltx_model.specs.declared.replies.Entry.{Entry};
ghost use Rattle.ltx_model.specs.States.{Base, IsSound, State, order};
ghost use Rattle.ltx_model.specs.Histories.{state};
ghost use Rattle.ltx_model.specs.Answers.{IsLegalWith};
ghost use Rattle.ltx_model.specs.Explained.{IsExplained};
ghost use Rattle.ltx_laws.specs.Orders.{StandsBefore};

/// The order has exactly the committed transactions, each once, and run one at a time from the base's rows in that order they
/// give every reply that the history has for them.
pub fn order_explains_history()
    ensures { (built : State → Line → Bool) (base : Base) (history : List Entry) → IsSound base
        → IsLegalWith built base history
        → IsExplained base history (order (state base history)) }
{}

/// Of two members of the order, the one before the other stays before it in every longer history. More: the order of a longer
/// history, cut to the members of this one's order, is this one's order.
pub fn order_is_stable()
    ensures before { (built : State → Line → Bool) (base : Base) (history more : List Entry) → IsSound base
        → IsLegalWith built base (history ++ more)
        → (a b : ℕ) → StandsBefore (order (state base history)) a b
        → StandsBefore (order (state base (history ++ more))) a b }
    ensures kept { (built : State → Line → Bool) (base : Base) (history more : List Entry) → IsSound base
        → IsLegalWith built base (history ++ more)
        → filter (λ n. list_any (λ m. m == n) (order (state base history)))
        (order (state base (history ++ more)))
        ≡ order (state base history) }
{}
