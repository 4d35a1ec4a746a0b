//! The entries of a legal history are no fault of a transcript.

ghost use Rattle.std.specs.Prelude.{Bool, List};
ghost use Rattle.ltx_model.specs.declared.commands.Line.{Line};
ghost use Rattle.ltx_model.specs.declared.replies.Entry.{Entry};
ghost use Rattle.ltx_model.specs.States.{Base, State};
ghost use Rattle.ltx_model.specs.Answers.{IsLegalWith};
ghost use Rattle.ltx_check.specs.Opens.{IsWellPlaced};

/// Each entry of a legal history may stand where it does: its command gives its reply, numbers rise, and begins, answers and ends come
/// where a transaction may begin, or is open.
pub fn legal_entries_are_well_placed()
    ensures placed { (built : State → Line → Bool) (base : Base) (history : List Entry) → IsLegalWith built base history → IsWellPlaced history }
{}
