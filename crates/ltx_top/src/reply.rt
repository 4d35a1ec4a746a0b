//! A line and its reply.

ghost use Rattle.std.specs.Prelude.{◌≡◌, List, [], ◌∷◌, ◌++◌, IfOk, OnErr};
ghost use Rattle.ltx_model.specs.declared.replies.Entry.{Entry};
ghost use Rattle.ltx_model.specs.States.{Base, IsSound};
ghost use Rattle.ltx_model.specs.Histories.{state};
ghost use Rattle.ltx_model.specs.Answers.{IsLegalWith, staged};
ghost use Rattle.ltx_core.specs.Stands.{StandsFor};
ghost use Rattle.ltx_top.specs.Built.{built};

use ltx_core::Core;
use ltx_model::commands::{Command, Line};
use ltx_model::memory::NoMemory;
use ltx_model::replies::Reply;

/// Answers a line: a command by the core, a flush, for which there is no log yet, with `later`, and a malformed one with its cause. After `NoMemory` the core stands for what it stood for, and for
/// nothing else.
pub(crate) fn reply_to(core: &mut Core, line: &Line) -> Result<Reply, NoMemory>
    ensures reply { IfOk result (λ reply. (base : Base) (history : List Entry) → IsSound base → IsLegalWith built base history → StandsFor core.old base history
        → reply ≡ staged built (state base history) line.now) }
    ensures stands { IfOk result (λ reply. (base : Base) (history : List Entry) → IsSound base → IsLegalWith built base history → StandsFor core.old base history
        → StandsFor core.new base (history ++ record { line = line.now; reply = reply } ∷ [])) }
    ensures kept { OnErr result ((base : Base) (history : List Entry) → StandsFor core.old base history → StandsFor core.new base history) }
    ensures kept_back { OnErr result ((base : Base) (history : List Entry) → StandsFor core.new base history → StandsFor core.old base history) }
{
    match line {
        Line::Bad(cause) => Ok(Reply::Bad(*cause)),
        Line::Good(Command::Flush) => Ok(Reply::Later),
        Line::Good(command) => core.step(command),
    }
}
