//! A line is answered, and its entry gathered as text.

ghost use Rattle.std.specs.Prelude.{◌≡◌, IfOk, OnErr};
ghost use Rattle.ltx_top.specs.Progress.{IsUnderWay, Served};
ghost use Rattle.ltx_top.specs.Runs.{is_bad};
ghost use Rattle.ltx_top.specs.Spellings.{IsSpelt};

use crate::entries::put_entry;
use crate::reply::reply_to;
use ltx_core::Core;
use ltx_model::commands::Line;
use ltx_model::memory::NoMemory;
use ltx_model::replies::Reply;

/// Answers a line, whose command these bytes spell, and gathers its entry. True where the reply is `bad`. After want of
/// memory the gathered text is as before.
pub(crate) fn serve(
    core: &mut Core,
    line: &Line,
    bytes: &[u8],
    text: &mut Vec<u8>,
) -> Result<bool, NoMemory>
    requires under_way { IsUnderWay core.old }
    requires spelt { IsSpelt line.now bytes.now }
    ensures served { IfOk result (λ bad. Served core.old core.new line.now text.old.items text.new.items bad) }
    ensures kept { OnErr result (text.new.items ≡ text.old.items) }
{
    let reply = reply_to(core, line)?;
    put_entry(line, bytes, &reply, text)?;
    Ok(is_bad(&reply))
}

/// Whether the reply is `bad`.
fn is_bad(reply: &Reply) -> bool
    ensures { result ≡ is_bad reply.now }
{
    matches!(reply, Reply::Bad(_))
}
