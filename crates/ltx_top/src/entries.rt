//! Entries as they are printed.

ghost use Rattle.std.specs.Prelude.{◌≡◌, ◌++◌, length, take, OnOk, OnErr};
ghost use Rattle.ltx_reply.specs.Texts.{IsReply};
ghost use Rattle.ltx_top.specs.Transcripts.{line_text, entry_text};
ghost use Rattle.ltx_top.specs.Spellings.{IsSpelt};

use ltx_model::commands::Line;
use ltx_model::memory::NoMemory;
use ltx_model::replies::Reply;
use ltx_reply::print::print_reply;

/// Appends a line: the spelling of its command, or `?`.
fn put_line(line: &Line, bytes: &[u8], out: &mut Vec<u8>) -> Result<(), NoMemory>
    requires spelt { IsSpelt line.now bytes.now }
    ensures ok { OnOk result (out.new.items ≡ out.old.items ++ line_text line.now) }
    ensures front { take (length out.old.items) out.new.items ≡ out.old.items }
{
    match line {
        Line::Good(_) => Ok(out.extend_from_slice(bytes)?),
        Line::Bad(_) => Ok(out.push(b'?')?),
    }
}

/// Appends the parts of an entry, or a front of them where memory is wanting.
#[tactic(auto, unfolding(crate::specs::Transcripts::entry_text))]
fn put_parts(line: &Line, bytes: &[u8], reply: &Reply, out: &mut Vec<u8>) -> Result<(), NoMemory>
    requires spelt { IsSpelt line.now bytes.now }
    requires kept { IsReply reply.now }
    ensures ok { OnOk result (out.new.items ≡ out.old.items ++ entry_text (record { line = line.now; reply = reply.now })) }
    ensures front { take (length out.old.items) out.new.items ≡ out.old.items }
{
    put_line(line, bytes, out)?;
    out.extend_from_slice(b" => ")?;
    print_reply(reply, out)?;
    Ok(out.push(b'\n')?)
}

/// Appends an entry. Without memory `out` stays as it was.
pub(crate) fn put_entry(
    line: &Line,
    bytes: &[u8],
    reply: &Reply,
    out: &mut Vec<u8>,
) -> Result<(), NoMemory>
    requires spelt { IsSpelt line.now bytes.now }
    requires kept { IsReply reply.now }
    ensures ok { OnOk result (out.new.items ≡ out.old.items ++ entry_text (record { line = line.now; reply = reply.now })) }
    ensures err { OnErr result (out.new.items ≡ out.old.items) }
{
    let start = out.len();
    let done = put_parts(line, bytes, reply, out);
    if done.is_err() {
        out.truncate(start);
    }
    done
}
