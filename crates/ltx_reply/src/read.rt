//! Reading a reply: a guess by its words, which is the reply where it prints to the text.

ghost use Rattle.std.specs.Prelude.{◌≡◌, ◌≢◌, Option, Some, None, IsTrue, IsFalse, IfOk, IfSome, IfNone};
ghost use Rattle.ltx_model.specs.declared.replies.Reply.{Reply};
ghost use Rattle.ltx_model.specs.Keys.{IsRising};
ghost use Rattle.ltx_reply.specs.Texts.{key_of, reply_text, IsReply, IsWithinLimits};

use crate::cuts::is;
use crate::guess::guess;
use crate::limits::is_within_limits;
use crate::print::print_reply;
use crate::unread::Unread;
use ltx_model::memory::NoMemory;
use ltx_model::numbers::Tx;
use ltx_model::replies::Reply;
use ltx_model::rows::Row;
use std::alloc::Global;
use std::cmp::Ordering;

/// Whether rows stand in strictly rising order of key.
fn are_rising(rows: &[Row]) -> bool
    ensures yes { IsTrue result → IsRising key_of rows.now }
    ensures no { IsFalse result → IsRising key_of rows.now → ⊥ }
{
    let mut rest = rows;
    loop {
        let Some((first, behind)) = rest.split_first() else {
            return true;
        };
        let Some((second, _)) = behind.split_first() else {
            return true;
        };
        if first.key.compare(&second.key) != Ordering::Less {
            return false;
        }
        rest = behind;
    }
}

/// Whether two writers differ.
fn differ(found: Option<Tx>, current: Option<Tx>) -> bool
    ensures yes { IsTrue result → found ≢ current }
    ensures no { IsFalse result → found ≡ current }
{
    match (found, current) {
        (None, None) => false,
        (Some(a), Some(b)) => a.number() != b.number(),
        _ => true,
    }
}

/// Whether a reply keeps what is asked of it beside the limits of its parts.
fn is_reply(reply: &Reply) -> bool
    ensures yes { IsTrue result → IsReply reply.now }
    ensures no { IsFalse result → IsReply reply.now → ⊥ }
{
    match reply {
        Reply::Rows { rows } => are_rising(rows.items()),
        Reply::Changed {
            op,
            found,
            current,
            ..
        } => *op > 0 && differ(*found, *current),
        Reply::Late { op, .. } => *op > 0,
        Reply::Contradicts { op, .. } => *op > 0,
        _ => true,
    }
}

/// What callers may rest on: no two replies have one text.
#[tactic(auto, using(crate::proofs::Hints::replies_differ))]
pub fn replies_have_texts_of_their_own()
    ensures one { (x y : Reply) → IsWithinLimits x → IsWithinLimits y →
        reply_text x ≡ reply_text y → x ≡ y }
{}

/// The reply with this text, whose operations are counted from 1, whose two writers of a change differ, and whose
/// rows stand in strictly rising order of key. None exactly where no such reply has this text.
pub fn read_reply(alloc: Global, text: &[u8]) -> Result<Option<Reply>, NoMemory>
    ensures found { IfOk result (λ found. IfSome found (λ reply. reply_text reply ≡ text.now)) }
    ensures kept { IfOk result (λ found. IfSome found (λ reply. IsReply reply × IsWithinLimits reply)) }
    ensures none { IfOk result (λ found. IfNone found ((reply : Reply) → IsReply reply →
        IsWithinLimits reply → reply_text reply ≢ text.now)) }
    // What was printed is read again.
    ensures again { (reply : Reply) → IsReply reply → IsWithinLimits reply →
        reply_text reply ≡ text.now → IfOk result (λ found. found ≡ Some reply) }
{
    let reply = match guess(alloc, text) {
        Ok(reply) => reply,
        Err(Unread::NoReply) => return Ok(None),
        Err(Unread::Memory) => return Err(NoMemory),
    };
    if !is_reply(&reply) {
        return Ok(None);
    }
    let mut printed = Vec::new(alloc);
    print_reply(&reply, &mut printed)?;
    if is(&printed, text) {
        is_within_limits(&reply);
        Ok(Some(reply))
    } else {
        Ok(None)
    }
}
