//! A guess at the reply that a text is, by its first word. Each text of a reply gives this reply; another text may
//! give one as well, since what stands at an end is not looked at.

ghost use Rattle.std.specs.Prelude.{◌≡◌, Option, Some, None, option_copied};
ghost use Rattle.ltx_reply.specs.Readings.{numbered_at, single_at, worded_at, fixed_at, guess_at};
ghost use Rattle.ltx_text.specs.Cuts.{words_after};
ghost use Rattle.ltx_reply.specs.Readers.{Gives};

use crate::cuts::{is, next_word};
use crate::kinds::{
    begun_of, changed_of, committed_of, contradicts_of, late_of, preserved_of, rows_of,
};
use crate::parts::{cause_of, count_of, table_of, tx_of, value_of};
use crate::unread::Unread;
use ltx_model::replies::Reply;
use ltx_text::cuts::cut;
use std::alloc::Global;

/// A reply with one number behind its first word.
#[tactic(auto, unfolding(crate::specs::Readings::numbered_at))]
fn numbered_of(word: &[u8], number: &[u8]) -> Result<Reply, Unread>
    ensures { Gives (λ reply. reply) result (numbered_at word.now number.now) }
{
    if is(word, b"waiting") {
        let tx = tx_of(number)?;
        Ok(Reply::Waiting { tx })
    } else if is(word, b"notyet") {
        let epoch = count_of(number)?;
        Ok(Reply::NotYet { epoch })
    } else if is(word, b"outside") {
        let table = table_of(number)?;
        Ok(Reply::Outside { table })
    } else if is(word, b"notpreserved") {
        let table = table_of(number)?;
        Ok(Reply::NotPreserved { table })
    } else if is(word, b"epoch") {
        let epoch = count_of(number)?;
        Ok(Reply::Advanced { epoch })
    } else if is(word, b"durable") {
        let epoch = count_of(number)?;
        Ok(Reply::Durable { epoch })
    } else {
        Err(Unread::NoReply)
    }
}

/// A reply with one part behind its first word.
#[tactic(auto, unfolding(crate::specs::Readings::single_at))]
fn single_of(alloc: Global, word: &[u8], part: &[u8]) -> Result<Reply, Unread>
    ensures { Gives (λ reply. reply) result (single_at word.now part.now) }
{
    if is(word, b"found") {
        let value = value_of(alloc, part)?;
        Ok(Reply::Found { value })
    } else if is(word, b"bad") {
        let cause = cause_of(part)?;
        Ok(Reply::Bad(cause))
    } else {
        numbered_of(word, part)
    }
}

/// A reply with parts behind its first word.
#[tactic(auto, unfolding(crate::specs::Readings::worded_at))]
fn worded_of(alloc: Global, word: &[u8], rest: Option<&[u8]>) -> Result<Reply, Unread>
    ensures { Gives (λ reply. reply) result (worded_at word.now (words_after (option_copied rest.entry))) }
{
    if is(word, b"begun") {
        begun_of(rest)
    } else if is(word, b"rows") {
        rows_of(alloc, rest)
    } else if is(word, b"committed") {
        committed_of(rest)
    } else if is(word, b"preserved") {
        preserved_of(rest)
    } else if is(word, b"changed") {
        changed_of(alloc, rest)
    } else if is(word, b"late") {
        late_of(alloc, rest)
    } else if is(word, b"contradicts") {
        contradicts_of(alloc, rest)
    } else {
        let (part, _) = next_word(rest)?;
        single_of(alloc, word, part)
    }
}

/// A reply of fixed words.
#[tactic(auto, unfolding(crate::specs::Readings::fixed_at))]
fn fixed_of(text: &[u8]) -> Option<Reply>
    ensures { result ≡ fixed_at text.now }
{
    if is(text, b"none") {
        Some(Reply::Absent)
    } else if is(text, b"done") {
        Some(Reply::Done)
    } else if is(text, b"aborted") {
        Some(Reply::Aborted)
    } else if is(text, b"notx") {
        Some(Reply::NoTx)
    } else if is(text, b"hastx") {
        Some(Reply::HasTx)
    } else if is(text, b"limit epoch") {
        Some(Reply::LimitEpoch)
    } else if is(text, b"limit ops") {
        Some(Reply::LimitOps)
    } else if is(text, b"limit tx") {
        Some(Reply::LimitTx)
    } else if is(text, b"limit log") {
        Some(Reply::LimitLog)
    } else if is(text, b"pruned") {
        Some(Reply::Pruned)
    } else if is(text, b"later") {
        Some(Reply::Later)
    } else {
        None
    }
}

/// The reply at which the words of the text hint.
#[tactic(auto, unfolding(crate::specs::Readings::guess_at))]
pub(crate) fn guess(alloc: Global, text: &[u8]) -> Result<Reply, Unread>
    ensures { Gives (λ reply. reply) result (guess_at text.now) }
{
    if let Some(reply) = fixed_of(text) {
        return Ok(reply);
    }
    let (word, rest) = cut(text, b' ');
    worded_of(alloc, word, rest)
}
