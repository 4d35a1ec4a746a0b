//! The words of a text, one after another, without a copy.

ghost use Rattle.std.specs.Prelude.{◌≡◌, ◌<◌, length, ◌∷◌, Option, Some, None, MatchOption, option_copied, bytes_eq};
ghost use Rattle.ltx_reply.specs.Readings.{next_word, five};
ghost use Rattle.ltx_text.specs.Cuts.{words_of, words_after};
ghost use Rattle.ltx_reply.specs.Readers.{Gives};

use crate::unread::Unread;
use ltx_text::cuts::cut;

/// The next word and what stands behind it.
pub(crate) fn next_word(rest: Option<&[u8]>) -> Result<(&[u8], Option<&[u8]>), Unread>
    ensures { Gives (λ p. (p.0.now, words_after (option_copied p.1))) result (next_word (words_after (option_copied rest.entry))) }
{
    match rest {
        None => Err(Unread::NoReply),
        Some(text) => Ok(cut(text, b' ')),
    }
}

/// Five words.
#[tactic(auto, unfolding(crate::specs::Readings::five))]
pub(crate) fn five(rest: Option<&[u8]>) -> Result<(&[u8], &[u8], &[u8], &[u8], &[u8]), Unread>
    ensures { Gives (λ p. (p.0.now, p.1.now, p.2.now, p.3.now, p.4.now)) result (five (words_after (option_copied rest.entry))) }
{
    let (a, rest) = next_word(rest)?;
    let (b, rest) = next_word(rest)?;
    let (c, rest) = next_word(rest)?;
    let (d, rest) = next_word(rest)?;
    let (e, _) = next_word(rest)?;
    Ok((a, b, c, d, e))
}

/// Whether the word is this one.
pub(crate) fn is(word: &[u8], name: &[u8]) -> bool
    ensures { result ≡ bytes_eq word.now name.now }
{
    word == name
}
