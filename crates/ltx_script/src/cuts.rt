//! The words of a line, one after another, without a copy.

ghost use Rattle.std.specs.Prelude.{◌≡◌, ◌<◌, ◌==◌, ◌&&◌, length, ◌∷◌, Option, Some, None, MatchOption, option_copied};
ghost use Rattle.std.specs.List.{list_all, position};
ghost use Rattle.ltx_text.specs.Words.{is_visible};
ghost use Rattle.ltx_script.specs.Lines.{is_word, alone, next_word, at_most_one, one_or_two, two, three};
ghost use Rattle.ltx_text.specs.Cuts.{cut_at, parts_after, words_of, words_after};
ghost use Rattle.ltx_script.specs.Readers.{Gives, last_word};

use crate::refusal::Refusal;
use ltx_model::commands::{Bad, Command};
use ltx_text::cuts::cut;
use ltx_text::words::are_plain;

/// Whether the byte is visible.
fn is_visible(byte: u8) -> bool
    ensures { result ≡ is_visible byte }
{
    byte.is_ascii_graphic()
}

/// Whether the line is one or more words with one space between two.
pub(crate) fn are_words(line: &[u8]) -> bool
    ensures { result ≡ list_all is_word (words_of line.now) }
{
    let mut in_word = false;
    for &byte in line {
        if is_visible(byte) {
            in_word = true;
        } else if in_word && byte == b' ' {
            in_word = false;
        } else {
            return false;
        }
    }
    in_word
}

/// That there is no further word.
fn alone<X: Drop>(rest: Option<&[u8]>, x: X) -> Result<X, Refusal>
    ensures { Gives (λ x. x) result (alone (words_after (option_copied rest.entry)) x) }
{
    match rest {
        None => Ok(x),
        Some(_) => Err(Refusal::Cause(Bad::Words)),
    }
}

/// The next word and what stands behind it. Where there is none, the number of words is wrong.
fn next_word(rest: Option<&[u8]>) -> Result<(&[u8], Option<&[u8]>), Refusal>
    ensures { Gives (λ p. (p.0.now, words_after (option_copied p.1))) result (next_word (words_after (option_copied rest.entry))) }
{
    match rest {
        None => Err(Refusal::Cause(Bad::Words)),
        Some(text) => Ok(cut(text, b' ')),
    }
}

/// A command that stands alone, written in place. It is inlined, since a call would pass the command through memory.
#[inline(always)]
pub(crate) fn alone_as(
    made: Command,
    rest: Option<&[u8]>,
    command: &mut Command,
) -> Result<(), Refusal>
    ensures { Gives (λ _. command.new) result (alone (words_after (option_copied rest.entry)) made) }
{
    alone(rest, ())?;
    *command = made;
    Ok(())
}

/// The next word, with none behind it. Most words are plain bytes, none of which is a space: so the test of them, eight at
/// a time, also tells that the text is one word.
fn last_word(rest: Option<&[u8]>) -> Result<&[u8], Refusal>
    ensures { Gives (λ word. word.now) result (last_word (words_after (option_copied rest.entry))) }
{
    let Some(text) = rest else {
        return Err(Refusal::Cause(Bad::Words));
    };
    if are_plain(text) {
        return Ok(text);
    }
    let (word, rest) = cut(text, b' ');
    alone(rest, word)
}

/// The only word, if there is one.
fn at_most_one(rest: Option<&[u8]>) -> Result<Option<&[u8]>, Refusal>
    ensures { Gives option_copied result (at_most_one (words_after (option_copied rest.entry))) }
{
    let Some(text) = rest else {
        return Ok(None);
    };
    let (word, rest) = cut(text, b' ');
    alone(rest, Some(word))
}

/// A word, and maybe a second one, with none behind them.
#[tactic(auto, unfolding(crate::specs::Lines::one_or_two))]
pub(crate) fn one_or_two(rest: Option<&[u8]>) -> Result<(&[u8], Option<&[u8]>), Refusal>
    ensures { Gives (λ p. (p.0.now, option_copied p.1)) result (one_or_two (words_after (option_copied rest.entry))) }
{
    let (first, rest) = next_word(rest)?;
    Ok((first, at_most_one(rest)?))
}

/// Two words with none behind them.
#[tactic(auto, unfolding(crate::specs::Lines::two))]
pub(crate) fn two(rest: Option<&[u8]>) -> Result<(&[u8], &[u8]), Refusal>
    ensures { Gives (λ p. (p.0.now, p.1.now)) result (two (words_after (option_copied rest.entry))) }
{
    let (first, rest) = next_word(rest)?;
    Ok((first, last_word(rest)?))
}

/// Three words with none behind them.
#[tactic(auto, unfolding(crate::specs::Lines::three))]
pub(crate) fn three(rest: Option<&[u8]>) -> Result<(&[u8], &[u8], &[u8]), Refusal>
    ensures { Gives (λ p. (p.0.now, p.1.now, p.2.now)) result (three (words_after (option_copied rest.entry))) }
{
    let (first, rest) = next_word(rest)?;
    let (second, rest) = next_word(rest)?;
    Ok((first, second, last_word(rest)?))
}
