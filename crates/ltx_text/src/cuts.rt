//! Cutting a text at a byte, as a line at its spaces and a set of tables at its commas, without a copy.
ghost use Rattle.std.specs.Prelude.{◌≡◌, ◌<◌, ◌==◌, length, ◌∷◌, MatchOption, option_copied};
ghost use Rattle.std.specs.List.{position};
ghost use Rattle.ltx_text.specs.Cuts.{cut_at, parts_after};

/// The place of the first such byte. A word is a few bytes long, so this loop costs less than a call of `memchr`.
fn position_of(text: &[u8], at: u8) -> Option<usize>
    ensures { result ≡ position (λ byte. byte == at) text.now }
{
    text.iter().position(|byte| *byte == at)
}

/// The text up to the first such byte, and the text behind it, where the byte is there.
pub fn cut(text: &[u8], at: u8) -> (&[u8], Option<&[u8]>)
    ensures parts { cut_at at text.now ≡ result.0.now ∷ parts_after at (option_copied result.1) }
    ensures shorter { MatchOption result.1 (result.0.now ≡ text.now) (λ rest. length rest.now < length text.now) }
{
    match position_of(text, at) {
        None => (text, None),
        Some(i) => {
            let (front, rest) = text.split_at(i);
            let (_, after) = rest.split_at(1);
            (front, Some(after))
        }
    }
}
