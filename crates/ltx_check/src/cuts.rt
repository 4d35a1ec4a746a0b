//! Cutting a text at its line feeds, and behind fronts, without a copy.

ghost use Rattle.std.specs.Prelude.{◌≡◌, ◌<◌, ℕ, List, [], ◌∷◌, ◌++◌, length, bytes_eq, IfSome, IfNone, MatchOption};
ghost use Rattle.ltx_text.specs.Lines.{feeds, IsFirstFeed};
ghost use Rattle.ltx_check.specs.Cuts.{lines_of, ended};

use memchr::memchr;

/// Where the first line feed stands.
fn first_feed(text: &[u8]) -> Option<usize>
    ensures { MatchOption result (feeds text.now ≡ 0) (IsFirstFeed text.now) }
{
    memchr(b'\n', text)
}

/// The first line without its line feed, and what stands behind it. None where no line feed is there.
pub(crate) fn cut_line(text: &[u8]) -> Option<(&[u8], &[u8])>
    ensures some { IfSome result (λ p. lines_of text.now ≡ ended p.0.now ∷ lines_of p.1.now) }
    ensures shorter { IfSome result (λ p. length p.1.now < length text.now) }
    ensures none { IfNone result ((line : List ℕ) (more : List (List ℕ)) → lines_of text.now ≡ ended line ∷ more → ⊥) }
{
    let Some(at) = first_feed(text) else {
        return None;
    };
    let (line, rest) = text.split_at(at);
    let (_, behind) = rest.split_at(1);
    Some((line, behind))
}

/// Whether the texts are the same.
fn is(text: &[u8], other: &[u8]) -> bool
    ensures { result ≡ bytes_eq text.now other.now }
{
    text == other
}

/// What stands behind a front. None where the text does not begin so.
pub(crate) fn behind<'t>(text: &'t [u8], front: &[u8]) -> Option<&'t [u8]>
    ensures some { IfSome result (λ rest. text.now ≡ front.now ++ rest.now) }
    ensures none { IfNone result ((rest : List ℕ) → text.now ≡ front.now ++ rest → ⊥) }
{
    if text.len() < front.len() {
        return None;
    }
    let (first, rest) = text.split_at(front.len());
    if is(first, front) { Some(rest) } else { None }
}
