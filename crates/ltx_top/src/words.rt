//! The words of a run.

ghost use Rattle.std.specs.Prelude.{◌≡◌, ◌↔◌, IsTrue, map, [], ◌∷◌, codes, string_bytes};

/// Whether the words are the command `run`.
pub(crate) fn is_run(words: &[String]) -> bool
    ensures spelt { IsTrue result ↔ (map string_bytes words.now ≡ codes "run" ∷ []) }
{
    match words {
        [word] => word.as_str() == "run",
        _ => false,
    }
}

/// Whether the words are the command `check`.
pub(crate) fn is_check(words: &[String]) -> bool
    ensures spelt { IsTrue result ↔ (map string_bytes words.now ≡ codes "check" ∷ []) }
{
    match words {
        [word] => word.as_str() == "check",
        _ => false,
    }
}
