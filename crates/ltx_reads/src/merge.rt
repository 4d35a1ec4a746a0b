//! The stamps of two rising lists in one rising order.

ghost use Rattle.std.specs.Prelude.{◌≡◌, [], ◌∷◌, IfSome, IfNone};
ghost use Rattle.ltx_reads.specs.Merges.{merged};

use std::marker::Model;

/// Stamps of two rising lists that are still to come, each once.
#[derive(Drop)]
pub(crate) struct Merge<'s> {
    first: &'s [u64],
    second: &'s [u64],
}

impl<'s> Model for Merge<'s> {
    ghost use Rattle.std.specs.Prelude.{ℕ, List};
    ghost use Rattle.ltx_reads.specs.Merges.{merged};

    ghost Value = { List ℕ };

    ghost view = { λ m. merged m.first.now m.second.now };
}

impl<'s> Merge<'s> {
    /// The stamps of these lists.
    pub(crate) fn of(first: &'s [u64], second: &'s [u64]) -> Merge<'s>
        ensures { result ≡ merged first.now second.now }
    {
        Merge { first, second }
    }

    /// The next stamp, or None where there is none left.
    pub(crate) fn next(&mut self) -> Option<u64>
        ensures some { IfSome result (λ stamp. self.old ≡ stamp ∷ self.new) }
        ensures none { IfNone result (self.old ≡ []) }
    {
        let Some((x, past_x)) = self.first.split_first() else {
            let (y, past_y) = self.second.split_first()?;
            self.second = past_y;
            return Some(*y);
        };
        let Some((y, past_y)) = self.second.split_first() else {
            self.first = past_x;
            return Some(*x);
        };
        if *x == *y {
            self.second = past_y;
        } else if *x > *y {
            self.second = past_y;
            return Some(*y);
        }
        self.first = past_x;
        Some(*x)
    }
}
