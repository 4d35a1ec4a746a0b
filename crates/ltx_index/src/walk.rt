//! A walk along the map: a place in it, from which its pairs are given one after the other.

ghost use Rattle.std.specs.Prelude.{◌≡◌, ◌++◌, [], ◌∷◌, IfSome, IfNone};
ghost use Rattle.std.specs.List.{zip, flat_map};
ghost use Rattle.ltx_index.specs.Leaves.{pairs_of};

use crate::leaf::Leaf;
use ltx_model::bytes::Key;
use std::marker::Model;

/// The pairs that are left of a walk, in rising order of their keys.
#[derive(Drop)]
pub struct Walk<'a, V> {
    keys: &'a [Key],
    values: &'a [V],
    later: &'a [Leaf<V>],
}

// Clauses see the list of pairs that are still to come.
impl<'a, V> Model for Walk<'a, V> {
    ghost use Rattle.std.specs.Prelude.{ℕ, List, ◌++◌};
    ghost use Rattle.std.specs.List.{zip};
    ghost use Rattle.ltx_index.specs.Leaves.{pairs_of};

    ghost Value = { List (List ℕ × V) };

    ghost view = { λ w. zip w.keys.now w.values.now ++ pairs_of w.later.now };
}

impl<'a, V> Walk<'a, V> {
    /// A walk along keys with as many values, and then along leaves.
    pub(crate) fn along(keys: &'a [Key], values: &'a [V], later: &'a [Leaf<V>]) -> Walk<'a, V>
        ensures { result ≡ zip keys.now values.now ++ pairs_of later.now }
    {
        Walk {
            keys,
            values,
            later,
        }
    }

    /// The next pair, or None where there is none left.
    pub fn next(&mut self) -> Option<(&'a Key, &'a V)>
        ensures some { IfSome result (λ pair. self.old ≡ (pair.0.now, pair.1.now) ∷ self.new) }
        ensures none { IfNone result (self.old ≡ []) }
        ensures end { IfNone result (self.new ≡ []) }
    {
        loop {
            if let Some((key, keys)) = self.keys.split_first()
                && let Some((value, values)) = self.values.split_first()
            {
                self.keys = keys;
                self.values = values;
                return Some((key, value));
            }
            let (leaf, later) = self.later.split_first()?;
            let (keys, values) = leaf.parts();
            self.keys = keys;
            self.values = values;
            self.later = later;
        }
    }
}
