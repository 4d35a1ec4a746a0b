//! The least key of a range that has another writer now.

ghost use Rattle.std.specs.Prelude.{◌≡◌, ◌&&◌, not, IfOk, IfSome, IfNone, Some, None, option_map};
ghost use Rattle.ltx_model.specs.declared.looked.Reach.TheVariants.{Range};
ghost use Rattle.std.specs.List.Sorted.{IsStrictlySortedBy};
ghost use Rattle.ltx_model.specs.Keys.{key_cmp, is_below_end};
ghost use Rattle.ltx_model.specs.Notes.{is_one_of};
ghost use Rattle.ltx_model.specs.Shorts.{same_writer};
ghost use Rattle.ltx_validate.specs.Differences.{IsOrdered, Tells};
ghost use Rattle.ltx_validate.specs.Turns.{turn_of, NextRow};

use crate::difference::{Difference, writer_of};
use ltx_model::bytes::{Bound, Key, compare_bytes};
use ltx_model::latest::Latest;
use ltx_model::memory::NoMemory;
use ltx_model::numbers::{Table, Tx};
use ltx_model::writes::Look;
use std::cmp::Ordering;

/// A key with its writers then and now, and the looks above it.
#[derive(Clone, Copy)]
struct Turn<'k> {
    key: &'k Key,
    found: Option<Tx>,
    current: Option<Tx>,
    left: &'k [Look],
}

/// The least key of the range, none of the own ones, whose writer by the looks and writer now differ. The looks and the rows are
/// walked side by side, and each row is searched for once.
pub(crate) fn difference_in_range<'x, L: Latest>(
    latest: &'x L,
    table: Table,
    low: &Bound,
    high: &Bound,
    looks: &'x [Look],
    own: &[Key],
) -> Result<Option<Difference>, NoMemory>
    ensures { IfOk result (λ difference. IsOrdered (Range low.now high.now looks.now own.now) → Tells (L.rows latest.now) table (Range low.now high.now looks.now own.now) difference) }
{
    let mut left = looks;
    let mut row = next_row(latest, table, low.bytes(), false, high);
    while let Some(turn) = next_turn(left, &row) {
        if has_changed(own, turn.key, turn.found, turn.current) {
            return Ok(Some(Difference::at(turn.key, turn.found, turn.current)?));
        }
        left = turn.left;
        if turn.current.is_some() {
            row = next_row(latest, table, turn.key.bytes(), true, high);
        }
    }
    Ok(None)
}

/// The least key that the looks and the row are of.
fn next_turn<'k>(looks: &'k [Look], row: &Option<(&'k Key, Tx)>) -> Option<Turn<'k>>
    ensures some { IfSome result (λ turn. turn_of looks.now (option_map (λ r. (r.0.now, r.1)) row.now) ≡ Some (record { key = turn.key.now; found = turn.found; current = turn.current; left = turn.left.now })) }
    ensures none { IfNone result (turn_of looks.now (option_map (λ r. (r.0.now, r.1)) row.now) ≡ None) }
{
    let Some((look, rest)) = looks.split_first() else {
        let Some((key, writer)) = *row else {
            return None;
        };
        return Some(Turn {
            key,
            found: None,
            current: Some(writer),
            left: looks,
        });
    };
    let Some((key, writer)) = *row else {
        return Some(Turn {
            key: &look.key,
            found: writer_of(look),
            current: None,
            left: rest,
        });
    };
    Some(match look.key.compare(key) {
        Ordering::Less => Turn {
            key: &look.key,
            found: writer_of(look),
            current: None,
            left: rest,
        },
        Ordering::Equal => Turn {
            key: &look.key,
            found: writer_of(look),
            current: Some(writer),
            left: rest,
        },
        Ordering::Greater => Turn {
            key,
            found: None,
            current: Some(writer),
            left: looks,
        },
    })
}

/// The next row of the table from a bound on, below the upper end of the range.
fn next_row<'l, L: Latest>(
    latest: &'l L,
    table: Table,
    from: &[u8],
    strict: bool,
    high: &Bound,
) -> Option<(&'l Key, Tx)>
    ensures { NextRow (L.rows latest.now) table high.now from.now strict (option_map (λ r. (r.0.now, r.1)) result) }
{
    match latest.after(table, from, strict) {
        Some((key, writer)) if is_below(key, high) => Some((key, writer)),
        _ => None,
    }
}

/// The key is below the upper end of a range, which is no bound where it is empty.
fn is_below(key: &Key, high: &Bound) -> bool
    ensures { result ≡ is_below_end high.now key.now }
{
    high.bytes().is_empty() || compare_bytes(key.bytes(), high.bytes()).is_lt()
}

/// The writers then and now differ, and the key is none of the own ones, which are asked last.
fn has_changed(own: &[Key], key: &Key, found: Option<Tx>, current: Option<Tx>) -> bool
    ensures { IsStrictlySortedBy key_cmp own.now → result ≡ (not (same_writer found current) && not (is_one_of own.now key.now)) }
{
    found != current && !is_own(own, key)
}

/// The key is one of these, which rise.
fn is_own(own: &[Key], key: &Key) -> bool
    ensures { IsStrictlySortedBy key_cmp own.now → result ≡ is_one_of own.now key.now }
{
    own.binary_search_by(|k| k.compare(key)).is_ok()
}
