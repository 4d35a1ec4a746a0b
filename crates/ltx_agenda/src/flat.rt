//! A list of members without seats, in which a member is looked for from the front.

ghost use Rattle.std.specs.Prelude.{◌≡◌, ◌<◌, ◌≤◌, ◌+◌, ◌^◌, length, true, take, drop, nat_lt, slice_index_or, vec_capacity};
ghost use Rattle.ltx_agenda.specs.Lanes.{total, kept, longer};
ghost use Rattle.ltx_model.specs.Listings.{is_member, without, insert_before, place_of};

use crate::spot::Spot;
use ltx_model::numbers::Tx;

/// How many members stand before one: all, where it is none of them.
pub fn place(flat: &[Tx], tx: Tx) -> usize
    ensures { result ≡ place_of flat.now tx }
{
    for (place, member) in flat.iter().enumerate() {
        if *member == tx {
            return place;
        }
    }
    flat.len()
}

/// Takes a member out.
pub fn take_out(flat: &mut Vec<Tx>, tx: Tx)
    ensures items { flat.new.items ≡ without flat.old.items tx }
    ensures capacity { vec_capacity flat.new ≡ vec_capacity flat.old }
{
    flat.retain(|member| *member != tx);
}

/// Puts a member immediately before another, without taking memory.
pub fn put_before(flat: &mut Vec<Tx>, tx: Tx, target: Tx)
    requires target { is_member flat.old.items target ≡ true }
    requires room { length flat.old.items < vec_capacity flat.old }
    ensures items { flat.new.items ≡ insert_before tx target flat.old.items }
    ensures capacity { vec_capacity flat.old ≤ vec_capacity flat.new }
{
    let place = place(flat, target);
    let _ = flat.insert(place, tx);
}

/// How many of some members are left without one.
pub fn left_of(part: &[Tx], tx: Tx) -> usize
    ensures { result ≡ length (without part.now tx) }
{
    let mut left = 0;
    for member in part {
        if *member != tx {
            left += 1;
        }
    }
    left
}

/// Tells the lengths of the closed lanes as they are once a member is out of the list. It answers
/// how many are then in no closed lane.
pub fn recount(lens: &mut [usize], flat: &[Tx], tx: Tx) -> usize
    requires fits { total lens.old ≤ length flat.now }
    ensures lens { lens.new ≡ kept flat.now lens.old tx }
    ensures open { result ≡ length (without (drop (total lens.old) flat.now) tx) }
{
    let mut from = 0;
    for lane in 0..lens.len() {
        let to = from + lens[lane];
        lens[lane] = left_of(&flat[from..to], tx);
        from = to;
    }
    left_of(&flat[from..], tx)
}

/// Makes the closed lane longer in which a place of the list is, and answers whether it is in one.
pub fn lengthen(lens: &mut [usize], place: usize) -> bool
    requires bounded { total lens.old + 1 < 2 ^ 64 }
    ensures lens { lens.new ≡ longer lens.old place }
    ensures closed { result ≡ nat_lt place (total lens.old) }
{
    let mut left = place;
    for lane in 0..lens.len() {
        if left < lens[lane] {
            lens[lane] += 1;
            return true;
        }
        left -= lens[lane];
    }
    false
}

/// The lane in which a place of the list is, and the place there.
pub fn spot_of(lens: &[usize], place: usize) -> Spot
    ensures lane { result.lane ≤ length lens.now }
    ensures place { place ≡ total (take result.lane lens.now) + result.place }
    ensures within { result.lane < length lens.now → result.place < slice_index_or lens.now result.lane 0 }
{
    let mut left = place;
    for (lane, len) in lens.iter().enumerate() {
        if left < *len {
            return Spot {
                lane: lane as u64,
                place: left as u64,
            };
        }
        left -= *len;
    }
    Spot {
        lane: lens.len() as u64,
        place: left as u64,
    }
}
