//! Recovery: the frames of a log are played, and the writes of what is committed in the end give the rows.

ghost use Rattle.std.specs.Prelude.{◌≡◌, ◌≤◌, ℕ, [], None, IfOk, IfErr, max};
ghost use Rattle.ltx_model.specs.Restored.{IsRestored};
ghost use Rattle.ltx_model.specs.Limits.{last_number, last_durable};
ghost use Rattle.ltx_model.specs.Contents.{epoch_after};
ghost use Rattle.ltx_model.specs.Played.{played_list, rows_after_played};
ghost use Rattle.ltx_model.specs.Recovery.{first_unlawful, number_of_event, greatest_number, recovered, AreLawfulFrames};
ghost use Rattle.ltx_frame.specs.Events.{event_of, events_of};
ghost use Rattle.ltx_recover.specs.Frames.{placed_in, frames_of, events_of_all, IsBaseOf, IsCause, IsAtFirst};

use crate::fault::RecoverFault;
use crate::order::Order;
use crate::stamp::rows_of;
use ltx_frame::event::Event;
use ltx_frame::frame::Placed;
use ltx_model::base::Recovered;
use ltx_model::memory::NoMemory;
use ltx_model::rows::StoredList;
use std::alloc::Global;

/// Plays the frames, one after another, on an empty list.
fn played(alloc: Global, frames: &[Placed]) -> Result<Order<'_>, RecoverFault>
    ensures lawful { IfOk result (λ order. first_unlawful (placed_in frames.now) ≡ None) }
    ensures list { IfOk result (λ order. order ≡ played_list (events_of_all frames.now)) }
    ensures cause { IfErr result (IsCause (placed_in frames.now)) }
{
    let mut order = Order::new(alloc);
    let mut closed = 0;
    let mut rest = frames;
    loop {
        let Some((placed, later)) = rest.split_first() else {
            return Ok(order);
        };
        if let Some(event) = order.play_all(closed, placed.frame.events())? {
            return Err(RecoverFault::Damaged {
                at: placed.at,
                event,
            });
        }
        closed = placed.frame.epoch();
        rest = later;
    }
}

/// The number of an event.
fn number_of(event: &Event) -> u64
    ensures value { result ≡ number_of_event (event_of event.now) }
    ensures within { result ≤ last_number }
{
    match event {
        Event::Slot { tx } => tx.number(),
        Event::Short { tx, .. } => tx.number(),
        Event::Batch { tx, .. } => tx.number(),
    }
}

/// The greatest number of events, and of this one.
fn greatest_of(events: &[Event], least: u64) -> u64
    requires { least ≤ last_number }
    ensures value { result ≡ max least (greatest_number (events_of events.now)) }
    ensures within { result ≤ last_number }
{
    let mut last = least;
    let mut rest = events;
    while let Some((event, later)) = rest.split_first() {
        last = last.max(number_of(event));
        rest = later;
    }
    last
}

/// The greatest number of any event, or 0.
fn last_number_of(frames: &[Placed]) -> u64
    ensures value { result ≡ greatest_number (events_of_all frames.now) }
    ensures within { result ≤ last_number }
{
    let mut last = 0;
    let mut rest = frames;
    while let Some((placed, later)) = rest.split_first() {
        last = greatest_of(placed.frame.events(), last);
        rest = later;
    }
    last
}

/// The last frame's epoch, or 0.
fn last_epoch_of(frames: &[Placed]) -> u32
    ensures value { result ≡ epoch_after 0 (frames_of frames.now) }
    ensures within { result ≤ last_durable }
{
    let mut epoch = 0;
    let mut rest = frames;
    while let Some((placed, later)) = rest.split_first() {
        epoch = placed.frame.epoch();
        rest = later;
    }
    epoch
}

/// The rows that the writes of the list's committed members leave, in list order.
fn rows_left(alloc: Global, order: &Order<'_>) -> Result<StoredList, NoMemory>
    ensures { IfOk result (λ rows. rows ≡ rows_after_played [] order.now) }
{
    let stamps = order.stamps(alloc)?;
    rows_of(alloc, stamps)
}

/// Rows, an epoch and a last number, which are within the bounds of what a run starts from.
fn base_of(rows: StoredList, epoch: u32, last: u64) -> Recovered
    requires { IsRestored (record { rows = rows; epoch = epoch; last = last }) }
    ensures { result ≡ record { rows = rows; epoch = epoch; last = last } }
{
    match Recovered::new(rows, epoch, last) {
        Ok(base) => base,
        Err(_) => unreachable!(),
    }
}

/// What frames of a log give: the rows after the writes of the committed members, in list order; the last frame's epoch, or 0;
/// and the greatest number of any event, or 0.
///
/// A slot or a short is lawful where its number is not in the list. A batch is lawful where its number is there as a slot, and
/// its target, where it has one, is another member that stands before it. A commit's epoch is above that of the frame before.
/// `Damaged` comes exactly where an event is not lawful, and names the first such one.
///
/// It takes time N log N in the writes, and copies no more of them than the rows that are left.
pub fn recover(alloc: Global, frames: &[Placed]) -> Result<Recovered, RecoverFault>
    ensures recovered { IfOk result (λ base. (gate : ℕ) → IsBaseOf base (recovered (frames_of frames.now) gate)) }
    ensures none { IfOk result (λ base. first_unlawful (placed_in frames.now) ≡ None) }
    ensures lawful { IfOk result (λ base. AreLawfulFrames 0 [] (frames_of frames.now)) }
    ensures cause { IfErr result (IsCause (placed_in frames.now)) }
    ensures first { IfErr result (IsAtFirst (placed_in frames.now)) }
{
    let order = match played(alloc, frames) {
        Ok(order) => order,
        Err(fault) => return Err(fault),
    };
    let rows = rows_left(alloc, &order)?;
    Ok(base_of(rows, last_epoch_of(frames), last_number_of(frames)))
}
