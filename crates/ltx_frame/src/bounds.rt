//! The bounds and the orders of a frame.

ghost use Rattle.std.specs.Prelude.{◌≡◌, ◌<◌, ◌≤◌, ◌^◌, ◌↔◌, IsTrue, IfSome, IfNone, length};
ghost use Rattle.ltx_model.specs.Operations.{cell_of_write};
ghost use Rattle.ltx_model.specs.Spellings.{IsLogEpoch, AreWithin, IsEvent};
ghost use Rattle.ltx_frame.specs.Events.{event_of, events_of};
ghost use Rattle.ltx_frame.specs.Orders.{AreRisingWrites, epoch_past, StepsOn, AreInOrder};

use crate::event::Event;
use crate::frame::Frame;
use crate::limits;
use ltx_model::commands::compare_cells;
use ltx_model::writes::{Write, WriteList};

/// Whether a log may name this epoch.
pub(crate) fn is_epoch(epoch: u32) -> bool
    ensures { IsTrue result ↔ IsLogEpoch epoch }
{
    epoch > 0 && epoch <= Frame::LAST_EPOCH
}

/// Whether writes stand in strictly rising order of table and key. Each is within its limits.
fn are_rising(writes: &[Write]) -> bool
    ensures { IsTrue result ↔ AreRisingWrites writes.now }
{
    let mut rest = writes;
    loop {
        let Some((first, behind)) = rest.split_first() else {
            return true;
        };
        limits::write(first);
        let Some((second, _)) = behind.split_first() else {
            return true;
        };
        if !compare_cells(first.table, &first.key, second.table, &second.key).is_lt() {
            return false;
        }
        rest = behind;
    }
}

/// Whether a frame may hold these writes of a commit: at most 65,536, in strictly rising order of table and key.
fn are_within(writes: &[Write]) -> bool
    ensures { IsTrue result ↔ AreWithin writes.now }
{
    writes.len() <= 65536 && are_rising(writes)
}

/// Whether a commit's epoch and writes are within their limits, and the epoch is neither below the last one nor above
/// the highest.
fn is_commit(epoch: u32, writes: &WriteList, last: u32, highest: u32) -> bool
    ensures { IsTrue result ↔ (IsLogEpoch epoch × AreWithin writes.now × (last ≤ epoch) × (epoch ≤ highest)) }
{
    is_epoch(epoch) && last <= epoch && epoch <= highest && are_within(writes.items())
}

/// The epoch of the last commit after an event. None exactly where a frame of the highest epoch may not hold the event
/// behind a commit of the last one.
fn epoch_behind(event: &Event, last: u32, highest: u32) -> Option<u32>
    requires { last ≤ highest }
    ensures next { IfSome result (λ next. next ≡ epoch_past last (event_of event.now)) }
    ensures some { IfSome result (λ next. StepsOn last highest (event_of event.now)) }
    ensures none { IfNone result (StepsOn last highest (event_of event.now) → ⊥) }
{
    match event {
        Event::Slot { tx } => {
            limits::tx(*tx);
            Some(last)
        }
        Event::Short { tx, epoch, writes } => {
            limits::tx(*tx);
            is_commit(*epoch, writes, last, highest).then_some(*epoch)
        }
        Event::Batch {
            tx,
            epoch,
            target,
            writes,
        } => {
            limits::tx(*tx);
            limits::target(*target);
            is_commit(*epoch, writes, last, highest).then_some(*epoch)
        }
    }
}

/// Whether a frame of the highest epoch may hold these events.
pub(crate) fn are_in_order(highest: u32, events: &[Event]) -> bool
    ensures fit { length events.now < 2 ^ 64 }
    ensures all { IsTrue result ↔ AreInOrder 0 highest (events_of events.now) }
{
    let _ = events.len();
    let mut last = 0;
    let mut rest = events;
    loop {
        let Some((event, behind)) = rest.split_first() else {
            return true;
        };
        let Some(next) = epoch_behind(event, last, highest) else {
            return false;
        };
        last = next;
        rest = behind;
    }
}
