//! What the types of events' parts say of them, as clauses: each is within its limits.

ghost use Rattle.std.specs.Prelude.{◌<◌, ◌^◌, length};
ghost use Rattle.std.specs.List.{AllByRecursion};
ghost use Rattle.ltx_model.specs.Spellings.{IsWithin};
ghost use Rattle.ltx_frame.specs.Events.{event_of, events_of};
ghost use Rattle.ltx_events.specs.Kept.{IsTyped};

use ltx_frame::event::Event;
use ltx_frame::limits;
use ltx_model::writes::Write;

/// Each write is within its limits.
fn writes(writes: &[Write])
    ensures { AllByRecursion IsWithin writes.now }
{
    let mut rest = writes;
    loop {
        let Some((first, behind)) = rest.split_first() else {
            return;
        };
        limits::write(first);
        rest = behind;
    }
}

/// An event's numbers, target and writes are within their limits.
fn event(event: &Event)
    ensures { IsTyped (event_of event.now) }
{
    match event {
        Event::Slot { tx } => limits::tx(*tx),
        Event::Short {
            tx,
            writes: list,
            ..
        } => {
            limits::tx(*tx);
            writes(list.items());
        }
        Event::Batch {
            tx,
            target,
            writes: list,
            ..
        } => {
            limits::tx(*tx);
            limits::target(*target);
            writes(list.items());
        }
    }
}

/// Events are so many that their number fits 64 bits, and each is within its limits.
pub(crate) fn events(events: &[Event])
    ensures fit { length events.now < 2 ^ 64 }
    ensures all { AllByRecursion IsTyped (events_of events.now) }
{
    let _ = events.len();
    let mut rest = events;
    loop {
        let Some((first, behind)) = rest.split_first() else {
            return;
        };
        event(first);
        rest = behind;
    }
}
