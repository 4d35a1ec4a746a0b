//! Copies of events.

ghost use Rattle.std.specs.Prelude.{◌≡◌, IfOk};

use ltx_frame::event::Event;
use ltx_model::memory::NoMemory;
use std::alloc::Global;

/// An event that equals this one.
fn copy_of(alloc: Global, event: &Event) -> Result<Event, NoMemory>
    ensures equal { IfOk result (λ copy. copy ≡ event.now) }
{
    match event {
        Event::Slot { tx } => Ok(Event::Slot { tx: *tx }),
        Event::Short { tx, epoch, writes } => Ok(Event::Short {
            tx: *tx,
            epoch: *epoch,
            writes: writes.copy(alloc)?,
        }),
        Event::Batch {
            tx,
            epoch,
            target,
            writes,
        } => Ok(Event::Batch {
            tx: *tx,
            epoch: *epoch,
            target: *target,
            writes: writes.copy(alloc)?,
        }),
    }
}

/// Copies of all events, in their order.
pub(crate) fn copies_of(alloc: Global, events: &[Event]) -> Result<Vec<Event>, NoMemory>
    ensures equal { IfOk result (λ copies. copies.items ≡ events.now) }
{
    let mut copies = Vec::with_capacity(alloc, events.len())?;
    for event in events {
        copies.push(copy_of(alloc, event)?)?;
    }
    Ok(copies)
}
