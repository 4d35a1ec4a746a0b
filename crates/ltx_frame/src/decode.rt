//! Reading a body.

ghost use Rattle.std.specs.Prelude.{◌≡◌, List, Some, IfOk, IfSome, IfNone};
ghost use Rattle.ltx_model.specs.Frames.{Frame};
ghost use Rattle.ltx_model.specs.Spellings.{body_bytes, IsFrame, Spells};
ghost use Rattle.ltx_frame.specs.Events.{event_of, events_of, frame_of};
ghost use Rattle.ltx_frame.specs.Readings.{slot_at, short_at, batch_at, event_at, items_at, body_at};
ghost use Rattle.ltx_frame.specs.Readers.{Gives};

use crate::event::Event;
use crate::frame::Frame;
use crate::numbers::{u32_of, u64_of};
use crate::parts::{target_of, tx_of, writes_of};
use crate::unread::Unread;
use ltx_model::memory::NoMemory;
use std::alloc::Global;

/// A slot behind its first byte.
#[tactic(auto, unfolding(crate::specs::Readings::slot_at))]
fn slot_of(bytes: &[u8]) -> Result<(Event, &[u8]), Unread>
    ensures { Gives (λ x. (event_of x.0, x.1.now)) result (slot_at bytes.now) }
{
    let (n, rest) = u64_of(bytes)?;
    let tx = tx_of(n)?;
    Ok((Event::Slot { tx }, rest))
}

/// A short behind its first byte.
#[tactic(auto, unfolding(crate::specs::Readings::short_at))]
fn short_of(alloc: Global, bytes: &[u8]) -> Result<(Event, &[u8]), Unread>
    ensures { Gives (λ x. (event_of x.0, x.1.now)) result (short_at bytes.now) }
{
    let (n, rest) = u64_of(bytes)?;
    let tx = tx_of(n)?;
    let (epoch, rest) = u32_of(rest)?;
    let (writes, rest) = writes_of(alloc, rest)?;
    Ok((Event::Short { tx, epoch, writes }, rest))
}

/// A batch behind its first byte.
#[tactic(auto, unfolding(crate::specs::Readings::batch_at))]
fn batch_of(alloc: Global, bytes: &[u8]) -> Result<(Event, &[u8]), Unread>
    ensures { Gives (λ x. (event_of x.0, x.1.now)) result (batch_at bytes.now) }
{
    let (n, rest) = u64_of(bytes)?;
    let tx = tx_of(n)?;
    let (epoch, rest) = u32_of(rest)?;
    let (target, rest) = match target_of(rest) {
        Ok(read) => read,
        Err(unread) => return Err(unread),
    };
    let (writes, rest) = writes_of(alloc, rest)?;
    let batch = Event::Batch {
        tx,
        epoch,
        target,
        writes,
    };
    Ok((batch, rest))
}

/// An event.
#[tactic(auto, unfolding(crate::specs::Readings::event_at))]
fn event_of(alloc: Global, bytes: &[u8]) -> Result<(Event, &[u8]), Unread>
    ensures { Gives (λ x. (event_of x.0, x.1.now)) result (event_at bytes.now) }
{
    match bytes {
        [1, rest @ ..] => slot_of(rest),
        [2, rest @ ..] => short_of(alloc, rest),
        [3, rest @ ..] => batch_of(alloc, rest),
        _ => Err(Unread::NoFrame),
    }
}

/// So many events.
fn events_in(alloc: Global, count: u64, bytes: &[u8]) -> Result<(Vec<Event>, &[u8]), Unread>
    ensures { Gives (λ x. (events_of x.0.items, x.1.now)) result (items_at event_at count bytes.now) }
{
    let mut events = Vec::new(alloc);
    let mut rest = bytes;
    for _ in 0..count {
        let (event, behind) = event_of(alloc, rest)?;
        events.push(event)?;
        rest = behind;
    }
    Ok((events, rest))
}

/// The epoch and the events of a body, whatever they are.
#[tactic(auto, unfolding(crate::specs::Readings::body_at))]
fn body_of(alloc: Global, body: &[u8]) -> Result<(u32, Vec<Event>), Unread>
    ensures { Gives (λ x. frame_of x.0 x.1.items) result (body_at body.now) }
{
    let (epoch, rest) = u32_of(body)?;
    let (count, rest) = u64_of(rest)?;
    let (events, rest) = events_in(alloc, count, rest)?;
    if rest.is_empty() {
        Ok((epoch, events))
    } else {
        Err(Unread::NoFrame)
    }
}

/// What the type of bytes and reading say: a frame that is read has these bytes.
fn is_body(body: &[u8])
    ensures { (f : Frame) → body_at body.now ≡ Some f → body.now ≡ body_bytes f }
{}

/// What callers may rest on: no two frames have one body.
#[tactic(auto, using(crate::proofs::Bodies::bodies_differ))]
pub fn frames_have_bodies_of_their_own()
    ensures one { (f g : Frame) → IsFrame f → IsFrame g → body_bytes f ≡ body_bytes g → f ≡ g }
{}

/// The frame with this body. None exactly where no frame has it.
pub fn decode_frame(alloc: Global, body: &[u8]) -> Result<Option<Frame>, NoMemory>
    ensures found { IfOk result (λ found. IfSome found (λ frame. Spells body.now frame)) }
    ensures none { IfOk result (λ found. IfNone found ((f : Frame) → Spells body.now f → ⊥)) }
    // What was encoded is read again.
    ensures again { (f : Frame) → Spells body.now f → IfOk result (λ found. found ≡ Some f) }
{
    let (epoch, events) = match body_of(alloc, body) {
        Ok(read) => read,
        Err(Unread::NoFrame) => return Ok(None),
        Err(Unread::Memory) => return Err(NoMemory),
    };
    is_body(body);
    Ok(Frame::new(epoch, events).ok())
}
