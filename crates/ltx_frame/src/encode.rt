//! Writing a body.

ghost use Rattle.std.specs.Prelude.{◌≡◌, ◌++◌, length, take, flat_map, OnOk, OnErr};
ghost use Rattle.std.specs.List.{AllByRecursion};
ghost use Rattle.ltx_model.specs.Spellings.{event_bytes, body_bytes, IsEvent};
ghost use Rattle.ltx_frame.specs.Events.{events_of};

use crate::event::Event;
use crate::frame::Frame;
use crate::pieces::{put_bytes, put_event};
use ltx_model::memory::NoMemory;

/// Appends events, one after another.
fn put_events(events: &[Event], out: &mut Vec<u8>) -> Result<(), NoMemory>
    requires { AllByRecursion IsEvent (events_of events.now) }
    ensures ok { OnOk result (out.new.items ≡ out.old.items ++ flat_map event_bytes (events_of events.now)) }
    ensures front { take (length out.old.items) out.new.items ≡ out.old.items }
{
    for event in events {
        put_event(event, out)?;
    }
    Ok(())
}

/// Appends a frame's body. Without memory a front of it may stand there.
fn put_frame(frame: &Frame, out: &mut Vec<u8>) -> Result<(), NoMemory>
    ensures ok { OnOk result (out.new.items ≡ out.old.items ++ body_bytes frame.now) }
    ensures front { take (length out.old.items) out.new.items ≡ out.old.items }
{
    let events = frame.events();
    put_bytes(&frame.epoch().to_be_bytes(), out)?;
    put_bytes(&(events.len() as u64).to_be_bytes(), out)?;
    put_events(events, out)
}

/// Appends the frame's body to `out`. Each frame has one body. Without memory `out` stays as it was.
pub fn encode_frame(frame: &Frame, out: &mut Vec<u8>) -> Result<(), NoMemory>
    ensures ok { OnOk result (out.new.items ≡ out.old.items ++ body_bytes frame.now) }
    ensures err { OnErr result (out.new.items ≡ out.old.items) }
{
    let start = out.len();
    let done = put_frame(frame, out);
    if done.is_err() {
        out.truncate(start);
    }
    done
}
