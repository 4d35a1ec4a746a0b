//! A frame of the log: an epoch, and the events that become durable with it.

ghost use Rattle.std.specs.Prelude.{◌≡◌, ◌↔◌, IsOk, IfOk, IfErr};
ghost use Rattle.ltx_model.specs.Spellings.{IsFrame};
ghost use Rattle.ltx_frame.specs.Events.{events_of, frame_of};

use crate::bounds::{are_in_order, is_epoch};
use crate::event::Event;
use std::marker::Model;

/// An epoch and events within the bounds of the log: epochs from 1 to `Frame::LAST_EPOCH`, which never fall from event
/// to event and are at most the frame's, and for each commit at most 65,536 writes in strictly rising order of table and
/// key.
#[derive(Debug, Drop)]
pub struct Frame {
    epoch: u32,
    events: Vec<Event>,
}

impl Model for Frame {
    ghost use Rattle.ltx_model.specs.Frames.{Frame};
    ghost use Rattle.ltx_model.specs.Spellings.{IsFrame};
    ghost use Rattle.ltx_frame.specs.Events.{frame_of};

    ghost Value = { Frame };

    ghost view = { λ f. frame_of f.epoch f.events.items };

    ghost invariant = { λ f. IsFrame (frame_of f.epoch f.events.items) };
}

impl Frame {
    /// The last epoch that a log may name.
    pub const LAST_EPOCH: u32 = 4_294_967_293;

    /// The frame of this epoch and these events. The events are handed back exactly where the bounds or the orders do not
    /// hold.
    pub fn new(epoch: u32, events: Vec<Event>) -> Result<Frame, Vec<Event>>
        ensures within { IsOk result ↔ IsFrame (frame_of epoch events.items) }
        ensures value { IfOk result (λ frame. frame ≡ frame_of epoch events.items) }
        ensures back { IfErr result (λ back. back ≡ events) }
    {
        if !is_epoch(epoch) {
            return Err(events);
        }
        if !are_in_order(epoch, &events) {
            return Err(events);
        }
        Ok(Frame { epoch, events })
    }

    /// The epoch, from 1 to `Frame::LAST_EPOCH`.
    pub fn epoch(&self) -> u32
        ensures value { result ≡ self.now.epoch }
        ensures kept { IsFrame self.now }
    {
        self.epoch
    }

    /// The events, in time.
    pub fn events(&self) -> &[Event]
        ensures value { events_of result.now ≡ self.now.events }
        ensures kept { IsFrame self.now }
    {
        &self.events
    }
}

/// A frame, and the place of its gate in the log, in bytes from the log's start.
#[derive(Debug, Drop)]
pub struct Placed {
    pub at: u64,
    pub frame: Frame,
}
