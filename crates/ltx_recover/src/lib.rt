//! Recovery: what the frames of a log give. Their events are played in order on an empty list of numbers, each a slot or
//! committed; the rows are what the writes of the committed ones leave, in list order.
#![tactic(auto)]

mod fault;
mod frames;
mod member;
mod order;
mod stamp;

pub use fault::RecoverFault;
pub use frames::recover;
pub use ltx_frame::frame::Placed;
pub use ltx_model::base::Recovered;
pub use ltx_model::rows::{StoredList, StoredRow};

#[cfg(test)]
mod tests {
    use super::*;
    use ltx_frame::event::Event;
    use ltx_frame::frame::Frame;
    use ltx_model::bytes::{Key, Value};
    use ltx_model::numbers::{Table, Tx};
    use ltx_model::writes::{Target, Write, WriteList};
    use std::alloc::Global;
    use std::test::Fail;

    fn tx(number: u64) -> Result<Tx, Fail> {
        Ok(Tx::new(number).ok_or("a number")?)
    }

    // Puts the key to the value, or deletes it.
    fn write(alloc: Global, key: &[u8], value: Option<&[u8]>) -> Result<Write, Fail> {
        let put = match value {
            Some(value) => Some(Value::from_slice(alloc, value)?.ok_or("a value")?),
            None => None,
        };
        Ok(Write {
            table: Table::new(0).ok_or("a table")?,
            key: Key::from_slice(alloc, key)?.ok_or("a key")?,
            put,
        })
    }

    fn short(alloc: Global, number: u64, epoch: u32, write: Write) -> Result<Event, Fail> {
        Ok(Event::Short {
            tx: tx(number)?,
            epoch,
            writes: WriteList::from_vec(vec![in alloc; write]?),
        })
    }

    fn placed(at: u64, epoch: u32, events: Vec<Event>) -> Result<Placed, Fail> {
        let frame = Frame::new(epoch, events).ok().ok_or("a frame")?;
        Ok(Placed { at, frame })
    }

    // A batch is put before a short that wrote its key, so the short's write is the last one.
    #[test]
    fn writes_count_in_list_order(rt: HostRuntime) -> Result<(), Fail> {
        let alloc = rt.alloc();
        let batch = Event::Batch {
            tx: tx(1)?,
            epoch: 2,
            target: Target::Before(tx(3)?),
            writes: WriteList::from_vec(vec![in alloc;
                write(alloc, b"x", Some(b"late"))?,
                write(alloc, b"y", Some(b"b"))?,
            ]?),
        };
        let first = vec![in alloc;
            Event::Slot { tx: tx(2)? },
            short(alloc, 3, 1, write(alloc, b"x", Some(b"a"))?)?,
            Event::Slot { tx: tx(1)? },
        ]?;
        let second = vec![in alloc; batch, short(alloc, 4, 2, write(alloc, b"z", None)?)?]?;
        let frames = vec![in alloc; placed(17, 1, first)?, placed(90, 3, second)?]?;
        let base = recover(alloc, &frames)?;
        assert_eq!(rt; base.epoch(), 3);
        assert_eq!(rt; base.last(), 4);
        let rows = base.rows().items();
        assert_eq!(rt; rows.len(), 2);
        assert_eq!(rt; rows[0].value.bytes(), b"a".as_slice());
        assert_eq!(rt; rows[0].writer, tx(3)?);
        assert_eq!(rt; rows[1].key.bytes(), b"y".as_slice());
        Ok(())
    }

    #[test]
    fn the_first_event_that_is_not_lawful_is_named(rt: HostRuntime) -> Result<(), Fail> {
        let alloc = rt.alloc();
        let first = vec![in alloc; Event::Slot { tx: tx(1)? }]?;
        let second = vec![in alloc; Event::Slot { tx: tx(2)? }, Event::Slot { tx: tx(1)? }]?;
        let frames = vec![in alloc; placed(17, 1, first)?, placed(48, 2, second)?]?;
        assert_eq!(rt;
            recover(alloc, &frames).err(),
            Some(RecoverFault::Damaged { at: 48, event: 1 })
        );
        Ok(())
    }
}
