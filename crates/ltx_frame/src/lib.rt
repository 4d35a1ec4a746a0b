//! Events and frames of the log: what a frame may hold, the one body of each frame, and reading it.
#![tactic(auto)]

mod bounds;
pub mod decode;
pub mod encode;
pub mod event;
pub mod frame;
pub mod limits;
mod numbers;
mod parts;
mod pieces;
mod unread;

#[cfg(test)]
mod tests {
    use crate::decode::decode_frame;
    use crate::encode::encode_frame;
    use crate::event::Event;
    use crate::frame::Frame;
    use ltx_model::bytes::{Key, Value};
    use ltx_model::numbers::{Table, Tx};
    use ltx_model::writes::{Target, Write, WriteList};
    use std::alloc::Global;
    use std::test::Fail;

    // A slot, a short that puts, and the batch of the slot, which deletes before the short.
    const BODY: [u8; 81] = [
        0, 0, 0, 2, 0, 0, 0, 0, 0, 0, 0, 3, // epoch 2, three events
        1, 0, 0, 0, 0, 0, 0, 0, 1, // a slot
        2, 0, 0, 0, 0, 0, 0, 1, 2, 0, 0, 0, 1, // a short of epoch 1
        0, 0, 0, 1, 0, 3, 1, 120, 0, 2, 97, 98, // puts `ab` under `x` in table 3
        3, 0, 0, 0, 0, 0, 0, 0, 1, 0, 0, 0, 2, // the batch, in epoch 2
        1, 0, 0, 0, 0, 0, 0, 1, 2, // before the short
        0, 0, 0, 2, 1, 0, 1, 121, 1, 0, 2, 121, 122, // deletes `y` and `yz` in table 0
    ];

    fn write(alloc: Global, table: u8, key: &[u8], put: Option<&[u8]>) -> Result<Write, Fail> {
        let put = match put {
            Some(bytes) => Some(Value::from_slice(alloc, bytes)?.ok_or("a value")?),
            None => None,
        };
        Ok(Write {
            table: Table::new(table).ok_or("a table")?,
            key: Key::from_slice(alloc, key)?.ok_or("a key")?,
            put,
        })
    }

    #[test]
    fn a_frame_has_its_body(rt: HostRuntime) -> Result<(), Fail> {
        let alloc = rt.alloc();
        let tx = Tx::new(1).expect(&rt, "a number");
        let other = Tx::new(258).expect(&rt, "a number");
        let put = write(alloc, 3, b"x", Some(b"ab"))?;
        let first = write(alloc, 0, b"y", None)?;
        let second = write(alloc, 0, b"yz", None)?;
        let events = vec![in alloc;
            Event::Slot { tx },
            Event::Short {
                tx: other,
                epoch: 1,
                writes: WriteList::from_vec(vec![in alloc; put]?)
            },
            Event::Batch {
                tx,
                epoch: 2,
                target: Target::Before(other),
                writes: WriteList::from_vec(vec![in alloc; first, second]?)
            },
        ]?;
        let frame = Frame::new(2, events).ok().expect(&rt, "a frame");
        let mut body = Vec::new(alloc);
        encode_frame(&frame, &mut body)?;
        assert_eq!(rt; body.as_slice(), BODY.as_slice());
        Ok(())
    }

    #[test]
    fn bodies_are_read(rt: HostRuntime) -> Result<(), Fail> {
        let alloc = rt.alloc();
        let bodies: [&[u8]; 3] = [
            &BODY,
            &[255, 255, 255, 253, 0, 0, 0, 0, 0, 0, 0, 0],
            &[
                0, 0, 0, 1, 0, 0, 0, 0, 0, 0, 0, 1, 1, 127, 255, 255, 255, 255, 255, 255, 255,
            ],
        ];
        for body in bodies {
            let frame = decode_frame(alloc, body)?.expect(&rt, "a frame");
            let mut out = Vec::new(alloc);
            encode_frame(&frame, &mut out)?;
            assert_eq!(rt; out.as_slice(), body);
        }
        Ok(())
    }

    #[test]
    fn other_bytes_are_no_bodies(rt: HostRuntime) -> Result<(), Fail> {
        let alloc = rt.alloc();
        let others: [&[u8]; 8] = [
            &[],
            &[0, 0, 0, 0, 0, 0, 0, 0, 0, 0, 0, 0],
            &[255, 255, 255, 254, 0, 0, 0, 0, 0, 0, 0, 0],
            &[0, 0, 0, 1, 0, 0, 0, 0, 0, 0, 0, 0, 0],
            &[0, 0, 0, 1, 0, 0, 0, 0, 0, 0, 0, 1],
            &[
                0, 0, 0, 1, 0, 0, 0, 0, 0, 0, 0, 1, 1, 0, 0, 0, 0, 0, 0, 0, 0,
            ],
            &[
                0, 0, 0, 1, 0, 0, 0, 0, 0, 0, 0, 1, 4, 0, 0, 0, 0, 0, 0, 0, 1,
            ],
            &[
                0, 0, 0, 1, 0, 0, 0, 0, 0, 0, 0, 1, 2, 0, 0, 0, 0, 0, 0, 0, 1, 0, 0, 0, 2, 0, 0, 0,
                0,
            ],
        ];
        for other in others {
            assert!(rt; decode_frame(alloc, other)?.is_none());
        }
        Ok(())
    }
}
