//! Replies: the one text of each, printed and read.
#![tactic(auto)]

mod cuts;
mod guess;
mod kinds;
mod limits;
mod parts;
mod pieces;
pub mod print;
pub mod read;
mod unread;

#[cfg(test)]
mod tests {
    use crate::print::print_reply;
    use crate::read::read_reply;
    use std::test::Fail;

    #[test]
    fn replies_are_read_and_printed(rt: HostRuntime) -> Result<(), Fail> {
        let alloc = rt.alloc();
        let texts: [&[u8]; 30] = [
            b"begun 1",
            b"begun 9223372036854775807 at 4294967295",
            b"found %",
            b"found a%20b",
            b"none",
            b"rows 0",
            b"rows 2 a 1 b %",
            b"done",
            b"committed 3",
            b"committed 3 before 7",
            b"aborted",
            b"preserved 63 2",
            b"changed 1 0 k none 5",
            b"changed 4294967295 0 k 5 none",
            b"late 1 2 3 k 4",
            b"contradicts 1 2 3 k 4",
            b"waiting 1",
            b"notyet 2",
            b"outside 0",
            b"notpreserved 0",
            b"notx",
            b"hastx",
            b"limit epoch",
            b"limit ops",
            b"limit tx",
            b"limit log",
            b"epoch 2",
            b"durable 0",
            b"pruned",
            b"bad words",
        ];
        for text in texts {
            let reply = read_reply(alloc, text)?.expect(&rt, "a reply");
            let mut out = Vec::new(alloc);
            print_reply(&reply, &mut out)?;
            assert_eq!(rt; out.as_slice(), text);
        }
        Ok(())
    }

    #[test]
    fn other_texts_are_none(rt: HostRuntime) -> Result<(), Fail> {
        let alloc = rt.alloc();
        let others: [&[u8]; 19] = [
            b"",
            b"begun",
            b"begun 0",
            b"begun 01",
            b"begun 1 ",
            b"begun 1 at",
            b"none ",
            b"found %41",
            b"rows 2 a 1",
            b"rows 2 b 1 a 2",
            b"rows 2 a 1 a 2",
            b"changed 0 0 k none 2",
            b"changed 1 0 k 2 2",
            b"changed 1 0 k none none",
            b"late 1 0 0 k 2",
            b"contradicts 1 0 0 k 2",
            b"preserved 64 1",
            b"notyet 4294967296",
            b"bad reply",
        ];
        for other in others {
            assert!(rt; read_reply(alloc, other)?.is_none());
        }
        Ok(())
    }
}
