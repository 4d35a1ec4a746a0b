//! Transcripts: what a run printed is read and checked, and nothing is taken on trust.
#![tactic(auto)]

pub mod asked;
mod commits;
mod cuts;
pub mod desk;
mod entries;
mod marks;
mod orders;
mod parts;
mod reading;
mod replay;
mod rows;
pub mod verdict;
mod words;

#[cfg(test)]
mod tests {
    use crate::verdict::{Fault, Verdict, check};
    use std::test::Fail;

    #[test]
    fn forms_are_checked(rt: HostRuntime) -> Result<(), Fail> {
        let alloc = rt.alloc();
        let whole: [&[u8]; 4] = [
            b"order\ndurable 0\n",
            b"? => bad words\nepoch => bad session\norder\ndurable 7\n",
            b"1 short => begun 1\n1 get 0 => => none\n1 commit => committed 1\norder 1\ndurable 0\n",
            b"1 long W=0 R=2 => begun 3 at 2\n1 commit => waiting 1\n1 commit => later\n1 commit => late 1 1 0 k 2\norder\ndurable 0\n",
        ];
        for text in whole {
            assert_eq!(rt; check(alloc, text)?, Verdict::Yes);
        }
        let texts: [(&[u8], u64); 9] = [
            (b"", 1),
            (b"? => done\norder\ndurable 0\n", 1),
            (b"epoch => epoch 2\n", 2),
            (b"order 1", 1),
            (b"order 01\ndurable 0\n", 1),
            (b"order\n", 2),
            (b"order\ndurable 4294967296\n", 2),
            (b"order\ndurable 0", 2),
            (b"order\ndurable 0\n\n", 3),
        ];
        for (text, line) in texts {
            let no = Verdict::No {
                line,
                fault: Fault::Text,
            };
            assert_eq!(rt; check(alloc, text)?, no);
        }
        let opens: [(&[u8], u64); 6] = [
            (
                b"1 short => begun 1\n1 short => begun 2\norder\ndurable 0\n",
                2,
            ),
            (
                b"1 short => begun 2\n2 short => begun 2\norder\ndurable 0\n",
                2,
            ),
            (b"epoch => begun 1\norder\ndurable 0\n", 1),
            (b"1 get 0 k => none\norder\ndurable 0\n", 1),
            (
                b"1 short => begun 1\n1 get 0 k => done\norder\ndurable 0\n",
                2,
            ),
            (
                b"1 short => begun 1\n1 commit => committed 1 before 2\norder\ndurable 0\n",
                2,
            ),
        ];
        for (text, line) in opens {
            let no = Verdict::No {
                line,
                fault: Fault::Open,
            };
            assert_eq!(rt; check(alloc, text)?, no);
        }
        let orders: [(&[u8], u64); 3] = [
            (b"order 1\ndurable 0\n", 1),
            (
                b"1 short => begun 1\n1 commit => committed 1\norder\ndurable 0\n",
                3,
            ),
            (
                b"1 short => begun 1\n1 commit => committed 1\norder 1 1\ndurable 0\n",
                3,
            ),
        ];
        for (text, line) in orders {
            let no = Verdict::No {
                line,
                fault: Fault::Order,
            };
            assert_eq!(rt; check(alloc, text)?, no);
        }
        Ok(())
    }

    const FORWARDED: &[u8] =
        b"1 long W=0 R=2 => begun 1 at 2\n2 long W=1 => begun 2 at 2\nepoch => epoch 2\n1 get 2 z => none\n2 get 0 y => none\n1 put 0 y a => done\n2 put 1 x b => done\n2 commit => committed 2 before 1\n1 commit => committed 2\nepoch => epoch 3\nflush => durable 2\norder 2 1\ndurable 2\n";

    #[test]
    fn replies_are_checked(rt: HostRuntime) -> Result<(), Fail> {
        let alloc = rt.alloc();
        assert_eq!(rt; check(alloc, FORWARDED)?, Verdict::Yes);
        let others: [(&[u8], u64, Fault); 6] = [
            (
                b"1 long W=0 R=2 => begun 1 at 2\n2 long W=1 => begun 2 at 2\nepoch => epoch 2\n1 get 2 z => none\n2 get 0 y => none\n1 put 0 y a => done\n2 put 1 x b => done\n2 commit => committed 2\n1 commit => committed 2\nepoch => epoch 3\nflush => durable 2\norder 2 1\ndurable 2\n",
                8,
                Fault::Marks,
            ),
            (
                b"1 short => begun 1\n2 short => begun 2\n1 commit => committed 1\n2 commit => committed 1\norder 2 1\ndurable 0\n",
                4,
                Fault::Marks,
            ),
            (
                b"1 long W=0 R=2 => begun 1 at 2\n2 long W=1 => begun 2 at 2\nepoch => epoch 2\n1 get 2 z => none\n2 get 0 y => none\n1 put 0 y a => done\n2 put 1 x b => done\n2 commit => committed 2 before 1\n1 commit => committed 2\nepoch => epoch 3\nflush => durable 2\norder 1 2\ndurable 2\n",
                5,
                Fault::Replay,
            ),
            (
                b"1 short => begun 1\n1 put 0 a b => done\n1 put 0 c d => done\n1 scan 0 a % => rows 1 a b\n1 commit => committed 1\norder 1\ndurable 0\n",
                4,
                Fault::Replay,
            ),
            (
                b"1 short => begun 1\n1 put 0 a b => done\n1 commit => committed 1\n1 short => begun 2\n1 get 0 a => none\n1 get 0 c => found d\n1 commit => committed 1\norder 1 2\ndurable 0\n",
                5,
                Fault::Replay,
            ),
            (
                b"1 short => begun 1\n1 get 0 a => found b\n1 commit => committed 1\n1 commit => committed 1\norder 1\ndurable 0\n",
                4,
                Fault::Open,
            ),
        ];
        for (text, line, fault) in others {
            assert_eq!(rt; check(alloc, text)?, Verdict::No { line, fault });
        }
        Ok(())
    }
}
