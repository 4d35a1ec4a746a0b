//! Transcripts of the examples: what a run printed, and the false ones.

/// What the run of the forwarded batch prints.
pub const EXPLAINED: &[u8] =
    b"1 short => begun 1\n1 put 1 price:apples 10 => done\n1 put 1 price:pears 12 => done\n1 commit => committed 1\n8 long W=1 R=0,1 => begun 2 at 2\nepoch => epoch 2\n8 get 1 price:apples => found 10\n9 long W=2 R=1 => begun 3 at 3\nepoch => epoch 3\n9 scan 1 price: price; => rows 2 price:apples 10 price:pears 12\n9 put 2 mean:monday 11 => done\n8 put 1 price:apples 14 => done\n9 commit => committed 3 before 2\n2 short => begun 4\n2 get 2 mean:monday => found 11\n2 get 1 price:apples => preserved 1 2\n8 commit => committed 3\n2 short => begun 5\n2 scan 1 price: price; => rows 2 price:apples 14 price:pears 12\n2 get 2 mean:monday => found 11\n2 commit => committed 3\norder 1 3 2 5\ndurable 0\n";

/// A read that the order does not explain.
pub const UNEXPLAINED: &[u8] =
    b"1 short => begun 1\n1 put 1 price:apples 10 => done\n1 commit => committed 1\n2 short => begun 2\n2 get 1 price:apples => found 12\n2 put 1 price:apples 14 => done\n2 commit => committed 1\norder 1 2\ndurable 0\n";

/// An order that forgets a commit.
pub const FORGOTTEN: &[u8] =
    b"1 short => begun 1\n1 put 1 price:apples 10 => done\n1 commit => committed 1\n2 short => begun 2\n2 get 1 price:apples => found 10\n2 put 1 price:pears 12 => done\n2 commit => committed 1\norder 1\ndurable 0\n";

/// A batch that stands against its number, without a target.
pub const UNFORWARDED: &[u8] =
    b"8 long W=1 R=0,1 => begun 1 at 2\n9 long W=2 R=1 => begun 2 at 2\nepoch => epoch 2\n9 get 1 price:apples => none\n9 put 2 mean:monday 11 => done\n8 put 1 price:apples 14 => done\n9 commit => committed 2\n8 commit => committed 2\norder 2 1\ndurable 0\n";
