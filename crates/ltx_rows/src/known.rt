//! Scripts that show one thing each, with their replies.

/// Lines with their replies.
pub type Lines = &'static [(&'static str, &'static str)];

/// The empty script.
pub const NOTHING: Lines = &[];

pub const A_READ_SEES_A_COMMIT: Lines = &[
    ("1 short", "begun 1"),
    ("1 put 0 x a", "done"),
    ("1 commit", "committed 1"),
    ("2 short", "begun 2"),
    ("2 get 0 x", "found a"),
    ("2 commit", "committed 1"),
];

pub const TWO_SHORTS_WRITE_ONE_KEY: Lines = &[
    ("1 short", "begun 1"),
    ("1 put 0 x a", "done"),
    ("1 commit", "committed 1"),
    ("1 short", "begun 2"),
    ("2 short", "begun 3"),
    ("1 get 0 x", "found a"),
    ("2 get 0 x", "found a"),
    ("1 put 0 x b", "done"),
    ("2 put 0 x c", "done"),
    ("1 commit", "committed 1"),
    ("2 commit", "changed 1 0 x 1 2"),
];

pub const A_ROW_APPEARS_IN_A_SCANNED_RANGE: Lines = &[
    ("1 short", "begun 1"),
    ("1 scan 0 a m", "rows 0"),
    ("2 short", "begun 2"),
    ("2 put 0 c v", "done"),
    ("2 commit", "committed 1"),
    ("1 put 0 z w", "done"),
    ("1 commit", "changed 1 0 c none 2"),
];

pub const A_ROW_CAME_AND_WENT: Lines = &[
    ("1 short", "begun 1"),
    ("1 get 0 x", "none"),
    ("2 short", "begun 2"),
    ("2 put 0 x v", "done"),
    ("2 commit", "committed 1"),
    ("3 short", "begun 3"),
    ("3 del 0 x", "done"),
    ("3 commit", "committed 1"),
    ("1 put 0 y w", "done"),
    ("1 commit", "committed 1"),
];

pub const A_TOUCHED_TABLE_IS_HELD_AT_THE_COMMIT: Lines = &[
    ("1 short", "begun 1"),
    ("1 get 0 x", "none"),
    ("2 long W=0", "begun 2 at 2"),
    ("epoch", "epoch 2"),
    ("1 commit", "preserved 0 2"),
    ("1 commit", "notx"),
];

pub const A_BATCH_BEFORE_ITS_EPOCH: Lines = &[
    ("1 long W=0", "begun 1 at 2"),
    ("1 get 0 x", "notyet 2"),
    ("epoch", "epoch 2"),
    ("1 get 0 x", "none"),
    ("1 commit", "committed 2"),
];

pub const A_BATCH_OUTSIDE_WHAT_IT_DECLARED: Lines = &[
    ("1 long W=0 R=1", "begun 1 at 2"),
    ("epoch", "epoch 2"),
    ("1 put 3 x v", "notpreserved 3"),
    ("1 get 3 x", "outside 3"),
    ("1 put 0 x v", "done"),
    ("1 commit", "committed 2"),
];

/// A live batch that is aborted holds nothing, and the next one in its session sees what was committed up to its own slot.
pub const A_BATCH_GIVES_UP: Lines = &[
    ("1 long W=0", "begun 1 at 2"),
    ("2 short", "begun 2"),
    ("epoch", "epoch 2"),
    ("1 put 0 x a", "done"),
    ("2 put 0 x b", "preserved 0 1"),
    ("1 abort", "aborted"),
    ("2 short", "begun 3"),
    ("2 put 0 x b", "done"),
    ("1 long W=1", "begun 4 at 3"),
    ("2 commit", "committed 2"),
    ("epoch", "epoch 3"),
    ("2 short", "begun 5"),
    ("2 put 0 x c", "done"),
    ("2 commit", "committed 3"),
    ("1 scan 0 % %", "rows 1 x b"),
    ("1 commit", "committed 3"),
];

/// The younger batch waits for the elder, whose area holds what it wrote, and is then contradicted by what the elder read.
pub const TWO_BATCHES_READ_WHAT_THE_OTHER_WRITES: Lines = &[
    ("1 long W=0", "begun 1 at 2"),
    ("2 long W=1", "begun 2 at 2"),
    ("epoch", "epoch 2"),
    ("1 get 1 x", "none"),
    ("2 get 0 y", "none"),
    ("1 put 0 y a", "done"),
    ("2 put 1 x b", "done"),
    ("2 commit", "waiting 1"),
    ("1 commit", "committed 2"),
    ("2 commit", "contradicts 1 2 1 x 1"),
];

/// Nobody whom it would contradict looked up what it wrote.
pub const A_BATCH_BEFORE_ITS_ELDER: Lines = &[
    ("1 long W=0 R=2", "begun 1 at 2"),
    ("2 long W=1", "begun 2 at 2"),
    ("epoch", "epoch 2"),
    ("1 get 2 z", "none"),
    ("2 get 0 y", "none"),
    ("1 put 0 y a", "done"),
    ("2 put 1 x b", "done"),
    ("2 commit", "committed 2 before 1"),
    ("1 commit", "committed 2"),
];

/// It saw a row that was written after the place before the elder.
pub const A_BATCH_THAT_SAW_TOO_MUCH: Lines = &[
    ("1 long W=0", "begun 1 at 2"),
    ("epoch", "epoch 2"),
    ("2 short", "begun 2"),
    ("2 put 5 x v", "done"),
    ("2 commit", "committed 2"),
    ("3 long W=1", "begun 3 at 3"),
    ("epoch", "epoch 3"),
    ("3 get 5 x", "found v"),
    ("3 get 0 y", "none"),
    ("3 put 1 z w", "done"),
    ("3 commit", "waiting 1"),
    ("1 put 0 y a", "done"),
    ("1 commit", "committed 3"),
    ("3 commit", "late 1 1 5 x 2"),
];

/// Where the elder is gone, nobody is overtaken.
pub const THE_ELDER_GIVES_UP: Lines = &[
    ("1 long W=0", "begun 1 at 2"),
    ("epoch", "epoch 2"),
    ("2 short", "begun 2"),
    ("2 put 5 x v", "done"),
    ("2 commit", "committed 2"),
    ("3 long W=1", "begun 3 at 3"),
    ("epoch", "epoch 3"),
    ("3 get 5 x", "found v"),
    ("3 get 0 y", "none"),
    ("3 put 1 z w", "done"),
    ("3 commit", "waiting 1"),
    ("1 abort", "aborted"),
    ("3 commit", "committed 3"),
];

/// The row that stands later in the order stays the latest one.
pub const A_FORWARDED_WRITE_UNDER_A_LATER_ONE: Lines = &[
    ("1 long W=0 R=2", "begun 1 at 2"),
    ("epoch", "epoch 2"),
    ("2 short", "begun 2"),
    ("2 put 1 x s", "done"),
    ("2 commit", "committed 2"),
    ("2 long W=1", "begun 3 at 3"),
    ("epoch", "epoch 3"),
    ("2 get 0 y", "none"),
    ("2 put 1 x b", "done"),
    ("2 commit", "committed 3 before 1"),
    ("3 short", "begun 4"),
    ("3 get 1 x", "found s"),
    ("3 commit", "committed 3"),
    ("1 commit", "committed 3"),
];

/// The batch whose place it was put before is refused by what it read.
pub const A_BATCH_BEFORE_ONE_THAT_IS_REFUSED: Lines = &[
    ("1 long W=0 R=9", "begun 1 at 2"),
    ("2 long W=1 R=0", "begun 2 at 2"),
    ("3 long W=2 R=1", "begun 3 at 2"),
    ("epoch", "epoch 2"),
    ("3 get 1 x", "none"),
    ("3 put 2 z c", "done"),
    ("3 commit", "committed 2 before 2"),
    ("2 get 0 y", "none"),
    ("2 put 1 x b", "done"),
    ("2 commit", "waiting 1"),
    ("1 put 0 y a", "done"),
    ("1 commit", "committed 2"),
    ("2 commit", "contradicts 1 2 1 x 3"),
];

pub const ONE_TRANSACTION_A_SESSION: Lines = &[
    ("1 short", "begun 1"),
    ("1 long W=-", "hastx"),
    ("1 abort", "aborted"),
    ("1 abort", "notx"),
    ("1 long W=- R=0", "begun 2 at 2"),
    ("1 commit", "notyet 2"),
    ("1 abort", "aborted"),
];

pub const OWN_WRITES_AND_ESCAPES: Lines = &[
    ("1 short", "begun 1"),
    ("1 put 0 b 2", "done"),
    ("1 put 0 a%20b %", "done"),
    ("1 del 0 b", "done"),
    ("1 get 0 b", "none"),
    ("1 scan 0 % %", "rows 1 a%20b %"),
    ("1 get 0 a%20b", "found %"),
    ("1 commit", "committed 1"),
];

/// Lines that are none, with their causes.
pub const BAD_LINES: Lines = &[
    ("", "bad words"),
    ("1  short", "bad words"),
    ("epoch 2", "bad words"),
    ("0 short", "bad session"),
    ("1025 short", "bad session"),
    ("1", "bad verb"),
    ("1 fly", "bad verb"),
    ("1 get 0", "bad words"),
    ("1 get 64 x", "bad table"),
    ("1 get 0 a%2fb", "bad key"),
    ("1 get 0 %41", "bad key"),
    ("1 long W=1,1", "bad sets"),
    ("1 long W=1 R=*", "bad sets"),
];
