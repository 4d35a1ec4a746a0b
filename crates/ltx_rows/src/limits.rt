//! Scripts at the limits, by parts: lines that are given for each number of a range.

/// Lines that are given for each number of a range, with their replies. In both `#` stands for the number, `^` for 3 more, `&` for
/// it with three digits, `$` with five, and `@` for 7,919 times the number, modulo 10,000, with five digits.
pub type Part = (u32, u32, &'static [(&'static str, &'static str)]);

/// A script at a limit, and how many transactions its order has, in order of their numbers.
pub type Limit = (&'static [Part], u32);

/// What one session meets.
pub const IN_ONE_SESSION: &[Limit] = &[
    // A session has one open transaction.
    (
        &[(
            0,
            1,
            &[
                ("1 short", "begun 1"),
                ("1 short", "hastx"),
                ("1 abort", "aborted"),
            ],
        )],
        0,
    ),
    // A row that was read is gone at the commit.
    (
        &[(
            0,
            1,
            &[
                ("1 short", "begun 1"),
                ("1 put 0 x v", "done"),
                ("1 commit", "committed 1"),
                ("2 short", "begun 2"),
                ("2 del 0 x", "done"),
                ("3 short", "begun 3"),
                ("3 get 0 x", "found v"),
                ("2 commit", "committed 1"),
                ("3 put 0 y w", "done"),
                ("3 commit", "changed 1 0 x 1 none"),
            ],
        )],
        2,
    ),
];

/// As many operations as a transaction may have, and one more.
pub const OPERATIONS: &[Limit] = &[
    // The transaction goes on without it.
    (
        &[
            (0, 1, &[("1 short", "begun 1")]),
            (0, 65_536, &[("1 put 0 x v#", "done")]),
            (
                0,
                1,
                &[("1 get 0 x", "limit ops"), ("1 commit", "committed 1")],
            ),
        ],
        1,
    ),
    // So may a batch; what it did not declare is told before the limit.
    (
        &[
            (
                0,
                1,
                &[("1 long W=0", "begun 1 at 2"), ("epoch", "epoch 2")],
            ),
            (0, 65_536, &[("1 put 0 x v#", "done")]),
            (
                0,
                1,
                &[
                    ("1 put 5 x v", "notpreserved 5"),
                    ("1 get 0 x", "limit ops"),
                    ("1 commit", "committed 2"),
                    ("1 short", "begun 2"),
                    ("1 get 0 x", "found v65535"),
                    ("1 commit", "committed 2"),
                ],
            ),
        ],
        2,
    ),
];

/// All sessions at once.
pub const SESSIONS: &[Limit] = &[
    // Shorts.
    (
        &[
            (1, 1_025, &[("# short", "begun #")]),
            (1, 1_025, &[("# get 0 k", "none"), ("# put 1 k$ v", "done")]),
            (1, 1_025, &[("# commit", "committed 1")]),
        ],
        1_024,
    ),
    // Batches: all become live at once, and hold the table until the last one is gone.
    (
        &[
            (1, 1_025, &[("# long W=0", "begun # at 2")]),
            (0, 1, &[("epoch", "epoch 2")]),
            (1, 1_025, &[("# get 1 k", "none"), ("# put 0 k$ v", "done")]),
            (1, 2, &[("1 commit", "committed 2")]),
            (
                0,
                1,
                &[("1 short", "begun 1025"), ("1 get 0 x", "preserved 0 2")],
            ),
            (2, 1_025, &[("# abort", "aborted")]),
            (
                0,
                1,
                &[("1 short", "begun 1026"), ("1 get 0 k00001", "found v")],
            ),
        ],
        1,
    ),
];

/// Many writes.
pub const WRITES: &[Limit] = &[
    // A commit of 20,000 writes.
    (
        &[
            (0, 1, &[("1 short", "begun 1")]),
            (0, 20_000, &[("1 put 0 k$ v$", "done")]),
            (0, 1, &[("1 commit", "committed 1"), ("2 short", "begun 2")]),
            (0, 20_000, &[("2 get 0 k$", "found v$")]),
        ],
        1,
    ),
    // 300 commits of one key, then a read of it in each of ten sessions.
    (
        &[
            (
                1,
                301,
                &[
                    ("1 short", "begun #"),
                    ("1 put 0 x v#", "done"),
                    ("1 commit", "committed 1"),
                ],
            ),
            (
                301,
                311,
                &[
                    ("# short", "begun #"),
                    ("# get 0 x", "found v300"),
                    ("# put 1 x w", "done"),
                    ("# commit", "committed 1"),
                ],
            ),
        ],
        310,
    ),
];

/// Commits of 10,000 rows in random order.
pub const SHUFFLED: &[Part] = &[
    (
        1,
        10_001,
        &[
            ("1 short", "begun #"),
            ("1 put 0 @ v", "done"),
            ("1 commit", "committed 1"),
        ],
    ),
    (10_001, 10_002, &[("1 short", "begun #")]),
];

/// A thousand accounts, and a batch that will add them up.
pub const ACCOUNTS: &[Part] = &[
    (0, 1, &[("1 short", "begun 1")]),
    (0, 1_000, &[("1 put 1 a& 100", "done")]),
    (
        0,
        1,
        &[
            ("1 commit", "committed 1"),
            ("2 long W=2 R=1", "begun 2 at 2"),
            ("epoch", "epoch 2"),
        ],
    ),
];

/// Money is moved while the batch adds up, and who asks for the sum before it is there is refused.
pub const TRANSFERS: &[Part] = &[
    (
        0,
        10,
        &[
            ("3 short", "begun ^"),
            ("3 get 1 a00#", "found 100"),
            ("3 put 1 a00# 90", "done"),
            ("3 get 1 a01#", "found 100"),
            ("3 put 1 a01# 110", "done"),
            ("3 commit", "committed 2"),
        ],
    ),
    (
        0,
        1,
        &[
            ("4 short", "begun 13"),
            ("4 get 2 sum", "preserved 2 2"),
            ("2 put 2 sum 100000", "done"),
            ("2 commit", "committed 2"),
            ("4 short", "begun 14"),
            ("4 get 2 sum", "found 100000"),
            ("4 commit", "committed 2"),
            ("epoch", "epoch 3"),
        ],
    ),
];

/// The front of a line and what fills it up to 4,096 bytes, how often, and its cause.
pub const FULL_LINES: &[(&str, &str, u32, &str)] = &[
    ("", " ", 4_096, "bad words"),
    ("", "9", 4_096, "bad session"),
    ("epoch ", "a", 4_090, "bad words"),
    ("1 ", "a", 4_094, "bad verb"),
    ("1 get ", "0", 4_090, "bad words"),
    ("1 scan 0 % ", "a", 4_085, "bad key"),
    ("1 del 0 ", "a", 4_088, "bad key"),
    ("1 put 0 k ", "%00", 1_362, "bad value"),
    ("1 long W=", "1", 4_087, "bad sets"),
    ("1 long W=- R=", "1", 4_083, "bad sets"),
];
