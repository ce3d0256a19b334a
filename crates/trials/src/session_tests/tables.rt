// The tables that the images of the tests hold.

use super::writer::{Link, Pattern, Plan, Run, StoreRow, image_of};
use std::alloc::{AllocError, Global};

/// The pattern that covers each packet.
pub(super) const EVERY: &[Pattern] = &[[0, 0, 0, 0, 0]];

/// A device of 16 blocks with an empty store, as a format leaves it.
pub(super) const PLAN: Plan = Plan {
    blocks: 16,
    generations: [0, 0, 0],
    halves: [true, false],
    time: 0,
    reports: 0,
    forward: &[],
    entries: &[],
};

pub(super) const STORE: StoreRow = StoreRow {
    identifier: 1,
    kind: 0,
    size: 64,
    channel: 1,
    flags: 3,
    number: 0,
    count: 0,
    passed: 0,
    range: [0, 0],
    patterns: EVERY,
    links: &[],
};

/// Two stores in half 1 of the journal. The first one has 300 pages: its block 7 has 15 records of 17
/// pages, of which 6 are dead, and its block 9 has five of one page, whose numbers pass 2^32. The
/// second one is bounded and full, with a range.
pub(super) const FULL_PLAN: Plan = Plan {
    blocks: 16,
    generations: [5, 5, 5],
    halves: [false, true],
    time: 0x1_0000_0000,
    reports: 0x3fff,
    forward: &[[1, 7, 0xff, 0, 0], [3, 0, 102, 5, 2]],
    entries: &[],
};

pub(super) const FULL_ROWS: [StoreRow; 2] = [
    StoreRow {
        identifier: 1,
        kind: 0,
        size: 300,
        channel: 1,
        flags: 3,
        number: 0xffff_fff6,
        count: 14,
        passed: 2,
        range: [0, 0],
        patterns: EVERY,
        links: &[
            Link {
                block: 7,
                number: 0xffff_fff0,
            },
            Link {
                block: 9,
                number: 0xffff_ffff,
            },
        ],
    },
    StoreRow {
        identifier: 0x1234,
        kind: 1,
        size: 18,
        channel: 7,
        flags: 11,
        number: 7,
        count: 2,
        passed: 1,
        range: [0, 2],
        patterns: &[[1, 0, 100, 0, 0], [2, 0, 101, 3, 0], [3, 0, 102, 5, 2]],
        links: &[Link {
            block: 15,
            number: 7,
        }],
    },
];

pub(super) const FULL_RUNS: [Run; 4] = [
    Run {
        block: 7,
        page: 0,
        number: 0xffff_fff0,
        count: 15,
        length: 4096,
        time: 0x100,
    },
    Run {
        block: 9,
        page: 0,
        number: 0xffff_ffff,
        count: 5,
        length: 20,
        time: 0x200,
    },
    Run {
        block: 15,
        page: 0,
        number: 7,
        count: 1,
        length: 4096,
        time: 1,
    },
    Run {
        block: 15,
        page: 17,
        number: 8,
        count: 1,
        length: 240,
        time: 0xffff_ffff,
    },
];

/// The image of the table after a format.
pub(super) fn formatted_image(alloc: Global) -> Result<Vec<u8>, AllocError> {
    image_of(alloc, &PLAN, &[STORE], &[])
}

/// The image of the two stores.
pub(super) fn full_image(alloc: Global) -> Result<Vec<u8>, AllocError> {
    image_of(alloc, &FULL_PLAN, &FULL_ROWS, &FULL_RUNS)
}

/// The table after a format, and entries of each change: the clock, a block and a put; a new store with a
/// pattern; a forward pattern; a store that comes and goes; another last block; a pattern that is replaced.
pub(super) const ENTRIES: &[&[u8]] = &[
    &[
        1, 0, 0, 0, 0, 0, 0x10, 0, 1, //
        6, 0, 1, 0, 1, 0, 7, 0, 0, 0, 0, //
        2, 0, 1, 0, 0, 0, 0, 64, 1, 3, 0, 0, 0, 0, 0, 0, 0, 1, 0, 0, 0, 0, 0, 0, 0, 0, 0, 0, 0, 0,
    ],
    &[
        2, 1, 2, 1, 0, 0, 0, 20, 2, 1, 0, 0, 0, 0, 0, 0, 0, 0, 0, 0, 0, 0, 0, 0, 0, 0, 0, 0, 0, 0, //
        5, 1, 2, 1, 1, 0, 100, 0, 0,
    ],
    &[4, 1, 2, 3, 0xe8, 5, 0],
    &[
        2, 0, 3, 0, 0, 0, 0, 64, 3, 1, 0, 0, 0, 0, 0, 0, 0, 0, 0, 0, 0, 0, 0, 0, 0, 0, 0, 0, 0, 0, //
        3, 0, 3,
    ],
    &[7, 0, 1, 0, 8, 0, 0, 0, 0],
    &[
        5, 1, 2, 0, 1, 0, 100, 0, 0, //
        5, 1, 2, 1, 3, 0, 100, 3, 25,
    ],
];

/// The image of these entries, with a record in the other last block.
pub(super) fn entries_image(alloc: Global) -> Result<Vec<u8>, AllocError> {
    let run = Run {
        block: 8,
        page: 0,
        number: 0,
        count: 1,
        length: 20,
        time: 0x10,
    };
    let plan = Plan {
        entries: ENTRIES,
        ..PLAN
    };
    image_of(alloc, &plan, &[STORE], &[run])
}
