// Tables of five and of 32 stores.

use super::tables::{PLAN, STORE};
use super::writer::{Link, Plan, Run, StoreRow, image_of};
use std::alloc::{AllocError, Global};

/// Five stores on 24 blocks, whose roots are split.
const FIVE_PLAN: Plan = Plan {
    blocks: 24,
    generations: [8, 20, 9],
    halves: [true, true],
    time: 0x50,
    reports: 16_383,
    forward: &[],
    entries: &[],
};

const FIVE_ROWS: [StoreRow; 5] = [
    STORE,
    // bounded, and full by one packet of 17 pages
    StoreRow {
        identifier: 2,
        kind: 1,
        size: 17,
        channel: 2,
        number: 0xffff_ffff,
        count: 1,
        links: &[Link {
            block: 23,
            number: 0xffff_ffff,
        }],
        ..STORE
    },
    // storage off; its second record has the number 0
    StoreRow {
        identifier: 3,
        size: 239,
        channel: 3,
        flags: 2,
        number: 0xffff_ffff,
        count: 2,
        passed: 1,
        links: &[Link {
            block: 10,
            number: 0xffff_ffff,
        }],
        ..STORE
    },
    // open retrieval off
    StoreRow {
        identifier: 4,
        size: 300,
        channel: 4,
        flags: 1,
        number: 100,
        count: 1,
        links: &[Link {
            block: 8,
            number: 100,
        }],
        ..STORE
    },
    // bounded, with a range; open retrieval has passed its record
    StoreRow {
        identifier: 0xffff,
        kind: 1,
        size: 34,
        channel: 7,
        flags: 11,
        number: 200,
        count: 1,
        passed: 1,
        range: [0, 1],
        patterns: &[[2, 0, 100, 3, 0]],
        links: &[Link {
            block: 12,
            number: 200,
        }],
    },
];

// So many records at the front of a block, the first of which has this number.
const fn run_of(block: u16, number: u32, count: u32, length: u16) -> Run {
    Run {
        block,
        page: 0,
        number,
        count,
        length,
        time: 0x40,
    }
}

/// The image of the five stores.
pub(super) fn five_image(alloc: Global) -> Result<Vec<u8>, AllocError> {
    let runs = [
        run_of(23, 0xffff_ffff, 1, 4096),
        run_of(10, 0xffff_ffff, 2, 20),
        run_of(8, 100, 1, 20),
        run_of(12, 200, 1, 20),
    ];
    image_of(alloc, &FIVE_PLAN, &FIVE_ROWS, &runs)
}

/// The image of 32 empty stores of 17 pages on 104 blocks: the stores 1, 3, 5 and so on are circular, the
/// others are bounded. Their channels are 1 to 7 again and again.
pub(super) fn many_image(alloc: Global) -> Result<Vec<u8>, AllocError> {
    let plan = Plan {
        blocks: 104,
        ..PLAN
    };
    let mut rows = Vec::new(alloc);
    for place in 0..32u8 {
        rows.push(StoreRow {
            identifier: u16::from(place) + 1,
            kind: place % 2,
            size: 17,
            channel: place % 7 + 1,
            number: 0xffff_ffff,
            ..STORE
        })?;
    }
    image_of(alloc, &plan, &rows, &[])
}
