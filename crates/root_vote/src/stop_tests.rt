// What a stop or a failing call leaves of the roots, against a plain reading of the three pages.
use crate::tests::{KINDS, TORN, put, root, unite};
use crate::{Choice, Root, plant, read_roots};
use board::{Board, CallKind, Failed, MemBoard, Torn};
use std::alloc::Global;
use std::test::Fail;

// Three root pages: each spells the root of a generation, or is torn.
type Pages = [Option<u8>; 3];

const AGREED: [Pages; 4] = [
    [Some(6), Some(6), None],
    [Some(6), None, Some(6)],
    [None, Some(6), Some(6)],
    [Some(7), Some(7), Some(6)],
];

const SPLIT: [Pages; 2] = [[Some(7), None, Some(6)], [Some(7), Some(8), Some(6)]];

const TORN_THROUGHOUT: Pages = [None, None, None];

// The number that octets spell, the highest first.
fn plain_number(octets: &[u8]) -> u64 {
    let mut number = 0u64;
    for octet in octets {
        number = number.wrapping_mul(256).wrapping_add(u64::from(*octet));
    }
    number
}

fn plain_root(board: &mut MemBoard, block: u32) -> Result<Option<Root>, Failed> {
    let mut page = [0; 256];
    if block < board.blocks() {
        board.read_page(block, 0, &mut page)?;
    }
    if !page.starts_with(b"PUSSTORE") || page[21..].iter().any(|octet| *octet != 0) {
        return Ok(None);
    }
    Ok(Some(Root {
        generation: plain_number(&page[13..21]),
        blocks: u32::try_from(plain_number(&page[9..13])).unwrap_or(0),
        version: page[8],
    }))
}

// What the pages choose: a root that two of them spell, else the roots of the first and the last.
fn plain_choice(board: &mut MemBoard) -> Result<Choice, Failed> {
    let first = plain_root(board, 0)?;
    let middle = plain_root(board, 1)?;
    let last = plain_root(board, 2)?;
    for (one, other) in [(first, middle), (first, last), (middle, last)] {
        if let Some(root) = one {
            if other == Some(root) {
                return Ok(Choice::Agreed(root));
            }
        }
    }
    Ok(match (first, last) {
        (Some(first), Some(last)) => Choice::Split { first, last },
        _ => Choice::Nobody,
    })
}

// Spells root pages in the first pages of blocks 0, 1 and 2.
fn spell(image: &mut [u8], pages: Pages) {
    for (page, start) in pages.into_iter().zip([0, 65_536, 131_072]) {
        let mut octets = [0x5a; 256];
        if let Some(generation) = page {
            octets = [0; 256];
            put(&mut octets, 0, b"PUSSTORE");
            put(&mut octets, 8, &[1, 0, 0, 0, 16]);
            put(&mut octets, 20, &[generation]);
        }
        put(image, start, &octets);
    }
}

// A device of 16 blocks with these root pages.
fn device(alloc: Global, pages: Pages) -> Result<MemBoard, Fail> {
    let mut image = vec![in alloc; 255u8; 65_536 * 16]?;
    spell(&mut image, pages);
    Ok(MemBoard::from_image(alloc, image)?)
}

// Whether each stop leaves a choice that is the plain one, and one of these, where there are some.
fn stops_leave(
    alloc: Global,
    board: &MemBoard,
    from: u64,
    torn: &[Torn],
    choices: &[Choice],
) -> Result<bool, Fail> {
    for moment in from..=board.moments() {
        for torn in torn {
            let mut left = board.after_stop(alloc, moment, *torn)?;
            let choice = read_roots(&mut left)?.choice();
            let allowed = choices.is_empty() || choices.contains(&choice);
            if !allowed || plain_choice(&mut left)? != choice {
                return Ok(false);
            }
        }
    }
    Ok(true)
}

// What a stop in a repair of these pages may choose: the root that they are repaired to first.
fn choices_of(alloc: Global, pages: Pages) -> Result<[Choice; 3], Fail> {
    Ok(match plain_choice(&mut device(alloc, pages)?)? {
        Choice::Split { first, last } => [
            Choice::Agreed(first),
            Choice::Agreed(last),
            Choice::Split { first, last },
        ],
        choice => [choice; 3],
    })
}

#[test]
fn a_stop_in_a_plant_leaves_what_its_pages_say(rt: HostRuntime) -> Result<(), Fail> {
    let alloc = rt.alloc();
    for pages in [TORN_THROUGHOUT, AGREED[3], SPLIT[1]] {
        let mut board = device(alloc, pages)?;
        plant(&mut board, root(9))?;
        let end = board.moments();
        assert!(rt; stops_leave(alloc, &board, 0, &TORN, &[])?, "at {pages:?}");
        assert!(rt; stops_leave(alloc, &board, end, &TORN, &[Choice::Agreed(root(9))])?);
        assert_eq!(rt; board.count(CallKind::Barrier), 6);
    }
    Ok(())
}

#[test]
fn a_stop_in_a_repair_leaves_the_root_or_the_split(rt: HostRuntime) -> Result<(), Fail> {
    let alloc = rt.alloc();
    for pages in AGREED.into_iter().chain(SPLIT) {
        let choices = choices_of(alloc, pages)?;
        let mut board = device(alloc, pages)?;
        unite(&mut board)?;
        let end = board.moments();
        assert!(rt;
            stops_leave(alloc, &board, 0, &TORN, &choices)?,
            "at {pages:?}"
        );
        assert!(rt; stops_leave(alloc, &board, end, &TORN, &choices[..1])?);
    }
    Ok(())
}

// Lets one call of a plant fail, and plants again: each stop leaves what its pages say.
fn survives_plant(alloc: Global, kind: CallKind, number: u64) -> Result<bool, Fail> {
    let mut board = device(alloc, TORN_THROUGHOUT)?;
    board.plan(kind, number)?;
    if plant(&mut board, root(9)).is_ok() || !stops_leave(alloc, &board, 0, &TORN[2..4], &[])? {
        return Ok(false);
    }
    plant(&mut board, root(9))?;
    let end = board.moments();
    stops_leave(alloc, &board, end, &TORN, &[Choice::Agreed(root(9))])
}

// Lets one call of a repair of a split fail, and repairs again behind a barrier.
fn survives_repair(alloc: Global, kind: CallKind, number: u64) -> Result<bool, Fail> {
    let choices = choices_of(alloc, SPLIT[1])?;
    let mut board = device(alloc, SPLIT[1])?;
    board.plan(kind, number)?;
    if unite(&mut board).is_ok() || !stops_leave(alloc, &board, 0, &TORN[2..4], &choices)? {
        return Ok(false);
    }
    board.barrier()?;
    let Some(to) = unite(&mut board)? else {
        return Ok(false);
    };
    let end = board.moments();
    stops_leave(alloc, &board, end, &TORN, &[Choice::Agreed(to)])
}

#[test]
fn each_failing_call_of_a_plant_may_be_planted_over(rt: HostRuntime) -> Result<(), Fail> {
    for (kind, calls) in KINDS {
        for number in 1..=calls {
            assert!(rt;
                survives_plant(rt.alloc(), kind, number)?,
                "call {number} of {kind:?}"
            );
        }
    }
    Ok(())
}

#[test]
fn each_failing_call_of_a_repair_may_be_repaired(rt: HostRuntime) -> Result<(), Fail> {
    // the first page of the split is right already
    for (kind, calls) in [
        (CallKind::Program, 2),
        (CallKind::Erase, 2),
        (CallKind::Barrier, 4),
    ] {
        for number in 1..=calls {
            assert!(rt;
                survives_repair(rt.alloc(), kind, number)?,
                "call {number} of {kind:?}"
            );
        }
    }
    Ok(())
}
