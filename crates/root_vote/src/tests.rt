// What no clause says: that the calls succeed where there is memory, and what the roots choose after
// each stop and each failing call, against a plain table.
ghost use Rattle.std.specs.Prelude.{◌≤◌};

use crate::{Choice, Root, Votes, advance, plant, read_roots, repair};
use board::{Board, CallKind, Failed, MemBoard, Torn};
use std::alloc::Global;
use std::test::Fail;

pub(crate) const TORN: [Torn; 5] = [
    Torn::Done,
    Torn::Undone,
    Torn::Fill(0),
    Torn::Fill(0x5a),
    Torn::Fill(255),
];

// The kinds of call, and how many of each rewrite three pages.
pub(crate) const KINDS: [(CallKind, u64); 3] = [
    (CallKind::Program, 3),
    (CallKind::Erase, 3),
    (CallKind::Barrier, 6),
];

// The root of a device of 16 blocks with this generation.
pub(crate) fn root(generation: u64) -> Root {
    Root {
        generation,
        blocks: 16,
        version: 1,
    }
}

fn choice_of(votes: [Option<Root>; 3]) -> Choice {
    Votes { votes }.choice()
}

// Rewrites the root pages that differ from what they agree on, and answers it.
pub(crate) fn unite<B: Board>(board: &mut B) -> Result<Option<Root>, Failed> {
    let votes = read_roots(board)?;
    match votes.choice() {
        Choice::Agreed(root) => {
            repair(board, &votes, root)?;
            Ok(Some(root))
        }
        Choice::Split { first, .. } => {
            repair(board, &votes, first)?;
            Ok(Some(first))
        }
        Choice::Nobody => Ok(None),
    }
}

// Whether each stop from a moment on leaves one of these choices.
fn stops_leave(
    alloc: Global,
    board: &MemBoard,
    from: u64,
    torn: &[Torn],
    choices: &[Choice],
) -> Result<bool, Fail> {
    for moment in from..=board.moments() {
        for torn in torn {
            let mut left = board.after_stop(alloc, moment, *torn)?;
            if !choices.contains(&read_roots(&mut left)?.choice()) {
                return Ok(false);
            }
        }
    }
    Ok(true)
}

// A device whose three pages are for the root 6.
fn planted(alloc: Global) -> Result<MemBoard, Fail> {
    let mut board = MemBoard::new(alloc, 16)?;
    plant(&mut board, root(6))?;
    Ok(board)
}

#[test]
fn equality_alone_decides(rt: HostRuntime) {
    let (old, new) = (root(6), root(7));
    let greatest = root(u64::MAX);
    let rows = [
        ([Some(old), Some(old), Some(old)], Choice::Agreed(old)),
        ([Some(greatest), Some(old), Some(old)], Choice::Agreed(old)),
        ([Some(old), Some(greatest), Some(old)], Choice::Agreed(old)),
        ([Some(old), Some(old), Some(greatest)], Choice::Agreed(old)),
        ([None, Some(old), Some(old)], Choice::Agreed(old)),
        (
            [Some(new), Some(greatest), Some(old)],
            Choice::Split {
                first: new,
                last: old,
            },
        ),
        (
            [Some(new), None, Some(old)],
            Choice::Split {
                first: new,
                last: old,
            },
        ),
        ([Some(new), Some(old), None], Choice::Nobody),
        ([None, Some(new), Some(old)], Choice::Nobody),
        ([None, None, None], Choice::Nobody),
    ];
    for (votes, choice) in rows {
        assert_eq!(rt; choice_of(votes), choice, "at {votes:?}");
    }
}

// Puts octets into an image.
pub(crate) fn put(image: &mut [u8], at: usize, octets: &[u8]) {
    for (place, octet) in image.iter_mut().skip(at).zip(octets) {
        *place = *octet;
    }
}

// Spells the root 6 in the first pages of blocks 0, 1 and 2, but for an octet behind the numbers of the
// second and one in the text of the third.
fn spell_roots(image: &mut [u8]) {
    for block in 0..3 {
        put(image, 65_536 * block, b"PUSSTORE");
        put(image, 65_536 * block + 8, &[1, 0, 0, 0, 16]);
        put(image, 65_536 * block + 20, &[6]);
    }
    put(image, 65_536 + 255, &[1]);
    put(image, 2 * 65_536, b"p");
}

// The votes of a device of so many blocks with these roots, and how many pages were read for them.
fn votes_of(alloc: Global, blocks: u32) -> Result<(Votes, u64), Fail>
    requires least { 16 ≤ blocks }
    requires most { blocks ≤ 512 }
{
    let mut image = vec![in alloc; 0u8; 65_536 * blocks as usize]?;
    spell_roots(&mut image);
    let mut board = MemBoard::from_image(alloc, image)?;
    let votes = read_roots(&mut board)?;
    Ok((votes, board.count(CallKind::Read)))
}

#[test]
fn a_page_is_a_root_by_its_text_and_its_zeros(rt: HostRuntime) -> Result<(), Fail> {
    let (votes, reads) = votes_of(rt.alloc(), 16)?;
    assert_eq!(rt; votes.votes, [Some(root(6)), None, None]);
    assert_eq!(rt; reads, 3);
    Ok(())
}

#[test]
fn a_stop_leaves_one_of_two_roots_or_their_split(rt: HostRuntime) -> Result<(), Fail> {
    let alloc = rt.alloc();
    let mut board = planted(alloc)?;
    let began = board.moments();
    advance(&mut board, root(7))?;
    let split = Choice::Split {
        first: root(7),
        last: root(6),
    };
    let choices = [Choice::Agreed(root(6)), Choice::Agreed(root(7)), split];
    assert!(rt; stops_leave(alloc, &board, began, &TORN, &choices)?);
    let end = board.moments();
    assert!(rt; stops_leave(alloc, &board, end, &TORN, &choices[1..2])?);
    assert_eq!(rt; board.count(CallKind::Program), 6);
    assert_eq!(rt; board.count(CallKind::Erase), 6);
    assert_eq!(rt; board.count(CallKind::Barrier), 12);
    Ok(())
}

// Lets one call of an advance fail, repairs the roots, and answers whether each stop left what it may.
fn survives(alloc: Global, kind: CallKind, number: u64) -> Result<bool, Fail> {
    let mut board = planted(alloc)?;
    let began = board.moments();
    let before = board.count(kind);
    board.plan(kind, before.saturating_add(number))?;
    if advance(&mut board, root(7)).is_ok() {
        return Ok(false);
    }
    let split = Choice::Split {
        first: root(7),
        last: root(6),
    };
    let choices = [Choice::Agreed(root(6)), Choice::Agreed(root(7)), split];
    if !stops_leave(alloc, &board, began, &TORN[2..4], &choices)? {
        return Ok(false);
    }
    // power is lost behind the failure
    let mut left = board.after_stop(alloc, board.moments(), Torn::Fill(0x5a))?;
    let Some(to) = unite(&mut left)? else {
        return Ok(false);
    };
    let end = left.moments();
    Ok(
        stops_leave(alloc, &left, 0, &TORN[3..4], &choices)?
            && stops_leave(alloc, &left, end, &TORN, &[Choice::Agreed(to)])?,
    )
}

#[test]
fn each_failing_call_leaves_a_choice_that_is_repaired(rt: HostRuntime) -> Result<(), Fail> {
    for (kind, calls) in KINDS {
        for number in 1..=calls {
            assert!(rt;
                survives(rt.alloc(), kind, number)?,
                "call {number} of {kind:?}"
            );
        }
    }
    Ok(())
}
