// What no clause says: the octets that a format writes, that it succeeds on a device that does not
// fail, and that the checkpoint of a half is read.
ghost use Rattle.std.specs.Prelude.{◌≤◌};

use crate::formatting::format;
use crate::reading::checkpoint_of;
use board::{Board, CallKind, Failed, MemBoard, Torn};
use commit_gate::{Area, Next, next_entry};
use root_vote::{Choice, Root, read_roots};
use std::alloc::Global;
use std::test::Fail;

const TORN: [Torn; 4] = [Torn::Done, Torn::Undone, Torn::Fill(0x5a), Torn::Fill(0)];

const HALF: Area = Area { first: 3 };

// PUSSTORE, version 1, 16 blocks. Zeros are behind them.
const ROOT: [u8; 13] = [80, 85, 83, 83, 84, 79, 82, 69, 1, 0, 0, 0, 16];

// The checkpoint of 16 blocks in front of their erase counts: its length, the time, the reports, no
// forward pattern, and one store with its row, one pattern and no link.
const CHECKPOINT: [u8; 51] = [
    0, 0, 0, 111, 0, 0, 0, 0, 0, 0, 0, 0, 0, 1, 0, 1, 0, 0, 0, 0, 64, 1, 3, 0, 0, 0, 0, 0, 0, 0, 0,
    0, 0, 0, 0, 0, 0, 0, 0, 0, 0, 0, 0, 1, 0, 0, 0, 0, 0, 0, 0,
];

// Whether these octets come first, and zeros behind them.
fn begins_with(octets: &[u8], front: &[u8]) -> bool {
    octets.starts_with(front) && octets.iter().skip(front.len()).all(|octet| *octet == 0)
}

// Whether the first page of a block is these octets, and zeros behind them.
fn page_is<B: Board>(board: &mut B, block: u32, front: &[u8]) -> Result<bool, Failed>
    requires { block ≤ 15 }
{
    let mut page = [7; 256];
    board.read_page(block, 0, &mut page)?;
    Ok(begins_with(&page, front))
}

// Whether the roots agree on generation 0, and half 0 has the checkpoint and no entry.
fn is_formatted<B: Board>(board: &mut B) -> Result<bool, Failed> {
    let root = Root {
        generation: 0,
        blocks: 16,
        version: 1,
    };
    if read_roots(board)?.choice() != Choice::Agreed(root) {
        return Ok(false);
    }
    let mut buf = [7; 20_480];
    match checkpoint_of(board, HALF, &mut buf)? {
        Some((text, next)) => {
            if text.len() != 111 || !begins_with(text, &CHECKPOINT[4..]) || next != 1 {
                return Ok(false);
            }
        }
        None => return Ok(false),
    }
    Ok(next_entry(board, HALF, 1, &mut buf)? == Next::End)
}

// How many reads, programs, erases and barriers there were.
fn work(board: &MemBoard) -> [u64; 4] {
    [
        board.count(CallKind::Read),
        board.count(CallKind::Program),
        board.count(CallKind::Erase),
        board.count(CallKind::Barrier),
    ]
}

#[test]
fn a_format_writes_three_roots_and_one_checkpoint(rt: HostRuntime) -> Result<(), Fail> {
    let mut board = MemBoard::new(rt.alloc(), 16)?;
    format(&mut board)?;
    assert_eq!(rt; work(&board), [0, 4, 5, 8]);
    for block in 0..3 {
        assert!(rt; page_is(&mut board, block, &ROOT)?, "block {block}");
    }
    assert!(rt; page_is(&mut board, 3, &CHECKPOINT)?);
    assert!(rt; is_formatted(&mut board)?);
    Ok(())
}

#[test]
fn a_format_asks_for_nothing_of_what_the_device_holds(rt: HostRuntime) -> Result<(), Fail> {
    let image = vec![in rt.alloc(); 0x5a; 1_048_576]?;
    let mut board = MemBoard::from_image(rt.alloc(), image)?;
    format(&mut board)?;
    assert!(rt; is_formatted(&mut board)?);
    Ok(())
}

#[test]
fn a_stop_after_a_format_leaves_it(rt: HostRuntime) -> Result<(), Fail> {
    let alloc = rt.alloc();
    let mut board = MemBoard::new(alloc, 16)?;
    format(&mut board)?;
    for torn in TORN {
        let mut left = board.after_stop(alloc, board.moments(), torn)?;
        assert!(rt; is_formatted(&mut left)?, "{torn:?}");
    }
    Ok(())
}

// Lets one call of a format fail, and answers whether that was told, and a format after it stands.
fn is_told(alloc: Global, kind: CallKind, number: u64) -> Result<bool, Fail> {
    let mut board = MemBoard::new(alloc, 16)?;
    board.plan(kind, number)?;
    if format(&mut board).is_ok() || board.starved() {
        return Ok(false);
    }
    format(&mut board)?;
    Ok(is_formatted(&mut board)?)
}

#[test]
fn each_failing_call_is_told(rt: HostRuntime) -> Result<(), Fail> {
    let calls = [
        (CallKind::Program, 4),
        (CallKind::Erase, 5),
        (CallKind::Barrier, 8),
    ];
    for (kind, most) in calls {
        for number in 1..=most {
            assert!(rt;
                is_told(rt.alloc(), kind, number)?,
                "call {number} of {kind:?}"
            );
        }
    }
    Ok(())
}

#[test]
fn a_length_that_is_not_lawful_is_no_checkpoint(rt: HostRuntime) -> Result<(), Fail> {
    let mut buf = [7; 20_480];
    for octet in [0, 0x5a, 255] {
        let image = vec![in rt.alloc(); octet; 1_048_576]?;
        let mut board = MemBoard::from_image(rt.alloc(), image)?;
        assert!(rt;
            checkpoint_of(&mut board, HALF, &mut buf)?.is_none(),
            "{octet}"
        );
        assert_eq!(rt; work(&board), [1, 0, 0, 0]);
    }
    Ok(())
}
