// What no clause says: that an entry is read back octet by octet from all that stops leave, that
// the calls succeed where there is memory, and that the rest of a buffer that is lent to an answer
// is left.
ghost use Rattle.std.specs.Prelude.{◌≤◌};

use crate::area::Area;
use crate::gate::append;
use crate::reading::{Next, next_entry};
use board::{Board, CallKind, Failed, MemBoard, Torn};
use byteorder::{BigEndian, ByteOrder};
use std::alloc::{AllocError, Global};
use std::test::Fail;

const AREA: Area = Area { first: 3 };

const TORN: [Torn; 4] = [Torn::Done, Torn::Undone, Torn::Fill(0x5a), Torn::Fill(0)];

// Whether these entries stand from the page `start` on, and no other.
fn reads_as<B: Board>(board: &mut B, start: u32, entries: &[&[u8]]) -> Result<bool, Failed> {
    let mut buf = [0; 5120];
    let mut at = start;
    for entry in entries {
        if at > 512 {
            return Ok(false);
        }
        match next_entry(board, AREA, at, &mut buf)? {
            Next::Entry { text, next } => {
                if text != *entry {
                    return Ok(false);
                }
                at = next;
            }
            Next::End => return Ok(false),
            Next::Damaged { .. } => return Ok(false),
        }
    }
    if at > 512 {
        return Ok(false);
    }
    match next_entry(board, AREA, at, &mut buf)? {
        Next::End => Ok(true),
        Next::Entry { .. } => Ok(false),
        Next::Damaged { .. } => Ok(false),
    }
}

// Whether each stop from the moment `from` on leaves the old entries or all of them, the first stop
// the old ones and the last one all.
fn stops_leave(
    alloc: Global,
    board: &MemBoard,
    from: u64,
    start: u32,
    old: &[&[u8]],
    all: &[&[u8]],
) -> Result<bool, Fail> {
    let end = board.moments();
    for moment in from..=end {
        for torn in TORN {
            let mut left = board.after_stop(alloc, moment, torn)?;
            let before = reads_as(&mut left, start, old)?;
            let after = reads_as(&mut left, start, all)?;
            if before == after || (moment == from && after) || (moment == end && before) {
                return Ok(false);
            }
        }
    }
    Ok(true)
}

// A board of 0x5a throughout, so that each gate is open, but for a length in the page behind `at`.
fn open_board(alloc: Global, at: u32, length: u32) -> Result<MemBoard, AllocError>
    requires { at ≤ 510 }
{
    let mut image = vec![in alloc; 0x5a; 1_048_576]?;
    let place = 256 * (256 * AREA.first + at + 1) as usize;
    BigEndian::write_u32(&mut image[place..], length);
    MemBoard::from_image(alloc, image)
}

#[test]
fn a_stop_leaves_an_entry_whole_or_not_at_all(rt: HostRuntime) -> Result<(), Fail> {
    let alloc = rt.alloc();
    let one = [1; 1];
    let two = [2; 252];
    let three = [3; 253];
    let four = [4; 5116];
    let all: [&[u8]; 4] = [&one, &two, &three, &four];
    let mut board = MemBoard::new(alloc, 16)?;

    let began = board.moments();
    let at = append(&mut board, AREA, 1, &one)?;
    assert_eq!(rt; at, 3);
    assert!(rt; stops_leave(alloc, &board, began, 1, &all[..0], &all[..1])?);

    let began = board.moments();
    let at = append(&mut board, AREA, at, &two)?;
    assert_eq!(rt; at, 5);
    assert!(rt; stops_leave(alloc, &board, began, 1, &all[..1], &all[..2])?);

    let began = board.moments();
    let at = append(&mut board, AREA, at, &three)?;
    assert_eq!(rt; at, 8);
    assert!(rt; stops_leave(alloc, &board, began, 1, &all[..2], &all[..3])?);

    let began = board.moments();
    let at = append(&mut board, AREA, at, &four)?;
    assert_eq!(rt; at, 29);
    assert!(rt; stops_leave(alloc, &board, began, 1, &all[..3], &all)?);
    Ok(())
}

#[test]
fn an_area_is_filled_to_its_last_page(rt: HostRuntime) -> Result<(), Fail> {
    let alloc = rt.alloc();
    let entry = [7; 1532];
    let all: [&[u8]; 1] = [&entry];
    let mut board = MemBoard::new(alloc, 16)?;
    let began = board.moments();
    assert_eq!(rt; append(&mut board, AREA, 505, &entry)?, 512);
    assert!(rt; stops_leave(alloc, &board, began, 505, &all[..0], &all)?);
    let mut buf = [0; 5120];
    assert_eq!(rt; next_entry(&mut board, AREA, 512, &mut buf)?, Next::End);
    Ok(())
}

#[test]
fn a_call_that_fails_leaves_the_entry_whole_or_not_at_all(rt: HostRuntime) -> Result<(), Fail> {
    let alloc = rt.alloc();
    let entry = [9; 300];
    let all: [&[u8]; 1] = [&entry];
    let plans = [
        (CallKind::Program, 1, false),
        (CallKind::Program, 2, false),
        (CallKind::Barrier, 1, false),
        (CallKind::Program, 3, false),
        (CallKind::Barrier, 2, true),
    ];
    for (kind, number, written) in plans {
        let mut board = MemBoard::new(alloc, 16)?;
        board.plan(kind, number)?;
        assert_eq!(rt; append(&mut board, AREA, 1, &entry), Err(Failed));
        for torn in TORN {
            let mut left = board.after_stop(alloc, board.moments(), torn)?;
            let before = reads_as(&mut left, 1, &all[..0])?;
            let after = reads_as(&mut left, 1, &all)?;
            assert!(rt; before != after);
            assert!(rt; before || torn != Torn::Done || written);
        }
    }
    Ok(())
}

// Whether an open gate in the page `at` with this length behind it is damage.
fn is_damage(alloc: Global, at: u32, length: u32) -> Result<bool, Fail>
    requires { at ≤ 510 }
{
    let mut board = open_board(alloc, at, length)?;
    let mut buf = [0; 5120];
    match next_entry(&mut board, AREA, at, &mut buf)? {
        Next::Damaged { length: found } => Ok(found == length),
        Next::Entry { .. } => Ok(false),
        Next::End => Ok(false),
    }
}

#[test]
fn an_open_gate_with_no_lawful_length_is_damage(rt: HostRuntime) -> Result<(), Fail> {
    let alloc = rt.alloc();
    for length in [0, 5117, 0x5a5a_5a5a] {
        assert!(rt; is_damage(alloc, 1, length)?, "length {length}");
    }
    for length in [1, 252, 5116] {
        assert!(rt; !is_damage(alloc, 1, length)?, "length {length}");
    }
    assert!(rt; is_damage(alloc, 510, 253)?);
    assert!(rt; !is_damage(alloc, 510, 252)?);
    assert!(rt; is_damage(alloc, 492, 5116)?);
    assert!(rt; !is_damage(alloc, 491, 5116)?);
    Ok(())
}

#[test]
fn the_text_and_the_page_behind_it_are_answered(rt: HostRuntime) -> Result<(), Fail> {
    let mut board = open_board(rt.alloc(), 510, 252)?;
    let mut buf = [0; 5120];
    let text = [0x5a; 252];
    let next = next_entry(&mut board, AREA, 510, &mut buf)?;
    assert_eq!(rt;
        next,
        Next::Entry {
            text: &text,
            next: 512
        }
    );
    Ok(())
}

#[test]
fn an_open_gate_in_the_last_page_ends_the_area(rt: HostRuntime) -> Result<(), Fail> {
    let mut board = open_board(rt.alloc(), 1, 1)?;
    let mut buf = [0; 5120];
    assert_eq!(rt; next_entry(&mut board, AREA, 511, &mut buf)?, Next::End);
    assert_eq!(rt; next_entry(&mut board, AREA, 512, &mut buf)?, Next::End);
    Ok(())
}

// How many reads, programs and barriers there were.
fn work(board: &MemBoard) -> (u64, u64, u64) {
    (
        board.count(CallKind::Read),
        board.count(CallKind::Program),
        board.count(CallKind::Barrier),
    )
}

#[test]
fn an_entry_takes_two_barriers_and_a_program_a_page(rt: HostRuntime) -> Result<(), Fail> {
    let entry = [4; 5116];
    let mut board = MemBoard::new(rt.alloc(), 16)?;
    let at = append(&mut board, AREA, 1, &entry[..252])?;
    assert_eq!(rt; work(&board), (0, 2, 2));
    let at = append(&mut board, AREA, at, &entry[..253])?;
    assert_eq!(rt; work(&board), (0, 5, 4));
    append(&mut board, AREA, at, &entry)?;
    assert_eq!(rt; work(&board), (0, 26, 6));
    Ok(())
}

#[test]
fn no_page_is_read_for_nothing(rt: HostRuntime) -> Result<(), Fail> {
    let entry = [6; 253];
    let mut buf = [7; 5376];
    let mut board = MemBoard::new(rt.alloc(), 16)?;
    append(&mut board, AREA, 1, &entry)?;
    assert!(rt; next_entry(&mut board, AREA, 512, &mut buf)? == Next::End);
    assert_eq!(rt; work(&board).0, 0);
    assert!(rt; next_entry(&mut board, AREA, 4, &mut buf)? == Next::End);
    assert_eq!(rt; work(&board).0, 1);
    assert!(rt; next_entry(&mut board, AREA, 1, &mut buf)? != Next::End);
    assert_eq!(rt; work(&board).0, 4);
    assert!(rt; buf[512..] == [7; 4864]);
    let mut board = open_board(rt.alloc(), 1, 0)?;
    assert!(rt; next_entry(&mut board, AREA, 1, &mut buf)? == Next::Damaged { length: 0 });
    assert_eq!(rt; work(&board).0, 2);
    assert!(rt; buf[512..] == [7; 4864]);
    Ok(())
}
