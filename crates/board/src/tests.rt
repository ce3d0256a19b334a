// What no clause says: that the calls succeed where there is memory, and what comes in their place
// where a failure was planned.
ghost use Rattle.std.specs.Prelude.{◌≤◌};

use crate::board::{Board, Failed};
use crate::calls::CallKind;
use crate::memory::MemBoard;
use crate::memory_source::MemSource;
use crate::script::{Act, clear, perform};
use crate::source::Source;
use crate::stop::Torn;
use std::alloc::Global;
use std::test::Fail;

// A call of each kind, three times.
const KINDS: [CallKind; 5] = [
    CallKind::Read,
    CallKind::Program,
    CallKind::Erase,
    CallKind::Barrier,
    CallKind::Send,
];

const ACTS: [Act; 15] = [
    Act::Read,
    Act::Program(1),
    Act::Erase(1),
    Act::Barrier,
    Act::Send,
    Act::Read,
    Act::Program(2),
    Act::Erase(2),
    Act::Barrier,
    Act::Send,
    Act::Read,
    Act::Program(3),
    Act::Erase(3),
    Act::Barrier,
    Act::Send,
];

// Which calls succeed, where that call of that kind is planned to fail, and how many there were of
// each kind.
fn run_acts(alloc: Global, kind: CallKind, number: u64) -> Result<(Vec<bool>, Vec<u64>), Fail> {
    let mut board = MemBoard::new(alloc, 16)?;
    board.plan(kind, number)?;
    let mut done = Vec::new(alloc);
    for call in 0..15 {
        done.push(perform(&mut board, call, ACTS[call as usize]))?;
    }
    let mut counts = Vec::new(alloc);
    for kind in KINDS {
        counts.push(board.count(kind))?;
    }
    Ok((done, counts))
}

fn send_two<B: Board>(board: &mut B) -> Result<(), Failed> {
    board.send(b"one, ")?;
    board.send(b"two")
}

// Takes three octets at a time, to the end of the text.
fn take_all<S: Source>(alloc: Global, source: &mut S) -> Result<(Vec<usize>, Vec<u8>), Fail> {
    let mut counts = Vec::new(alloc);
    let mut octets = Vec::new(alloc);
    for _ in 0..10 {
        let mut buffer = [0; 3];
        let count = source.take(&mut buffer)?;
        counts.push(count)?;
        octets.extend_from_slice(&buffer[..count])?;
        if count == 0 {
            break;
        }
    }
    Ok((counts, octets))
}

#[test]
fn a_new_board_is_blank_and_no_call_was_made(rt: HostRuntime) -> Result<(), Fail> {
    let mut board = MemBoard::new(rt.alloc(), 16)?;
    assert_eq!(rt; board.count(CallKind::Program), 0);
    assert_eq!(rt; board.count(CallKind::Erase), 0);
    assert_eq!(rt; board.moments(), 0);
    let mut octets = [0; 256];
    assert_eq!(rt; board.read_page(15, 255, &mut octets), Ok(()));
    assert_eq!(rt; octets.as_slice(), [255; 256].as_slice());
    assert_eq!(rt; board.page(0, 0), [255; 256].as_slice());
    assert_eq!(rt; board.count(CallKind::Read), 1);
    Ok(())
}

#[test]
fn each_call_fails_where_it_is_planned_to(rt: HostRuntime) -> Result<(), Fail> {
    for (place, kind) in KINDS.into_iter().enumerate() {
        for round in 0..3 {
            let (done, counts) = run_acts(rt.alloc(), kind, round + 1)?;
            assert_eq!(rt; counts.as_slice(), [3; 5].as_slice());
            for (call, done) in done.iter().enumerate() {
                let planned = call % 5 == place && (call / 5) as u64 == round;
                assert_eq!(rt; *done, !planned, "call {call}, kind {place}, round {round}");
            }
        }
    }
    Ok(())
}

#[test]
fn a_board_keeps_all_that_was_sent(rt: HostRuntime) -> Result<(), Fail> {
    let mut board = MemBoard::new(rt.alloc(), 16)?;
    assert_eq!(rt; board.blocks(), 16);
    assert_eq!(rt; board.sent().len(), 0);
    send_two(&mut board)?;
    assert_eq!(rt; board.sent(), b"one, two".as_slice());
    assert!(rt; !board.starved());
    Ok(())
}

#[test]
fn a_send_that_was_planned_to_fail_sends_nothing(rt: HostRuntime) -> Result<(), Fail> {
    let mut board = MemBoard::new(rt.alloc(), 512)?;
    board.plan(CallKind::Send, 2)?;
    assert_eq!(rt; send_two(&mut board), Err(Failed));
    assert_eq!(rt; board.sent(), b"one, ".as_slice());
    board.send(b"three")?;
    assert_eq!(rt; board.sent(), b"one, three".as_slice());
    assert!(rt; !board.starved());
    Ok(())
}

#[test]
fn a_source_gives_its_text_in_order(rt: HostRuntime) -> Result<(), Fail> {
    let mut source = MemSource::new(b"0123456789".to_vec(rt.alloc())?);
    let (counts, octets) = take_all(rt.alloc(), &mut source)?;
    assert_eq!(rt; counts.as_slice(), [3, 3, 3, 1, 0].as_slice());
    assert_eq!(rt; octets.as_slice(), b"0123456789".as_slice());
    Ok(())
}

#[test]
fn a_take_that_was_planned_to_fail_takes_nothing(rt: HostRuntime) -> Result<(), Fail> {
    let mut source = MemSource::new(b"0123".to_vec(rt.alloc())?);
    source.plan(2);
    let mut buffer = [0; 3];
    assert_eq!(rt; source.take(&mut buffer), Ok(3));
    assert_eq!(rt; source.take(&mut buffer), Err(Failed));
    assert_eq!(rt; source.take(&mut buffer), Ok(1));
    assert_eq!(rt; buffer[0], b'3');
    Ok(())
}

// A device of so many blocks, made twice, the second time of an image of sevens, and once more by a stop.
fn last_page_of(alloc: Global, blocks: u32) -> Result<[u8; 256], Fail>
    requires least { 16 ≤ blocks }
    requires most { blocks ≤ 512 }
{
    let blank = MemBoard::new(alloc, blocks)?;
    let image = vec![in alloc; 7u8; 65_536 * blocks as usize]?;
    let full = MemBoard::from_image(alloc, image)?;
    let stopped = full.after_stop(alloc, blank.moments(), Torn::Undone)?;
    let mut octets = [0; 256];
    octets.copy_from_slice(stopped.page(blocks - 1, 255));
    Ok(octets)
}

// Erases a block and makes that firm, so many times, and answers whether each call succeeded.
fn erase_often(board: &mut MemBoard, times: u32) -> bool {
    for _ in 0..times {
        if board.erase(3).is_err() || board.barrier().is_err() {
            return false;
        }
    }
    true
}

// Programs a page with what it holds when it is erased.
fn program_blank(board: &mut MemBoard) -> bool {
    clear(board) && board.program(0, 0, &[255; 256]).is_ok()
}

#[test]
fn there_is_memory_for_each_size_of_device(rt: HostRuntime) -> Result<(), Fail> {
    assert_eq!(rt;
        last_page_of(rt.alloc(), 17)?.as_slice(),
        [7; 256].as_slice()
    );
    assert_eq!(rt;
        last_page_of(rt.alloc(), 512)?.as_slice(),
        [7; 256].as_slice()
    );
    Ok(())
}

#[test]
fn there_is_memory_for_each_call(rt: HostRuntime) -> Result<(), Fail> {
    let mut board = MemBoard::new(rt.alloc(), 16)?;
    board.plan(CallKind::Send, u64::MAX)?;
    assert!(rt; erase_often(&mut board, 1000));
    assert!(rt; program_blank(&mut board));
    let line = vec![in rt.alloc(); b'0'; 8195]?;
    assert_eq!(rt; board.send(&line), Ok(()));
    assert_eq!(rt; board.moments(), 2004);
    assert!(rt; !board.starved());
    Ok(())
}

#[test]
fn a_call_behind_a_starved_one_succeeds(rt: HostRuntime) -> Result<(), Fail> {
    let mut board = MemBoard::new(rt.alloc(), 16)?;
    board.starved = true;
    assert!(rt; program_blank(&mut board));
    assert_eq!(rt; board.send(b"x"), Ok(()));
    assert!(rt; board.starved());
    Ok(())
}
