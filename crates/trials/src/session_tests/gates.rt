// Many sessions one after another, each stopped before its entry is firm.

use super::tables::{PLAN, STORE};
use super::writer::{StoreRow, image_of};
use super::{board_of, listing_of, listing_on, session, stopped};
use board::{MemBoard, Torn};
use station::Ending;
use std::alloc::{AllocError, Global};
use std::process::Abort;
use std::test::Fail;

const ARRIVAL: &[u8] = b"A 000000000010 0864c000000d20031900000000000000000010aa\n";

/// The packet in a listing.
const PACKET: &[u8] = b"packet 000000000010 0864c000000d20031900000000000000000010aa\n";

// Two empty stores, which reserve three and five blocks: all that stores may reserve of 16.
fn reserved_image(alloc: Global) -> Result<Vec<u8>, AllocError> {
    let second = StoreRow {
        identifier: 2,
        size: 480,
        ..STORE
    };
    image_of(alloc, &PLAN, &[STORE, second], &[])
}

// What a stop leaves that comes when the gate of a packet's entry was programmed, and no barrier has
// made it firm: the gate has other octets. Nothing is sent of the packet, so that barrier is the last step.
fn stopped_at_gate(rt: &impl Abort, alloc: Global, board: &mut MemBoard) -> Result<MemBoard, Fail> {
    let ending = session(alloc, board, "run", ARRIVAL)?;
    assert_eq!(rt; ending, Ending::Done);
    let moment = board.moments().saturating_sub(1);
    stopped(rt, alloc, board, moment, Torn::Fill(0))
}

fn is_line_of(listing: &[u8], line: &[u8]) -> bool {
    for start in 0..listing.len() {
        if listing[start..].starts_with(line) {
            return true;
        }
    }
    false
}

#[test]
fn a_thousand_stops_at_a_gate_leave_the_table(rt: HostRuntime) -> Result<(), Fail> {
    let alloc = rt.alloc();
    let before = listing_of(&rt, alloc, reserved_image(alloc)?)?;
    let mut board = board_of(&rt, alloc, reserved_image(alloc)?)?;
    for _ in 0..1000u32 {
        board = stopped_at_gate(&rt, alloc, &mut board)?;
    }
    let mut left = stopped(&rt, alloc, &board, board.moments(), Torn::Undone)?;
    assert!(rt; listing_on(&rt, alloc, &mut left)? == before);
    let ending = session(alloc, &mut board, "run", ARRIVAL)?;
    assert_eq!(rt; ending, Ending::Done);
    let mut left = stopped(&rt, alloc, &board, board.moments(), Torn::Undone)?;
    let after = listing_on(&rt, alloc, &mut left)?;
    assert!(rt; after != before && is_line_of(&after, PACKET));
    Ok(())
}
