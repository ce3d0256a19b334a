// Sessions over images of the tests' own. What is expected of them is worked out here from the
// formats, apart from the program.

mod commands;
mod faults;
mod formats;
mod gates;
mod hostile;
mod listings;
mod many_stores;
mod many_tables;
mod stops;
mod tables;
mod trial;
mod writer;

use board::{MemBoard, MemSource, Torn};
use station::{Ending, station};
use std::alloc::{AllocError, Global};
use std::process::Abort;
use std::test::Fail;

// A device in memory that holds an image of 16 to 512 blocks.
fn board_of(rt: &impl Abort, alloc: Global, image: Vec<u8>) -> Result<MemBoard, Fail> {
    assert!(rt; image.len() % 65_536 == 0, "whole blocks");
    assert!(rt; image.len() >= 1_048_576, "16 blocks or more");
    assert!(rt; image.len() <= 33_554_432, "512 blocks or fewer");
    Ok(MemBoard::from_image(alloc, image)?)
}

// How a session of one word and a text on a device ends.
fn session(
    alloc: Global,
    board: &mut MemBoard,
    word: &str,
    text: &[u8],
) -> Result<Ending, AllocError> {
    let mut words = Vec::new(alloc);
    words.push(String::from_str(alloc, word)?)?;
    let mut source = MemSource::new(text.to_vec(alloc)?);
    Ok(station(alloc, &words, &mut source, board))
}

// The device that a stop of another one at a step leaves.
fn stopped(
    rt: &impl Abort,
    alloc: Global,
    board: &MemBoard,
    moment: u64,
    torn: Torn,
) -> Result<MemBoard, Fail> {
    assert!(rt; moment <= board.moments(), "a step that was made");
    Ok(board.after_stop(alloc, moment, torn)?)
}

// The listing of the table that a device holds, which has to hold one and to have sent nothing.
fn listing_on(rt: &impl Abort, alloc: Global, board: &mut MemBoard) -> Result<Vec<u8>, Fail> {
    let ending = session(alloc, board, "list", b"")?;
    assert_eq!(rt; ending, Ending::Done);
    Ok(board.sent().to_vec(alloc)?)
}

// The listing of the table that an image holds, which has to hold one.
fn listing_of(rt: &impl Abort, alloc: Global, image: Vec<u8>) -> Result<Vec<u8>, Fail> {
    let mut board = board_of(rt, alloc, image)?;
    listing_on(rt, alloc, &mut board)
}

// The digits of the values 0 to 15.
const DIGITS: [u8; 16] = *b"0123456789abcdef";

// Appends the two digits of an octet.
fn push_hex(text: &mut Vec<u8>, octet: u8) -> Result<(), AllocError> {
    text.push(DIGITS[octet as usize / 16])?;
    text.push(DIGITS[octet as usize % 16])?;
    Ok(())
}
