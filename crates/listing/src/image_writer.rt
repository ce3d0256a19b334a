// An image for the tests, written octet by octet after the format's tables.
//
// Of 16 blocks, with two stores. The first one has the records 5, 6 and 7 in block 7, of which 5 is
// dead. The second one is bounded and has none.
use board::MemBoard;
use std::alloc::{AllocError, Global};

/// The first octet of the root pages, of half 0, and of block 7.
const ROOTS: [usize; 3] = [0, 65_536, 131_072];

const HALF: usize = 196_608;

const BLOCK: usize = 458_752;

// PUSSTORE, version 1, 16 blocks, generation 0.
const ROOT: [u8; 21] = [
    80, 85, 83, 83, 84, 79, 82, 69, 1, 0, 0, 0, 16, 0, 0, 0, 0, 0, 0, 0, 0,
];

// The checkpoint's length; its time 9, 7 reports, one forward pattern, two stores. The first one:
// row, three patterns, one link. The second one: row, one pattern, no link. The erase counts are
// behind it.
const CHECKPOINT: [u8; 109] = [
    0, 0, 0, 169, 0, 0, 0, 0, 0, 9, 0, 7, 1, 3, 0, 7, 5, 25, 2, //
    0, 1, 0, 0, 0, 0, 64, 1, 13, 0, 0, 0, 6, 0, 0, 0, 2, 0, 0, 0, 1, 0, 0, 0, 0, 0, 0, 0, 2, //
    3, 1, 0, 100, 0, 0, 2, 0, 101, 3, 0, 3, 0, 102, 5, 2, 0, 1, 0, 7, 0, 0, 0, 5, //
    1, 44, 1, 0, 0, 0, 20, 2, 2, 0, 0, 0, 0, 0, 0, 0, 0, 0, 0, 0, 0, 0, 0, 0, 0, 0, 0, 0, 0, //
    1, 0, 0, 0, 0, 0, 0, 0,
];

// The packet of each record: telemetry of APID 100.
const PACKET: [u8; 8] = [8, 100, 0xc0, 0, 0, 1, 17, 18];

// Writes octets from a place on.
fn put(image: &mut [u8], at: usize, octets: &[u8]) {
    for (place, octet) in image.iter_mut().skip(at).zip(octets) {
        *place = *octet;
    }
}

// Writes a record into a page of block 7.
fn put_record(image: &mut [u8], page: u8, number: u8, stamp: u8) {
    let at = BLOCK + 256 * usize::from(page);
    let head = [0, 0, 0, 0, 0, stamp, 0, 0, 0, number, 0, 8, 0, 0, 0, 0];
    put(image, at, &head);
    put(image, at + 16, &PACKET);
}

// Writes the root pages, and the checkpoint into half 0.
fn put_journal(image: &mut [u8]) {
    for at in &ROOTS {
        put(image, *at, &[0; 256]);
        put(image, *at, &ROOT);
    }
    put(image, HALF, &[0; 256]);
    put(image, HALF, &CHECKPOINT);
}

/// A device of this image.
pub(crate) fn device(alloc: Global) -> Result<MemBoard, AllocError> {
    let mut image = vec![in alloc; 255u8; 65_536 * 16]?;
    let octets: &mut [u8] = &mut image;
    put_journal(octets);
    put_record(octets, 0, 5, 3);
    put_record(octets, 1, 6, 4);
    put_record(octets, 2, 7, 9);
    MemBoard::from_image(alloc, image)
}
