// Images for the tests, written octet by octet after the format's tables.
//
// Of 16 blocks, with two stores. The first one has the records 5, 6 and 7 in block 7, of which 5 is
// dead. The second one is bounded and has none.
ghost use Rattle.std.specs.Prelude.{◌≡◌, IfOk, length};
ghost use Rattle.board.specs.Memory.{flash_of};
ghost use Rattle.meta_journal.specs.Standing.{AllFirm};

use board::MemBoard;
use std::alloc::{AllocError, Global};

/// The first octet of the root pages, of the halves, and of block 7.
const ROOTS: [usize; 3] = [0, 65_536, 131_072];

pub(crate) const HALVES: [usize; 2] = [196_608, 327_680];

pub(crate) const BLOCK: usize = 458_752;

/// An octet of an image, and what stands there.
pub(crate) type Patch = (usize, u8);

// PUSSTORE, version 1, 16 blocks, and all but the last octet of the generation.
const ROOT: [u8; 20] = [
    80, 85, 83, 83, 84, 79, 82, 69, 1, 0, 0, 0, 16, 0, 0, 0, 0, 0, 0, 0,
];

// The checkpoint's length; its time 9, 7 reports, no forward pattern, two stores. The first one: row,
// one pattern, one link. The second one: row, no pattern, no link. The erase counts are behind it.
const CHECKPOINT: [u8; 89] = [
    0, 0, 0, 149, 0, 0, 0, 0, 0, 9, 0, 7, 0, 2, //
    0, 1, 0, 0, 0, 0, 64, 1, 3, 0, 0, 0, 6, 0, 0, 0, 2, 0, 0, 0, 1, 0, 0, 0, 0, 0, 0, 0, 0, //
    1, 0, 0, 0, 0, 0, 0, 1, 0, 7, 0, 0, 0, 5, //
    0, 2, 1, 0, 0, 0, 20, 2, 1, 0, 0, 0, 0, 0, 0, 0, 0, 0, 0, 0, 0, 0, 0, 0, 0, 0, 0, 0, 0, //
    0, 0, 0,
];

/// The packet of each record: telemetry of APID 100.
pub(crate) const PACKET: [u8; 8] = [8, 100, 0xc0, 0, 0, 1, 17, 18];

// Writes octets from a place on.
fn put(image: &mut [u8], at: usize, octets: &[u8]) {
    for (place, octet) in image.iter_mut().skip(at).zip(octets) {
        *place = *octet;
    }
}

// Writes a root page, of a generation below 256.
fn put_root(image: &mut [u8], at: usize, generation: u8) {
    put(image, at, &[0; 256]);
    put(image, at, &ROOT);
    put(image, at.saturating_add(20), &[generation]);
}

// Writes a record into a page of a block, by the block's first octet.
fn put_record(image: &mut [u8], block: usize, page: u8, number: u8, stamp: u8) {
    let at = block.saturating_add(256 * usize::from(page));
    let head = [0, 0, 0, 0, 0, stamp, 0, 0, 0, number, 0, 8, 0, 0, 0, 0];
    put(image, at, &head);
    put(image, at.saturating_add(16), &PACKET);
}

// Writes an entry of a text of less than 252 octets behind the checkpoint of half 0.
fn put_entry(image: &mut [u8], text: &[u8]) {
    put(image, HALVES[0] + 256, &[0x5a; 256]);
    put(image, HALVES[0] + 512, &[0, 0, 0, (text.len() % 256) as u8]);
    put(image, HALVES[0] + 516, text);
}

// Writes the roots, and the checkpoint into half 0 or 1 or each of them.
fn put_journal(image: &mut [u8], generations: [u8; 3], halves: [bool; 2]) {
    for (at, generation) in ROOTS.iter().zip(generations.iter()) {
        put_root(image, *at, *generation);
    }
    for (at, is_written) in HALVES.iter().zip(halves.iter()) {
        if *is_written {
            put(image, *at, &[0; 256]);
            put(image, *at, &CHECKPOINT);
        }
    }
}

// Writes the records 5, 6 and 7, of the times 3, 4 and 9, and changes octets.
fn put_records(image: &mut [u8], patches: &[Patch]) {
    put_record(image, BLOCK, 0, 5, 3);
    put_record(image, BLOCK, 1, 6, 4);
    put_record(image, BLOCK, 2, 7, 9);
    for (at, octet) in patches {
        put(image, *at, &[*octet]);
    }
}

// A device of 16 blocks with this image.
fn board_of(alloc: Global, image: Vec<u8>) -> Result<MemBoard, AllocError>
    requires { length image.items ≡ 1048576 }
    ensures { IfOk result (λ board. AllFirm (flash_of board)) }
{
    MemBoard::from_image(alloc, image)
}

/// A device of this image: its roots have these generations, its half 0 or 1 or each of them has
/// the checkpoint, and some octets are changed.
pub(crate) fn device(
    alloc: Global,
    generations: [u8; 3],
    halves: [bool; 2],
    patches: &[Patch],
) -> Result<MemBoard, AllocError>
    ensures { IfOk result (λ board. AllFirm (flash_of board)) }
{
    let mut image = vec![in alloc; 255u8; 65_536 * 16]?;
    let octets: &mut [u8] = &mut image;
    put_journal(octets, generations, halves);
    put_records(octets, patches);
    board_of(alloc, image)
}

/// A device with an entry behind the checkpoint of half 0.
pub(crate) fn device_with(alloc: Global, text: &[u8]) -> Result<MemBoard, AllocError> {
    let mut image = vec![in alloc; 255u8; 65_536 * 16]?;
    let octets: &mut [u8] = &mut image;
    put_journal(octets, [0; 3], [true, false]);
    put_records(octets, &[]);
    put_entry(octets, text);
    MemBoard::from_image(alloc, image)
}
