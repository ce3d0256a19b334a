// Stores that are loaded, and those that are not.
ghost use Rattle.std.specs.Prelude.{◌≡◌, ◌<◌, ◌≤◌, ◌*◌, ◌+◌, length, IfOk};
ghost use Rattle.board.specs.Memory.{device_of};

use super::*;
use crate::tests::ROW;
use board::{CallKind, MemBoard};
use record_view::{Link, write_record};
use space_packet::PacketView;
use std::alloc::{AllocError, Global};
use std::test::Fail;
use store_directory::Row;

const PACKET: [u8; 8] = [8, 100, 0xc0, 0, 0, 1, 17, 18];

const RULE: Rule = Rule {
    least: 240,
    largest: 4096,
};

// Writes the record of a packet into a page of block 7.
fn put(image: &mut [u8], page: usize, number: u32, stamp: u64)
    requires page { page < 200 }
    requires stamp { stamp < 1000 }
    requires room { 65536 * 8 ≤ length image.old }
    ensures { length image.new ≡ length image.old }
{
    if let Ok(view) = PacketView::read(&PACKET) {
        write_record(number, stamp, view, &mut image[256 * (1792 + page)..]);
    }
}

// Writes the records 5, 6 and 7 into block 7, of the stamps 4, 4 and 5.
fn spell(image: &mut [u8])
    requires room { 65536 * 8 ≤ length image.old }
    ensures { length image.new ≡ length image.old }
{
    put(image, 0, 5, 4);
    put(image, 1, 6, 4);
    put(image, 2, 7, 5);
}

// A device of 16 blocks whose block 7 has these records.
fn device(alloc: Global) -> Result<MemBoard, Fail>
    ensures { IfOk result (λ board. (device_of board).blocks ≡ 16) }
{
    let mut image = vec![in alloc; 255u8; 65_536 * 16]?;
    spell(&mut image);
    Ok(MemBoard::from_image(alloc, image)?)
}

// Turns a bit of an octet of the third record.
fn spoil(image: &mut [u8], at: usize)
    requires at { at < 256 }
    requires room { 65536 * 8 ≤ length image.old }
    ensures { length image.new ≡ length image.old }
{
    image[256 * 1794 + at] ^= 1;
}

// The same device, but for a bit of an octet of the third record.
fn spoiled(alloc: Global, at: usize) -> Result<MemBoard, Fail>
    requires at { at < 256 }
    ensures { IfOk result (λ board. (device_of board).blocks ≡ 16) }
{
    let mut image = vec![in alloc; 255u8; 65_536 * 16]?;
    spell(&mut image);
    spoil(&mut image, at);
    Ok(MemBoard::from_image(alloc, image)?)
}

// Writes so many records of one page into block 7, from the number 0 on, of the stamp 4.
fn fill(image: &mut [u8], many: u32)
    requires many { many ≤ 256 }
    requires room { 65536 * 9 ≤ length image.old }
    ensures { length image.new ≡ length image.old }
{
    for number in 0..many {
        if let Ok(view) = PacketView::read(&PACKET) {
            let at = 256 * (1792 + number as usize);
            write_record(number, 4, view, &mut image[at..]);
        }
    }
}

// A device of 16 blocks whose block 7 has so many records.
fn filled(alloc: Global, many: u32) -> Result<MemBoard, Fail>
    requires many { many ≤ 256 }
    ensures { IfOk result (λ board. (device_of board).blocks ≡ 16) }
{
    let mut image = vec![in alloc; 255u8; 65_536 * 16]?;
    fill(&mut image, many);
    Ok(MemBoard::from_image(alloc, image)?)
}

// What becomes of a store with block 7, whose first record there has the number `begin`: how many
// packets it has, and how many pages they use there.
fn loaded(
    alloc: Global,
    board: &mut MemBoard,
    row: &Row,
    begin: u32,
    now: u64,
) -> Result<Result<(u32, u32), LoadStop>, AllocError>
    requires blocks { (device_of board.old).blocks ≡ 16 }
    ensures { device_of board.new ≡ device_of board.old }
{
    let links = [Link {
        block: 7,
        first: begin,
    }];
    let mut buf = vec![in alloc; 0; 65_536]?;
    if !row.is_lawful() {
        return Ok(Err(LoadStop::NoMemory));
    }
    Ok(
        match load_store(alloc, board, row, &links, now, RULE, &mut buf) {
            Ok(store) => Ok((store.index.len(), store.used)),
            Err(stop) => Err(stop),
        },
    )
}

#[test]
fn a_store_is_loaded_if_its_records_are_there(rt: HostRuntime) -> Result<(), Fail> {
    // the row's first number and count, the link's first number, the time, and the store's packets
    let cases = [
        (6, 2, 5, 5, Some(2)),
        (5, 3, 5, 5, Some(3)),
        (5, 2, 5, 4, Some(2)),
        // a stamp past the time
        (6, 2, 5, 4, None),
        // a record fewer than the row counts
        (6, 3, 5, 5, None),
        // another number in the first page
        (6, 2, 6, 5, None),
        // the block begins behind the first record
        (4, 2, 5, 5, None),
        // a block, and no record
        (6, 0, 5, 5, None),
    ];
    for (first, count, begin, now, packets) in cases {
        let mut board = device(rt.alloc())?;
        let row = Row {
            first,
            count,
            ..ROW
        };
        match loaded(rt.alloc(), &mut board, &row, begin, now)? {
            Ok((many, _)) => assert_eq!(rt; Some(many), packets, "at {first} {count}"),
            Err(stop) => {
                assert!(rt; matches!(stop, LoadStop::Unlawful));
                assert!(rt; packets.is_none(), "at {first} {count}");
            }
        }
    }
    Ok(())
}

#[test]
fn a_failed_read_is_no_lack_of_records(rt: HostRuntime) -> Result<(), Fail> {
    for number in [1, 3, 256] {
        let mut board = device(rt.alloc())?;
        board.plan(CallKind::Read, number)?;
        let row = Row {
            first: 5,
            count: 3,
            ..ROW
        };
        let stopped = loaded(rt.alloc(), &mut board, &row, 5, 5)?;
        assert!(rt; matches!(stopped, Err(LoadStop::Flash)));
        let again = loaded(rt.alloc(), &mut board, &row, 5, 5)?;
        assert!(rt; matches!(again, Ok((3, 3))));
    }
    Ok(())
}

#[test]
fn each_octet_of_a_head_counts(rt: HostRuntime) -> Result<(), Fail> {
    let row = Row {
        first: 5,
        count: 3,
        ..ROW
    };
    for at in 0..16 {
        let mut board = spoiled(rt.alloc(), at)?;
        let stopped = loaded(rt.alloc(), &mut board, &row, 5, 5)?;
        // octet 5 makes the stamp 5 a 4, which is lawful too
        if at == 5 {
            assert!(rt; matches!(stopped, Ok((3, 3))));
        } else {
            assert!(rt; matches!(stopped, Err(LoadStop::Unlawful)), "octet {at}");
        }
    }
    Ok(())
}

#[test]
fn a_block_is_loaded_to_its_last_page(rt: HostRuntime) -> Result<(), Fail> {
    // how many records the block has and the row counts, and whether the store is loaded
    let cases = [(255, 255, true), (256, 256, true), (255, 256, false)];
    for (many, count, good) in cases {
        let mut board = filled(rt.alloc(), many)?;
        let row = Row {
            size: 300,
            first: 0,
            count,
            ..ROW
        };
        match loaded(rt.alloc(), &mut board, &row, 0, 4)? {
            Ok(pages) => assert_eq!(rt; Some(pages), good.then_some((count, count))),
            Err(stop) => assert!(rt; !good && matches!(stop, LoadStop::Unlawful)),
        }
    }
    Ok(())
}
