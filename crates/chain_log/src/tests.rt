// What no clause says: that the calls succeed if no call of the board fails, and what they answer
// octet by octet.
ghost use Rattle.std.specs.Prelude.{◌≡◌, ◌<◌, ◌≤◌, length, IfOk, IfSome};
ghost use Rattle.board.specs.Memory.{device_of, flash_of};
ghost use Rattle.chain_log.specs.Pages.{IsCleanFrom, IsDataBlock};

use super::*;
use board::{CallKind, MemBoard};
use record_view::{Link, write_record};
use space_packet::{PacketView, charge};
use std::alloc::{AllocError, Global};
use std::test::Fail;

const STAMP: u64 = 0x0102_0304_0506;

// A telemetry packet of this many octets, 7 to 4,096.
fn packet(alloc: Global, count: u32) -> Result<Vec<u8>, AllocError>
    requires { count ≤ 4096 }
    ensures { IfOk result (λ octets. length octets.items ≤ 4096) }
{
    let [high, low] = (count as u16).wrapping_sub(7).to_be_bytes();
    let head = [8, 100, 0xc0, 0, high, low];
    let mut octets = Vec::new(alloc);
    octets.extend_from_slice(&head)?;
    octets.resize(count as usize, 0xbb)?;
    Ok(octets)
}

// Appends records of packets of these lengths, with numbers from this one on. False: one of them
// does not fit, is no packet, or a program failed.
pub(crate) fn put_all(
    alloc: Global,
    board: &mut MemBoard,
    tail: &mut Tail,
    first: u32,
    lengths: &[u32],
) -> Result<bool, Fail>
    requires block { IsDataBlock (device_of board.old).blocks tail.old.block }
    requires clean { IsCleanFrom (flash_of board.old) tail.old.block tail.old.used }
    ensures device { device_of board.new ≡ device_of board.old }
    ensures tail { tail.new.block ≡ tail.old.block }
    ensures clean { IsCleanFrom (flash_of board.new) tail.new.block tail.new.used }
{
    let mut buf = [0; 4352];
    let mut number = first;
    for count in lengths {
        let octets = packet(alloc, (*count).min(4096))?;
        let Ok(view) = PacketView::read(&octets) else {
            return Ok(false);
        };
        if !tail.fits(view.bytes().len() as u32)
            || tail.append(board, number, STAMP, view, &mut buf).is_err()
        {
            return Ok(false);
        }
        number = number.wrapping_add(1);
    }
    Ok(true)
}

// Whether records of packets of these lengths are loaded from a block, one behind the other, each
// from its place.
pub(crate) fn are_loaded(board: &mut MemBoard, block: u32, first: u32, lengths: &[u32]) -> bool
    requires block { block ≤ 15 }
    requires blocks { (device_of board.old).blocks ≡ 16 }
    ensures { device_of board.new ≡ device_of board.old }
{
    let mut buf = [0; 4352];
    let mut number = first;
    let mut page = 0;
    for count in lengths {
        let length = (*count).clamp(7, 4096);
        if page + charge(length) > 256 {
            return false;
        }
        let place = Place {
            block,
            page,
            length,
        };
        match load_record(board, place, number, &mut buf) {
            Ok(view) => {
                let octets = view.packet.bytes();
                if view.stamp != STAMP || octets[octets.len() - 1] != 0xbb {
                    return false;
                }
            }
            Err(_) => return false,
        }
        page += charge(length);
        number = number.wrapping_add(1);
    }
    true
}

// Of `count` records from this number on, how many a block does not spell, and the page behind the
// last one that it does. None: a read failed.
pub(crate) fn count_in_block(
    alloc: Global,
    board: &mut MemBoard,
    link: Link,
    count: u32,
) -> Result<Option<(u32, u32)>, AllocError>
    requires { link.block < (device_of board.old).blocks }
    ensures { device_of board.new ≡ device_of board.old }
{
    let mut buf = vec![in alloc; 0; 65_536]?;
    let Ok(mut records) = load_block(board, link, count, &mut buf) else {
        return Ok(None);
    };
    for _ in 0..count {
        if records.next_record().is_none() {
            break;
        }
    }
    Ok(Some((records.left(), records.page())))
}

#[test]
fn records_of_each_cost_are_loaded(rt: HostRuntime) -> Result<(), Fail> {
    let lengths = [
        7, 496, 752, 1008, 1264, 1520, 1776, 2032, 2288, 2544, 2800, 3056, 3312, 3568, 3824, 4080,
        4096,
    ];
    let mut board = MemBoard::new(rt.alloc(), 16)?;
    let mut tail = Tail::ready(15);
    assert!(rt; put_all(rt.alloc(), &mut board, &mut tail, u32::MAX, &lengths)?);
    assert_eq!(rt; tail.used(), 153);
    assert_eq!(rt; board.count(CallKind::Program), 153);
    assert!(rt; are_loaded(&mut board, 15, u32::MAX, &lengths));
    assert_eq!(rt; board.count(CallKind::Read), 153);
    let link = Link {
        block: 15,
        first: u32::MAX,
    };
    assert_eq!(rt;
        count_in_block(rt.alloc(), &mut board, link, 20)?,
        Some((3, 153))
    );
    assert_eq!(rt; board.count(CallKind::Read), 409);
    assert_eq!(rt; board.count(CallKind::Barrier), 0);
    Ok(())
}

#[test]
fn a_block_is_filled_to_its_last_page(rt: HostRuntime) -> Result<(), Fail> {
    let mut lengths = [4096; 16];
    lengths[15] = 240;
    let mut board = MemBoard::new(rt.alloc(), 16)?;
    let mut tail = Tail::ready(7);
    assert!(rt; put_all(rt.alloc(), &mut board, &mut tail, 0, &lengths)?);
    assert_eq!(rt; tail.used(), 256);
    assert!(rt; !tail.fits(7));
    assert!(rt; are_loaded(&mut board, 7, 0, &lengths));
    let link = Link { block: 7, first: 0 };
    assert_eq!(rt;
        count_in_block(rt.alloc(), &mut board, link, 16)?,
        Some((0, 256))
    );
    Ok(())
}

// A device with the record of the number 9 and a packet of 300 octets in front of block 7, of which
// one octet is changed.
pub(crate) fn with_change(
    alloc: Global,
    at: usize,
    octet: u8,
) -> Result<Option<MemBoard>, AllocError>
    requires { at < 316 }
    ensures { IfOk result (λ board. IfSome board (λ board. (device_of board).blocks ≡ 16)) }
{
    let mut image = vec![in alloc; 0xaa_u8; 1_048_576]?;
    let octets = packet(alloc, 300)?;
    let Ok(view) = PacketView::read(&octets) else {
        return Ok(None);
    };
    let block = &mut image[7 * 65_536..];
    write_record(9, STAMP, view, block);
    block[at] = octet;
    Ok(Some(MemBoard::from_image(alloc, image)?))
}

#[test]
fn the_first_pair_that_differs_is_told(rt: HostRuntime) -> Result<(), Fail> {
    let cases = [
        (9, 8, 9, 8),
        (6, 1, 9, 0x0100_0009),
        (11, 45, 300, 301),
        (16, 0x28, 0, 1),
        (16, 0xe8, 0, 7),
        (21, 38, 300, 301),
        (20, 2, 300, 556),
    ];
    let place = Place {
        block: 7,
        page: 0,
        length: 300,
    };
    let mut buf = [0; 4352];
    for (at, octet, kept, found) in cases {
        let Some(mut board) = with_change(rt.alloc(), at, octet)? else {
            panic!(rt; "no packet");
        };
        match load_record(&mut board, place, 9, &mut buf) {
            Ok(_) => panic!(rt; "octet {at}"),
            Err(LoadFault::Flash) => panic!(rt; "octet {at}"),
            Err(
                LoadFault::Mismatch {
                    kept: has,
                    found: is,
                    ..
                },
            ) => assert_eq!(rt; (has, is), (kept, found)),
        }
    }
    for (at, octet) in [(12, 1), (15, 0xff), (0, 7), (315, 1)] {
        let Some(mut board) = with_change(rt.alloc(), at, octet)? else {
            panic!(rt; "no packet");
        };
        assert!(rt;
            load_record(&mut board, place, 9, &mut buf).is_ok(),
            "octet {at}"
        );
    }
    Ok(())
}
