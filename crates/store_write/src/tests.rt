// What no clause says: that a renewal succeeds if no call of the board fails, and what a call that
// fails makes of it.
ghost use Rattle.std.specs.Prelude.{◌≡◌, ◌<◌, ◌≤◌, ◌*◌, [], ◌∷◌, length, IfOk};
ghost use Rattle.board.specs.Memory.{device_of};

use super::*;
use board::{CallKind, MemBoard};
use chain_log::{LoadFault, Place, load_record};
use control_defs::StoreKind;
use record_view::{Link, write_record};
use space_packet::PacketView;
use std::alloc::{AllocError, Global};
use std::test::Fail;
use store_directory::Row;
use time_index::{Entry, Index};

const PACKET: [u8; 8] = [8, 100, 0xc0, 0, 0, 1, 17, 18];

// The store's first record has the number 6: 5 is dead.
const ROW: Row = Row {
    identifier: 1,
    kind: StoreKind::Circular,
    size: 240,
    channel: 1,
    storage: true,
    open_on: true,
    told: false,
    first: 6,
    count: 2,
    behind: 0,
    range: None,
};

// Writes the record of a packet into a page of block 7.
fn put(image: &mut [u8], page: usize, number: u32, stamp: u64)
    requires page { page < 200 }
    requires stamp { stamp < 1000 }
    requires room { 65536 * 8 ≤ length image.old }
    ensures { length image.new ≡ length image.old }
{
    if let Ok(view) = PacketView::read(&PACKET) {
        write_record(number, stamp, view, &mut image[256 * (1792 + page)..]);
    }
}

// A device of 16 blocks whose block 7 has the records 5, 6 and 7, of the stamps 3, 4 and 9.
fn device(alloc: Global) -> Result<MemBoard, Fail>
    ensures { IfOk result (λ board. (device_of board).blocks ≡ 16) }
{
    let mut image = vec![in alloc; 255u8; 65_536 * 16]?;
    let octets: &mut [u8] = &mut image;
    put(octets, 0, 5, 3);
    put(octets, 1, 6, 4);
    put(octets, 2, 7, 9);
    Ok(MemBoard::from_image(alloc, image)?)
}

fn entry(stamp: u64, page: u8) -> Entry
    ensures { result ≡ record { stamp = stamp; block = 7; page = page; length = 8 } }
{
    Entry {
        stamp,
        block: 7,
        page,
        length: 8,
    }
}

// The index of the two records of the store.
fn index(alloc: Global) -> Result<Index, AllocError>
    ensures { IfOk result (λ index. index.entries
        ≡ (record { stamp = 4; block = 7; page = 1; length = 8 })
        ∷ (record { stamp = 9; block = 7; page = 2; length = 8 }) ∷ []) }
{
    let mut index = Index::new(alloc, 240, 6)?;
    index.push(entry(4, 1));
    index.push(entry(9, 2));
    Ok(index)
}

// Renews block 7 by block 8.
fn renewed(board: &mut MemBoard, index: &mut Index, buf: &mut [u8]) -> Result<u32, LoadFault>
    requires blocks { (device_of board.old).blocks ≡ 16 }
    requires room { 8704 ≤ length buf.old }
    requires index { index.old.entries
        ≡ (record { stamp = 4; block = 7; page = 1; length = 8 })
        ∷ (record { stamp = 9; block = 7; page = 2; length = 8 }) ∷ [] }
    ensures { device_of board.new ≡ device_of board.old }
{
    let links = [Link { block: 7, first: 5 }];
    renew_block(board, &ROW, &links, index, 8, buf)
}

// The stamp of the record that lies at a page of block 8 under a number.
fn stamp_at(board: &mut MemBoard, page: u32, number: u32, buf: &mut [u8]) -> Option<u64>
    requires blocks { (device_of board.old).blocks ≡ 16 }
    requires page { page < 200 }
    requires room { 8704 ≤ length buf.old }
    ensures { device_of board.new ≡ device_of board.old }
{
    let place = Place {
        block: 8,
        page,
        length: 8,
    };
    match load_record(board, place, number, buf) {
        Ok(view) => Some(view.stamp),
        Err(_) => None,
    }
}

// How many reads, programs, erases and barriers there were.
fn work(board: &MemBoard) -> [u64; 4] {
    [
        board.count(CallKind::Read),
        board.count(CallKind::Program),
        board.count(CallKind::Erase),
        board.count(CallKind::Barrier),
    ]
}

#[test]
fn live_records_are_copied(rt: HostRuntime) -> Result<(), Fail> {
    let mut board = device(rt.alloc())?;
    let mut index = index(rt.alloc())?;
    let mut buf = [0; 8704];
    let Ok(used) = renewed(&mut board, &mut index, &mut buf) else {
        panic!(rt; "not renewed");
    };
    assert_eq!(rt; used, 2);
    assert_eq!(rt; work(&board), [2, 2, 1, 1]);
    assert_eq!(rt; stamp_at(&mut board, 0, 6, &mut buf), Some(4));
    assert_eq!(rt; stamp_at(&mut board, 1, 7, &mut buf), Some(9));
    assert_eq!(rt; stamp_at(&mut board, 2, 8, &mut buf), None);
    Ok(())
}

#[test]
fn each_call_that_fails_is_told(rt: HostRuntime) -> Result<(), Fail> {
    let kinds = [
        (CallKind::Read, 2u64),
        (CallKind::Program, 2),
        (CallKind::Erase, 1),
        (CallKind::Barrier, 1),
    ];
    let mut buf = [0; 8704];
    for (kind, calls) in kinds {
        for call in 0..calls {
            let mut board = device(rt.alloc())?;
            board.plan(kind, call.saturating_add(1))?;
            let mut index = index(rt.alloc())?;
            let failed = matches!(
                renewed(&mut board, &mut index, &mut buf),
                Err(LoadFault::Flash)
            );
            assert!(rt; failed, "{kind:?} {call}");
        }
    }
    Ok(())
}
